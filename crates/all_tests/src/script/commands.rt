//! Rows of scripts: drops, work, slices, and the commands that end what was asked.

pub const ROWS: &str = "
=== commands: script_replaced
%script_replaced%+++ serve
---
ok
version base.cat 1
version sc.cat 1
version SB 1
job 1
piece 1 job 1 slice 0 from 0 to 16
version base.cat 2
refused 79 Replaced cat base.cat 2
refused 78 NoClaim 1
refused 79 Replaced cat base.cat 2
job 2
worked 1 0 0
verdict SB 1 sc.cat 1 base.cat 2
%SB never%test SB 1
cat base.cat 2
cat sc.cat 1
job 1 SB sc.cat 0 1
job 2 SB sc.cat 1 1
end
finish ok 15
=== commands: script_release
0 test
%SB%.
0 ask SB rc11.cat
1 claim
0 release 1
2 claim
1 return 1
1 return 2
2 return 2
2 return 2
0 claim
0 poll 1
0 forget 1
0 poll 1
0 close
0 list
+++ serve
---
ok
version SB 1
job 1
piece 1 job 1 slice 0 from 0 to 16
freed 1
piece 2 job 1 slice 0 from 0 to 16
refused 78 NoClaim 1
refused 78 NoClaim 2
taken 1 1
refused 78 NoClaim 2
nothing
verdict SB 1 rc11.cat 0
%SB summary%done
refused 77 NoJob 1
done
refused 71 Closed
finish ok 15
=== commands: iriw
0 test
%IRIW%.
0 ask IRIW rc11.cat
%17 times 1 claim
%1 return 16
1 return 15
1 return 14
1 return 13
1 return 12
1 return 11
1 return 10
1 return 9
1 return 8
1 return 7
1 return 6
1 return 5
1 return 4
1 return 3
1 return 2
0 poll 1
1 return 1
0 poll 1
+++ serve
---
ok
version IRIW 1
job 1
piece 1 job 1 slice 0 from 0 to 256
piece 2 job 1 slice 1 from 256 to 512
piece 3 job 1 slice 2 from 512 to 768
piece 4 job 1 slice 3 from 768 to 1024
piece 5 job 1 slice 4 from 1024 to 1280
piece 6 job 1 slice 5 from 1280 to 1536
piece 7 job 1 slice 6 from 1536 to 1792
piece 8 job 1 slice 7 from 1792 to 2048
piece 9 job 1 slice 8 from 2048 to 2304
piece 10 job 1 slice 9 from 2304 to 2560
piece 11 job 1 slice 10 from 2560 to 2816
piece 12 job 1 slice 11 from 2816 to 3072
piece 13 job 1 slice 12 from 3072 to 3328
piece 14 job 1 slice 13 from 3328 to 3584
piece 15 job 1 slice 14 from 3584 to 3840
piece 16 job 1 slice 15 from 3840 to 4096
nothing
taken 1 16
taken 2 16
taken 3 16
taken 4 16
taken 5 16
taken 6 16
taken 7 16
taken 8 16
taken 9 16
taken 10 16
taken 11 16
taken 12 16
taken 13 16
taken 14 16
taken 15 16
pending 15 16
taken 16 16
verdict IRIW 1 rc11.cat 0
%IRIW summary%finish ok 37
=== commands: work takes what sessions left
0 test
%IRIW%.
0 ask IRIW rc11.cat
1 claim
work
work
0 poll 1
1 return 1
0 poll 1
+++ serve
---
ok
version IRIW 1
job 1
piece 1 job 1 slice 0 from 0 to 256
worked 15 0 0
worked 0 0 0
pending 15 16
taken 16 16
verdict IRIW 1 rc11.cat 0
%IRIW summary%finish ok 38
=== commands: work over an empty book
%2 times work
%+++ serve
---
ok
worked 0 0 0
worked 0 0 0
finish ok 2
=== commands: work over a closed book
0 close
work
+++ serve
---
ok
done
worked 0 0 0
finish ok 2
=== commands: drops
0 droptest SB
0 dropcat rc11.cat
0 test
%SB%.
0 cat a.cat
.
0 ask SB a.cat
0 dropcat a.cat
0 poll 1
0 list
0 ask SB a.cat
0 cat a.cat
.
0 droptest SB
0 list
+++ serve
---
ok
refused 73 NoTest SB
refused 74 Model 61 NoCat rc11.cat
version SB 1
version a.cat 1
job 1
version a.cat 2
refused 79 Replaced cat a.cat 2
test SB 1
job 1 SB a.cat 0 1
end
refused 74 Model 61 NoCat a.cat
version a.cat 3
version SB 2
cat a.cat 3
job 1 SB a.cat 0 1
end
finish ok 12
=== commands: Lost-workers-row-1
0 test
%SB%.
0 ask SB rc11.cat
1 claim
0 test
%SB%.
0 claim
0 release 1
1 return 1
0 poll 1
0 ask SB rc11.cat
1 claim
1 back 2
1 back 2
2 claim
0 forget 2
2 return 3
0 close
work
+++ serve
---
ok
version SB 1
job 1
piece 1 job 1 slice 0 from 0 to 16
version SB 2
nothing
freed 1
refused 78 NoClaim 1
refused 79 Replaced test SB 2
job 2
piece 2 job 2 slice 0 from 0 to 16
done
refused 78 NoClaim 2
piece 3 job 2 slice 0 from 0 to 16
done
refused 78 NoClaim 3
done
worked 0 0 0
finish ok 17
=== commands: journal_full
%4 times 0 list
%+++ serve journal 3
---
ok
end
end
end
not taken JournalFull
finish ok 3
=== commands: Lost-workers-row-2: a journal of 3
0 test
%SB%.
0 ask SB rc11.cat
work
+++ serve journal 3
---
ok
version SB 1
job 1
worked 1 0 2
finish ok 3
=== commands: spent
0 cat a.cat
.
0 dropcat a.cat
0 cat a.cat
.
0 test
%SB%.
0 ask SB rc11.cat
0 claim
0 back 1
0 claim
+++ serve journal 20 versions 2 claims 1
---
ok
version a.cat 1
version a.cat 2
refused 81 VersionsSpent a.cat
version SB 1
job 1
piece 1 job 1 slice 0 from 0 to 16
done
refused 82 ClaimsSpent
finish ok 8
=== commands: work where the journal is full
0 test
%SB%.
0 ask SB rc11.cat
0 list
work
work
+++ serve journal 4
---
ok
version SB 1
job 1
test SB 1
job 1 SB rc11.cat 0 1
end
worked 1 0 2
worked 0 0 1
finish ok 4
=== commands: Lost-workers-row-2: a journal of 4
0 test
%SB%.
0 ask SB rc11.cat
work
+++ serve journal 4
---
ok
version SB 1
job 1
worked 1 0 1
finish ok 4
=== commands: Lost-workers-row-2: a journal of 2
0 test
%SB%.
0 ask SB rc11.cat
work
+++ serve journal 2
---
ok
version SB 1
job 1
worked 0 0 1
finish ok 2
=== commands: Lost-workers-row-2: a journal of 5
0 test
%SB%.
0 ask SB rc11.cat
work
+++ serve journal 5
---
ok
version SB 1
job 1
worked 1 0 0
finish ok 5
=== sizes_of_jobs: sizes: twelve stores
0 cat none.cat
.
0 test
C S
{}
P0 (atomic_int* x) {
%12 times   atomic_store_explicit(x, 1, memory_order_relaxed);
%}
exists ([x]=1)
.
0 ask S none.cat
0 list
+++ serve
---
ok
version none.cat 1
version S 1
job 1
test S 1
cat none.cat 1
job 1 S none.cat 0 256
end
finish ok 4
=== sizes_of_jobs: sizes: thirteen stores
0 cat none.cat
.
0 test
C S
{}
P0 (atomic_int* x) {
%13 times   atomic_store_explicit(x, 1, memory_order_relaxed);
%}
exists ([x]=1)
.
0 ask S none.cat
+++ serve
---
ok
version none.cat 1
version S 1
refused 75 Space 41 TooManyCandidates
finish ok 3
=== sizes_of_jobs: sizes: thirteen loads
0 cat none.cat
.
0 test
C L
{}
P0 (atomic_int* x) {
  int r0;
%13 times   r0 = atomic_load_explicit(x, memory_order_relaxed);
%}
exists (0:r0=0)
.
0 ask L none.cat
+++ serve
---
ok
version none.cat 1
version L 1
refused 75 Space 31 TooManyRuns 0
finish ok 3
=== sizes_of_jobs: sizes: the 257th job
0 test
%SB%.
%257 times 0 ask SB stdlib.cat
%0 forget 1
0 ask SB stdlib.cat
+++ serve journal 300 versions 10 claims 10
---
ok
version SB 1
%256 jobs%refused 76 JobsFull
done
job 257
finish ok 260
";
