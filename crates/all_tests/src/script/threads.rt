//! Rows of scripts with workers on threads of their own. What they print is the same whatever the schedule.

/// With two workers each ends on one claim that gives nothing. One worker is no other thread's.
pub const ROWS: &str = "
=== two_workers: Workers-row
%script_replaced%+++ serve workers 2
---
ok
version base.cat 1
version sc.cat 1
version SB 1
job 1
piece 1 job 1 slice 0 from 0 to 16
version base.cat 2
refused 79 Replaced cat base.cat 2
refused 78 NoClaim 1
refused 79 Replaced cat base.cat 2
job 2
worked 1 0 0
verdict SB 1 sc.cat 1 base.cat 2
%SB never%test SB 1
cat base.cat 2
cat sc.cat 1
job 1 SB sc.cat 0 1
job 2 SB sc.cat 1 1
end
finish ok 16
=== two_workers: two workers take what sessions left
0 test
%IRIW%.
0 ask IRIW rc11.cat
1 claim
work
work
0 poll 1
1 return 1
0 poll 1
+++ serve workers 2
---
ok
version IRIW 1
job 1
piece 1 job 1 slice 0 from 0 to 256
worked 15 0 0
worked 0 0 0
pending 15 16
taken 16 16
verdict IRIW 1 rc11.cat 0
%IRIW summary%finish ok 40
=== eight_workers: eight workers do a job
0 test
%IRIW%.
0 ask IRIW rc11.cat
work
0 poll 1
+++ serve workers 8
---
ok
version IRIW 1
job 1
worked 16 0 0
verdict IRIW 1 rc11.cat 0
%IRIW summary%finish ok 43
=== two_workers: two workers, and executions that are allowed whatever the places of some writes
0 test
%four pairs%.
0 ask PAIRS rc11.cat
work
0 poll 1
+++ serve workers 2
---
ok
version PAIRS 1
job 1
worked 3 0 0
verdict PAIRS 1 rc11.cat 0
%four pairs summary%finish ok 11
=== eight_workers: eight workers over a closed book
0 close
work
+++ serve workers 8
---
ok
done
worked 0 0 0
finish ok 9
=== eight_workers: eight workers where the journal is full
0 list
work
0 list
+++ serve journal 1 workers 8
---
ok
end
worked 0 0 8
not taken JournalFull
finish ok 1
=== one_worker: one worker and its receipts
0 test
%SB%.
0 ask SB rc11.cat
work
7 poll 1
+++ serve workers 1
---
ok
version SB 1
job 1
worked 1 0 0
verdict SB 1 rc11.cat 0
%SB summary%finish ok 6
=== one_worker: a return where the journal is full
0 test
%SB%.
0 ask SB rc11.cat
1 claim
2 return 1
2 return 2
+++ serve journal 3 workers 1
---
98 BadLine 17
version SB 1
job 1
piece 1 job 1 slice 0 from 0 to 16
not taken JournalFull
bad line 17
";
