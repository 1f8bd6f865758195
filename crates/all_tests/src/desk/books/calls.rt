//! Calls that no script can make: a result of another book, small limits, and a command that comes back. Scripts are
//! tested where they are read.

use crate::script::calls::all_hold;

/// A result of another book is returned, and then its own (`stranger`). A file is put three times (`spent_versions`), and a dropped file's
/// version goes on (`spent`). A slice is released and claimed again, and the late result comes back (`script_release`). Names are listed where
/// they are loaded. The job of twelve stores to one location, which have 479,001,600 candidates, has 256 slices, of which the first runs to
/// 479,001,600 / 256, rounded down; thirteen have 6,227,020,800, and 13 loads 8,192 runs (`sizes`). Sixteen slices are returned from the last
/// to the first (`iriw`). Two claims are made where two pieces are free (`spent_claims`). A job under a model that includes another file is
/// done, and polled; the included file is put again, with equal text, before the return; and a built-in file is asked under before a file of
/// its name is put.
const ROWS: &str = "
=== stranger
> 0 test
%SB%> 0 ask SB stdlib.cat
> 0 claim
> 0 return 0
> 0 return 1
+++ book journal 20 versions 10 claims 10
---
version SB 1
job 1
piece 1 job 1 slice 0 from 0 to 16
refused 80 Stranger 1
taken 1 1
=== spent_versions
> 0 cat a.cat
> 0 cat a.cat
> 0 cat a.cat
+++ book journal 20 versions 2 claims 1
---
version a.cat 1
version a.cat 2
refused 81 VersionsSpent a.cat
=== spent
> 0 cat a.cat
> 0 dropcat a.cat
> 0 cat a.cat
> 0 test
%SB%> 0 ask SB rc11.cat
> 0 claim
> 0 back 1
> 0 claim
+++ book journal 20 versions 2 claims 1
---
version a.cat 1
version a.cat 2
refused 81 VersionsSpent a.cat
version SB 1
job 1
piece 1 job 1 slice 0 from 0 to 16
done
refused 82 ClaimsSpent
=== script_release
> 0 test
%SB%> 0 ask SB rc11.cat
> 1 claim
> 0 release 1
> 2 claim
> 1 return 1
> 1 return 2
> 2 return 2
> 2 return 2
> 0 claim
> 0 poll 1
> 0 forget 1
> 0 poll 1
> 0 close
> 0 list
+++ book journal 20 versions 10 claims 10
---
version SB 1
job 1
piece 1 job 1 slice 0 from 0 to 16
freed 1
piece 2 job 1 slice 0 from 0 to 16
refused 78 NoClaim 1
refused 78 NoClaim 2
taken 1 1
refused 78 NoClaim 2
nothing
verdict SB 1 rc11.cat 0
%SB summary%done
refused 77 NoJob 1
done
refused 71 Closed
=== what_is_dropped_is_not_listed
> 0 list
> 0 cat a.cat
> 0 test
%SB%> 0 ask SB a.cat
> 0 list
> 0 dropcat a.cat
> 0 droptest SB
> 0 list
> 0 droptest SB
> 0 dropcat rc11.cat
> 0 cat a.cat
> 0 list
+++ book journal 20 versions 10 claims 10
---
end
version a.cat 1
version SB 1
job 1
test SB 1
cat a.cat 1
job 1 SB a.cat 0 1
end
version a.cat 2
version SB 2
job 1 SB a.cat 0 1
end
refused 73 NoTest SB
refused 74 Model 61 NoCat rc11.cat
version a.cat 3
cat a.cat 3
job 1 SB a.cat 0 1
end
=== sizes
> 0 test
C S {} P0 (atomic_int* x) {
%12 times atomic_store_explicit(x, 1, memory_order_relaxed);
%} exists (x=1)
> 0 ask S stdlib.cat
> 0 poll 1
> 0 claim
> 0 claim
> 0 test
C S {} P0 (atomic_int* x) {
%13 times atomic_store_explicit(x, 1, memory_order_relaxed);
%} exists (x=1)
> 0 ask S stdlib.cat
> 0 test
C L {} P0 (atomic_int* x) {
int r0 = atomic_load_explicit(x, memory_order_relaxed);
%12 times r0 = atomic_load_explicit(x, memory_order_relaxed);
%} exists (0:r0=0)
> 0 ask L stdlib.cat
+++ book journal 20 versions 10 claims 10
---
version S 1
job 1
pending 0 256
piece 1 job 1 slice 0 from 0 to 1871100
piece 2 job 1 slice 1 from 1871100 to 3742200
version S 2
refused 75 Space 41 TooManyCandidates
version L 1
refused 75 Space 31 TooManyRuns 0
=== iriw
> 0 test
%IRIW%> 0 ask IRIW rc11.cat
%17 times > 0 claim
%> 0 return 16
> 0 return 15
> 0 return 14
> 0 return 13
> 0 return 12
> 0 return 11
> 0 return 10
> 0 return 9
> 0 return 8
> 0 return 7
> 0 return 6
> 0 return 5
> 0 return 4
> 0 return 3
> 0 return 2
> 0 poll 1
> 0 return 1
> 0 poll 1
+++ book journal 40 versions 10 claims 20
---
version IRIW 1
job 1
piece 1 job 1 slice 0 from 0 to 256
piece 2 job 1 slice 1 from 256 to 512
piece 3 job 1 slice 2 from 512 to 768
piece 4 job 1 slice 3 from 768 to 1024
piece 5 job 1 slice 4 from 1024 to 1280
piece 6 job 1 slice 5 from 1280 to 1536
piece 7 job 1 slice 6 from 1536 to 1792
piece 8 job 1 slice 7 from 1792 to 2048
piece 9 job 1 slice 8 from 2048 to 2304
piece 10 job 1 slice 9 from 2304 to 2560
piece 11 job 1 slice 10 from 2560 to 2816
piece 12 job 1 slice 11 from 2816 to 3072
piece 13 job 1 slice 12 from 3072 to 3328
piece 14 job 1 slice 13 from 3328 to 3584
piece 15 job 1 slice 14 from 3584 to 3840
piece 16 job 1 slice 15 from 3840 to 4096
nothing
taken 1 16
taken 2 16
taken 3 16
taken 4 16
taken 5 16
taken 6 16
taken 7 16
taken 8 16
taken 9 16
taken 10 16
taken 11 16
taken 12 16
taken 13 16
taken 14 16
taken 15 16
pending 15 16
taken 16 16
verdict IRIW 1 rc11.cat 0
%IRIW summary%=== spent_claims
> 0 test
%SB%> 0 ask SB stdlib.cat
> 0 ask SB stdlib.cat
> 0 claim
> 0 claim
+++ book journal 20 versions 2 claims 1
---
version SB 1
job 1
job 2
piece 1 job 1 slice 0 from 0 to 16
refused 82 ClaimsSpent
=== a_verdict_under_a_model
> 0 cat base.cat
let com = rf | co | fr
> 0 cat sc.cat
include \"base.cat\" acyclic po | com as sc
> 0 test
%SB%> 0 ask SB sc.cat
> 0 claim
> 0 return 1
> 0 poll 1
+++ book journal 20 versions 10 claims 10
---
version base.cat 1
version sc.cat 1
version SB 1
job 1
piece 1 job 1 slice 0 from 0 to 16
taken 1 1
verdict SB 1 sc.cat 1 base.cat 1
%SB never%=== an_included_file_put_again
> 0 cat base.cat
let com = rf | co | fr
> 0 cat sc.cat
include \"base.cat\" acyclic po | com as sc
> 0 test
%SB%> 0 ask SB sc.cat
> 0 claim
> 0 cat base.cat
let com = rf | co | fr
> 0 return 1
+++ book journal 20 versions 10 claims 10
---
version base.cat 1
version sc.cat 1
version SB 1
job 1
piece 1 job 1 slice 0 from 0 to 16
version base.cat 2
refused 79 Replaced cat base.cat 2
=== a_built_in_file_hidden
> 0 test
%SB%> 0 ask SB stdlib.cat
> 0 cat stdlib.cat
> 0 poll 1
+++ book journal 4 versions 1 claims 10
---
version SB 1
job 1
version stdlib.cat 1
refused 79 Replaced cat stdlib.cat 1
";

#[test]
fn rows(rt: HostRuntime) {
    all_hold(&rt, rt.alloc(), ROWS);
}
