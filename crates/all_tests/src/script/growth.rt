//! Rows of calls of which one request for memory is refused, whichever it is. A call ends in `NoMemory` or in its own answer, and each line
//! of a script in `not taken NoMemory` or in its own answer; what is made again gets its own answer.
//!
//! `tools/refuse-each-growth` runs these tests once for each request. Where none is refused they compare the answers alone.

use crate::rows::expect;
use crate::script::calls::{Tried, try_row};
use crate::script::words::are_told;
use std::alloc::Global;
use std::sync::Wait;
use std::thread::Threads;

/// A model with a flag, a function and a recursive binding (`one_summary`), tests and models that are refused, the script of row
/// script_first, and lines that are refused, each whatever the others are answered (`serve_refusals`).
const ROWS: &str = "
=== one_summary
%SB%
+++ one
include \"stdlib.cat\" let twice(x) = x ; x let rec r = po | twice(r) flag ~empty r as kept acyclic r | rf | co | fr
---
Test SB Allowed
States 3
0:r0=0; 1:r0=1;
0:r0=1; 1:r0=0;
0:r0=1; 1:r0=1;
No
Witnesses
Positive: 0 Negative: 3
Flag kept
Condition exists (0:r0=0 /\\ 1:r0=0)
Observation SB Never 0 3
=== one_refusals: 17 Unsupported while
C E { 0:r0 = 1; } P0 () { while (r0) {} } exists true
+++ one

---
refused 17 Unsupported while
=== one_refusals: 53 Unsupported f
%SB%
+++ one
let rec f(x) = x
---
refused 53 Unsupported f
=== one_refusals: 62 NoInclude none.cat
%SB%
+++ one
include \"none.cat\"
---
refused 62 NoInclude none.cat
=== one_refusals: 64 Unbound s
%SB%
+++ one
let r = po acyclic s
---
refused 64 Unbound s
=== one_refusals: 69 CallsTooLarge empty
%SB%
+++ one
let f(x) = x | x | x | x let f(x) = f(f(f(x))) let f(x) = f(f(f(x))) empty f(0)
---
refused 69 CallsTooLarge empty
=== one_refusals: 41 TooManyCandidates
C E {} P0 (atomic_int* x) {
  atomic_store(x, 1); atomic_store(x, 1); atomic_store(x, 1); atomic_store(x, 1); atomic_store(x, 1); atomic_store(x, 1); atomic_store(x, 1);
  atomic_store(x, 1); atomic_store(x, 1); atomic_store(x, 1); atomic_store(x, 1); atomic_store(x, 1); atomic_store(x, 1);
} exists true
+++ one

---
refused 41 TooManyCandidates
=== each_growth_refused_row
%script_first%+++ serve
---
ok
%script_first answers%--- or
98 BadLine 19
not taken NoMemory
version SB 1
refused 74 Model 61 NoCat none.cat
refused 77 NoJob 1
nothing
bad line 19
--- or
98 BadLine 19
version none.cat 1
not taken NoMemory
refused 73 NoTest SB
refused 77 NoJob 1
nothing
bad line 19
--- or
98 BadLine 19
version none.cat 1
version SB 1
not taken NoMemory
refused 77 NoJob 1
nothing
bad line 19
--- or
ok
version none.cat 1
version SB 1
job 1
not taken NoMemory
piece 1 job 1 slice 0 from 0 to 16
taken 1 1
verdict SB 1 none.cat 1
%SB summary%finish ok 6
--- or
98 BadLine 19
version none.cat 1
version SB 1
job 1
pending 0 1
not taken NoMemory
bad line 19
--- or
ok
version none.cat 1
version SB 1
job 1
pending 0 1
piece 1 job 1 slice 0 from 0 to 16
not taken NoMemory
pending 0 1
finish ok 6
--- or
ok
version none.cat 1
version SB 1
job 1
pending 0 1
piece 1 job 1 slice 0 from 0 to 16
taken 1 1
not taken NoMemory
finish ok 6
=== serve_refusals
0 test
C E { 0:r0 = 1; } P0 () { while (r0) {} } exists true
.
0 cat a.cat
let rec f(x) = x
.
0 ask SB a.cat
0 poll 9
1 claim
+++ serve
---
ok
refused 72 Reading 17 Unsupported while
refused 72 Reading 53 Unsupported f
refused 73 NoTest SB
refused 77 NoJob 9
nothing
finish ok 5
--- or
ok
not taken NoMemory
refused 72 Reading 53 Unsupported f
refused 73 NoTest SB
refused 77 NoJob 9
nothing
finish ok 4
--- or
ok
refused 72 Reading 17 Unsupported while
not taken NoMemory
refused 73 NoTest SB
refused 77 NoJob 9
nothing
finish ok 4
--- or
ok
refused 72 Reading 17 Unsupported while
refused 72 Reading 53 Unsupported f
not taken NoMemory
refused 77 NoJob 9
nothing
finish ok 4
--- or
ok
refused 72 Reading 17 Unsupported while
refused 72 Reading 53 Unsupported f
refused 73 NoTest SB
not taken NoMemory
nothing
finish ok 4
--- or
ok
refused 72 Reading 17 Unsupported while
refused 72 Reading 53 Unsupported f
refused 73 NoTest SB
refused 77 NoJob 9
not taken NoMemory
finish ok 4
";

/// Whether a row is answered as it says. Where memory is refused the call is made again, and then has its own answer: so a line that
/// isn't taken with ample memory is no answer.
fn is_answered<T: Threads + Wait + Sync>(rt: &T, alloc: Global, row: &str) -> bool {
    match try_row(rt, alloc, row) {
        Tried::Answered => true,
        Tried::Refused => matches!(try_row(rt, alloc, row), Tried::Answered),
        Tried::Wrong => false,
    }
}

#[test]
fn rows(rt: HostRuntime) {
    for row in ROWS.split("=== ").skip(1) {
        expect(&rt, row, is_answered(&rt, rt.alloc(), row));
    }
}

#[test]
fn words(rt: HostRuntime) {
    let wanted = "journal 12, workers 3.";
    let words = "bench --journal 12 --workers=3";
    let told = are_told(rt.alloc(), words, wanted) || are_told(rt.alloc(), words, wanted);
    expect(&rt, words, told);
}
