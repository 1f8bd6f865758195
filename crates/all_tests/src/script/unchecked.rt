//! Rows of tests with the model that has no checks, and of executions that are counted together; and calls whose reader or writer fails.

use crate::cases::{is_cut_off, sink};
use crate::rows::expect;
use crate::script::calls::{Way, summarized};
use crate::script::texts::meant;
use program::OneFault;
use std::alloc::{AllocError, Global};

/// Executions that differ in their orders alone: n! orders of n stores, of which (n - 1)! end in each (`orders_counted_together`). So under
/// models: the loads read in four ways, of which one is a cycle, and three stores have six orders, of which two end in each. The last model of
/// two loads and three stores looks at the orders: the stores are ordered as they stand. And tests in two, in five, in seven and in more
/// slices than there are numbers (`one_in_several_slices`). All orders of `open_writes` are allowed under models that look at them.
pub const ROWS: &str = "
=== whole_summaries: sb_relaxed
%SB%
+++ one

---
%SB summary%=== whole_summaries: empty_thread
C E
{ x; }
P0 () {}
exists (x=0)

+++ one

---
Test E Allowed
States 1
[x]=0;
Ok
Witnesses
Positive: 1 Negative: 0
Condition exists ([x]=0)
Observation E Always 1 0
=== whole_summaries: empty_thread_of_no_place
C E
{}
P0 () {}
exists true

+++ one

---
Test E Allowed
States 1

Ok
Witnesses
Positive: 1 Negative: 0
Condition exists (true)
Observation E Always 1 0
=== orders_counted_together: three_stores
C W3 {} P0 (atomic_int* x) {
  atomic_store(x, 1); atomic_store(x, 2); atomic_store(x, 3);
} exists (x=3)
+++ one

---
Test W3 Allowed
States 3
[x]=1;
[x]=2;
[x]=3;
Ok
Witnesses
Positive: 2 Negative: 4
Condition exists ([x]=3)
Observation W3 Sometimes 2 4
=== orders_counted_together: two_locations
%two locations%
+++ one

---
%two locations summary%=== orders_counted_together: a_location_that_is_not_observed
C U {} P0 (atomic_int* x, atomic_int* y) {
  atomic_store(y, 1); atomic_store(y, 2); atomic_store(y, 3); atomic_store(y, 4);
  atomic_store(x, 1); atomic_store(x, 2); atomic_store(x, 3);
} exists (x=2)
+++ one

---
Test U Allowed
States 3
[x]=1;
[x]=2;
[x]=3;
Ok
Witnesses
Positive: 48 Negative: 96
Condition exists ([x]=2)
Observation U Sometimes 48 96
=== orders_counted_together: registers_alone
C R {} P0 (atomic_int* x, atomic_int* y) {
  atomic_store(x, 1); atomic_store(x, 2); atomic_store(x, 3); int r0 = atomic_load(y);
} P1 (atomic_int* x, atomic_int* y) { atomic_store(y, 1); } exists (0:r0=0)
+++ one

---
Test R Allowed
States 2
0:r0=0;
0:r0=1;
Ok
Witnesses
Positive: 6 Negative: 6
Condition exists (0:r0=0)
Observation R Sometimes 6 6
=== orders_counted_together: twelve_stores
C W12 {} P0 (atomic_int* x) {
  atomic_store(x, 1); atomic_store(x, 2); atomic_store(x, 3); atomic_store(x, 4); atomic_store(x, 5); atomic_store(x, 6);
  atomic_store(x, 7); atomic_store(x, 8); atomic_store(x, 9); atomic_store(x, 10); atomic_store(x, 11); atomic_store(x, 12);
} exists (x=12)
+++ one

---
...
Observation W12 Sometimes 39916800 439084800
=== open_writes: four_pairs
%four pairs%
+++ one
include \"rc11.cat\"
acyclic po | rf irreflexive co
---
%four pairs summary%=== open_writes: four_pairs, in_5_slices
%four pairs%
+++ one in 5 slices
include \"rc11.cat\"
---
%four pairs summary%=== orders_counted_together_under_a_model: two_loads_and_three_stores, 1
C LB+W3 {} P0 (atomic_int* x, atomic_int* y) {
  int r0 = atomic_load(y); atomic_store(x, 1);
} P1 (atomic_int* x, atomic_int* y) {
  int r0 = atomic_load(x); atomic_store(y, 1);
} P2 (atomic_int* z) {
  atomic_store(z, 1); atomic_store(z, 2); atomic_store(z, 3);
} exists (z=3)
+++ one
acyclic po | rf as porf
---
Test LB+W3 Allowed
States 3
[z]=1;
[z]=2;
[z]=3;
Ok
Witnesses
Positive: 6 Negative: 12
Condition exists ([z]=3)
Observation LB+W3 Sometimes 6 12
=== orders_counted_together_under_a_model: two_loads_and_three_stores, 2
C LB+W3 {} P0 (atomic_int* x, atomic_int* y) {
  int r0 = atomic_load(y); atomic_store(x, 1);
} P1 (atomic_int* x, atomic_int* y) {
  int r0 = atomic_load(x); atomic_store(y, 1);
} P2 (atomic_int* z) {
  atomic_store(z, 1); atomic_store(z, 2); atomic_store(z, 3);
} exists (z=3)
+++ one
flag ~acyclic po | rf as cycle flag acyclic po | rf as none
---
Test LB+W3 Allowed
States 3
[z]=1;
[z]=2;
[z]=3;
Ok
Witnesses
Positive: 8 Negative: 16
Flag cycle
Flag none
Condition exists ([z]=3)
Observation LB+W3 Sometimes 8 16
=== orders_counted_together_under_a_model: two_loads_and_three_stores, 3
C LB+W3 {} P0 (atomic_int* x, atomic_int* y) {
  int r0 = atomic_load(y); atomic_store(x, 1);
} P1 (atomic_int* x, atomic_int* y) {
  int r0 = atomic_load(x); atomic_store(y, 1);
} P2 (atomic_int* z) {
  atomic_store(z, 1); atomic_store(z, 2); atomic_store(z, 3);
} exists (z=3)
+++ one
acyclic po | rf as porf flag ~acyclic po | rf as cycle flag acyclic po | rf as none
---
Test LB+W3 Allowed
States 3
[z]=1;
[z]=2;
[z]=3;
Ok
Witnesses
Positive: 6 Negative: 12
Flag none
Condition exists ([z]=3)
Observation LB+W3 Sometimes 6 12
=== orders_counted_together_under_a_model: two_loads_and_three_stores, 4
C LB+W3 {} P0 (atomic_int* x, atomic_int* y) {
  int r0 = atomic_load(y); atomic_store(x, 1);
} P1 (atomic_int* x, atomic_int* y) {
  int r0 = atomic_load(x); atomic_store(y, 1);
} P2 (atomic_int* z) {
  atomic_store(z, 1); atomic_store(z, 2); atomic_store(z, 3);
} exists (z=3)
+++ one
acyclic po | co as poco
---
Test LB+W3 Allowed
States 1
[z]=3;
Ok
Witnesses
Positive: 4 Negative: 0
Condition exists ([z]=3)
Observation LB+W3 Always 4 0
=== orders_counted_together_under_a_model: three_stores_and_no_load, 1
C W3 {} P0 (atomic_int* x) {
  atomic_store(x, 1); atomic_store(x, 2); atomic_store(x, 3);
} exists (x=3)
+++ one
flag empty rf as norf
---
Test W3 Allowed
States 3
[x]=1;
[x]=2;
[x]=3;
Ok
Witnesses
Positive: 2 Negative: 4
Flag norf
Condition exists ([x]=3)
Observation W3 Sometimes 2 4
=== orders_counted_together_under_a_model: three_stores_and_no_load, 2
C W3 {} P0 (atomic_int* x) {
  atomic_store(x, 1); atomic_store(x, 2); atomic_store(x, 3);
} exists (x=3)
+++ one
~empty rf as read
---
Test W3 Allowed
States 0
No
Witnesses
Positive: 0 Negative: 0
Condition exists ([x]=3)
Observation W3 Never 0 0
=== one_in_several_slices: store buffering, 2
%SB%
+++ one in 2 slices

---
%SB summary%=== one_in_several_slices: store buffering, 5
%SB%
+++ one in 5 slices

---
%SB summary%=== one_in_several_slices: store buffering, 7
%SB%
+++ one in 7 slices

---
%SB summary%=== one_in_several_slices: store buffering, 256
%SB%
+++ one in 256 slices

---
%SB summary%=== one_in_several_slices: two locations, 2
%two locations%
+++ one in 2 slices

---
%two locations summary%=== one_in_several_slices: two locations, 5
%two locations%
+++ one in 5 slices

---
%two locations summary%=== one_in_several_slices: two locations, 7
%two locations%
+++ one in 7 slices

---
%two locations summary%=== one_in_several_slices: two locations, 256
%two locations%
+++ one in 256 slices

---
%two locations summary%";

/// Whether a call of `one` without a model ends so, with just so many bytes of the summary written.
fn ends_so(
    alloc: Global,
    input: &str,
    fails: bool,
    room: usize,
    end: &Result<(), OneFault>,
    written: usize,
) -> bool {
    let way = Way { slices: 1, fails };
    match sink(alloc, room) {
        Ok(mut writer) => {
            summarized(alloc, input.as_bytes(), b"", way, &mut writer) == *end
                && is_cut_off(writer.bytes(), meant("SB summary"), written)
        }
        Err(AllocError) => false,
    }
}

/// A writer of too little room has just the prefix of the summary, with the fault that says so.
#[test]
fn hostile_input_row_6_summary(rt: HostRuntime) {
    let alloc = rt.alloc();
    let end = Err(OneFault::Write);
    for room in 0..meant("SB summary").len() {
        assert!(rt;
            ends_so(alloc, meant("SB"), false, room, &end, room),
            "at {room}"
        );
    }
}

#[test]
fn a_reader_that_fails_leaves_nothing(rt: HostRuntime) {
    let front =
        "C SB\n{}\nP0 (atomic_int* x, atomic_int* y) {\n  atomic_store_explicit(x, 1, memory";
    let leaves_nothing = ends_so(rt.alloc(), front, true, 1000, &Err(OneFault::Read), 0);
    expect(&rt, "a reader that fails", leaves_nothing);
}
