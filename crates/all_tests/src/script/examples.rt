//! The examples of docs/TEACHING.md, each under `rc11.cat` and under the models of examples/, and its scripts with their outputs.
//!
//! The verdicts were worked out by hand from the models' checks.

pub mod fences;
mod texts;

pub use texts::EXAMPLES;

pub const ROWS: &str = "
=== buffers_of_stores: sb, under rc11.cat
%SB.litmus%
+++ one
%RC11%
---
Test SB Allowed
States 4
...
Ok
Witnesses
Positive: 1 Negative: 3
Condition exists (0:r0=0 /\\ 1:r0=0)
Observation SB Sometimes 1 3
=== buffers_of_stores: sb, under sc.cat
%SB.litmus%
+++ one
%sc.cat%
---
Test SB Allowed
States 3
...
No
Witnesses
Positive: 0 Negative: 3
Condition exists (0:r0=0 /\\ 1:r0=0)
Observation SB Never 0 3
=== buffers_of_stores: sb, under tso.cat
%SB.litmus%
+++ one
%tso.cat%
---
Test SB Allowed
States 4
...
Ok
Witnesses
Positive: 1 Negative: 3
Condition exists (0:r0=0 /\\ 1:r0=0)
Observation SB Sometimes 1 3
=== buffers_of_stores: sb_sc
%SB+sc.litmus%
+++ one
%RC11%
%sc.cat%
%tso.cat%
---
Test SB+sc Allowed
States 3
...
No
Witnesses
Positive: 0 Negative: 3
Condition exists (0:r0=0 /\\ 1:r0=0)
Observation SB+sc Never 0 3
=== buffers_of_stores: sb_fences
%SB+fences.litmus%
+++ one
%RC11%
%sc.cat%
%tso.cat%
---
Test SB+fences Allowed
States 3
...
No
Witnesses
Positive: 0 Negative: 3
Condition exists (0:r0=0 /\\ 1:r0=0)
Observation SB+fences Never 0 3
=== buffers_of_stores: sb_forall, under rc11.cat
%SB+forall.litmus%
+++ one
%RC11%
---
Test SB+forall Required
States 4
...
No
Witnesses
Positive: 3 Negative: 1
Condition forall (0:r0=1 \\/ 1:r0=1)
Observation SB+forall Sometimes 3 1
=== buffers_of_stores: sb_forall, under sc.cat
%SB+forall.litmus%
+++ one
%sc.cat%
---
Test SB+forall Required
States 3
...
Ok
Witnesses
Positive: 3 Negative: 0
Condition forall (0:r0=1 \\/ 1:r0=1)
Observation SB+forall Always 3 0
=== buffers_of_stores: sb_forall, under tso.cat
%SB+forall.litmus%
+++ one
%tso.cat%
---
Test SB+forall Required
States 4
...
No
Witnesses
Positive: 3 Negative: 1
Condition forall (0:r0=1 \\/ 1:r0=1)
Observation SB+forall Sometimes 3 1
=== messages_and_loads: mp, under rc11.cat
%MP.litmus%
+++ one
%RC11%
---
Test MP Allowed
States 4
...
Ok
Witnesses
Positive: 1 Negative: 3
Condition exists (1:r0=1 /\\ 1:r1=0)
Observation MP Sometimes 1 3
=== messages_and_loads: mp, under sc.cat and tso.cat
%MP.litmus%
+++ one
%sc.cat%
%tso.cat%
---
Test MP Allowed
States 3
...
No
Witnesses
Positive: 0 Negative: 3
Condition exists (1:r0=1 /\\ 1:r1=0)
Observation MP Never 0 3
=== messages_and_loads: mp_rel, under rc11.cat
%MP+rel.litmus%
+++ one
%RC11%
---
Test MP+rel Allowed
States 4
...
Ok
Witnesses
Positive: 1 Negative: 3
Condition exists (1:r0=1 /\\ 1:r1=0)
Observation MP+rel Sometimes 1 3
=== messages_and_loads: mp_rel, under sc.cat and tso.cat
%MP+rel.litmus%
+++ one
%sc.cat%
%tso.cat%
---
Test MP+rel Allowed
States 3
...
No
Witnesses
Positive: 0 Negative: 3
Condition exists (1:r0=1 /\\ 1:r1=0)
Observation MP+rel Never 0 3
=== messages_and_loads: mp_rel_acq
%MP+rel+acq.litmus%
+++ one
%RC11%
%sc.cat%
%tso.cat%
---
Test MP+rel+acq Allowed
States 3
...
No
Witnesses
Positive: 0 Negative: 3
Condition exists (1:r0=1 /\\ 1:r1=0)
Observation MP+rel+acq Never 0 3
=== messages_and_loads: lb
%LB.litmus%
+++ one
%RC11%
%sc.cat%
%tso.cat%
---
Test LB Allowed
States 3
...
No
Witnesses
Positive: 0 Negative: 3
Condition exists (0:r0=1 /\\ 1:r0=1)
Observation LB Never 0 3
=== orders_of_writes: iriw, under rc11.cat
%IRIW.litmus%
+++ one
%RC11%
---
Test IRIW Allowed
States 16
...
Ok
Witnesses
Positive: 1 Negative: 15
Condition exists (2:r0=1 /\\ 2:r1=0 /\\ 3:r0=1 /\\ 3:r1=0)
Observation IRIW Sometimes 1 15
=== orders_of_writes: iriw, under sc.cat and tso.cat
%IRIW.litmus%
+++ one
%sc.cat%
%tso.cat%
---
Test IRIW Allowed
States 15
...
No
Witnesses
Positive: 0 Negative: 15
Condition exists (2:r0=1 /\\ 2:r1=0 /\\ 3:r0=1 /\\ 3:r1=0)
Observation IRIW Never 0 15
=== orders_of_writes: iriw_sc
%IRIW+sc.litmus%
+++ one
%RC11%
%sc.cat%
%tso.cat%
---
Test IRIW+sc Allowed
States 15
...
No
Witnesses
Positive: 0 Negative: 15
Condition exists (2:r0=1 /\\ 2:r1=0 /\\ 3:r0=1 /\\ 3:r1=0)
Observation IRIW+sc Never 0 15
=== orders_of_writes: two_plus_two_w, under rc11.cat
%2+2W.litmus%
+++ one
%RC11%
---
Test 2+2W Allowed
States 4
...
Ok
Witnesses
Positive: 1 Negative: 3
Condition exists ([x]=1 /\\ [y]=1)
Observation 2+2W Sometimes 1 3
=== orders_of_writes: two_plus_two_w, under sc.cat and tso.cat
%2+2W.litmus%
+++ one
%sc.cat%
%tso.cat%
---
Test 2+2W Allowed
States 3
...
No
Witnesses
Positive: 0 Negative: 3
Condition exists ([x]=1 /\\ [y]=1)
Observation 2+2W Never 0 3
=== orders_of_writes: corr
%CoRR.litmus%
+++ one
%RC11%
%sc.cat%
%tso.cat%
---
Test CoRR Allowed
States 3
...
No
Witnesses
Positive: 0 Negative: 3
Condition exists (1:r0=1 /\\ 1:r1=0)
Observation CoRR Never 0 3
=== plain_accesses: race, under rc11.cat
%race.litmus%
+++ one
%RC11%
---
Test race Allowed
States 4
...
Ok
Witnesses
Positive: 1 Negative: 3
Flag data-race
Condition exists (1:r0=1 /\\ 1:r1=0)
Observation race Sometimes 1 3
=== plain_accesses: race, under sc.cat and tso.cat
%race.litmus%
+++ one
%sc.cat%
%tso.cat%
---
Test race Allowed
States 3
...
No
Witnesses
Positive: 0 Negative: 3
Condition exists (1:r0=1 /\\ 1:r1=0)
Observation race Never 0 3
=== plain_accesses: race_free
%race-free.litmus%
+++ one
%RC11%
%sc.cat%
%tso.cat%
---
Test race-free Allowed
States 2
...
No
Witnesses
Positive: 0 Negative: 2
Condition exists (1:r0=1 /\\ 1:r1=0)
Observation race-free Never 0 2
=== plain_accesses: rs
%RS.litmus%
+++ one
%RC11%
%sc.cat%
%tso.cat%
---
Test RS Allowed
States 9
...
No
Witnesses
Positive: 0 Negative: 9
Condition exists (1:r0=1 /\\ 2:r0=2 /\\ 2:r1=0)
Observation RS Never 0 9
=== sequences_and_exchanges: rs_load_store, under rc11.cat
%RS+load+store.litmus%
+++ one
%RC11%
---
Test RS+load+store Allowed
States 10
...
Ok
Witnesses
Positive: 1 Negative: 14
Condition exists (1:r0=1 /\\ 2:r0=2 /\\ 2:r1=0)
Observation RS+load+store Sometimes 1 14
=== sequences_and_exchanges: rs_load_store, under sc.cat and tso.cat
%RS+load+store.litmus%
+++ one
%sc.cat%
%tso.cat%
---
Test RS+load+store Allowed
States 9
...
No
Witnesses
Positive: 0 Negative: 13
Condition exists (1:r0=1 /\\ 2:r0=2 /\\ 2:r1=0)
Observation RS+load+store Never 0 13
=== sequences_and_exchanges: rs_same
%RS+same.litmus%
+++ one
%RC11%
%sc.cat%
%tso.cat%
---
Test RS+same Allowed
States 4
...
No
Witnesses
Positive: 0 Negative: 4
Condition exists (1:r0=2 /\\ 1:r1=0)
Observation RS+same Never 0 4
=== sequences_and_exchanges: swap
%swap.litmus%
+++ one
%RC11%
%sc.cat%
%tso.cat%
---
Test swap Allowed
States 2
...
No
Witnesses
Positive: 0 Negative: 2
Condition exists (0:r0=0 /\\ 1:r0=0)
Observation swap Never 0 2
=== sequences_and_exchanges: rs_add
%RS+add.litmus%
+++ one
%RC11%
%sc.cat%
%tso.cat%
---
Test RS+add Allowed
States 5
...
No
Witnesses
Positive: 0 Negative: 9
Condition exists (2:r0=2 /\\ 2:r1=0)
Observation RS+add Never 0 9
=== sequences_and_exchanges: counter, 1
%counter.litmus%
+++ one
%RC11%
%sc.cat%
%tso.cat%
---
Test counter Allowed
States 1
[x]=2;
No
Witnesses
Positive: 0 Negative: 2
Condition exists ([x]=1)
Observation counter Never 0 2
=== sequences_and_exchanges: counter, 2
%counter.litmus%
+++ one

---
...
Observation counter Sometimes 4 2
=== sequences_and_exchanges: additions of four threads, one behind another in any of 24 orders
C ADDS
{}
P0 (atomic_int* x) {
  int r0 = atomic_fetch_add_explicit(x, 1, memory_order_relaxed);
}
P1 (atomic_int* x) {
  int r0 = atomic_fetch_add_explicit(x, 1, memory_order_relaxed);
}
P2 (atomic_int* x) {
  int r0 = atomic_fetch_add_explicit(x, 1, memory_order_relaxed);
}
P3 (atomic_int* x) {
  int r0 = atomic_fetch_add_explicit(x, 1, memory_order_relaxed);
}
forall ([x]=4)
+++ one
%RC11%
%sc.cat%
%tso.cat%
---
Test ADDS Required
States 1
[x]=4;
Ok
Witnesses
Positive: 24 Negative: 0
Condition forall ([x]=4)
Observation ADDS Always 24 0
=== sequences_and_exchanges: initial
%initial.litmus%
+++ one
%RC11%
%sc.cat%
%tso.cat%
---
Test initial Allowed
States 1
...
Ok
Witnesses
Positive: 1 Negative: 0
Condition exists (0:r0=5 /\\ 0:r1=7 /\\ [y]=3)
Observation initial Always 1 0
=== models_of_ones_own: location_by_location: LOAD_BUFFERING
%LB.litmus%
+++ one
%location by location%
---
Test LB Allowed
States 4
...
Ok
Witnesses
Positive: 1 Negative: 3
Condition exists (0:r0=1 /\\ 1:r0=1)
Observation LB Sometimes 1 3
=== models_of_ones_own: location_by_location: COHERENT_READS
%CoRR.litmus%
+++ one
%location by location%
---
Test CoRR Allowed
States 3
...
No
Witnesses
Positive: 0 Negative: 3
Condition exists (1:r0=1 /\\ 1:r1=0)
Observation CoRR Never 0 3
=== models_of_ones_own: without_atomicity: EXCHANGES
%swap.litmus%
+++ one
%without atomicity%
---
Test swap Allowed
States 3
...
Ok
Witnesses
Positive: 2 Negative: 2
Condition exists (0:r0=0 /\\ 1:r0=0)
Observation swap Sometimes 2 2
=== models_of_ones_own: without_atomicity: COUNTER
%counter.litmus%
+++ one
%without atomicity%
---
Test counter Allowed
States 2
[x]=1;
[x]=2;
Ok
Witnesses
Positive: 2 Negative: 2
Condition exists ([x]=1)
Observation counter Sometimes 2 2
=== models_of_ones_own: weakness: STORE_BUFFERING
%SB.litmus%
+++ one
%weakness%
---
Test SB Allowed
States 4
...
Ok
Witnesses
Positive: 1 Negative: 3
Flag not-sc
Condition exists (0:r0=0 /\\ 1:r0=0)
Observation SB Sometimes 1 3
=== models_of_ones_own: weakness: STORE_BUFFERING_SC
%SB+sc.litmus%
+++ one
%weakness%
---
Test SB+sc Allowed
States 3
...
No
Witnesses
Positive: 0 Negative: 3
Condition exists (0:r0=0 /\\ 1:r0=0)
Observation SB+sc Never 0 3
=== models_of_ones_own: weakness: PLAIN_MESSAGE
%race.litmus%
+++ one
%weakness%
---
Test race Allowed
States 4
...
Ok
Witnesses
Positive: 1 Negative: 3
Flag data-race
Flag not-sc
Condition exists (1:r0=1 /\\ 1:r1=0)
Observation race Sometimes 1 3
";

pub const SCRIPTS: &str = "
=== scripts: script_teaching
# A session, 0, puts a model and a test, and asks for the verdict under two models.
0 cat sc.cat
%sc.cat%.
0 test
%SB.litmus%.
0 ask SB rc11.cat
0 ask SB sc.cat
# Another session, 1, has time, and does the work of both jobs.
1 claim
1 return 1
1 claim
1 return 2
# Both verdicts are there.
0 poll 1
0 poll 2
+++ serve
---
ok
%teaching.out%=== scripts: script_versions
# A model of two files. The first version of common.cat forgets fr.
0 cat common.cat
let com = rf | co
.
0 cat mine.cat
include \"common.cat\"
acyclic po | com as mine
.
0 test
%SB.litmus%.
0 ask SB mine.cat
1 claim
# While session 1 is at work, session 0 mends the file: the job of the old version is replaced.
0 cat common.cat
let com = rf | co | fr
.
1 return 1
0 poll 1
# Asked again, the verdict is of the new version.
0 ask SB mine.cat
1 claim
1 return 2
0 poll 2
+++ serve
---
ok
%versions.out%";
