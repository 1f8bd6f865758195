//! Examples under the model of fences, `examples/models/fences.cat`, and an example with fences under all models.

pub const ROWS: &str = "
=== fences_alone: SB under fences.cat
%SB.litmus%
+++ one
%fences.cat%
---
...
Observation SB Sometimes 1 3
=== fences_alone: SB+fences under fences.cat
%SB+fences.litmus%
+++ one
%fences.cat%
---
...
Observation SB+fences Never 0 3
=== fences_alone: MP under fences.cat
%MP.litmus%
+++ one
%fences.cat%
---
...
Observation MP Sometimes 1 3
=== fences_alone: MP+rel+acq under fences.cat
%MP+rel+acq.litmus%
+++ one
%fences.cat%
---
...
Observation MP+rel+acq Sometimes 1 3
=== fences_alone: LB under fences.cat
%LB.litmus%
+++ one
%fences.cat%
---
...
Observation LB Sometimes 1 3
=== fences_alone: 2+2W under fences.cat
%2+2W.litmus%
+++ one
%fences.cat%
---
...
Observation 2+2W Sometimes 1 3
=== fences_alone: CoRR under fences.cat
%CoRR.litmus%
+++ one
%fences.cat%
---
...
Observation CoRR Never 0 3
=== fences_alone: swap under fences.cat
%swap.litmus%
+++ one
%fences.cat%
---
...
Observation swap Never 0 2
=== fences_in_a_test: mp_fences
%MP+fences.litmus%
+++ one
%RC11%
%sc.cat%
%tso.cat%
%fences.cat%
---
Test MP+fences Allowed
States 3
...
No
Witnesses
Positive: 0 Negative: 3
Condition exists (1:r0=1 /\\ 1:r1=0)
Observation MP+fences Never 0 3
";
