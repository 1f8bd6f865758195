//! Rows of sizes: texts that are made of parts, each so many times.

/// Tests of one thread on x that makes a statement so often (`sizes`), a model of many items that each hold, which is judged as one of none
/// (`many_items`), cat texts that are too large (`hostile_input_row_4`), and functions of which each next is the union of two calls of the
/// one before (`functions`).
pub const ROWS: &str = "
=== sizes: 63 fences
C E
{}
P0 (atomic_int* x) {
%63 times atomic_thread_fence(memory_order_seq_cst);
%}
exists (x=0)

+++ one

---
...
Observation E Always 1 0
=== sizes: 12 loads
C E
{}
P0 (atomic_int* x) {
%12 times r0 = atomic_load_explicit(x, memory_order_relaxed);
%}
exists (0:r0=0)

+++ one

---
...
Observation E Always 1 0
=== sizes: 64 fences
C E
{}
P0 (atomic_int* x) {
%64 times atomic_thread_fence(memory_order_seq_cst);
%}
exists (x=0)

+++ one

---
refused 21 TooManyEvents
=== sizes: 13 loads
C E
{}
P0 (atomic_int* x) {
%13 times r0 = atomic_load_explicit(x, memory_order_relaxed);
%}
exists (0:r0=0)

+++ one

---
refused 31 TooManyRuns 0
=== sizes: 13 stores
C E
{}
P0 (atomic_int* x) {
%13 times atomic_store_explicit(x, 1, memory_order_relaxed);
%}
exists (x=0)

+++ one

---
refused 41 TooManyCandidates
=== many_items: 2,047 items
%SB%
+++ one
%2047 times empty 0 %
---
%SB summary%=== hostile_input_row_4: 65 parentheses
%SB%
+++ one
empty %65 times (%
---
refused 54 TooDeep
=== hostile_input_row_4: 2,049 items
%SB%
+++ one
%2049 times empty 0 %
---
refused 55 TooLarge
=== hostile_input_row_4: 300 includes
%SB%
+++ one
%300 times include \"rc11.cat\" %
---
refused 68 ModelTooLarge
=== functions: 65,536 nodes with each call replaced
%SB%
+++ one
let f(x) = x | x %14 times let f(x) = f(x) | f(x) %empty f(0)
---
%SB summary%=== functions: 131,072 nodes with each call replaced
%SB%
+++ one
let f(x) = x | x %15 times let f(x) = f(x) | f(x) %empty f(0)
---
refused 69 CallsTooLarge empty
=== functions: arguments that are dropped
%SB%
+++ one
let k(a, b) = a let f(x) = x %60 times let f(x) = k(0, f(x) | f(x)) %empty f(po)
---
%SB summary%";
