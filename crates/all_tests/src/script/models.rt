//! Rows of a test under models.

pub const ROWS: &str = "
=== worked_rows: sb_sc, 1
C SB {}
P0 (atomic_int* x, atomic_int* y) { atomic_store(x, 1); int r0 = atomic_load(y); }
P1 (atomic_int* x, atomic_int* y) { atomic_store(y, 1); int r0 = atomic_load(x); }
exists (0:r0=0 /\\ 1:r0=0)
+++ one
acyclic (po | rf | co | fr)
include \"rc11.cat\"
---
...
%SB never%=== worked_rows: sb_sc, 2
C SB {}
P0 (atomic_int* x, atomic_int* y) { atomic_store(x, 1); int r0 = atomic_load(y); }
P1 (atomic_int* x, atomic_int* y) { atomic_store(y, 1); int r0 = atomic_load(x); }
exists (0:r0=0 /\\ 1:r0=0)
+++ one

---
...
Observation SB Sometimes 1 3
=== worked_rows: sb_sc, 3
C SB {}
P0 (atomic_int* x, atomic_int* y) { atomic_store(x, 1); int r0 = atomic_load(y); }
P1 (atomic_int* x, atomic_int* y) { atomic_store(y, 1); int r0 = atomic_load(x); }
exists (0:r0=0 /\\ 1:r0=0)
+++ one
~acyclic 0
---
...
Observation SB Never 0 0
=== worked_rows: none_allowed
%store buffering%
+++ one
~acyclic 0
---
...
Test SB Allowed
States 0
No
Witnesses
Positive: 0 Negative: 0
Condition exists (0:r0=0 /\\ 1:r0=0)
Observation SB Never 0 0
=== worked_rows: none_allowed, forall
C SB {}
P0 (atomic_int* x, atomic_int* y) { atomic_store(x, 1); int r0 = atomic_load(y); }
P1 (atomic_int* x, atomic_int* y) { atomic_store(y, 1); int r0 = atomic_load(x); }
forall (0:r0=0 /\\ 1:r0=0)
+++ one
~acyclic 0
---
...
Test SB Required
States 0
Ok
Witnesses
Positive: 0 Negative: 0
Condition forall (0:r0=0 /\\ 1:r0=0)
Observation SB Never 0 0
=== SC events in some runs alone, 1
C SOME {}
P0 (atomic_int* x, atomic_int* y, atomic_int* z) { int r0 = 1; int r2 = atomic_load_explicit(z, memory_order_relaxed); if (r2) { atomic_store(x, 1); r0 = atomic_load(y); } }
P1 (atomic_int* x, atomic_int* y, atomic_int* z) { int r1 = 1; int r3 = atomic_load_explicit(z, memory_order_relaxed); if (r3) { atomic_store(y, 1); r1 = atomic_load(x); } }
P2 (atomic_int* z) { atomic_store_explicit(z, 1, memory_order_relaxed); }
exists (0:r0=0 /\\ 1:r1=0)
+++ one
include \"rc11.cat\"
---
...
Observation SOME Never 0 6
=== SC events in some runs alone, 2
C LBF {}
P0 (atomic_int* x, atomic_int* y) { int r0 = atomic_load_explicit(x, memory_order_relaxed); atomic_store_explicit(y, 1, memory_order_relaxed); if (r0) { atomic_thread_fence(memory_order_seq_cst); } }
P1 (atomic_int* x, atomic_int* y) { int r0 = atomic_load_explicit(y, memory_order_relaxed); atomic_store_explicit(x, 1, memory_order_relaxed); }
exists (0:r0=1 /\\ 1:r0=1)
+++ one
include \"rc11.cat\"
---
...
Observation LBF Never 0 3
=== SC events in some runs alone, flagged
C LBF {}
P0 (atomic_int* x, atomic_int* y) { int r0 = atomic_load_explicit(x, memory_order_relaxed); atomic_store_explicit(y, 1, memory_order_relaxed); if (r0) { atomic_thread_fence(memory_order_seq_cst); } }
P1 (atomic_int* x, atomic_int* y) { int r0 = atomic_load_explicit(y, memory_order_relaxed); atomic_store_explicit(x, 1, memory_order_relaxed); }
exists (0:r0=1 /\\ 1:r0=1)
+++ one
let fenced = po ; [F & SC] acyclic (po | rf | fenced) flag ~empty fenced as seen
---
...
Positive: 0 Negative: 3
Flag seen
Condition exists (0:r0=1 /\\ 1:r0=1)
Observation LBF Never 0 3
=== worked_rows: let_rec, 1
%store buffering%
+++ one
let rec r = r flag empty r as none
---
...
Positive: 1 Negative: 3
Flag none
Condition exists (0:r0=0 /\\ 1:r0=0)
Observation SB Sometimes 1 3
=== worked_rows: let_rec, 2
%store buffering%
+++ one
flag empty (W \\ W \\ W) as left
---
...
Positive: 1 Negative: 3
Flag left
Condition exists (0:r0=0 /\\ 1:r0=0)
Observation SB Sometimes 1 3
=== worked_rows: let_rec, 3
%store buffering%
+++ one
flag ~empty fr as read acyclic (po | rf | co | fr)
---
...
Positive: 0 Negative: 3
Flag read
Condition exists (0:r0=0 /\\ 1:r0=0)
Observation SB Never 0 3
=== worked_rows: mp, released and acquired
C MP {}
P0 (atomic_int* x, atomic_int* y) {
  atomic_store_explicit(x, 1, memory_order_relaxed);
  atomic_store_explicit(y, 1, memory_order_release);
}
P1 (atomic_int* x, atomic_int* y) {
  int r0 = atomic_load_explicit(y, memory_order_acquire);
  int r1 = atomic_load_explicit(x, memory_order_relaxed);
}
exists (1:r0=1 /\\ 1:r1=0)
+++ one
include \"rc11.cat\"
---
...
Observation MP Never 0 3
=== worked_rows: mp, relaxed
C MP {}
P0 (atomic_int* x, atomic_int* y) {
  atomic_store_explicit(x, 1, memory_order_relaxed);
  atomic_store_explicit(y, 1, memory_order_relaxed);
}
P1 (atomic_int* x, atomic_int* y) {
  int r0 = atomic_load_explicit(y, memory_order_relaxed);
  int r1 = atomic_load_explicit(x, memory_order_relaxed);
}
exists (1:r0=1 /\\ 1:r1=0)
+++ one
include \"rc11.cat\"
---
...
Observation MP Sometimes 1 3
=== worked_rows: lb
C LB {}
P0 (atomic_int* x, atomic_int* y) {
  int r0 = atomic_load_explicit(x, memory_order_relaxed);
  atomic_store_explicit(y, 1, memory_order_relaxed);
}
P1 (atomic_int* x, atomic_int* y) {
  int r0 = atomic_load_explicit(y, memory_order_relaxed);
  atomic_store_explicit(x, 1, memory_order_relaxed);
}
exists (0:r0=1 /\\ 1:r0=1)
+++ one
include \"rc11.cat\"
---
...
Observation LB Never 0 3
=== worked_rows: lb_data, 1
C LB {}
P0 (atomic_int* x, atomic_int* y) {
  int r0 = atomic_load_explicit(x, memory_order_relaxed);
  atomic_store_explicit(y, r0, memory_order_relaxed);
}
P1 (atomic_int* x, atomic_int* y) {
  int r1 = atomic_load_explicit(y, memory_order_relaxed);
  atomic_store_explicit(x, r1, memory_order_relaxed);
}
exists (0:r0=1)
+++ one

---
...
Observation LB Sometimes 1 4
=== worked_rows: lb_data, 2
C LB {}
P0 (atomic_int* x, atomic_int* y) {
  int r0 = atomic_load_explicit(x, memory_order_relaxed);
  atomic_store_explicit(y, r0, memory_order_relaxed);
}
P1 (atomic_int* x, atomic_int* y) {
  int r1 = atomic_load_explicit(y, memory_order_relaxed);
  atomic_store_explicit(x, r1, memory_order_relaxed);
}
exists (0:r0=1)
+++ one
include \"rc11.cat\"
acyclic (data | rf)
---
...
Observation LB Never 0 3
=== worked_rows: exchanges
C X {}
P0 (atomic_int* x) { int r0 = atomic_exchange_explicit(x, 1, memory_order_relaxed); }
P1 (atomic_int* x) { int r1 = atomic_exchange_explicit(x, 2, memory_order_relaxed); }
exists (0:r0=0 /\\ 1:r1=0)
+++ one
include \"rc11.cat\"
---
...
Observation X Never 0 2
=== worked_rows: exchanges, each execution
C X {}
P0 (atomic_int* x) { int r0 = atomic_exchange_explicit(x, 1, memory_order_relaxed); }
P1 (atomic_int* x) { int r1 = atomic_exchange_explicit(x, 2, memory_order_relaxed); }
exists true
+++ one

---
...
Observation X Always 18 0
=== worked_rows: sb_fences
%store buffering with fences%
+++ one
include \"rc11.cat\"
---
...
Observation SB Never 0 3
=== worked_rows: 2+2W, relaxed
C W {}
P0 (atomic_int* x, atomic_int* y) {
  atomic_store_explicit(x, 1, memory_order_relaxed);
  atomic_store_explicit(y, 2, memory_order_relaxed);
}
P1 (atomic_int* x, atomic_int* y) {
  atomic_store_explicit(y, 1, memory_order_relaxed);
  atomic_store_explicit(x, 2, memory_order_relaxed);
}
exists ([x]=1 /\\ [y]=1)
+++ one
include \"rc11.cat\"
---
...
Observation W Sometimes 1 3
=== worked_rows: 2+2W, seq_cst
C W {}
P0 (atomic_int* x, atomic_int* y) { atomic_store(x, 1); atomic_store(y, 2); }
P1 (atomic_int* x, atomic_int* y) { atomic_store(y, 1); atomic_store(x, 2); }
exists ([x]=1 /\\ [y]=1)
+++ one
include \"rc11.cat\"
---
...
Observation W Never 0 3
=== worked_rows: race
C MP {}
P0 (int* x, atomic_int* y) {
  *x = 1;
  atomic_store_explicit(y, 1, memory_order_relaxed);
}
P1 (int* x, atomic_int* y) {
  int r0 = atomic_load_explicit(y, memory_order_relaxed);
  int r1 = *x;
}
exists (1:r0=1 /\\ 1:r1=0)
+++ one
include \"rc11.cat\"
---
...
Positive: 1 Negative: 3
Flag data-race
Condition exists (1:r0=1 /\\ 1:r1=0)
Observation MP Sometimes 1 3
=== worked_rows: race_guarded
C MP {}
P0 (int* x, atomic_int* y) {
  *x = 1;
  atomic_store_explicit(y, 1, memory_order_release);
}
P1 (int* x, atomic_int* y) {
  int r0 = atomic_load_explicit(y, memory_order_acquire);
  if (r0 == 1) { int r1 = *x; }
}
exists (1:r0=1 /\\ 1:r1=0)
+++ one
include \"rc11.cat\"
---
...
Positive: 0 Negative: 2
Condition exists (1:r0=1 /\\ 1:r1=0)
Observation MP Never 0 2
=== worked_rows: iriw
C IRIW { 0:r8=2; 0:r9=3; }
P0 (atomic_int* x) { atomic_store_explicit(x, 1, memory_order_release); }
P1 (atomic_int* y) { atomic_store_explicit(y, 1, memory_order_release); }
P2 (atomic_int* x, atomic_int* y) {
  int r0 = atomic_load_explicit(x, memory_order_acquire);
  int r1 = atomic_load_explicit(y, memory_order_acquire);
}
P3 (atomic_int* x, atomic_int* y) {
  int r0 = atomic_load_explicit(y, memory_order_acquire);
  int r1 = atomic_load_explicit(x, memory_order_acquire);
}
exists (2:r0=1 /\\ 2:r1=0 /\\ 3:r0=1 /\\ 3:r1=0)
+++ one
include \"rc11.cat\"
---
...
Observation IRIW Sometimes 1 15
=== worked_rows: ctrl, 1
C L {}
P0 (atomic_int* x, atomic_int* y) {
  int r0 = atomic_load_explicit(x, memory_order_relaxed);
  if (r0 == 1) { atomic_store_explicit(y, 1, memory_order_relaxed); }
}
P1 (atomic_int* x, atomic_int* y) {
  int r0 = atomic_load_explicit(y, memory_order_relaxed);
  if (r0 == 1) { atomic_store_explicit(x, 1, memory_order_relaxed); }
}
exists (0:r0=1)
+++ one

---
...
Observation L Sometimes 1 1
=== worked_rows: ctrl, 2
C L {}
P0 (atomic_int* x, atomic_int* y) {
  int r0 = atomic_load_explicit(x, memory_order_relaxed);
  if (r0 == 1) { atomic_store_explicit(y, 1, memory_order_relaxed); }
}
P1 (atomic_int* x, atomic_int* y) {
  int r0 = atomic_load_explicit(y, memory_order_relaxed);
  if (r0 == 1) { atomic_store_explicit(x, 1, memory_order_relaxed); }
}
exists (0:r0=1)
+++ one
acyclic (ctrl | rf)
---
...
Observation L Never 0 1
=== worked_rows: ctrl_ends_behind_the_arm
C L {}
P0 (atomic_int* x, atomic_int* y) {
  int r0 = atomic_load_explicit(x, memory_order_relaxed);
  if (r0 == 1) {}
  atomic_store_explicit(y, 1, memory_order_relaxed);
}
P1 (atomic_int* x, atomic_int* y) {
  int r0 = atomic_load_explicit(y, memory_order_relaxed);
  if (r0 == 1) {}
  atomic_store_explicit(x, 1, memory_order_relaxed);
}
exists (0:r0=1 /\\ 1:r0=1)
+++ one
acyclic (ctrl | rf)
---
...
Observation L Sometimes 1 3
=== rows_of_adds: Fetch-add-row-1, 1
C A {}
P0 (atomic_int* x) { int r0 = atomic_fetch_add_explicit(x, 1, memory_order_relaxed); }
P1 (atomic_int* x) { int r1 = atomic_fetch_add_explicit(x, 1, memory_order_relaxed); }
exists (0:r0=0 /\\ 1:r1=0)
+++ one

---
...
Observation A Sometimes 2 4
=== rows_of_adds: Fetch-add-row-1, 2
C A {}
P0 (atomic_int* x) { int r0 = atomic_fetch_add_explicit(x, 1, memory_order_relaxed); }
P1 (atomic_int* x) { int r1 = atomic_fetch_add_explicit(x, 1, memory_order_relaxed); }
exists (0:r0=0 /\\ 1:r1=0)
+++ one
include \"rc11.cat\"
---
...
Observation A Never 0 2
=== rows_of_adds: Fetch-add-row-2
C R {}
P0 (int* x, atomic_int* y) { *x = 1; atomic_store_explicit(y, 1, memory_order_release); }
P1 (atomic_int* y) { int r2 = atomic_fetch_add_explicit(y, 1, memory_order_relaxed); }
P2 (int* x, atomic_int* y) { int r0 = atomic_load_explicit(y, memory_order_acquire); if (r0 == 2) { int r1 = *x; } }
exists (2:r0=2 /\\ 2:r1=0)
+++ one
include \"rc11.cat\"
---
...
Positive: 0 Negative: 6
Condition exists (2:r0=2 /\\ 2:r1=0)
Observation R Never 0 6
=== rows_of_adds: an add of 0, which may read its own write, 1
C Z {}
P0 (atomic_int* x) { atomic_fetch_add_explicit(x, 0, memory_order_relaxed); }
exists true
+++ one

empty RMW \\ (A & RLX) ~empty rmw & data
---
...
Observation Z Always 3 0
=== rows_of_adds: an add of 0, which may read its own write, 2
C Z {}
P0 (atomic_int* x) { atomic_fetch_add_explicit(x, 0, memory_order_relaxed); }
exists true
+++ one
include \"rc11.cat\"
---
...
Observation Z Always 1 0
=== functions: Cat-functions-row-1, 1
%store buffering with fences%
+++ one
acyclic (fencerel(F & SC) | fr)
let fence(b) = (po & (_ * b)) ; po acyclic (fence(F & SC) | fr)
let po = 0 acyclic (fencerel(F) | fr)
---
...
Observation SB Never 0 3
=== functions: Cat-functions-row-1, 2
%store buffering with fences%
+++ one
acyclic (fencerel(F & ACQ) | fr)
let fencerel(b) = 0 acyclic (fencerel(F & SC) | fr)
---
...
Observation SB Sometimes 1 3
=== functions: Cat-functions-row-2
%store buffering%
+++ one
let r = po let f(x) = x | r let r = 0 flag ~empty (f(r) \\ 0) as kept
---
...
Positive: 1 Negative: 3
Flag kept
Condition exists (0:r0=0 /\\ 1:r0=0)
Observation SB Sometimes 1 3
=== functions: Cat-functions-row-3, 1
%store buffering%
+++ one
let f(x) = [x] acyclic f(W)
---
...
Observation SB Never 0 0
=== functions: Cat-functions-row-3, 2
%store buffering%
+++ one
let f(x) = ~x let rec r = f(r)
---
refused 66 NotMonotone r
=== functions: Cat-functions-row-3, 3
%store buffering%
+++ one
let f(x) = [x] acyclic f(po)
---
refused 65 WrongSort acyclic
=== functions: Cat-functions-row-3, 4
%store buffering%
+++ one
let f(x) = [x] empty f(W, R)
---
refused 65 WrongSort empty
=== functions: Cat-functions-row-3, 5
%store buffering%
+++ one
let f(x) = f(x)
---
refused 64 Unbound f
=== functions: Cat-functions-row-3, 6
%store buffering%
+++ one
let rec f(x) = x
---
refused 53 Unsupported f
=== refused_rows: flags_and_includes, 1
%store buffering%
+++ one
include \"none.cat\"
---
refused 62 NoInclude none.cat
=== refused_rows: flags_and_includes, 2
%store buffering%
+++ one
include \"main.cat\"
---
refused 63 IncludeCycle main.cat
=== refused_rows: flags_and_includes, 3
%store buffering%
+++ one
acyclic r
---
refused 64 Unbound r
=== refused_rows: flags_and_includes, 4
%store buffering%
+++ one
acyclic W
---
refused 65 WrongSort acyclic
=== refused_rows: flags_and_includes, 5
%store buffering%
+++ one
let rec r = ~r
---
refused 66 NotMonotone r
=== refused_rows: flags_and_includes, 6
%store buffering%
+++ one
flag empty rf
---
refused 67 FlagWithoutName
=== refused_rows: cat_texts_refused, 1
%store buffering%
+++ one
acyclic po (* as
---
refused 51 Text 3 OpenComment
=== refused_rows: cat_texts_refused, 2
%store buffering%
+++ one
let
---
refused 52 Syntax 3
=== refused_rows: cat_texts_refused, 3
%store buffering%
+++ one
procedure p () = end
---
refused 53 Unsupported procedure
=== refused_rows: first fault: of the test before the cat text
C SB
{
+++ one
let
---
refused 12 Syntax 6
=== refused_rows: first fault: of the test before the model
C SB
{ /*
+++ one
acyclic r
---
refused 11 Text 3 OpenComment
=== refused_rows: first fault: of the model before the candidates, 1
C S {}
P0 (atomic_int* x) {
  atomic_store(x, 1); atomic_store(x, 1); atomic_store(x, 1); atomic_store(x, 1); atomic_store(x, 1);
  atomic_store(x, 1); atomic_store(x, 1); atomic_store(x, 1); atomic_store(x, 1); atomic_store(x, 1);
  atomic_store(x, 1); atomic_store(x, 1); atomic_store(x, 1);
}
exists (x=1)
+++ one
let
---
refused 52 Syntax 3
=== refused_rows: first fault: of the model before the candidates, 2
C S {}
P0 (atomic_int* x) {
  atomic_store(x, 1); atomic_store(x, 1); atomic_store(x, 1); atomic_store(x, 1); atomic_store(x, 1);
  atomic_store(x, 1); atomic_store(x, 1); atomic_store(x, 1); atomic_store(x, 1); atomic_store(x, 1);
  atomic_store(x, 1); atomic_store(x, 1); atomic_store(x, 1);
}
exists (x=1)
+++ one
acyclic r
---
refused 64 Unbound r
=== refused_rows: first fault: of the model before the candidates, 3
C S {}
P0 (atomic_int* x) {
  atomic_store(x, 1); atomic_store(x, 1); atomic_store(x, 1); atomic_store(x, 1); atomic_store(x, 1);
  atomic_store(x, 1); atomic_store(x, 1); atomic_store(x, 1); atomic_store(x, 1); atomic_store(x, 1);
  atomic_store(x, 1); atomic_store(x, 1); atomic_store(x, 1);
}
exists (x=1)
+++ one

---
refused 41 TooManyCandidates
";
