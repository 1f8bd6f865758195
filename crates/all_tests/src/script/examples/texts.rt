//! The texts of examples/. A test reads no file, so they stand here again: tests, models and scripts byte for byte, each behind a
//! line with a sign of percent and the name of its file.

/// The first is the built-in model.
pub const EXAMPLES: &str = "
%SB.litmus
C SB
{}
P0 (atomic_int* x, atomic_int* y) {
  atomic_store_explicit(x, 1, memory_order_relaxed);
  int r0 = atomic_load_explicit(y, memory_order_relaxed);
}
P1 (atomic_int* x, atomic_int* y) {
  atomic_store_explicit(y, 1, memory_order_relaxed);
  int r0 = atomic_load_explicit(x, memory_order_relaxed);
}
exists (0:r0=0 /\\ 1:r0=0)
%RC11
include \"rc11.cat\"
%sc.cat
\"Sequential consistency\"
(* An execution is one interleaving of the threads, in which each read sees the last write. *)
let com = rf | co | fr
acyclic po | com as sc
(* Nothing comes between the read and the write of an exchange or of an addition. *)
empty rmw & (fr ; co) as atomicity
%tso.cat
\"TSO\"
(* Stores wait in a buffer of their thread, and its later loads from other locations may go ahead of them. A seq_cst fence,
   an exchange and an addition wait until the buffer is empty, and a seq_cst store is followed by such a wait: x86, as compilers use it. *)
let com = rf | co | fr
acyclic po-loc | com as coherence
empty rmw & (fr ; co) as atomicity
let kept = po & (W * W | R * M)
let fenced = po ; [F & SC] ; po
let locked = [W] ; po ; [R & RMW] | [W & (RMW | SC)] ; po ; [R]
acyclic kept | fenced | locked | rfe | co | fr as tso
%fences.cat
\"Fences\"
(* Only a fence keeps accesses of a thread to different locations in order: a seq_cst fence all of them, a release fence what is
   before it from later writes, an acquire fence earlier reads from what is behind it. *)
let com = rf | co | fr
acyclic po-loc | com as coherence
empty rmw & (fr ; co) as atomicity
(* from an event of a to a later one of c, with an event of b between them *)
let over(a, b, c) = [a] ; fencerel(b) ; [c]
let released = over(M, F & (REL | ACQ_REL), W)
let acquired = over(R, F & (ACQ | ACQ_REL), M)
acyclic fencerel(F & SC) | released | acquired | rfe | co | fr as fences
%SB+sc.litmus
C SB+sc
Store buffering with seq_cst accesses: the two threads can't both miss the other's store.
{}
P0 (atomic_int* x, atomic_int* y) {
  atomic_store(x, 1);
  int r0 = atomic_load(y);
}
P1 (atomic_int* x, atomic_int* y) {
  atomic_store(y, 1);
  int r0 = atomic_load(x);
}
exists (0:r0=0 /\\ 1:r0=0)
%SB+fences.litmus
C SB+fences
Store buffering with relaxed accesses and a seq_cst fence between the two of each thread.
{}
P0 (atomic_int* x, atomic_int* y) {
  atomic_store_explicit(x, 1, memory_order_relaxed);
  atomic_thread_fence(memory_order_seq_cst);
  int r0 = atomic_load_explicit(y, memory_order_relaxed);
}
P1 (atomic_int* x, atomic_int* y) {
  atomic_store_explicit(y, 1, memory_order_relaxed);
  atomic_thread_fence(memory_order_seq_cst);
  int r0 = atomic_load_explicit(x, memory_order_relaxed);
}
exists (0:r0=0 /\\ 1:r0=0)
%SB+forall.litmus
C SB+forall
Store buffering asked the other way round: does each execution end with at least one 1?
{}
P0 (atomic_int* x, atomic_int* y) {
  atomic_store_explicit(x, 1, memory_order_relaxed);
  int r0 = atomic_load_explicit(y, memory_order_relaxed);
}
P1 (atomic_int* x, atomic_int* y) {
  atomic_store_explicit(y, 1, memory_order_relaxed);
  int r0 = atomic_load_explicit(x, memory_order_relaxed);
}
forall (0:r0=1 \\/ 1:r0=1)
%MP.litmus
C MP
Message passing: the second thread sees the flag, and not the message.
{}
P0 (atomic_int* x, atomic_int* y) {
  atomic_store_explicit(x, 1, memory_order_relaxed); // the message
  atomic_store_explicit(y, 1, memory_order_relaxed); // the flag
}
P1 (atomic_int* x, atomic_int* y) {
  int r0 = atomic_load_explicit(y, memory_order_relaxed);
  int r1 = atomic_load_explicit(x, memory_order_relaxed);
}
exists (1:r0=1 /\\ 1:r1=0)
%MP+rel.litmus
C MP+rel
Message passing with a release store alone: the load of the flag doesn't acquire.
{}
P0 (atomic_int* x, atomic_int* y) {
  atomic_store_explicit(x, 1, memory_order_relaxed); // the message
  atomic_store_explicit(y, 1, memory_order_release); // the flag
}
P1 (atomic_int* x, atomic_int* y) {
  int r0 = atomic_load_explicit(y, memory_order_relaxed);
  int r1 = atomic_load_explicit(x, memory_order_relaxed);
}
exists (1:r0=1 /\\ 1:r1=0)
%MP+rel+acq.litmus
C MP+rel+acq
Message passing with a release store and an acquire load of the flag: who sees the flag sees the message.
{}
P0 (atomic_int* x, atomic_int* y) {
  atomic_store_explicit(x, 1, memory_order_relaxed); // the message
  atomic_store_explicit(y, 1, memory_order_release); // the flag
}
P1 (atomic_int* x, atomic_int* y) {
  int r0 = atomic_load_explicit(y, memory_order_acquire);
  int r1 = atomic_load_explicit(x, memory_order_relaxed);
}
exists (1:r0=1 /\\ 1:r1=0)
%MP+fences.litmus
C MP+fences
Message passing with relaxed accesses and fences: release behind the message, acquire behind the load of the flag.
{}
P0 (atomic_int* x, atomic_int* y) {
  atomic_store_explicit(x, 1, memory_order_relaxed); // the message
  atomic_thread_fence(memory_order_release);
  atomic_store_explicit(y, 1, memory_order_relaxed); // the flag
}
P1 (atomic_int* x, atomic_int* y) {
  int r0 = atomic_load_explicit(y, memory_order_relaxed);
  atomic_thread_fence(memory_order_acquire);
  int r1 = atomic_load_explicit(x, memory_order_relaxed);
}
exists (1:r0=1 /\\ 1:r1=0)
%LB.litmus
C LB
Load buffering: each thread reads what the other writes later.
{}
P0 (atomic_int* x, atomic_int* y) {
  int r0 = atomic_load_explicit(x, memory_order_relaxed);
  atomic_store_explicit(y, 1, memory_order_relaxed);
}
P1 (atomic_int* x, atomic_int* y) {
  int r0 = atomic_load_explicit(y, memory_order_relaxed);
  atomic_store_explicit(x, 1, memory_order_relaxed);
}
exists (0:r0=1 /\\ 1:r0=1)
%IRIW.litmus
C IRIW
Independent reads of independent writes: two readers see two stores in opposite orders.
{}
P0 (atomic_int* x) {
  atomic_store_explicit(x, 1, memory_order_release);
}
P1 (atomic_int* y) {
  atomic_store_explicit(y, 1, memory_order_release);
}
P2 (atomic_int* x, atomic_int* y) {
  int r0 = atomic_load_explicit(x, memory_order_acquire);
  int r1 = atomic_load_explicit(y, memory_order_acquire);
}
P3 (atomic_int* x, atomic_int* y) {
  int r0 = atomic_load_explicit(y, memory_order_acquire);
  int r1 = atomic_load_explicit(x, memory_order_acquire);
}
exists (2:r0=1 /\\ 2:r1=0 /\\ 3:r0=1 /\\ 3:r1=0)
%IRIW+sc.litmus
C IRIW+sc
Independent reads of independent writes, with seq_cst accesses: all threads see the stores in one order.
{}
P0 (atomic_int* x) {
  atomic_store(x, 1);
}
P1 (atomic_int* y) {
  atomic_store(y, 1);
}
P2 (atomic_int* x, atomic_int* y) {
  int r0 = atomic_load(x);
  int r1 = atomic_load(y);
}
P3 (atomic_int* x, atomic_int* y) {
  int r0 = atomic_load(y);
  int r1 = atomic_load(x);
}
exists (2:r0=1 /\\ 2:r1=0 /\\ 3:r0=1 /\\ 3:r1=0)
%2+2W.litmus
C 2+2W
Two threads write two locations in opposite orders: the final values are those of the co-last writes.
{}
P0 (atomic_int* x, atomic_int* y) {
  atomic_store_explicit(x, 1, memory_order_relaxed);
  atomic_store_explicit(y, 2, memory_order_relaxed);
}
P1 (atomic_int* x, atomic_int* y) {
  atomic_store_explicit(y, 1, memory_order_relaxed);
  atomic_store_explicit(x, 2, memory_order_relaxed);
}
exists ([x]=1 /\\ [y]=1)
%CoRR.litmus
C CoRR
Coherence of two reads: after the new value a thread can't read the old one of the same location.
{}
P0 (atomic_int* x) {
  atomic_store_explicit(x, 1, memory_order_relaxed);
}
P1 (atomic_int* x) {
  int r0 = atomic_load_explicit(x, memory_order_relaxed);
  int r1 = atomic_load_explicit(x, memory_order_relaxed);
}
exists (1:r0=1 /\\ 1:r1=0)
%race.litmus
C race
A data race: nothing orders the plain store of the message and the plain load of it.
{}
P0 (int* x, atomic_int* y) {
  *x = 1;
  atomic_store_explicit(y, 1, memory_order_relaxed);
}
P1 (int* x, atomic_int* y) {
  int r0 = atomic_load_explicit(y, memory_order_relaxed);
  int r1 = *x;
}
exists (1:r0=1 /\\ 1:r1=0)
%race-free.litmus
C race-free
The race mended: the message is read only where the flag was seen, by an acquire load of a release store.
{}
P0 (int* x, atomic_int* y) {
  *x = 1;
  atomic_store_explicit(y, 1, memory_order_release);
}
P1 (int* x, atomic_int* y) {
  int r0 = atomic_load_explicit(y, memory_order_acquire);
  if (r0 == 1) { int r1 = *x; }
}
exists (1:r0=1 /\\ 1:r1=0)
%RS.litmus
C RS
A release sequence: the exchange of P1 is relaxed, and yet who acquires from it synchronizes with the release of P0.
{}
P0 (atomic_int* x, atomic_int* y) {
  atomic_store_explicit(x, 1, memory_order_relaxed);
  atomic_store_explicit(y, 1, memory_order_release);
}
P1 (atomic_int* y) {
  int r0 = atomic_exchange_explicit(y, 2, memory_order_relaxed);
}
P2 (atomic_int* x, atomic_int* y) {
  int r0 = atomic_load_explicit(y, memory_order_acquire);
  int r1 = atomic_load_explicit(x, memory_order_relaxed);
}
exists (1:r0=1 /\\ 2:r0=2 /\\ 2:r1=0)
%RS+load+store.litmus
C RS+load+store
The release sequence broken: a load and a store in place of the exchange don't carry it on.
{}
P0 (atomic_int* x, atomic_int* y) {
  atomic_store_explicit(x, 1, memory_order_relaxed);
  atomic_store_explicit(y, 1, memory_order_release);
}
P1 (atomic_int* y) {
  int r0 = atomic_load_explicit(y, memory_order_relaxed);
  atomic_store_explicit(y, 2, memory_order_relaxed);
}
P2 (atomic_int* x, atomic_int* y) {
  int r0 = atomic_load_explicit(y, memory_order_acquire);
  int r1 = atomic_load_explicit(x, memory_order_relaxed);
}
exists (1:r0=1 /\\ 2:r0=2 /\\ 2:r1=0)
%RS+same.litmus
C RS+same
A release sequence of one thread: its later relaxed store to the same location belongs to it.
{}
P0 (atomic_int* x, atomic_int* y) {
  atomic_store_explicit(x, 1, memory_order_relaxed);
  atomic_store_explicit(y, 1, memory_order_release);
  atomic_store_explicit(y, 2, memory_order_relaxed);
}
P1 (atomic_int* x, atomic_int* y) {
  int r0 = atomic_load_explicit(y, memory_order_acquire);
  int r1 = atomic_load_explicit(x, memory_order_relaxed);
}
exists (1:r0=2 /\\ 1:r1=0)
%counter.litmus
C counter
Two threads count up with relaxed additions: neither overwrites what the other has counted.
{}
P0 (atomic_int* x) {
  int r0 = atomic_fetch_add_explicit(x, 1, memory_order_relaxed);
}
P1 (atomic_int* x) {
  int r0 = atomic_fetch_add_explicit(x, 1, memory_order_relaxed);
}
exists ([x]=1)
%RS+add.litmus
C RS+add
A release sequence through an addition: who acquires from it synchronizes with the release that it read from.
{}
P0 (atomic_int* x, atomic_int* y) {
  atomic_store_explicit(x, 1, memory_order_relaxed);
  atomic_store_explicit(y, 1, memory_order_release);
}
P1 (atomic_int* y) {
  int r0 = atomic_fetch_add_explicit(y, 1, memory_order_relaxed);
}
P2 (atomic_int* x, atomic_int* y) {
  int r0 = atomic_load_explicit(y, memory_order_acquire);
  int r1 = atomic_load_explicit(x, memory_order_relaxed);
}
exists (2:r0=2 /\\ 2:r1=0)
%swap.litmus
C swap
Two exchanges: only one of them can be the first.
{}
P0 (atomic_int* x) {
  int r0 = atomic_exchange_explicit(x, 1, memory_order_relaxed);
}
P1 (atomic_int* x) {
  int r0 = atomic_exchange_explicit(x, 2, memory_order_relaxed);
}
exists (0:r0=0 /\\ 1:r0=0)
%initial.litmus
C initial
An initial state: typed entries, a register, a comment, and two entries for one place, of which the later holds.
{
  int x = 4; x = 5;   // x begins with 5
  [y];                (* y begins with 0 (* as every place without an entry does *) *)
  0:r1 = 7;           /* a register of thread 0 */
}
P0 (atomic_int* x, atomic_int* y) {
  int r0 = atomic_load_explicit(x, memory_order_relaxed);
  atomic_store_explicit(y, 3, memory_order_relaxed);
}
exists (0:r0=5 /\\ 0:r1=7 /\\ [y]=3)
%teaching.script
# A session, 0, puts a model and a test, and asks for the verdict under two models.
0 cat sc.cat
\"Sequential consistency\"
(* An execution is one interleaving of the threads, in which each read sees the last write. *)
let com = rf | co | fr
acyclic po | com as sc
(* Nothing comes between the read and the write of an exchange or of an addition. *)
empty rmw & (fr ; co) as atomicity
.
0 test
C SB
{}
P0 (atomic_int* x, atomic_int* y) {
  atomic_store_explicit(x, 1, memory_order_relaxed);
  int r0 = atomic_load_explicit(y, memory_order_relaxed);
}
P1 (atomic_int* x, atomic_int* y) {
  atomic_store_explicit(y, 1, memory_order_relaxed);
  int r0 = atomic_load_explicit(x, memory_order_relaxed);
}
exists (0:r0=0 /\\ 1:r0=0)
.
0 ask SB rc11.cat
0 ask SB sc.cat
# Another session, 1, has time, and does the work of both jobs.
1 claim
1 return 1
1 claim
1 return 2
# Both verdicts are there.
0 poll 1
0 poll 2
%teaching.out
version sc.cat 1
version SB 1
job 1
job 2
piece 1 job 1 slice 0 from 0 to 16
taken 1 1
piece 2 job 2 slice 0 from 0 to 16
taken 1 1
verdict SB 1 rc11.cat 0
Test SB Allowed
States 4
0:r0=0; 1:r0=0;
0:r0=0; 1:r0=1;
0:r0=1; 1:r0=0;
0:r0=1; 1:r0=1;
Ok
Witnesses
Positive: 1 Negative: 3
Condition exists (0:r0=0 /\\ 1:r0=0)
Observation SB Sometimes 1 3
verdict SB 1 sc.cat 1
Test SB Allowed
States 3
0:r0=0; 1:r0=1;
0:r0=1; 1:r0=0;
0:r0=1; 1:r0=1;
No
Witnesses
Positive: 0 Negative: 3
Condition exists (0:r0=0 /\\ 1:r0=0)
Observation SB Never 0 3
finish ok 10
%versions.script
# A model of two files. The first version of common.cat forgets fr.
0 cat common.cat
let com = rf | co
.
0 cat mine.cat
include \"common.cat\"
acyclic po | com as mine
.
0 test
C SB
{}
P0 (atomic_int* x, atomic_int* y) {
  atomic_store_explicit(x, 1, memory_order_relaxed);
  int r0 = atomic_load_explicit(y, memory_order_relaxed);
}
P1 (atomic_int* x, atomic_int* y) {
  atomic_store_explicit(y, 1, memory_order_relaxed);
  int r0 = atomic_load_explicit(x, memory_order_relaxed);
}
exists (0:r0=0 /\\ 1:r0=0)
.
0 ask SB mine.cat
1 claim
# While session 1 is at work, session 0 mends the file: the job of the old version is replaced.
0 cat common.cat
let com = rf | co | fr
.
1 return 1
0 poll 1
# Asked again, the verdict is of the new version.
0 ask SB mine.cat
1 claim
1 return 2
0 poll 2
%versions.out
version common.cat 1
version mine.cat 1
version SB 1
job 1
piece 1 job 1 slice 0 from 0 to 16
version common.cat 2
refused 79 Replaced cat common.cat 2
refused 79 Replaced cat common.cat 2
job 2
piece 2 job 2 slice 0 from 0 to 16
taken 1 1
verdict SB 1 mine.cat 1 common.cat 2
Test SB Allowed
States 3
0:r0=0; 1:r0=1;
0:r0=1; 1:r0=0;
0:r0=1; 1:r0=1;
No
Witnesses
Positive: 0 Negative: 3
Condition exists (0:r0=0 /\\ 1:r0=0)
Observation SB Never 0 3
finish ok 12
";
