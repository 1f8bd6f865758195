//! Wrong texts with their messages, which were written by hand: orders, names and limits.

use crate::messages::asked::{all_are_told, told_of_text};

/// Orders that their calls don't take.
const ORDERS: &str = "C t
{}
P0 (int* x, atomic_int* y) {
  atomic_store_explicit(y, 1, memory_order_acquire);
}
exists (x=1)
----
t.litmus:4:31: BadOrder (13): a store can't have memory_order_acquire; it takes relaxed, release or seq_cst
      atomic_store_explicit(y, 1, memory_order_acquire);
                                  ^
====
C t
{}
P0 (int* x, atomic_int* y) {
  int r = atomic_load_explicit(y, memory_order_release);
}
exists (x=1)
----
t.litmus:4:35: BadOrder (13): a load can't have memory_order_release; it takes relaxed, acquire or seq_cst
      int r = atomic_load_explicit(y, memory_order_release);
                                      ^
";

/// Names that the test doesn't have, or not of this kind.
const NAMES: &str = "C t
{}
P0 (int* x, atomic_int* y) {
  *x = 1;
}
exists (0:r0=1)
----
t.litmus:6:11: UnknownName (14): P0 has no register r0; it has those that it declares or assigns, and those of the initial state
    exists (0:r0=1)
              ^
====
C t
{}
P0 (int* x, atomic_int* y) {
  *x = 1;
}
exists (x=1 /\\ z=1)
----
t.litmus:6:16: UnknownName (14): there is no location z; a location is named in the initial state or by a parameter, and a register with its thread, as in 0:z
    exists (x=1 /\\ z=1)
                   ^
====
C t
{}
P0 (int* x, atomic_int* y) {
  *x = 1;
}
exists (3:r0=1)
----
t.litmus:6:11: UnknownName (14): there is no thread 3; the test has 1, numbered from 0
    exists (3:r0=1)
              ^
====
C t
{}
P0 (int* x, atomic_int* y) {
  *x = r1;
}
exists (x=1)
----
t.litmus:4:8: UnknownName (14): r1 is no register of P0; declare it there, as in int r1 = 0;
      *x = r1;
           ^
====
C t
{}
P0 (int* x, atomic_int* y) {
  *z = 1;
}
exists (x=1)
----
t.litmus:4:4: UnknownName (14): z is no parameter of P0; add int* z or atomic_int* z to its parameters
      *z = 1;
       ^
====
C t
{}
P0 (int* x, atomic_int* y) {
  int x = 1;
}
exists (x=1)
----
t.litmus:4:7: UnknownName (14): x is a parameter of P0, and no register; write to its location by *x = .. or by a store
      int x = 1;
          ^
====
C t
{ 0:x = 1; }
P0 (int* x, atomic_int* y) {
  *x = 1;
}
exists (x=1)
----
t.litmus:2:5: UnknownName (14): x is a parameter of P0, and no register; the location itself is x, without 0:
    { 0:x = 1; }
        ^
====
C t
{}
P0 (int* x, atomic_int* y) {
  int r = y;
}
exists (x=1)
----
t.litmus:4:11: UnknownName (14): y is a parameter of P0, and no register; read its location first, as in int r = atomic_load(y);
      int r = y;
              ^
====
C t
{}
P0 (int* x, atomic_int* y) {
  *x = 1; *y = 1;
}
exists (x=1)
----
t.litmus:4:12: PlainOnAtomic (15): y is an atomic_int* here, and takes calls alone; use atomic_load_explicit or atomic_store_explicit, or make it an int*
      *x = 1; *y = 1;
               ^
====
C t
{}
P0 (int* x, atomic_int* y) {
  int r = atomic_load(y); atomic_store(x, r);
}
exists (x=1)
----
t.litmus:4:40: AtomicOnPlain (16): x is an int* here, and takes plain access alone; make it an atomic_int*, or write *x
      int r = atomic_load(y); atomic_store(x, r);
                                           ^
====
C t
{}
P0 (int* message, atomic_int* yyyy) {
  atomic_store(yy, 1);
}
exists (yyyy=1)
----
t.litmus:4:16: UnknownName (14): yy is no parameter of P0; add int* yy or atomic_int* yy to its parameters
      atomic_store(yy, 1);
                   ^
====
C t
{}
P0 (int* message, atomic_int* y) {
  atomic_store(mesage, 1);
}
exists (y=1)
----
t.litmus:4:16: UnknownName (14): mesage is no parameter of P0; did you mean message?
      atomic_store(mesage, 1);
                   ^
====
C t
{}
P0 (int* message, atomic_int* y) {
  int r = *massage;
}
exists (y=1)
----
t.litmus:4:12: UnknownName (14): massage is no parameter of P0; did you mean message?
      int r = *massage;
               ^
====
C t
{}
P0 (int* message, atomic_int* y) {
  int result = 0; *message = resutl;
}
exists (y=1)
----
t.litmus:4:30: UnknownName (14): resutl is no register of P0; did you mean result?
      int result = 0; *message = resutl;
                                 ^
====
C t
{}
P0 (int* message, atomic_int* y) {
  int result = 0;
}
exists (0:rezult=1)
----
t.litmus:6:11: UnknownName (14): P0 has no register rezult; did you mean result?
    exists (0:rezult=1)
              ^
====
C t
{}
P0 (int* message, atomic_int* y) {
  int result = 0;
}
exists (y=1 /\\ messages=1)
----
t.litmus:6:16: UnknownName (14): there is no location messages; did you mean message?
    exists (y=1 /\\ messages=1)
                   ^
====
C t
{ 0:counter=1; flagged=1; }
P0 (int* x) {}
exists (0:countr=1)
----
t.litmus:4:11: UnknownName (14): P0 has no register countr; did you mean counter?
    exists (0:countr=1)
              ^
====
C t
{ 0:counter=1; flagged=1; }
P0 (int* x) {}
locations [flaged]
exists (x=1)
----
t.litmus:4:12: UnknownName (14): there is no location flaged; did you mean flagged?
    locations [flaged]
               ^
";

/// Words that tests leave out.
const LEFT_OUT: &str = "C t
{}
P0 (int* x, atomic_int* y) {
  while (1) {}
}
exists (x=1)
----
t.litmus:4:3: Unsupported (17): loops and jumps are left out; write the turns that matter one behind another, with if
      while (1) {}
      ^
====
C t
{}
P0 (int* x, atomic_int* y) {
  WRITE_ONCE(x, 1);
}
exists (x=1)
----
t.litmus:4:3: Unsupported (17): WRITE_ONCE is left out; write atomic_store_explicit(x, 1, memory_order_relaxed), with atomic_int* x
      WRITE_ONCE(x, 1);
      ^
====
C t
{}
P0 (int* x, atomic_int* y) {
  atomic_compare_exchange_strong(y, x, 1);
}
exists (x=1)
----
t.litmus:4:3: Unsupported (17): compare-exchange is left out, and no call of a test does the same; if only its success matters, write int r = atomic_exchange_explicit(x, 1, o) with its order o for success, and ask in the condition that r is the value that it expects
      atomic_compare_exchange_strong(y, x, 1);
      ^
====
C t
{}
P0 (int* x, atomic_int* y) {
  atomic_fetch_sub(y, 1);
}
exists (x=1)
----
t.litmus:4:3: Unsupported (17): of the calls that read and write, a test has atomic_exchange and atomic_fetch_add alone
      atomic_fetch_sub(y, 1);
      ^
====
C t
{}
P0 (int* x, atomic_int* y) {
  atomic_stor(y, 1);
}
exists (x=1)
----
t.litmus:4:3: Unsupported (17): atomic_stor is no call of a test; did you mean atomic_store?
      atomic_stor(y, 1);
      ^
====
C t
{}
P0 (int* x, atomic_int* y) {
  atomic_store_explicit(y, 1, memory_order_relaxd);
}
exists (x=1)
----
t.litmus:4:31: Unsupported (17): memory_order_relaxd is no order: they are relaxed, acquire, release, acq_rel and seq_cst; did you mean memory_order_relaxed?
      atomic_store_explicit(y, 1, memory_order_relaxd);
                                  ^
====
C t
{}
P0 (int* x, atomic_int* y) {
  int atomic_r = 1; atomic_r(y);
}
exists (x=1)
----
t.litmus:4:21: Unsupported (17): atomic_r is no call of a test
      int atomic_r = 1; atomic_r(y);
                        ^
====
C t
{}
P0 (int* x) {}
filter (x=1) forall (x=1)
----
t.litmus:4:1: Unsupported (17): filter is left out; with its proposition p write exists (p /\\ q), ~exists (p /\\ q) or forall (p => q)
    filter (x=1) forall (x=1)
    ^
====
C t
{}
P0 (int* message, atomic_int* y) {
  smp_store_release(y, 1);
}
exists (y=1)
----
t.litmus:4:3: Unsupported (17): smp_store_release is left out; write atomic_store_explicit(x, 1, memory_order_release), with atomic_int* x
      smp_store_release(y, 1);
      ^
====
C t
{}
P0 (int* message, atomic_int* y) {
  int r = smp_load_acquire(y);
}
exists (y=1)
----
t.litmus:4:11: Unsupported (17): smp_load_acquire is left out; write atomic_load_explicit(x, memory_order_acquire), with atomic_int* x
      int r = smp_load_acquire(y);
              ^
";

/// Limits, each at the first place at which it is passed.
const LIMITS: &str = "C t
{}
P0 (int* x, atomic_int* y) {
  *x = (((((((((((((((((((((((((((((((((1)))))))))))))))))))))))))))))))));
}
exists (x=1)
----
t.litmus:4:40: TooDeep (18): this would nest 33 deep, and a test nests at most 32; take parentheses or blocks away
      *x = (((((((((((((((((((((((((((((((((1)))))))))))))))))))))))))))))))));
                                           ^
====
C t
{ x; }
P0 () {}
P1 () {}
P2 () {}
P3 () {}
P4 () {}
P5 () {}
P6 () {}
P7 () {}
P8 () {}
exists (x=0)
----
t.litmus:11:1: TooManyThreads (19): this is the ninth thread, and a test has at most 8
    P8 () {}
    ^
====
C t
{ a; b; c; d; e; f; [g]; a=1; 0:r=1; }
P0 (int* h, int* a, int* i) {}
exists (a=1)
----
t.litmus:3:26: TooManyLocations (20): this is the ninth location, and a test has at most 8
    P0 (int* h, int* a, int* i) {}
                             ^
====
C t
{}
P0 (int* x, atomic_int* y) {
  atomic_exchange(y, 1);
  atomic_exchange(y, 1);
  atomic_exchange(y, 1);
  atomic_exchange(y, 1);
  atomic_exchange(y, 1);
  atomic_exchange(y, 1);
  atomic_exchange(y, 1);
  atomic_exchange(y, 1);
  atomic_exchange(y, 1);
  atomic_exchange(y, 1);
  atomic_exchange(y, 1);
  atomic_exchange(y, 1);
  atomic_exchange(y, 1);
  atomic_exchange(y, 1);
  atomic_exchange(y, 1);
  atomic_exchange(y, 1);
  atomic_exchange(y, 1);
  atomic_exchange(y, 1);
  atomic_exchange(y, 1);
  atomic_exchange(y, 1);
  atomic_exchange(y, 1);
  atomic_exchange(y, 1);
  atomic_exchange(y, 1);
  atomic_exchange(y, 1);
  atomic_exchange(y, 1);
  atomic_exchange(y, 1);
  atomic_exchange(y, 1);
  atomic_exchange(y, 1);
  atomic_exchange(y, 1);
  atomic_exchange(y, 1);
  if (1) { *x = 1; } else { *x = 1; *x = 1; *x = 1; }
}
exists (x=1)
----
t.litmus:34:46: TooManyEvents (21): with this there are more than 64 events: an initial write for each location, two for an exchange or an add, and else one for an access or a fence
      if (1) { *x = 1; } else { *x = 1; *x = 1; *x = 1; }
                                                 ^
====
C t
{ x=2; x=3; 0:r=4; }
P0 (int* x, atomic_int* y) {
  *x = 5; *x = 6; *x = 7; *x = 8; *x = 9; *x = 10; *x = 11; *x = 12;
  *x = 13; *x = 14; *x = 15; *x = 16; *x = 16; *x = 17;
}
exists (x=99)
----
t.litmus:5:53: TooManyValues (22): with this there are more than 16 values: 0, 1, the constants, and what adds make of them
      *x = 13; *x = 14; *x = 15; *x = 16; *x = 16; *x = 17;
                                                        ^
====
C t
{ y=5; }
P0 (atomic_int* y) {
  atomic_fetch_add(y, 2147483640);
  atomic_fetch_add(y, 3);
}
exists (y=0)
----
t.litmus:5:23: ValueTooBig (23): with this an add can make a value above 2147483647
      atomic_fetch_add(y, 3);
                          ^
";

#[test]
fn rules(rt: HostRuntime) {
    let alloc = rt.alloc();
    all_are_told(&rt, alloc, "orders", ORDERS, told_of_text);
    all_are_told(&rt, alloc, "names", NAMES, told_of_text);
    all_are_told(&rt, alloc, "words left out", LEFT_OUT, told_of_text);
    all_are_told(&rt, alloc, "limits", LIMITS, told_of_text);
}
