//! Wrong texts with their messages, which were written by hand: bytes and tokens.

use crate::messages::asked::{all_are_told, told_of_test, told_of_text};
use crate::rows::expect;
use std::alloc::{AllocError, Global};

/// Bytes that begin no token, and what is never closed.
const BYTES: &str = "C t
{}
P0 (int* x, atomic_int* y) {
  *x = 1 + 1;
}
exists (x=1)
----
t.litmus:4:10: Text (11): BadByte (2): arithmetic is left out; write the value itself, or add to a location by atomic_fetch_add(x, 1)
      *x = 1 + 1;
             ^
====
C t
{}
P0 (int* x, atomic_int* y) {
  int r = 1 && 0; *x = r - 1;
}
exists (x=1)
----
t.litmus:4:26: Text (11): BadByte (2): arithmetic is left out; write the value itself, or add to a location by atomic_fetch_add(x, 1)
      int r = 1 && 0; *x = r - 1;
                             ^
====
C t
{}
P0 (int* x, atomic_int* y) {
  atomic_store(&y, 1);
}
exists (x=1)
----
t.litmus:4:16: Text (11): BadByte (2): a single & is left out; a parameter is a pointer already, so write x for &x, and && for a conjunction
      atomic_store(&y, 1);
                   ^
====
C t
{}
P0 (int* x, atomic_int* y) {
  int r = *x; if (r < 2) *x = 1;
}
exists (x=1)
----
t.litmus:4:21: Text (11): BadByte (2): only == and != compare; name the values, as in r == 1 || r == 2
      int r = *x; if (r < 2) *x = 1;
                        ^
====
C t
{}
#define N 1
P0 (int* x) {}
exists (x=1)
----
t.litmus:3:1: Text (11): BadByte (2): preprocessor lines are left out; take the line away, and write out what it defines
    #define N 1
    ^
====
C t
{}
P0 (int* x, atomic_int* y) {
  /* never closed
}
exists (x=1)
----
t.litmus:4:3: Text (11): OpenComment (3): this comment is never closed; (* always opens one, so a plain read in parentheses has to be made before, as in int r = *x;
      /* never closed
      ^
====
C t
{}
P0 (int* x, atomic_int* y) {
  \"quoted
}
exists (x=1)
----
t.litmus:4:3: Text (11): OpenString (4): this quoted text is never closed; close it by a second quote
      \"quoted
      ^
====
C t
{}
P0 (int* x, atomic_int* y) {
  *x = 99999999999;
}
exists (x=1)
----
t.litmus:4:8: Text (11): NumberTooBig (5): this number is above 2147483647, the greatest that is taken; write a smaller one
      *x = 99999999999;
           ^
====
AArch64 MP
{}
 P0 | P1 ;
----
t.litmus:3:5: Text (11): BadByte (2): this text begins with AArch64, so it is not a C test: a C test begins with a line of C and its name, as C MP
     P0 | P1 ;
        ^
====
C t
{}
P0 (int* x, atomic_int* y) {
  if (*x) {}
}
exists (x=1)
----
t.litmus:4:6: Text (11): OpenComment (3): this comment is never closed; (* always opens one, so a plain read in parentheses has to be made before, as in int r = *x;
      if (*x) {}
         ^
====
C t
{}
P0 (int* x, atomic_int* y) {
  WRITE_ONCE(*x, 1);
}
exists (x=1)
----
t.litmus:4:13: Text (11): OpenComment (3): WRITE_ONCE is left out; write atomic_store_explicit(x, 1, memory_order_relaxed), with atomic_int* x
      WRITE_ONCE(*x, 1);
                ^
====
C t
{}
P0 (int* message, atomic_int* y) {
  *message = -1;
}
exists (y=1)
----
t.litmus:4:14: Text (11): BadByte (2): values are 0 to 2147483647, and none is negative; write another number
      *message = -1;
                 ^
====
C t
{}
P0 (int* message, atomic_int* y) {
  int r = y->load();
}
exists (y=1)
----
t.litmus:4:12: Text (11): BadByte (2): members are left out; calls are those of <stdatomic.h>, as in atomic_load(x)
      int r = y->load();
               ^
====
C t
{}
P0 (int* message, atomic_int* y) {
  int r = y.load();
}
exists (y=1)
----
t.litmus:4:12: Text (11): BadByte (2): members are left out; calls are those of <stdatomic.h>, as in atomic_load(x)
      int r = y.load();
               ^
====
C t
{}
P0 (int* message, atomic_int* y) {
  int r = 1.5;
}
exists (y=1)
----
t.litmus:4:12: Text (11): BadByte (2): only whole numbers are taken, and no members of structures
      int r = 1.5;
               ^
====
C t
{}
P0 (int* message, atomic_int* y) {
  int r = 1; *message = r -1;
}
exists (y=1)
----
t.litmus:4:27: Text (11): BadByte (2): arithmetic is left out; write the value itself, or add to a location by atomic_fetch_add(x, 1)
      int r = 1; *message = r -1;
                              ^
====
C t
{}
P0 (int* message, atomic_int* y) {
  int result = 0;
}
exists (0:result<>1)
----
t.litmus:6:17: Text (11): BadByte (2): <> is no sign of a test; write ~(0:r=1) in a condition, and r != 1 in a thread
    exists (0:result<>1)
                    ^
====
C t
{}
P0 (int* message, atomic_int* y) {
  $
}
exists (y=1)
----
t.litmus:4:3: Text (11): BadByte (2): no token of a test begins with this byte; take it away
      $
      ^
";

/// Tokens that the grammar doesn't take.
const SYNTAX: &str = "AArch64 MP
{}
 P0 ;
----
t.litmus:1:1: Syntax (12): this text begins with AArch64, so it is not a C test: a C test begins with a line of C and its name, as C MP
    AArch64 MP
    ^
====
C t
{}
P0 (int* x) {
  *x = 1;
}
----
t.litmus:6:1: Syntax (12): the test ends here, where more is wanted; last of all comes a condition, as exists (x=1)
    
    ^
====
C t
{}
P0 (int* x, atomic_int* y) {
  *x = 1U;
}
exists (x=1)
----
t.litmus:4:9: Syntax (12): U can't stand behind a number; numbers are decimal, without a suffix: 1, not 1U or 0x1
      *x = 1U;
            ^
====
C t
{}
P0 (int* x, atomic_int* y) {
  *x = 0x1;
}
exists (x=1)
----
t.litmus:4:9: Syntax (12): x1 can't stand behind a number; numbers are decimal, without a suffix: 1, not 1U or 0x1
      *x = 0x1;
            ^
====
C t
{}
P0 (int* x, atomic_int* y) {
  unsigned r = 1;
}
exists (x=1)
----
t.litmus:4:12: Syntax (12): unsigned is left out; a register is an int, a parameter an int* or an atomic_int*
      unsigned r = 1;
               ^
====
C t
{}
P0 (unsigned* x) {
  *x = 1;
}
exists (x=1)
----
t.litmus:3:5: Syntax (12): unsigned is left out; a register is an int, a parameter an int* or an atomic_int*
    P0 (unsigned* x) {
        ^
====
C t
{}
P0 (_Atomic int* x) {
  *x = 1;
}
exists (x=1)
----
t.litmus:3:5: Syntax (12): _Atomic is left out; write atomic_int* for a parameter that calls access
    P0 (_Atomic int* x) {
        ^
====
C t
{}
void P0 (int* x) {
  *x = 1;
}
exists (x=1)
----
t.litmus:3:1: Syntax (12): void is left out; a thread is written P0 (..) { .. }
    void P0 (int* x) {
    ^
====
C t
{}
P0 (int* x, atomic_int* y) {
  if (atomic_load(y) == 1) *x = 1;
}
exists (x=1)
----
t.litmus:4:7: Syntax (12): atomic_load can't stand inside an expression; give its value to a register first, as in int r = atomic_load(x);
      if (atomic_load(y) == 1) *x = 1;
          ^
====
C t
{}
P0 (int* x, atomic_int* y) {
  if (0 == *x) {}
}
exists (x=1)
----
t.litmus:4:12: Syntax (12): * can't stand inside an expression; read the location first, as in int r = *x;
      if (0 == *x) {}
               ^
====
C t
{}
P0 (int* x, atomic_int* y) {
  printf(1);
}
exists (x=1)
----
t.litmus:4:9: Syntax (12): ( can't stand behind printf; calls are those of <stdatomic.h>
      printf(1);
            ^
====
C t
{}
P0 (int* x, atomic_int* y) {
  atomicstore(y, 1);
}
exists (x=1)
----
t.litmus:4:14: Syntax (12): atomicstore is no call of a test; did you mean atomic_store?
      atomicstore(y, 1);
                 ^
====
C t
{}
P0 (int* x, atomic_int* y) {
  *x = 1
  *x = 2;
}
exists (x=1)
----
t.litmus:5:3: Syntax (12): * can't stand behind a value; is a ; missing before it? Products are left out
      *x = 2;
      ^
====
C t
{}
P0 (int* x, atomic_int* y) {
  int r = 1
}
}
exists (x=1)
----
t.litmus:5:1: Syntax (12): } can't stand here; is a ; or a ) missing before it?
    }
    ^
====
C t
{}
P0 (int* x, atomic_int* y) {
  *x = 1;
}
exist (x=1)
----
t.litmus:6:1: Syntax (12): exist can't stand here; did you mean exists?
    exist (x=1)
    ^
====
C t
{}
P0 (int* x, atomic_int* y) {
  *x = 1;
}
exists (x==1)
----
t.litmus:6:10: Syntax (12): == compares in threads; a condition has one =, as in 0:r0=1
    exists (x==1)
             ^
====
C t
{}
P0 (int* x, atomic_int* y) {
  *x = 1;
}
exists (x=1 && y=1)
----
t.litmus:6:13: Syntax (12): && joins in threads; a condition has /\\ and \\/
    exists (x=1 && y=1)
                ^
====
C t
{}
P0 (int* x, atomic_int* y) {
  int r = *x; if (r = 1) {}
}
exists (x=1)
----
t.litmus:4:21: Syntax (12): = can't stand here; an expression compares by ==
      int r = *x; if (r = 1) {}
                        ^
====
C t
{}
P0 (int* x, atomic_int* y) {
  atomic_int r = 1;
}
exists (x=1)
----
t.litmus:4:3: Syntax (12): atomic_int can't stand here; a register is an int
      atomic_int r = 1;
      ^
====
C t
{}
P0 (int* message, atomic_int* y) {
  int r = atomic_load(y) == 1;
}
exists (y=1)
----
t.litmus:4:26: Syntax (12): == can't stand here; a load stands alone on the right of =, so load into a register first, and compare that
      int r = atomic_load(y) == 1;
                             ^
====
C t
{}
P0 (int* message, atomic_int* y) {
  int r0 = *message == 1;
}
exists (y=1)
----
t.litmus:4:21: Syntax (12): == can't stand here; a load stands alone on the right of =, so load into a register first, and compare that
      int r0 = *message == 1;
                        ^
====
C t
{}
P0 (int* message, atomic_int* y) {
  int r = 0; r == 1;
}
exists (y=1)
----
t.litmus:4:16: Syntax (12): == can't stand here; it compares inside an expression, and a statement gives a value by =
      int r = 0; r == 1;
                   ^
====
C t
{}
P0 (int* message, atomic_int* y) {
  atomic_store_explicit(y, 1);
}
exists (y=1)
----
t.litmus:4:29: Syntax (12): ) can't stand here; an order is wanted before it, such as memory_order_relaxed
      atomic_store_explicit(y, 1);
                                ^
====
C t
{}
P0 (int* message, atomic_int* y) {
  int r = atomic_load_explicit(y);
}
exists (y=1)
----
t.litmus:4:33: Syntax (12): ) can't stand here; an order is wanted before it, such as memory_order_relaxed
      int r = atomic_load_explicit(y);
                                    ^
====
C t
{}
P0 (int* message, atomic_int* y) {
  atomic_thread_fence();
}
exists (y=1)
----
t.litmus:4:23: Syntax (12): ) can't stand here; an order is wanted, such as memory_order_relaxed
      atomic_thread_fence();
                          ^
====
C t
{}
P0 (int* message, atomic_int* y) {
  atomic_store_explicit(y, 1, relaxed);
}
exists (y=1)
----
t.litmus:4:31: Syntax (12): relaxed is no order; did you mean memory_order_relaxed?
      atomic_store_explicit(y, 1, relaxed);
                                  ^
====
C t
{}
P0 (int* message, atomic_int* y) {
  int r = atomic_load_explicit(y, acquire);
}
exists (y=1)
----
t.litmus:4:35: Syntax (12): acquire is no order; did you mean memory_order_acquire?
      int r = atomic_load_explicit(y, acquire);
                                      ^
====
C t
{}
P0 (int* message, atomic_int* y) {
  atomic_store_explicit(y, 1, release);
}
exists (y=1)
----
t.litmus:4:31: Syntax (12): release is no order; did you mean memory_order_release?
      atomic_store_explicit(y, 1, release);
                                  ^
====
C t
{}
P0 (int* message, atomic_int* y) {
  atomic_exchange_explicit(y, 1, acq_rel);
}
exists (y=1)
----
t.litmus:4:34: Syntax (12): acq_rel is no order; did you mean memory_order_acq_rel?
      atomic_exchange_explicit(y, 1, acq_rel);
                                     ^
====
C t
{}
P0 (int* message, atomic_int* y) {
  atomic_thread_fence(seq_cst);
}
exists (y=1)
----
t.litmus:4:23: Syntax (12): seq_cst is no order; did you mean memory_order_seq_cst?
      atomic_thread_fence(seq_cst);
                          ^
====
C t
{}
P0 (int* message, atomic_int* y) {
  atomic_thread_fence(std::memory_order_acquire);
}
exists (y=1)
----
t.litmus:4:23: Syntax (12): std can't stand here; calls and orders have no std:: before them, as in memory_order_acquire
      atomic_thread_fence(std::memory_order_acquire);
                          ^
====
C t
{}
P0 (int* message, atomic_int* y) {
  std::atomic_store(y, 1);
}
exists (y=1)
----
t.litmus:4:6: Syntax (12): std can't stand here; calls and orders have no std:: before them, as in memory_order_acquire
      std::atomic_store(y, 1);
         ^
====
C t
{x=0, y=0}
P0 (int* x) {}
exists (x=1)
----
t.litmus:2:5: Syntax (12): , can't stand here; entries end with ;, as in { x=0; y=0; }
    {x=0, y=0}
        ^
====
C t
{x==0;}
P0 (int* x) {}
exists (x=1)
----
t.litmus:2:3: Syntax (12): == compares in threads; an entry has one =, as in x=0
    {x==0;}
      ^
====
C t
{P0:r=0;}
P0 (int* x) {}
exists (x=1)
----
t.litmus:2:4: Syntax (12): : can't stand here; a thread's number stands before it, as in 0:r=1
    {P0:r=0;}
       ^
====
C t
{}
P0 (int* x, int* y) {}
locations [x, y]
exists (x=1)
----
t.litmus:4:13: Syntax (12): , can't stand here; entries end with ;, as in locations [x; y;]
    locations [x, y]
                ^
====
C t
{}
P0 (int* x, int* y) {}
locations [P0:r]
exists (x=1)
----
t.litmus:4:14: Syntax (12): : can't stand here; a thread's number stands before it, as in 0:r=1
    locations [P0:r]
                 ^
====
C t
{}
P0 (int* message, atomic_int* y) {
  int result = 0;
}
exists (P0:result=1)
----
t.litmus:6:11: Syntax (12): : can't stand here; a thread's number stands before it, as in 0:r=1
    exists (P0:result=1)
              ^
====
C t
{}
P0 (int* message, atomic_int* y) {
  int result = 0;
}
exists (0:result!=1)
----
t.litmus:6:17: Syntax (12): != compares in threads; a condition has = alone, and ~ denies, as in ~(0:r0=1)
    exists (0:result!=1)
                    ^
====
C t
{}
P0 (int* message, atomic_int* y) {
  int result = 0;
}
exists (y=1, y=0)
----
t.litmus:6:12: Syntax (12): , can't stand here; propositions are joined by /\\ and \\/
    exists (y=1, y=0)
               ^
====
C t
{}
P0 (int* message, atomic_int* y) {
  int r = 0; if r == 1 r = 2;
}
exists (y=1)
----
t.litmus:4:17: Syntax (12): r can't stand behind if; parentheses are wanted, as in if (r == 1)
      int r = 0; if r == 1 r = 2;
                    ^
====
C t
{}
P0 (int* message, atomic_int* y) {
  int r = true;
}
exists (y=1)
----
t.litmus:4:11: Syntax (12): true stands in conditions alone; in a thread write 1
      int r = true;
              ^
====
C t
{}
P0 (int* message, atomic_int* y) {
  int r = false;
}
exists (y=1)
----
t.litmus:4:11: Syntax (12): false stands in conditions alone; in a thread write 0
      int r = false;
              ^
====
----
t.litmus:1:1: Syntax (12): the file is empty; a C test begins with a line of C and its name, as C MP
    
    ^
====
 
----
t.litmus:2:1: Syntax (12): the file has blanks and comments alone; a C test begins with a line of C and its name, as C MP
    
    ^
====
C exists
{ x=0 && y=0; }
----
t.litmus:2:7: Syntax (12): && can't stand here; docs/LITMUS.md has the grammar
    { x=0 && y=0; }
          ^
";

const MARKED_TEXT: &[u8] = b"\xef\xbb\xbfC t\n{}\n";

const MARKED_MESSAGE: &str =
    "t.litmus:1:1: Text (11): NotAscii (1): the file begins with a byte order mark; save it as UTF-8 without one
    ???C t
    ^
";

const ABOVE_TEXT: &[u8] =
    b"C t\n{}\nP0 (int* x, atomic_int* y) {\n  *x = 1; \xc3\xa9\n}\nexists (x=1)\n";

const ABOVE_MESSAGE: &str =
    "t.litmus:4:11: Text (11): NotAscii (1): the byte 0xc3 is above 127, and only comments may have such bytes; write ASCII here
      *x = 1; ??
              ^
";

const START_TEXT: &[u8] = b"C t\n{}\nP0 (int* x) {\n  \x01\n}\nexists (x=1)\n";

const START_MESSAGE: &str =
    "t.litmus:4:3: Text (11): BadByte (2): the byte 0x01 begins no token of a test; take it away
       
      ^
";

const NUL_TEXT: &[u8] = b"C t\n{}\nP0 (int* x) {\n  \x00\n}\nexists (x=1)\n";

const NUL_MESSAGE: &str =
    "t.litmus:4:3: Text (11): BadByte (2): the byte 0x00 begins no token of a test; take it away
       
      ^
";

const DELETE_TEXT: &[u8] = b"C t\n{}\nP0 (int* x) {\n  \x7f\n}\nexists (x=1)\n";

const DELETE_MESSAGE: &str =
    "t.litmus:4:3: Text (11): BadByte (2): the byte 0x7f begins no token of a test; take it away
       
      ^
";

const NO_BREAK_TEXT: &[u8] = b"C t\n{}\nP0 (int* x) {\n  \xc2\xa0\n}\nexists (x=1)\n";

const NO_BREAK_MESSAGE: &str =
    "t.litmus:4:3: Text (11): NotAscii (1): the bytes 0xc2 0xa0, a no-break space, may stand in comments alone; write a blank here
      ??
      ^
";

/// Whether this message is told of a text of any bytes.
fn is_told(alloc: Global, text: &[u8], message: &str) -> bool {
    match told_of_test(alloc, text) {
        Ok(told) => told.as_str() == message,
        Err(AllocError) => false,
    }
}

#[test]
fn bytes_and_tokens(rt: HostRuntime) {
    let alloc = rt.alloc();
    let is_marked_told = is_told(alloc, MARKED_TEXT, MARKED_MESSAGE);
    expect(&rt, MARKED_MESSAGE, is_marked_told);
    let is_above_told = is_told(alloc, ABOVE_TEXT, ABOVE_MESSAGE);
    expect(&rt, ABOVE_MESSAGE, is_above_told);
    all_are_told(&rt, alloc, "bytes", BYTES, told_of_text);
    all_are_told(&rt, alloc, "tokens", SYNTAX, told_of_text);
}

#[test]
fn bytes_that_are_not_seen(rt: HostRuntime) {
    let alloc = rt.alloc();
    let is_start_told = is_told(alloc, START_TEXT, START_MESSAGE);
    expect(&rt, START_MESSAGE, is_start_told);
    let is_nul_told = is_told(alloc, NUL_TEXT, NUL_MESSAGE);
    expect(&rt, NUL_MESSAGE, is_nul_told);
    let is_delete_told = is_told(alloc, DELETE_TEXT, DELETE_MESSAGE);
    expect(&rt, DELETE_MESSAGE, is_delete_told);
    let is_no_break_told = is_told(alloc, NO_BREAK_TEXT, NO_BREAK_MESSAGE);
    expect(&rt, NO_BREAK_MESSAGE, is_no_break_told);
}
