//! Tests of C by which executions are made.

use crate::rows::meant;

/// Store buffering. Both loads read 0 only where each reads from the initial write of its location.
pub const STORE_BUFFERING: &str = "C SB
{}
P0 (atomic_int* x, atomic_int* y) {
  atomic_store_explicit(x, 1, memory_order_relaxed);
  int r0 = atomic_load_explicit(y, memory_order_relaxed);
}
P1 (atomic_int* x, atomic_int* y) {
  atomic_store_explicit(y, 1, memory_order_relaxed);
  int r0 = atomic_load_explicit(x, memory_order_relaxed);
}
exists (0:r0=0 /\\ 1:r0=0)
";

/// The same with sequentially consistent accesses, which RC11 forbids.
const ORDERED: &str = "C SB
{}
P0 (atomic_int* x, atomic_int* y) {
  atomic_store(x, 1);
  int r0 = atomic_load(y);
}
P1 (atomic_int* x, atomic_int* y) {
  atomic_store(y, 1);
  int r0 = atomic_load(x);
}
exists (0:r0=0 /\\ 1:r0=0)
";

/// Message passing: the flag is read, the message is not.
const MESSAGE: &str = "C MP
{}
P0 (atomic_int* x, atomic_int* y) {
  atomic_store_explicit(x, 1, memory_order_relaxed);
  atomic_store_explicit(y, 1, memory_order_relaxed);
}
P1 (atomic_int* x, atomic_int* y) {
  int r0 = atomic_load_explicit(y, memory_order_relaxed);
  int r1 = atomic_load_explicit(x, memory_order_relaxed);
}
exists (1:r0=1 /\\ 1:r1=0)
";

/// Two readers that see two writes in different orders.
const READERS: &str = "C IRIW
{}
P0 (atomic_int* x) { atomic_store_explicit(x, 1, memory_order_relaxed); }
P1 (atomic_int* y) { atomic_store_explicit(y, 1, memory_order_relaxed); }
P2 (atomic_int* x, atomic_int* y) {
  int r0 = atomic_load_explicit(x, memory_order_relaxed);
  int r1 = atomic_load_explicit(y, memory_order_relaxed);
}
P3 (atomic_int* x, atomic_int* y) {
  int r0 = atomic_load_explicit(y, memory_order_relaxed);
  int r1 = atomic_load_explicit(x, memory_order_relaxed);
}
exists (2:r0=1 /\\ 2:r1=0 /\\ 3:r0=1 /\\ 3:r1=0)
";

/// A store alone.
const ALONE: &str = "C W
{}
P0 (atomic_int* x) { atomic_store_explicit(x, 1, memory_order_relaxed); }
exists (x=1)
";

/// The same, asked for what no execution has.
const NEVER: &str = "C W
{}
P0 (atomic_int* x) { atomic_store_explicit(x, 1, memory_order_relaxed); }
exists (x=0)
";

/// The tests, by their names.
const TESTS: &[(&str, &str)] = &[
    ("SB", STORE_BUFFERING),
    ("SB+sc", ORDERED),
    ("MP", MESSAGE),
    ("IRIW", READERS),
    ("W", ALONE),
    ("never", NEVER),
];

/// The test of a name.
pub fn text_of(name: &str) -> &'static str {
    meant(TESTS, name).unwrap_or("")
}
