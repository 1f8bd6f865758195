//! How many candidates texts have, and how many of them are executions.

use crate::candidate::growth::G;
use crate::candidate::texts::told;
use crate::rows::all_answered;

/// Store buffering.
const SB: &str = "C SB\n{}\n\
P0 (atomic_int* x, atomic_int* y) { atomic_store_explicit(x, 1, memory_order_relaxed); int r0 = atomic_load_explicit(y, memory_order_relaxed); }\n\
P1 (atomic_int* x, atomic_int* y) { atomic_store_explicit(y, 1, memory_order_relaxed); int r0 = atomic_load_explicit(x, memory_order_relaxed); }\n\
exists (0:r0=0 /\\ 1:r0=0)\n";

const LB_DATA: &str = "C LB\n{}\n\
P0 (atomic_int* x, atomic_int* y) { int r0 = atomic_load_explicit(x, memory_order_relaxed); atomic_store_explicit(y, r0, memory_order_relaxed); }\n\
P1 (atomic_int* x, atomic_int* y) { int r1 = atomic_load_explicit(y, memory_order_relaxed); atomic_store_explicit(x, r1, memory_order_relaxed); }\n\
exists (0:r0=1)\n";

const EXCHANGES: &str = "C EX\n{}\n\
P0 (atomic_int* x) { int r0 = atomic_exchange_explicit(x, 1, memory_order_relaxed); }\n\
P1 (atomic_int* x) { int r1 = atomic_exchange_explicit(x, 2, memory_order_relaxed); }\n\
exists (0:r0=0 /\\ 1:r1=0)\n";

/// Two adds of one location.
const ADDITIONS: &str = "C A\n{}\n\
P0 (atomic_int* x) { int r0 = atomic_fetch_add_explicit(x, 1, memory_order_relaxed); }\n\
P1 (atomic_int* x) { int r1 = atomic_fetch_add_explicit(x, 1, memory_order_relaxed); }\n\
exists (0:r0=0 /\\ 1:r1=0)\n";

const BRANCHES: &str = "C CT\n{}\n\
P0 (atomic_int* x, atomic_int* y) { int r0 = atomic_load_explicit(x, memory_order_relaxed); if (r0 == 1) { atomic_store_explicit(y, 1, memory_order_relaxed); } }\n\
P1 (atomic_int* x, atomic_int* y) { int r0 = atomic_load_explicit(y, memory_order_relaxed); if (r0 == 1) { atomic_store_explicit(x, 1, memory_order_relaxed); } }\n\
exists (0:r0=1)\n";

/// Two threads read what two others write, in either order, with four values.
const IRIW: &str = "C IRIW\n{ 0:r8=2; 0:r9=3; }\n\
P0 (atomic_int* x) { atomic_store_explicit(x, 1, memory_order_release); }\n\
P1 (atomic_int* y) { atomic_store_explicit(y, 1, memory_order_release); }\n\
P2 (atomic_int* x, atomic_int* y) { int r0 = atomic_load_explicit(x, memory_order_acquire); int r1 = atomic_load_explicit(y, memory_order_acquire); }\n\
P3 (atomic_int* x, atomic_int* y) { int r0 = atomic_load_explicit(y, memory_order_acquire); int r1 = atomic_load_explicit(x, memory_order_acquire); }\n\
exists (2:r0=1 /\\ 2:r1=0 /\\ 3:r0=1 /\\ 3:r1=0)\n";

const TWELVE_STORES: &str =
    "C T\n{}\nP0 (atomic_int* x) {\n@atomic_store_explicit(x, 1, memory_order_relaxed);\n@12@}\nexists (x=0)\n";

const THIRTEEN_STORES: &str =
    "C T\n{}\nP0 (atomic_int* x) {\n@atomic_store_explicit(x, 1, memory_order_relaxed);\n@13@}\nexists (x=0)\n";

const TWELVE_LOADS: &str =
    "C T\n{}\nP0 (atomic_int* x) {\n@r0 = atomic_load_explicit(x, memory_order_relaxed);\n@12@}\nexists (x=0)\n";

const THIRTEEN_LOADS: &str =
    "C T\n{}\nP0 (atomic_int* x) {\n@r0 = atomic_load_explicit(x, memory_order_relaxed);\n@13@}\nexists (x=0)\n";

const TWELVE_LOADS_IN_R0: &str =
    "C T\n{}\nP0 (atomic_int* x) {\n@r0 = atomic_load_explicit(x, memory_order_relaxed);\n@12@}\nexists (0:r0=0)\n";

/// Loads of locations that nobody writes, by three threads of ten loads each.
const THIRTY_LOADS: &str = "C T\n{}\n\
P0 (atomic_int* x) {\n@r0 = atomic_load_explicit(x, memory_order_relaxed);\n@10@}\n\
P1 (atomic_int* y) {\n@r0 = atomic_load_explicit(y, memory_order_relaxed);\n@10@}\n\
P2 (atomic_int* z) {\n@r0 = atomic_load_explicit(z, memory_order_relaxed);\n@10@}\nexists (0:r0=0)\n";

/// Eight threads of one load each, where it has 16 values to choose from: of 2^32 candidates one is an execution.
const EIGHT: &str =
    "C E\n{ 0:a=2; 0:b=3; 0:c=4; 0:d=5; 0:e=6; 0:f=7; 0:g=8; 0:h=9; 0:i=10; 0:j=11; 0:k=12; 0:l=13; 0:m=14; 0:n=15; }\n\
P0 (atomic_int* x) { int r0 = atomic_load(x); }\nP1 (atomic_int* x) { int r0 = atomic_load(x); }\n\
P2 (atomic_int* x) { int r0 = atomic_load(x); }\nP3 (atomic_int* x) { int r0 = atomic_load(x); }\n\
P4 (atomic_int* x) { int r0 = atomic_load(x); }\nP5 (atomic_int* x) { int r0 = atomic_load(x); }\n\
P6 (atomic_int* x) { int r0 = atomic_load(x); }\nP7 (atomic_int* x) { int r0 = atomic_load(x); }\n\
exists (0:r0=0)\n";

/// The tests, by their names.
pub const TEXTS: &[(&str, &str)] = &[
    ("SB", SB),
    ("LB", LB_DATA),
    ("EX", EXCHANGES),
    ("A", ADDITIONS),
    ("CT", BRANCHES),
    ("IRIW", IRIW),
    ("12 stores", TWELVE_STORES),
    ("13 stores", THIRTEEN_STORES),
    ("12 loads", TWELVE_LOADS),
    ("13 loads", THIRTEEN_LOADS),
    ("12 loads in r0", TWELVE_LOADS_IN_R0),
    ("30 loads", THIRTY_LOADS),
    ("eight", EIGHT),
    ("G", G),
];

const SPACES: &str = "# sizes of spaces

size: SB ==> 16

size: LB ==> 16

size: A ==> 162

# executions

executions: SB ==> 4

executions: LB ==> 5

executions: EX ==> 18

executions: A ==> 6

executions: CT ==> 2

executions: IRIW ==> 16

# walks

walked: SB ==> 4

walked: LB ==> 5

walked: EX ==> 18

walked: A ==> 6

walked: CT ==> 2

walked: IRIW ==> 16

# sizes

size: 12 stores ==> 479001600

size: 13 stores ==> TooManyCandidates

size: 12 loads ==> 4096

size: 13 loads ==> TooManyRuns(0)

size: C T
{}
P0 (atomic_int* x) {
}
exists (x=0)
 ==> 1

# long walks: each of the 12! candidates of twelve stores is an execution, far from the first ones, too. Of the 4,096 of twelve loads, of
# the 2^30 of thirty, and of the 2^32 of sixteen values one is.

walked from 1048576: 12 stores ==> 16

walked from 479001584: 12 stores ==> 16

walked: 12 loads in r0 ==> 1

size: 30 loads ==> 1073741824

walked: 30 loads ==> 1

size: eight ==> 4294967296

walked: eight ==> 1";

#[test]
fn spaces(rt: HostRuntime) {
    all_answered(&rt, rt.alloc(), "spaces", SPACES, told);
}
