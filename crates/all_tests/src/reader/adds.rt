//! Texts with `atomic_fetch_add`, and the answers that they get.

/// In row 3, 1, 2 and 4 make nine values of 0 and 1, and 8 besides makes seventeen. 1 and 2147483646 are 2147483647.
pub const ADDS: &str =
    "# fetch add row 3: 1, 2 and 4 make nine values of 0 and 1, and 8 besides makes seventeen. 1 and 2147483646 are 2147483647.

C a
{}P0(atomic_int*x){atomic_fetch_add(x,1);atomic_fetch_add(x,2);atomic_fetch_add(x,4);}exists x=0 ==> a test

C a
{}P0(atomic_int*x){atomic_fetch_add(x,1);atomic_fetch_add(x,2);atomic_fetch_add(x,4);atomic_fetch_add(x,8);}exists x=0 ==> 22 TooManyValues

C a
{}P0(atomic_int*x){atomic_fetch_add(x,2147483646);}exists x=0 ==> a test

C a
{}P0(atomic_int*x){atomic_fetch_add(x,2147483647);}exists x=0 ==> 23 ValueTooBig

C a
{}P0(atomic_int*x){atomic_fetch_sub(x,1);}exists x=0 ==> 17 Unsupported atomic_fetch_sub

# arguments

C a
{}P0(atomic_int*x){int r0;atomic_fetch_add(x,r0);}exists x=0 ==> 12 Syntax 49

C a
{}P0(atomic_int*x){atomic_fetch_add(x,1 == 1);}exists x=0 ==> 12 Syntax 44

C a
{}P0(atomic_int*x){atomic_fetch_add(x,(1));}exists x=0 ==> 12 Syntax 42

C a
{}P0(atomic_int*x){atomic_fetch_add(x,while);}exists x=0 ==> 17 Unsupported while

C a
{}P0(atomic_int*x){atomic_fetch_add_explicit(x,1);}exists x=0 ==> 12 Syntax 52

C a
{}P0(int*x){atomic_fetch_add(x,1);}exists x=0 ==> 16 AtomicOnPlain

# orders

C a
{}P0(atomic_int*x){int r=atomic_fetch_add_explicit(x,0,memory_order_relaxed),
            s=atomic_fetch_add_explicit(x,0,memory_order_acquire); r=atomic_fetch_add_explicit(x,0,memory_order_release);
            atomic_fetch_add_explicit(x,0,memory_order_acq_rel); atomic_fetch_add_explicit(x,0,memory_order_seq_cst);}exists x=0 ==> a test

C a
{}P0(atomic_int*x){atomic_fetch_add_explicit(x,0,memory_order_consume);}exists x=0 ==> 17 Unsupported memory_order_consume

# reserved words

C a
{}P0(){int atomic_fetch_add;}exists true ==> 12 Syntax 15

C a
{}P0(){int atomic_fetch_add_explicit;}exists true ==> 12 Syntax 15

C a
{}P0(){int atomic_fetch_sub;}exists true ==> a test

# many adds: An add is two events, and counts in each arm: 22 comes before 23, and both before 21.

C A
{}P0(atomic_int*x){int r;@atomic_fetch_add(x,1);@60@}exists x=0 ==> 22 TooManyValues

C A
{}P0(atomic_int*x){int r;@atomic_fetch_add(x,0);@31@}exists x=0 ==> a test

C A
{}P0(atomic_int*x){int r;@atomic_fetch_add(x,0);@32@}exists x=0 ==> 21 TooManyEvents

C A
{}P0(atomic_int*x){int r;@if (r) atomic_fetch_add(x,0); else atomic_fetch_add(x,0);@30@}exists x=0 ==> a test

C A
{}P0(atomic_int*x){int r;@if (r) atomic_fetch_add(x,2147483647); else atomic_fetch_add(x,2147483647);@32@}exists x=0 ==> 22 TooManyValues

C A
{}P0(atomic_int*x){int r;@atomic_load(x);@64@atomic_fetch_add(x,2147483647);}exists x=0 ==> 23 ValueTooBig

C A
{x=2147483647;}P0(atomic_int*x){int r;@if (0) atomic_fetch_add(x,1);@1@}exists x=0 ==> 23 ValueTooBig

C A
{x=2147483647;}P0(atomic_int*x){int r;@if (0) atomic_fetch_add(x,0);@1@}exists x=0 ==> a test";
