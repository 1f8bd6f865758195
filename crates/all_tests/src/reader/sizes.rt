//! Long and deep texts with the answers that they get.

/// Each kind of nesting is a test at 32 levels, and too deep at 33.
pub const SIZES: &str = "# longest way

C E
{}P0(atomic_int*x){@atomic_thread_fence(memory_order_seq_cst);@63@}exists true ==> a test

C E
{}P0(atomic_int*x){@atomic_thread_fence(memory_order_seq_cst);@64@}exists true ==> 21 TooManyEvents

C E
{}P0(atomic_int*x){int r;@if (r) atomic_exchange(x,1); else atomic_load(x);@32@}exists true ==> 21 TooManyEvents

# events

C a
{}P0(atomic_int*x){@atomic_load_explicit(x,memory_order_relaxed);@63@}exists x=0 ==> a test

C a
{}P0(atomic_int*x){@atomic_load_explicit(x,memory_order_relaxed);@64@}exists x=0 ==> 21 TooManyEvents

# first refusal: Each text has two faults, of which the first is reported.

# of 12, 13, 17 and 18 the first from the left

C a
{}P0(atomic_int*x){int r=@(@33@atomic_load_explicit(x,memory_order_release);while}exists true ==> 18 TooDeep

C a
{}P0(atomic_int*x){atomic_load_explicit(x,memory_order_release);int r=@(@33@1;}exists true ==> 13 BadOrder

C a
{x}P0(){=}exists @(@33@x=0 ==> 12 Syntax 12

C a
{x}P0(){}exists @(@33@= ==> 18 TooDeep

C a
{}P0(){while int r=@(@33@1;}exists true ==> 17 Unsupported while

# 18 before 19

C a
{x}P0(){}P1(){}P2(){}P3(){}P4(){}P5(){}P6(){}P7(){}P8(){}exists @(@33@x=0 ==> 18 TooDeep

# 14 before 21

C a
{}P0(atomic_int*x){@atomic_load_explicit(x,memory_order_relaxed);@64@}exists y=0 ==> 14 UnknownName

# 22 before 21

C a
{0:a=2;0:b=3;0:c=4;0:d=5;0:e=6;0:f=7;0:g=8;0:h=9;0:i=10;0:j=11;0:k=12;0:l=13;0:m=14;0:n=15;0:o=16}P0(atomic_int*x){@atomic_load_explicit(x,memory_order_relaxed);@64@}exists x=0 ==> 22 TooManyValues

# hostile input row 2

C E
{}
P0 () {}
exists true
@ @65508@ ==> a test

C E
{}
P0 () {}
exists true
@ @65509@ ==> 11 Text 6 TooLong

C E
{}P0(){int r=2147483647;}exists true ==> a test

C E
{}P0(){int r=2147483648;}exists true ==> 11 Text 5 NumberTooBig

# hostile input row 3 parentheses

C a
{x}P0(){}exists @(@32@true)))))))))))))))))))))))))))))))) ==> a test

C a
{x}P0(){}exists (@(@32@true)))))))))))))))))))))))))))))))) ==> 18 TooDeep

# each kind of nesting

C a
{}P0(){int r=@(@32@1@)@32@;}exists true ==> a test

C a
{}P0(){int r=@(@33@1@)@33@;}exists true ==> 18 TooDeep

C a
{}P0(){int r=@!@32@1;}exists true ==> a test

C a
{}P0(){int r=@!@33@1;}exists true ==> 18 TooDeep

C a
{}P0(){@{@32@@}@32@}exists true ==> a test

C a
{}P0(){@{@33@@}@33@}exists true ==> 18 TooDeep

C a
{}P0(){@if (1) @32@;}exists true ==> a test

C a
{}P0(){@if (1) @33@;}exists true ==> 18 TooDeep

C a
{}P0(){@if (1) ; else @32@;}exists true ==> a test

C a
{}P0(){@if (1) ; else @33@;}exists true ==> 18 TooDeep

C a
{x}P0(){}exists @~@32@x=0 ==> a test

C a
{x}P0(){}exists @~@33@x=0 ==> 18 TooDeep

C a
{x}P0(){}exists @not @32@x=0 ==> a test

C a
{x}P0(){}exists @not @33@x=0 ==> 18 TooDeep

C a
{x}P0(){}exists @(@32@x=0@)@32@ ==> a test

C a
{x}P0(){}exists @(@33@x=0@)@33@ ==> 18 TooDeep

C a
{x}P0(){}exists @x=0 => @32@x=0 ==> a test

C a
{x}P0(){}exists @x=0 => @33@x=0 ==> 18 TooDeep";
