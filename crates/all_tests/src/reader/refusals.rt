//! Texts with the answers that they get.

/// The first fault of each text, from the left or in the order of the refusals.
pub const REFUSALS: &str = "# reading faults

C SB
{ ==> 12 Syntax 6

C a
{}P0(atomic_int*x){atomic_store_explicit(x,1,memory_order_acquire);}exists true ==> 13 BadOrder

C a
{}P0(){int r0;while (r0) {}}exists true ==> 17 Unsupported while

C a
{}P0(){}exists (0:r9=1) ==> 14 UnknownName

# foreign words

C a
{}P0(){int for;}exists true ==> 17 Unsupported for

C a
{}P0(){}exists true while ==> 17 Unsupported while

C a
{}P0(atomic_int*x){atomic_fetch_sub(x,1);}exists true ==> 17 Unsupported atomic_fetch_sub

C a
{}P0(){smp_mb();}exists true ==> 17 Unsupported smp_mb

C a
{}P0(){atomic_thread_fence(memory_order_consume);}exists true ==> 17 Unsupported memory_order_consume

C a
{}P0(){atomic_int (x);}exists true ==> 17 Unsupported atomic_int

C a
{}P0(){int atomic_x; atomic_x=1;}exists true ==> a test

# whole language

C a
{int x=1; 0:r=2}P0(volatile int*x,atomic_int*y){
        int a, b = 3, c = *x, d = atomic_load(y); ; {} { a = 1; { b = a; } }
        *x = a == b && !(c != 1) || d;
        int e = atomic_exchange(y, 1); e = atomic_exchange_explicit(y, a, memory_order_acq_rel);
        atomic_store(y, 0); atomic_store_explicit(y, b, memory_order_release);
        atomic_load_explicit(y, memory_order_acquire); atomic_thread_fence(memory_order_acq_rel);
        if (a) b = 1; else if (c) { b = 2; } else b = 3;
    }locations [x; ; 0:a; [y]]not exists ~(0:a=1 \\/ x=1 /\\ not true) => false => [y]=2 ==> a test

# comments

C a (* b (* c *) *)
{x // d
; /* e */}P0(/**/){}exists (* f *) x=0 // g ==> a test

# kinds of access

C a
{}P0(atomic_int*x){*x=1;}exists true ==> 15 PlainOnAtomic

C a
{}P0(int*x){atomic_store(x,1);}exists true ==> 16 AtomicOnPlain

C a
{}P0(int*x){*x=1;}P1(atomic_int*x){atomic_store(x,1);}exists true ==> a test

# order of refusals: 14 before 15, 15 before 16, 16 before 22.

C a
{}P0(atomic_int*x,int*y){*x=1; atomic_store(y,1); int r=s;}exists true ==> 14 UnknownName

C a
{}P0(atomic_int*x,int*y){atomic_store(y,1); *x=1;}exists true ==> 15 PlainOnAtomic

C a
{}P0(int*y){atomic_store(y,1); int r=2==3==4==5==6==7==8==9==10==11==12==13==14==15==16==17;}exists true ==> 16 AtomicOnPlain

# hostile input row 3 threads

C a
{x}P0(){}P1(){}P2(){}P3(){}P4(){}P5(){}P6(){}P7(){}exists x=0 ==> a test

C a
{x}P0(){}P1(){}P2(){}P3(){}P4(){}P5(){}P6(){}P7(){}P8(){}exists y=0 ==> 19 TooManyThreads

C a
{x}P0(){}P2(){}exists x=0 ==> 12 Syntax 13

# hostile input row 3 locations

C a
{a;b;c;d;e;f;g;h}P0(){}exists a=0 ==> a test

C a
{a;b;c;d;e;f;g;h;i}P0(){}exists y=0 ==> 20 TooManyLocations

# hostile input row 3 values

C a
{0:a=2;0:b=3;0:c=4;0:d=5;0:e=6;0:f=7;0:g=8;0:h=9;0:i=10;0:j=11;0:k=12;0:l=13;0:m=14;0:n=15}P0(){}exists 0:a=0 ==> a test

C a
{0:a=2;0:b=3;0:c=4;0:d=5;0:e=6;0:f=7;0:g=8;0:h=9;0:i=10;0:j=11;0:k=12;0:l=13;0:m=14;0:n=15;0:o=16}P0(){}exists 0:a=0 ==> 22 TooManyValues

# unknown names

C a
{x}P0(){}exists y=0 ==> 14 UnknownName

C a
{x}P0(){}exists 0:r=0 ==> 14 UnknownName

C a
{x}P0(){}exists 1:r=0 ==> 14 UnknownName

C a
{1:r=0}P0(){}exists 0:r=0 ==> 14 UnknownName

C a
{0:x=1}P0(atomic_int*x){}exists x=0 ==> 14 UnknownName

C a
{}P0(atomic_int*x){int x=atomic_load_explicit(x,memory_order_relaxed);}exists x=0 ==> 14 UnknownName

C a
{x}P0(){atomic_load_explicit(x,memory_order_relaxed);}exists x=0 ==> 14 UnknownName

# syntax faults

C a
{x}P0(){}exists x=0 x ==> 12 Syntax 24

C a
{x}P0(){}exists x=00 ==> 12 Syntax 22

C a
{int}P0(){}exists x=0 ==> 12 Syntax 8

C a
{}P0(atomic_int*x,atomic_int*x){}exists x=0 ==> 12 Syntax 33

C a
{\"}P0(){}exists x=0 ==> 11 Text 4 OpenString

# first refusal: Each text has two faults, of which the first is reported.

# 11 before 12

C a
{=}\" ==> 11 Text 4 OpenString

# of 12, 13 and 17 the first from the left

C a
{}P0(atomic_int*x){=atomic_load_explicit(x,memory_order_release);}exists true ==> 12 Syntax 23

C a
{}P0(atomic_int*x){atomic_load_explicit(x,memory_order_release);=}exists true ==> 13 BadOrder

C a
{}P0(atomic_int*x){atomic_load_explicit(x,memory_order_release);while}exists true ==> 13 BadOrder

C a
{}P0(){=while}exists true ==> 12 Syntax 11

# 12 before 19

C a
{x}P0(){}P1(){}P2(){}P3(){}P4(){}P5(){}P6(){}P7(){}P8(){}exists ; ==> 12 Syntax 68

# 19 before 20

C a
{a;b;c;d;e;f;g;h;i}P0(){}P1(){}P2(){}P3(){}P4(){}P5(){}P6(){}P7(){}P8(){}exists a=0 ==> 19 TooManyThreads

# 20 before 14

C a
{a;b;c;d;e;f;g;h;i}P0(){}exists y=0 ==> 20 TooManyLocations

# 14 before 22

C a
{0:a=2;0:b=3;0:c=4;0:d=5;0:e=6;0:f=7;0:g=8;0:h=9;0:i=10;0:j=11;0:k=12;0:l=13;0:m=14;0:n=15;0:o=16}P0(){}exists y=0 ==> 14 UnknownName

# words left out come first

C a
{}P0(){while=}exists true ==> 17 Unsupported while

C a
{}P0(atomic_int*x){while atomic_load_explicit(x,memory_order_release);}exists true ==> 17 Unsupported while

# 17 before 19

C a
{x}P0(){}P1(){}P2(){}P3(){}P4(){}P5(){}P6(){}P7(){}P8(){}exists while ==> 17 Unsupported while";
