//! The tests that texts spell: their trees, equality and copies.

use crate::reader::answers::{SB, holds_of};
use crate::reader::copies::compares;
use crate::rows::{all_hold, expect};
use conditions::{Binding, Kind, Place};
use litmus_c::{Leaf, Link, Operator, RightSide, Statement, Test, Thread};
use std::alloc::{AllocError, Global};

/// How many parameters, statements and registers a thread has.
fn counts(thread: &Thread) -> [usize; 3] {
    [
        thread.parameters().len(),
        thread.statements().len(),
        thread.registers().len(),
    ]
}

/// Whether each thread has so many parameters, statements and registers.
fn all_count(threads: &[Thread], wanted: [usize; 3]) -> bool {
    for thread in threads {
        if counts(thread) != wanted {
            return false;
        }
    }
    true
}

/// How many entries, threads, listed places and locations a test has.
fn counts_of_test(test: &Test) -> [usize; 4] {
    [
        test.initial().len(),
        test.threads().len(),
        test.listed().len(),
        test.locations().len(),
    ]
}

/// Whether a test is that of store buffering, as far as its head, its counts and its kind of condition tell.
fn is_sb(_alloc: Global, test: &Test) -> Result<bool, AllocError> {
    Ok(
        test.name().bytes() == b"SB".as_slice()
            && test.condition().kind() == Kind::Exists
            && counts_of_test(test) == [0, 2, 0, 2]
            && all_count(test.threads(), [2, 2, 1]),
    )
}

/// The last statement of the first thread.
fn last(test: &Test) -> Option<&Statement> {
    match test.threads().first() {
        Some(thread) => thread.statements().last(),
        None => None,
    }
}

/// A leaf that a test expects.
enum Wanted {
    Number(u32),
    Register(&'static [u8]),
}

/// A link that a test expects: `!`, or an operator with a leaf as its right operand.
enum Step {
    Not,
    Join(Operator, Wanted),
}

fn is_leaf(leaf: &Leaf, wanted: &Wanted) -> bool {
    match (leaf, wanted) {
        (Leaf::Number(number), Wanted::Number(other)) => number == other,
        (Leaf::Register(name), Wanted::Register(other)) => name.bytes() == *other,
        _ => false,
    }
}

fn is_step(link: &Link, step: &Step) -> bool {
    match (link, step) {
        (Link::Not, Step::Not) => true,
        (Link::Join(operator, operand), Step::Join(other, leaf)) => {
            *operator == *other && operand.rest.is_empty() && is_leaf(&operand.first, leaf)
        }
        _ => false,
    }
}

/// Whether the links are these steps, one by one.
fn are_steps(links: &[Link], steps: &[Step]) -> bool {
    if links.len() != steps.len() {
        return false;
    }
    for (link, step) in links.iter().zip(steps) {
        if !is_step(link, step) {
            return false;
        }
    }
    true
}

/// `==2`, `&&3`
const BEFORE: [Step; 2] = [
    Step::Join(Operator::Equal, Wanted::Number(2)),
    Step::Join(Operator::Both, Wanted::Number(3)),
];

/// `!`, `&&4`
const BEHIND: [Step; 2] = [Step::Not, Step::Join(Operator::Both, Wanted::Number(4))];

/// Whether a leaf and the links behind it are `(((1==2)&&3)||(!r&&4))`.
fn is_bound(first: &Leaf, links: &[Link]) -> bool {
    match links.split_last() {
        Some((Link::Join(Operator::Either, right), before)) => {
            is_leaf(first, &Wanted::Number(1))
                && are_steps(before, &BEFORE)
                && is_leaf(&right.first, &Wanted::Register(b"r"))
                && are_steps(&right.rest, &BEHIND)
        }
        _ => false,
    }
}

/// Whether a test's first thread ends by assigning that expression.
fn binds(_alloc: Global, test: &Test) -> Result<bool, AllocError> {
    match last(test) {
        Some(Statement::Assign(_, RightSide::Value(expression))) => {
            Ok(is_bound(&expression.first, &expression.rest))
        }
        _ => Ok(false),
    }
}

/// Whether a statement is an `if` with no `else`, and the `if` in its arm has one.
fn is_inner(statement: &Statement) -> bool {
    match statement {
        Statement::If(_, arm, None) => matches!(&**arm, Statement::If(_, _, Some(_))),
        _ => false,
    }
}

/// Whether the first thread of a test ends by such an `if`.
fn ends_with_inner(_alloc: Global, test: &Test) -> Result<bool, AllocError> {
    match last(test) {
        Some(statement) => Ok(is_inner(statement)),
        None => Ok(false),
    }
}

/// The value of the entry for a place: of the two for `[x]` the later one, 0 for `y`, and 3 for a register.
fn value_of(place: &Place) -> u32 {
    match place {
        Place::Reg(_, _) => 3,
        Place::Loc(name) => {
            if name.bytes() == b"x".as_slice() {
                2
            } else {
                0
            }
        }
    }
}

/// Whether each entry gives its place that value.
fn have_values(entries: &[Binding]) -> bool {
    for entry in entries {
        if entry.value != value_of(&entry.place) {
            return false;
        }
    }
    true
}

/// Whether a test has three entries, with those values, one thread and two locations.
fn has_entries(_alloc: Global, test: &Test) -> Result<bool, AllocError> {
    Ok(counts_of_test(test) == [3, 1, 0, 2] && have_values(test.initial()))
}

const COPIES: &str = "# store buffering, read once more

SB
<>
SB ==> equal

# a store, and texts that differ from it in one place each

C a
{x=1}P0(atomic_int*y){atomic_store_explicit(y,1,memory_order_relaxed);}exists x=0
<>
C b
{x=1}P0(atomic_int*y){atomic_store_explicit(y,1,memory_order_relaxed);}exists x=0 ==> another

C a
{x=1}P0(atomic_int*y){atomic_store_explicit(y,1,memory_order_relaxed);}exists x=0
<>
C a
{x=0}P0(atomic_int*y){atomic_store_explicit(y,1,memory_order_relaxed);}exists x=0 ==> another

C a
{x=1}P0(atomic_int*y){atomic_store_explicit(y,1,memory_order_relaxed);}exists x=0
<>
C a
{x=1}P0(atomic_int*y){atomic_store_explicit(y,0,memory_order_relaxed);}exists x=0 ==> another

C a
{x=1}P0(atomic_int*y){atomic_store_explicit(y,1,memory_order_relaxed);}exists x=0
<>
C a
{x=1}P0(atomic_int*y){int r=atomic_load_explicit(y,memory_order_relaxed);}exists x=0 ==> another

C a
{x=1}P0(atomic_int*y){atomic_store_explicit(y,1,memory_order_relaxed);}exists x=0
<>
C a
{x=1}P0(atomic_int*y){atomic_store_explicit(y,1,memory_order_relaxed);}exists y=0 ==> another

C a
{x=1}P0(atomic_int*y){atomic_store_explicit(y,1,memory_order_relaxed);}exists x=0
<>
C a
{x=1}P0(atomic_int*y){atomic_store_explicit(y,1,memory_order_relaxed);}P1(){}exists x=0 ==> another

# an add, read once more, and texts that differ from it in one place each

C a
{}P0(atomic_int*y){int r=atomic_fetch_add_explicit(y,1,memory_order_relaxed);}exists y=0
<>
C a
{}P0(atomic_int*y){int r=atomic_fetch_add_explicit(y,1,memory_order_relaxed);}exists y=0 ==> equal

C a
{}P0(atomic_int*y){int r=atomic_fetch_add_explicit(y,1,memory_order_relaxed);}exists y=0
<>
C a
{}P0(atomic_int*y){int r=atomic_fetch_add_explicit(y,2,memory_order_relaxed);}exists y=0 ==> another

C a
{}P0(atomic_int*y){int r=atomic_fetch_add_explicit(y,1,memory_order_relaxed);}exists y=0
<>
C a
{}P0(atomic_int*y){int r=atomic_fetch_add_explicit(y,1,memory_order_acquire);}exists y=0 ==> another

C a
{}P0(atomic_int*y){int r=atomic_fetch_add_explicit(y,1,memory_order_relaxed);}exists y=0
<>
C a
{}P0(atomic_int*y){int r=atomic_exchange_explicit(y,1,memory_order_relaxed);}exists y=0 ==> another

C a
{}P0(atomic_int*y){int r=atomic_fetch_add_explicit(y,1,memory_order_relaxed);}exists y=0
<>
C a
{}P0(atomic_int*y,atomic_int*z){int r=atomic_fetch_add_explicit(z,1,memory_order_relaxed);}exists y=0 ==> another

# numbers of more than a byte

C a
{x=70000}P0(atomic_int*y){atomic_store_explicit(y,1,memory_order_relaxed);}exists x=0
<>
C a
{x=70000}P0(atomic_int*y){atomic_store_explicit(y,1,memory_order_relaxed);}exists x=0 ==> equal

C a
{x=70000}P0(atomic_int*y){atomic_store_explicit(y,1,memory_order_relaxed);}exists x=0
<>
C a
{x=4464}P0(atomic_int*y){atomic_store_explicit(y,1,memory_order_relaxed);}exists x=0 ==> another";

/// `||` binds most loosely, then `&&`, then `==`, and `!` most tightly.
const OPERATORS: &str = "C a\n{}P0(){int r; r = 1 == 2 && 3 || !r && 4;}exists true";

const NEAREST_IF: &str = "C a\n{}P0(){int r; if (r) if (r) r = 1; else r = 2;}exists true";

const TWO_ENTRIES: &str = "C a\n{int x=1; [x]=2; 0:r=3; y=4; y}P0(){}exists x=0";

#[test]
fn trees(rt: HostRuntime) {
    let alloc = rt.alloc();
    expect(&rt, "store buffering", holds_of(alloc, SB, is_sb));
    expect(&rt, "operators", holds_of(alloc, OPERATORS, binds));
    let is_nearest = holds_of(alloc, NEAREST_IF, ends_with_inner);
    expect(&rt, "the nearest if", is_nearest);
    let has_two = holds_of(alloc, TWO_ENTRIES, has_entries);
    expect(&rt, "two entries", has_two);
    all_hold(&rt, alloc, "copies and other tests", COPIES, compares);
}
