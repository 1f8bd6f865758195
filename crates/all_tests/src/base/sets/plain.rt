//! A plain, slow definition of each operation, and the comparison with the operation itself.

ghost use Rattle.std.specs.Prelude.{◌≡◌, ◌≤◌};

use relations::{Rel, Set};

/// An operation that makes a relation of two, or of the first of two.
#[derive(Clone, Copy)]
enum Operation {
    Union,
    Inter,
    Minus,
    Complement,
    Inverse,
    Opt,
    Seq,
    Plus,
    Star,
}

/// Each of them, with its name.
const OPERATIONS: &[(Operation, &str)] = &[
    (Operation::Union, "union"),
    (Operation::Inter, "inter"),
    (Operation::Minus, "minus"),
    (Operation::Complement, "complement"),
    (Operation::Inverse, "inverse"),
    (Operation::Opt, "opt"),
    (Operation::Seq, "seq"),
    (Operation::Plus, "plus"),
    (Operation::Star, "star"),
];

/// An operation that makes a set of two, or of the first of two.
#[derive(Clone, Copy)]
enum SetOperation {
    Union,
    Inter,
    Minus,
    Complement,
    Copy,
}

/// Each of them, with its name.
const SET_OPERATIONS: &[(SetOperation, &str)] = &[
    (SetOperation::Union, "union"),
    (SetOperation::Inter, "inter"),
    (SetOperation::Minus, "minus"),
    (SetOperation::Complement, "complement"),
    (SetOperation::Copy, "copy"),
];

/// Is the pair in? Beyond the count there is none.
fn related(r: &Rel, i: usize, j: usize) -> bool {
    i < r.count() && j < r.count() && r.contains(i, j)
}

/// Is the event in? Beyond the count there is none.
fn member(s: &Set, i: usize) -> bool {
    i < s.count() && s.contains(i)
}

/// Does a chain of at most `steps` pairs, and at least one, lead from `i` to `j`?
pub fn chain(r: &Rel, i: usize, j: usize, steps: usize) -> bool {
    if steps == 0 {
        return false;
    }
    if related(r, i, j) {
        return true;
    }
    for m in 0..r.count() {
        if related(r, i, m) && chain(r, m, j, steps - 1) {
            return true;
        }
    }
    false
}

/// Does some event stand between `i` and `j`?
fn through(r: &Rel, s: &Rel, i: usize, j: usize) -> bool {
    for m in 0..r.count() {
        if related(r, i, m) && related(s, m, j) {
            return true;
        }
    }
    false
}

/// Is the event related to some event?
fn leads_on(r: &Rel, i: usize) -> bool {
    for j in 0..r.count() {
        if related(r, i, j) {
            return true;
        }
    }
    false
}

/// How many pairs there are.
pub fn pair_count(r: &Rel) -> u32 {
    let mut pairs = 0_u32;
    for i in 0..r.count() {
        for j in 0..r.count() {
            if r.contains(i, j) {
                pairs = pairs.saturating_add(1);
            }
        }
    }
    pairs
}

/// The relation on `count` events that the bits of `code` tell, pair by pair.
pub fn relation(count: usize, code: u32) -> Rel
    requires { count ≤ 64 }
{
    let mut r = Rel::empty(count);
    let mut rest = code;
    for i in 0..count {
        for j in 0..count {
            if rest % 2 == 1 {
                r.insert(i, j);
            }
            rest /= 2;
        }
    }
    r
}

/// The set of those of `count` events that the bits of `code` tell.
pub fn set(count: usize, code: u32) -> Set
    requires { count ≤ 64 }
{
    let mut s = Set::empty(count);
    let mut rest = code;
    for i in 0..count {
        if rest % 2 == 1 {
            s.insert(i);
        }
        rest /= 2;
    }
    s
}

/// What the operation itself makes.
fn made(operation: Operation, r: &Rel, s: &Rel) -> Rel
    requires { r.now.count ≡ s.now.count }
{
    match operation {
        Operation::Union => r.union(s),
        Operation::Inter => r.inter(s),
        Operation::Minus => r.minus(s),
        Operation::Complement => r.complement(),
        Operation::Inverse => r.inverse(),
        Operation::Opt => r.opt(),
        Operation::Seq => r.seq(s),
        Operation::Plus => r.plus(),
        Operation::Star => r.star(),
    }
}

/// What the operation writes over a relation that had all pairs of 64 events.
fn written_over(operation: Operation, r: &Rel, s: &Rel) -> Rel
    requires { r.now.count ≡ s.now.count }
{
    let mut over = Rel::full(64);
    match operation {
        Operation::Union => over.become_union(r, s),
        Operation::Inter => over.become_inter(r, s),
        Operation::Minus => over.become_minus(r, s),
        Operation::Complement => over.become_complement(r),
        Operation::Inverse => over.become_inverse(r),
        Operation::Opt => over.become_opt(r),
        Operation::Seq => over.become_seq(r, s),
        Operation::Plus => over.become_plus(r),
        Operation::Star => over.become_star(r),
    }
    over
}

/// Does its plain definition hold of the pair?
fn holds(operation: Operation, r: &Rel, s: &Rel, i: usize, j: usize) -> bool {
    match operation {
        Operation::Union => related(r, i, j) || related(s, i, j),
        Operation::Inter => related(r, i, j) && related(s, i, j),
        Operation::Minus => related(r, i, j) && !related(s, i, j),
        Operation::Complement => !related(r, i, j),
        Operation::Inverse => related(r, j, i),
        Operation::Opt => i == j || related(r, i, j),
        Operation::Seq => through(r, s, i, j),
        Operation::Plus => chain(r, i, j, r.count()),
        Operation::Star => i == j || chain(r, i, j, r.count()),
    }
}

/// Are these just the pairs for which its plain definition holds?
fn is_as_defined(found: &Rel, operation: Operation, r: &Rel, s: &Rel) -> bool {
    for i in 0..found.count() {
        for j in 0..found.count() {
            if found.contains(i, j) != holds(operation, r, s, i, j) {
                return false;
            }
        }
    }
    found.count() == r.count()
}

/// Is what the operation makes, and what it writes over another relation, as it is defined?
fn agrees(operation: Operation, r: &Rel, s: &Rel) -> bool
    requires { r.now.count ≡ s.now.count }
{
    is_as_defined(&made(operation, r, s), operation, r, s)
        && is_as_defined(&written_over(operation, r, s), operation, r, s)
}

/// Has the relation cycles, has it pairs of an event with itself, and is each of its pairs in the other?
fn told_plainly(r: &Rel, s: &Rel) -> (bool, bool, bool) {
    let count = r.count();
    let mut returns = false;
    let mut reflexive = false;
    let mut within = true;
    for i in 0..count {
        returns |= chain(r, i, i, count);
        reflexive |= related(r, i, i);
        for j in 0..count {
            within &= !related(r, i, j) || related(s, i, j);
        }
    }
    (returns, reflexive, within)
}

/// Is each question about a relation answered as its plain definition answers it?
fn is_told(r: &Rel, s: &Rel) -> bool
    requires { r.now.count ≡ s.now.count }
{
    let (returns, reflexive, within) = told_plainly(r, s);
    r.is_acyclic() != returns
        && r.is_irreflexive() != reflexive
        && r.is_within(s) == within
        && r.is_empty() == (pair_count(r) == 0)
}

/// Are just those events in the set that lead on?
fn has_just_those_that_lead_on(found: &Set, r: &Rel) -> bool {
    for i in 0..found.count() {
        if found.contains(i) != leads_on(r, i) {
            return false;
        }
    }
    true
}

/// Has the domain just the events that lead on, and the range just those that are led to?
fn are_ends(r: &Rel) -> bool {
    has_just_those_that_lead_on(&r.domain(), r)
        && has_just_those_that_lead_on(&r.range(), &r.inverse())
}

/// The first operation on one or two relations that doesn't agree with its plain definition.
pub fn amiss(r: &Rel, s: &Rel) -> Option<&'static str> {
    if r.count() != s.count() {
        return Some("two counts");
    }
    for (operation, name) in OPERATIONS {
        if !agrees(*operation, r, s) {
            return Some(*name);
        }
    }
    if !is_told(r, s) {
        return Some("a question");
    }
    if !are_ends(r) {
        return Some("domain or range");
    }
    None
}

/// What the operation itself makes.
fn set_made(operation: SetOperation, s: &Set, t: &Set) -> Set
    requires { s.now.count ≡ t.now.count }
{
    match operation {
        SetOperation::Union => s.union(t),
        SetOperation::Inter => s.inter(t),
        SetOperation::Minus => s.minus(t),
        SetOperation::Complement => s.complement(),
        SetOperation::Copy => s.copy(),
    }
}

/// Does its plain definition hold of the event?
fn holds_of_event(operation: SetOperation, s: &Set, t: &Set, i: usize) -> bool {
    match operation {
        SetOperation::Union => member(s, i) || member(t, i),
        SetOperation::Inter => member(s, i) && member(t, i),
        SetOperation::Minus => member(s, i) && !member(t, i),
        SetOperation::Complement => !member(s, i),
        SetOperation::Copy => member(s, i),
    }
}

/// Has what the operation makes just the events for which its plain definition holds?
fn agrees_on_events(operation: SetOperation, s: &Set, t: &Set) -> bool
    requires { s.now.count ≡ t.now.count }
{
    let found = set_made(operation, s, t);
    for i in 0..found.count() {
        if found.contains(i) != holds_of_event(operation, s, t, i) {
            return false;
        }
    }
    true
}

/// Are these just the pairs of the one set with the other, and those of each event of the one with itself?
fn are_pairs(product: &Rel, ident: &Rel, s: &Set, t: &Set) -> bool {
    for i in 0..s.count() {
        for j in 0..s.count() {
            if related(product, i, j) != (member(s, i) && member(t, j))
                || related(ident, i, j) != (i == j && member(s, i))
            {
                return false;
            }
        }
    }
    product.count() == s.count() && ident.count() == s.count()
}

/// Is there an event in the set?
fn has_some(s: &Set) -> bool {
    for i in 0..s.count() {
        if member(s, i) {
            return true;
        }
    }
    false
}

/// The first operation on one or two sets that doesn't agree with its plain definition.
pub fn amiss_of_sets(s: &Set, t: &Set) -> Option<&'static str> {
    if s.count() != t.count() {
        return Some("two counts");
    }
    for (operation, name) in SET_OPERATIONS {
        if !agrees_on_events(*operation, s, t) {
            return Some(*name);
        }
    }
    if !are_pairs(&s.product(t), &s.ident(), s, t) {
        return Some("product or ident");
    }
    if s.is_empty() == has_some(s) {
        return Some("is_empty");
    }
    None
}
