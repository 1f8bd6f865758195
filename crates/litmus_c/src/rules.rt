//! The names of a test: what is used is there.

ghost use Rattle.std.specs.Prelude.{◌≡◌, ◌≤◌, ◌-◌, map, length, SomeIff, sum_by};
ghost use Rattle.std.specs.List.{list_all, list_any};
ghost use Rattle.conditions.specs.Conditions.{atomic, growth_of as formula_growth, formula_of};
ghost use Rattle.litmus_syntax.specs.Drafts.{is_parameter};
ghost use Rattle.litmus_value.specs.Limits.{action_events, optional_events, right_events, step_events, steps_events, program_events};
ghost use Rattle.litmus_c.specs.Rules.{is_given, entry_is_fair, is_of, has_other_kind, may_read, may_give, may_call, may_access, term_keeps, growth_keeps, action_keeps, right_keeps, declared_keeps, step_keeps, steps_keep, program_keeps, place_is_there, formula_is_fair, connected_is_fair};
ghost use Rattle.litmus_tree.specs.Names.{is_one_of};
ghost use Rattle.litmus_tree.specs.Tree.{leaf_of, growth_of, term_of, action_of, right_of, declared_of, step_of, steps_of};

use conditions::{Atom, Place, Prop};
use litmus_tree::{
    Call, Declarator, Expression, Leaf, Link, LocationKind, Parameter, RightSide, Statement, Thread,
};
use wb_text::Name;

/// Whether a parameter has this name.
fn is_parameter(parameters: &[Parameter], name: &Name) -> bool
    ensures { result ≡ is_parameter parameters.now name.now }
{
    parameters.iter().any(|parameter| parameter.name == *name)
}

/// Whether the name is one of these.
pub fn is_one_of(names: &[Name], name: &Name) -> bool
    ensures { result ≡ is_one_of names.now name.now }
{
    names.iter().any(|other| *name == *other)
}

/// A register of an entry belongs to a thread, and is no parameter of it.
pub fn entry_is_fair(threads: &[Thread], place: &Place) -> bool
    ensures { result ≡ entry_is_fair threads.now place.now }
{
    match place {
        Place::Loc(_) => true,
        Place::Reg(number, name) => match threads.get(*number) {
            Some(thread) => !is_parameter(thread.parameters(), name),
            None => false,
        },
    }
}

/// A rule on the names that a thread uses.
#[derive(Clone, Copy, Debug, PartialEq, Eq)]
pub enum Rule {
    /// What is used is there, and no parameter is a register.
    Names,
    /// No plain access is to an atomic location.
    PlainAccess,
    /// No call is on a plain location.
    AtomicAccess,
}

/// Whether a parameter has this name and this kind.
fn is_of(kind: LocationKind, name: &Name, parameter: &Parameter) -> bool
    ensures { result ≡ is_of kind name.now parameter.now }
{
    parameter.name == *name && parameter.kind == kind
}

/// Whether a parameter of this name has this kind.
fn has_kind(parameters: &[Parameter], kind: LocationKind, name: &Name) -> bool
    ensures { result ≡ list_any (is_of kind name.now) parameters.now }
{
    parameters
        .iter()
        .any(|parameter| is_of(kind, name, parameter))
}

/// Whether no parameter of this name has this kind.
fn has_other_kind(parameters: &[Parameter], kind: LocationKind, name: &Name) -> bool
    ensures { result ≡ has_other_kind parameters.now kind name.now }
{
    !has_kind(parameters, kind, name)
}

/// A rule, and the names of the thread on which it is tried.
#[derive(Clone, Copy)]
struct Scope<'a> {
    rule: Rule,
    thread: &'a Thread,
}

impl<'a> Scope<'a> {
    /// Whether this register may be read.
    fn may_read(&self, register: &Name) -> bool
        ensures { result ≡ may_read self.now.rule self.now.thread.now.parameters self.now.thread.now.registers register.now }
    {
        match self.rule {
            Rule::Names => self.thread.has_register(register),
            Rule::PlainAccess | Rule::AtomicAccess => true,
        }
    }

    /// Whether this register may be declared or assigned.
    fn may_give(&self, register: &Name) -> bool
        ensures { result ≡ may_give self.now.rule self.now.thread.now.parameters self.now.thread.now.registers register.now }
    {
        match self.rule {
            Rule::Names => !is_parameter(self.thread.parameters(), register),
            Rule::PlainAccess | Rule::AtomicAccess => true,
        }
    }

    /// Whether a call may be on this location.
    fn may_call(&self, location: &Name) -> bool
        ensures { result ≡ may_call self.now.rule self.now.thread.now.parameters self.now.thread.now.registers location.now }
    {
        match self.rule {
            Rule::Names => is_parameter(self.thread.parameters(), location),
            Rule::PlainAccess => true,
            Rule::AtomicAccess => has_other_kind(
                self.thread.parameters(),
                LocationKind::Plain,
                location,
            ),
        }
    }

    /// Whether a plain access may be to this location.
    fn may_access(&self, location: &Name) -> bool
        ensures { result ≡ may_access self.now.rule self.now.thread.now.parameters self.now.thread.now.registers location.now }
    {
        match self.rule {
            Rule::Names => is_parameter(self.thread.parameters(), location),
            Rule::PlainAccess => has_other_kind(
                self.thread.parameters(),
                LocationKind::Atomic,
                location,
            ),
            Rule::AtomicAccess => true,
        }
    }

    fn leaf_keeps(&self, leaf: &Leaf) -> bool
        ensures { result ≡ term_keeps self.now.rule self.now.thread.now.parameters self.now.thread.now.registers (leaf_of leaf.now) }
    {
        match leaf {
            Leaf::Number(_) => true,
            Leaf::Register(register) => self.may_read(register),
        }
    }

    /// Recursion goes into right operands alone.
    #[cycle(terms)]
    fn term_keeps(&self, expression: &Expression) -> bool
        ensures { result ≡ term_keeps self.now.rule self.now.thread.now.parameters self.now.thread.now.registers (term_of expression.now) }
    {
        self.leaf_keeps(&expression.first) && self.links_keep(&expression.rest)
    }

    #[cycle(terms)]
    fn links_keep(&self, links: &Vec<Link>) -> bool
        ensures { result ≡ list_all (growth_keeps self.now.rule self.now.thread.now.parameters self.now.thread.now.registers) (map growth_of links.now.items) }
    {
        for link in links {
            if !self.link_keeps(link) {
                return false;
            }
        }
        true
    }

    #[cycle(terms)]
    #[tactic(auto, using(litmus_tree::specs::Chains::join_is))]
    fn link_keeps(&self, link: &Link) -> bool
        ensures { result ≡ growth_keeps self.now.rule self.now.thread.now.parameters self.now.thread.now.registers (growth_of link.now) }
    {
        match link {
            Link::Not => true,
            Link::Join(_, operand) => self.term_keeps(operand),
        }
    }

    fn call_keeps(&self, call: &Call) -> bool
        ensures { result ≡ action_keeps self.now.rule self.now.thread.now.parameters self.now.thread.now.registers (action_of call.now) }
    {
        match call {
            Call::Load(location, _) | Call::Modify(location, _, _, _) => self.may_call(location),
            Call::Store(location, value, _) | Call::Exchange(location, value, _) => {
                self.may_call(location) && self.term_keeps(value)
            }
            Call::Fence(_) => true,
        }
    }

    fn right_keeps(&self, right: &RightSide) -> bool
        ensures { result ≡ right_keeps self.now.rule self.now.thread.now.parameters self.now.thread.now.registers (right_of right.now) }
    {
        match right {
            RightSide::Value(value) => self.term_keeps(value),
            RightSide::Read(location) => self.may_access(location),
            RightSide::Call(call) => self.call_keeps(call),
        }
    }

    fn declarator_keeps(&self, declarator: &Declarator) -> bool
        ensures { result ≡ declared_keeps self.now.rule self.now.thread.now.parameters self.now.thread.now.registers (declared_of declarator.now) }
    {
        if !self.may_give(&declarator.register) {
            return false;
        }
        match &declarator.value {
            Some(value) => self.right_keeps(value),
            None => true,
        }
    }

    fn each_keeps(&self, declarators: &[Declarator]) -> bool
        ensures { result ≡ list_all (λ d. declared_keeps self.now.rule self.now.thread.now.parameters self.now.thread.now.registers (declared_of d)) declarators.now }
    {
        declarators
            .iter()
            .all(|declarator| self.declarator_keeps(declarator))
    }

    #[tactic(auto, using(crate::proofs::Fair::all_declared))]
    fn declarators_keep(&self, declarators: &[Declarator]) -> bool
        ensures { result ≡ list_all (declared_keeps self.now.rule self.now.thread.now.parameters self.now.thread.now.registers) (map declared_of declarators.now) }
    {
        self.each_keeps(declarators)
    }

    #[cycle(keeping)]
    #[tactic(auto, using(litmus_tree::proofs::Steps::only_if, litmus_tree::proofs::Steps::if_and_else))]
    fn step_keeps(&self, statement: &Statement) -> bool
        ensures { result ≡ step_keeps self.now.rule self.now.thread.now.parameters self.now.thread.now.registers (step_of statement.now) }
    {
        match statement {
            Statement::Empty => true,
            Statement::Block(statements) => self.steps_keep(statements.as_slice()),
            Statement::Declare(declarators) => self.declarators_keep(declarators.as_slice()),
            Statement::Assign(register, value) => {
                self.may_give(register) && self.right_keeps(value)
            }
            Statement::Write(location, value) => {
                self.may_access(location) && self.term_keeps(value)
            }
            Statement::Perform(call) => self.call_keeps(call),
            Statement::If(test, arm, None) => self.term_keeps(test) && self.step_keeps(arm),
            Statement::If(test, arm, Some(other)) => {
                self.term_keeps(test) && self.step_keeps(arm) && self.step_keeps(other)
            }
        }
    }

    #[cycle(keeping)]
    fn steps_keep(&self, statements: &[Statement]) -> bool
        ensures { result ≡ steps_keep self.now.rule self.now.thread.now.parameters self.now.thread.now.registers (steps_of statements.now) }
    {
        for statement in statements {
            if !self.step_keeps(statement) {
                return false;
            }
        }
        true
    }
}

/// Whether a thread keeps a rule.
pub fn program_keeps(rule: Rule, thread: &Thread) -> bool
    ensures { result ≡ program_keeps rule thread.now }
{
    let scope = Scope { rule, thread };
    scope.steps_keep(thread.statements())
}

/// A place of the condition is a register of a thread, or a location.
fn place_is_there(threads: &[Thread], locations: &[Name], place: &Place) -> bool
    ensures { result ≡ place_is_there threads.now locations.now place.now }
{
    match place {
        Place::Loc(name) => is_one_of(locations, name),
        Place::Reg(number, name) => match threads.get(*number) {
            Some(thread) => thread.has_register(name),
            None => false,
        },
    }
}

/// The places of a list are there.
pub fn places_are_there(threads: &[Thread], locations: &[Name], places: &[Place]) -> bool
    ensures { result ≡ list_all (place_is_there threads.now locations.now) places.now }
{
    places
        .iter()
        .all(|place| place_is_there(threads, locations, place))
}

fn atom_is_fair(threads: &[Thread], locations: &[Name], atom: &Atom) -> bool
    ensures { result ≡ formula_is_fair threads.now locations.now (atomic atom.now) }
{
    match atom {
        Atom::True | Atom::False => true,
        Atom::Equals(place, _) => place_is_there(threads, locations, place),
    }
}

/// The places of a proposition are there. Recursion goes into right operands alone.
#[cycle(formulas)]
pub fn formula_is_fair(threads: &[Thread], locations: &[Name], prop: &Prop) -> bool
    ensures { result ≡ formula_is_fair threads.now locations.now (formula_of prop.now) }
{
    atom_is_fair(threads, locations, &prop.first) && are_fair(threads, locations, &prop.rest)
}

#[cycle(formulas)]
fn are_fair(threads: &[Thread], locations: &[Name], links: &Vec<conditions::Link>) -> bool
    ensures { result ≡ list_all (connected_is_fair threads.now locations.now) (map formula_growth links.now.items) }
{
    for link in links {
        if !is_fair(threads, locations, link) {
            return false;
        }
    }
    true
}

#[cycle(formulas)]
#[tactic(auto, using(conditions::specs::Chains::join_is))]
fn is_fair(threads: &[Thread], locations: &[Name], link: &conditions::Link) -> bool
    ensures { result ≡ connected_is_fair threads.now locations.now (formula_growth link.now) }
{
    match link {
        conditions::Link::Not => true,
        conditions::Link::Join(_, operand) => formula_is_fair(threads, locations, operand),
    }
}

/// What is left of `room` events after those of a call.
fn after_call(room: usize, call: &Call) -> Option<usize>
    ensures { SomeIff result (action_events (action_of call.now) ≤ room) (room - action_events (action_of call.now)) }
{
    match call {
        Call::Load(_, _) | Call::Store(_, _, _) | Call::Fence(_) => room.checked_sub(1),
        Call::Exchange(_, _, _) | Call::Modify(_, _, _, _) => room.checked_sub(2),
    }
}

fn after_right(room: usize, right: &RightSide) -> Option<usize>
    ensures { SomeIff result (right_events (right_of right.now) ≤ room) (room - right_events (right_of right.now)) }
{
    match right {
        RightSide::Value(_) => Some(room),
        RightSide::Read(_) => room.checked_sub(1),
        RightSide::Call(call) => after_call(room, call),
    }
}

/// What is left of `room` events after those of a declarator.
fn after_declarator(room: usize, declarator: &Declarator) -> Option<usize>
    ensures { SomeIff result (optional_events (declared_of declarator.now).value ≤ room) (room - optional_events (declared_of declarator.now).value) }
{
    match &declarator.value {
        Some(value) => after_right(room, value),
        None => Some(room),
    }
}

#[tactic(auto, using(crate::proofs::Fair::declarators_below))]
fn after_declarators(room: usize, declarators: &[Declarator]) -> Option<usize>
    ensures { SomeIff result (sum_by (λ d. optional_events d.value) (map declared_of declarators.now) ≤ room) (room - sum_by (λ d. optional_events d.value) (map declared_of declarators.now)) }
{
    let mut room = room;
    for declarator in declarators {
        room = after_declarator(room, declarator)?;
    }
    Some(room)
}

/// What is left of `room` events after those of a statement, on its longest way.
#[cycle(events)]
#[tactic(auto, using(litmus_tree::proofs::Steps::only_if, litmus_tree::proofs::Steps::if_and_else))]
fn after_statement(room: usize, statement: &Statement) -> Option<usize>
    ensures { SomeIff result (step_events (step_of statement.now) ≤ room) (room - step_events (step_of statement.now)) }
{
    match statement {
        Statement::Empty => Some(room),
        Statement::Block(statements) => after_statements(room, statements.as_slice()),
        Statement::Declare(declarators) => after_declarators(room, declarators.as_slice()),
        Statement::Assign(_, value) => after_right(room, value),
        Statement::Write(_, _) => room.checked_sub(1),
        Statement::Perform(call) => after_call(room, call),
        Statement::If(_, arm, None) => after_statement(room, arm),
        Statement::If(_, arm, Some(other)) => {
            let left = after_statement(room, arm)?;
            let right = after_statement(room, other)?;
            Some(left.min(right))
        }
    }
}

#[cycle(events)]
#[tactic(auto, using(crate::proofs::Fair::statements_below, crate::proofs::Steps::row_events))]
fn after_statements(room: usize, statements: &[Statement]) -> Option<usize>
    ensures { SomeIff result (steps_events (steps_of statements.now) ≤ room) (room - steps_events (steps_of statements.now)) }
{
    let mut room = room;
    for statement in statements {
        room = after_statement(room, statement)?;
    }
    Some(room)
}

/// What is left of `room` events after those of the threads.
pub fn after_threads(room: usize, threads: &[Thread]) -> Option<usize>
    ensures { SomeIff result (sum_by program_events threads.now ≤ room) (room - sum_by program_events threads.now) }
{
    let mut room = room;
    for thread in threads {
        room = after_statements(room, thread.statements())?;
    }
    Some(room)
}
