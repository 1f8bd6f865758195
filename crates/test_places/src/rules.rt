//! The first name that a rule of tests doesn't take where it stands.

ghost use Rattle.std.specs.Prelude.{◌≡◌};
ghost use Rattle.std.specs.List.{list_any, position};
ghost use Rattle.test_places.specs.Rules as spec;

use crate::mark::{Mark, Part, Role};
use litmus_tree::LocationKind;
use wb_text::Name;

/// A rule on names.
#[derive(Clone, Copy, PartialEq, Eq)]
pub enum Rule {
    /// What is used is there, and no parameter is a register.
    Names,
    /// No plain access is to an atomic location.
    PlainAccess,
    /// No call is on a plain location.
    AtomicAccess,
}

impl Mark {
    /// Whether it has this name.
    pub fn is_named(&self, name: &Name) -> bool
        ensures { result ≡ spec.is_named name.now self.now }
    {
        match &self.name {
            Some(other) => *other == *name,
            None => false,
        }
    }

    /// Whether it gives a thread a register.
    fn gives(&self, thread: usize) -> bool
        ensures { result ≡ spec.gives thread self.now }
    {
        match self.role {
            Role::Given => self.part == Part::Thread(thread),
            Role::Register(number) => self.part == Part::Initial && number as usize == thread,
            _ => false,
        }
    }

    /// Whether it is a parameter of a thread.
    fn is_parameter_of(&self, thread: usize) -> bool
        ensures { result ≡ spec.is_parameter_of thread self.now }
    {
        match self.role {
            Role::Parameter(_) => self.part == Part::Thread(thread),
            _ => false,
        }
    }

    /// Whether it is a parameter of a thread, and of this kind.
    fn is_of_kind(&self, thread: usize, kind: LocationKind) -> bool
        ensures { result ≡ spec.is_of_kind thread kind self.now }
    {
        match self.role {
            Role::Parameter(found) => self.part == Part::Thread(thread) && found == kind,
            _ => false,
        }
    }

    /// Whether it gives the test a location.
    pub fn is_location(&self) -> bool
        ensures { result ≡ spec.is_location self.now }
    {
        match self.role {
            Role::Parameter(_) => true,
            Role::Location => self.part == Part::Initial,
            _ => false,
        }
    }

    /// Whether a thread begins.
    pub fn is_head(&self) -> bool
        ensures { result ≡ spec.is_head self.now }
    {
        self.role == Role::Head
    }

    /// Whether the thread of this number begins.
    fn begins(&self, thread: usize) -> bool
        ensures { result ≡ spec.begins thread self.now }
    {
        self.is_head() && self.part == Part::Thread(thread)
    }
}

fn has_register(marks: &[Mark], thread: usize, name: &Name) -> bool
    ensures { result ≡ list_any (spec.gives_named thread name.now) marks.now }
{
    marks
        .iter()
        .any(|mark| mark.gives(thread) && mark.is_named(name))
}

fn has_parameter(marks: &[Mark], thread: usize, name: &Name) -> bool
    ensures { result ≡ list_any (spec.is_parameter_named thread name.now) marks.now }
{
    marks
        .iter()
        .any(|mark| mark.is_parameter_of(thread) && mark.is_named(name))
}

fn has_kind(marks: &[Mark], thread: usize, kind: LocationKind, name: &Name) -> bool
    ensures { result ≡ list_any (spec.is_of_kind_named thread kind name.now) marks.now }
{
    marks.iter().any(|mark| mark.is_of_kind(thread, kind) && mark.is_named(name))
}

fn has_location(marks: &[Mark], name: &Name) -> bool
    ensures { result ≡ list_any (spec.is_location_named name.now) marks.now }
{
    marks
        .iter()
        .any(|mark| mark.is_location() && mark.is_named(name))
}

fn has_thread(marks: &[Mark], thread: usize) -> bool
    ensures { result ≡ list_any (spec.begins thread) marks.now }
{
    marks.iter().any(|mark| mark.begins(thread))
}

/// Whether a name that a thread uses is there.
fn is_there(marks: &[Mark], thread: usize, role: Role, name: &Name) -> bool
    ensures { result ≡ spec.is_there marks.now thread role name.now }
{
    match role {
        Role::Read => has_register(marks, thread, name),
        Role::Given => !has_parameter(marks, thread, name),
        Role::Called | Role::Accessed => has_parameter(marks, thread, name),
        _ => true,
    }
}

/// Whether the register of an entry belongs to a thread, and is no parameter of it.
fn is_fair_entry(marks: &[Mark], thread: usize, name: &Name) -> bool
    ensures { result ≡ spec.is_fair_entry marks.now thread name.now }
{
    has_thread(marks, thread) && !has_parameter(marks, thread, name)
}

/// Whether a register of what is listed or of the condition is there.
fn is_register(marks: &[Mark], thread: usize, name: &Name) -> bool
    ensures { result ≡ spec.is_register marks.now thread name.now }
{
    has_thread(marks, thread) && has_register(marks, thread, name)
}

/// Whether a name outside the threads is there.
fn is_there_outside(marks: &[Mark], last: bool, role: Role, name: &Name) -> bool
    ensures { result ≡ spec.is_there_outside marks.now last role name.now }
{
    match role {
        Role::Register(number) => {
            if last {
                is_register(marks, number as usize, name)
            } else {
                is_fair_entry(marks, number as usize, name)
            }
        }
        Role::Location => !last || has_location(marks, name),
        _ => true,
    }
}

/// Whether a name is there.
fn is_known(marks: &[Mark], mark: &Mark, name: &Name) -> bool
    ensures { result ≡ spec.is_known marks.now mark.now name.now }
{
    match mark.part {
        Part::Thread(thread) => is_there(marks, thread, mark.role, name),
        Part::Initial => is_there_outside(marks, false, mark.role, name),
        Part::Final => is_there_outside(marks, true, mark.role, name),
    }
}

/// Whether an access is to a location of another kind.
fn is_at_kind(marks: &[Mark], mark: &Mark, role: Role, kind: LocationKind, name: &Name) -> bool
    ensures { result ≡ spec.is_at_kind marks.now mark.now role kind name.now }
{
    match mark.part {
        Part::Thread(thread) => mark.role == role && has_kind(marks, thread, kind, name),
        Part::Initial | Part::Final => false,
    }
}

/// Whether a mark keeps a rule.
fn keeps(rule: Rule, marks: &[Mark], mark: &Mark) -> bool
    ensures { result ≡ spec.keeps rule marks.now mark.now }
{
    match &mark.name {
        Some(name) => match rule {
            Rule::Names => is_known(marks, mark, name),
            Rule::PlainAccess => !is_at_kind(
                marks,
                mark,
                Role::Accessed,
                LocationKind::Atomic,
                name,
            ),
            Rule::AtomicAccess => !is_at_kind(marks, mark, Role::Called, LocationKind::Plain, name),
        },
        None => true,
    }
}

/// The place of the first mark that breaks a rule.
pub fn first_breach(rule: Rule, marks: &[Mark]) -> Option<usize>
    ensures { result ≡ position (spec.breaks rule marks.now) marks.now }
{
    for (place, mark) in marks.iter().enumerate() {
        if !keeps(rule, marks, mark) {
            return Some(place);
        }
    }
    None
}
