//! Names that a test doesn't have, or not of this kind.

ghost use Rattle.std.specs.Prelude.{All, length};
ghost use Rattle.wb_text.specs.Tokens.{IsWithin};

use crate::words::{nearest, shown};
use litmus_c::{LocationKind, TestFault};
use litmus_syntax::symbols;
use std::alloc::{AllocError, Global};
use test_places::{Mark, Part, Role, marks};
use wb_text::Token;

/// What a name does where it stands, and in which part of the test.
#[derive(Clone, Copy)]
struct Use<'a> {
    name: &'a str,
    part: Part,
    role: Role,
}

/// What is wrong with the name at an offset.
pub fn name_sentence(
    alloc: Global,
    text: &[u8],
    tokens: &[Token],
    fault: &TestFault,
    offset: usize,
) -> Result<String, AllocError>
    requires { All (IsWithin (length text.now)) tokens.now }
{
    let symbols = symbols(alloc, text, tokens)?;
    let marks = marks(alloc, &symbols)?;
    for (token, mark) in tokens.iter().zip(&marks) {
        if token.from == offset {
            return told(alloc, &marks, mark, fault);
        }
    }
    String::from_str(alloc, "this name can't stand here")
}

fn told(
    alloc: Global,
    marks: &[Mark],
    mark: &Mark,
    fault: &TestFault,
) -> Result<String, AllocError> {
    let name = match &mark.name {
        Some(name) => shown(name.bytes()),
        None => "this",
    };
    let used = Use {
        name,
        part: mark.part,
        role: mark.role,
    };
    match fault {
        TestFault::PlainOnAtomic => format!(in alloc;
            "{name} is an atomic_int* here, and takes calls alone; use atomic_load_explicit or atomic_store_explicit, or make it an int*"
        ),
        TestFault::AtomicOnPlain => format!(in alloc;
            "{name} is an int* here, and takes plain access alone; make it an atomic_int*, or write *{name}"
        ),
        _ => match mark.part {
            Part::Thread(thread) => unknown_inside(alloc, marks, used, thread),
            Part::Initial | Part::Final => unknown_outside(alloc, marks, used),
        },
    }
}

/// Of which kind a thread's parameter of this name is, if there is one.
fn kind_of(marks: &[Mark], thread: usize, name: &str) -> Option<LocationKind> {
    for mark in marks {
        if mark.part == Part::Thread(thread) && is_named(mark, name) {
            if let Role::Parameter(kind) = mark.role {
                return Some(kind);
            }
        }
    }
    None
}

/// The name that may be meant by one that isn't there.
fn meant_by<'a>(
    alloc: Global,
    marks: &'a [Mark],
    used: Use<'_>,
) -> Result<Option<&'a str>, AllocError> {
    let mut known = Vec::new(alloc);
    for mark in marks {
        if let Some(name) = &mark.name {
            if may_stand_there(mark, used) {
                known.push(shown(name.bytes()))?;
            }
        }
    }
    nearest(alloc, used.name, &known)
}

/// Whether a mark names what may be named where a name is used.
fn may_stand_there(mark: &Mark, used: Use<'_>) -> bool {
    match used.role {
        Role::Register(thread) => is_register(mark, thread as usize),
        Role::Location => is_location(mark),
        _ => match used.part {
            Part::Thread(thread) if used.role == Role::Read => is_register(mark, thread),
            _ => mark.part == used.part && matches!(&mark.role, Role::Parameter(_)),
        },
    }
}

/// Whether a mark gives a thread a register.
fn is_register(mark: &Mark, thread: usize) -> bool {
    match mark.role {
        Role::Given => mark.part == Part::Thread(thread),
        Role::Register(other) => mark.part == Part::Initial && other as usize == thread,
        _ => false,
    }
}

/// Whether a mark gives the test a location.
fn is_location(mark: &Mark) -> bool {
    match mark.role {
        Role::Parameter(_) => true,
        Role::Location => mark.part == Part::Initial,
        _ => false,
    }
}

fn is_named(mark: &Mark, name: &str) -> bool {
    match &mark.name {
        Some(found) => found.bytes() == name.as_bytes(),
        None => false,
    }
}

/// What is wrong with a name in a thread.
fn unknown_inside(
    alloc: Global,
    marks: &[Mark],
    used: Use<'_>,
    thread: usize,
) -> Result<String, AllocError> {
    let name = used.name;
    match used.role {
        Role::Given => format!(in alloc;
            "{name} is a parameter of P{thread}, and no register; write to its location by *{name} = .. or by a store"
        ),
        Role::Read => match kind_of(marks, thread, name) {
            Some(LocationKind::Atomic) => format!(in alloc;
                "{name} is a parameter of P{thread}, and no register; read its location first, as in int r = atomic_load({name});"
            ),
            Some(LocationKind::Plain) => format!(in alloc;
                "{name} is a parameter of P{thread}, and no register; read its location first, as in int r = *{name};"
            ),
            None => no_register(alloc, marks, used, thread),
        },
        _ => no_parameter(alloc, marks, used, thread),
    }
}

/// What is wrong with a name that is read in a thread, and is nothing there.
fn no_register(
    alloc: Global,
    marks: &[Mark],
    used: Use<'_>,
    thread: usize,
) -> Result<String, AllocError> {
    let name = used.name;
    match meant_by(alloc, marks, used)? {
        Some(known) => format!(in alloc;
            "{name} is no register of P{thread}; did you mean {known}?"
        ),
        None => format!(in alloc;
            "{name} is no register of P{thread}; declare it there, as in int {name} = 0;"
        ),
    }
}

/// What is wrong with a name that is accessed in a thread, and is no parameter.
fn no_parameter(
    alloc: Global,
    marks: &[Mark],
    used: Use<'_>,
    thread: usize,
) -> Result<String, AllocError> {
    let name = used.name;
    match meant_by(alloc, marks, used)? {
        Some(known) => format!(in alloc;
            "{name} is no parameter of P{thread}; did you mean {known}?"
        ),
        None => format!(in alloc;
            "{name} is no parameter of P{thread}; add int* {name} or atomic_int* {name} to its parameters"
        ),
    }
}

/// How many threads there are.
fn count_threads(marks: &[Mark]) -> usize {
    let mut threads = 0usize;
    for mark in marks {
        if mark.role == Role::Head {
            threads = threads.saturating_add(1);
        }
    }
    threads
}

/// What is wrong with a name in the initial state, in what is listed, or in the condition.
fn unknown_outside(alloc: Global, marks: &[Mark], used: Use<'_>) -> Result<String, AllocError> {
    let name = used.name;
    let threads = count_threads(marks);
    match used.role {
        Role::Register(thread) if thread as usize >= threads => format!(in alloc;
            "there is no thread {thread}; the test has {threads}, numbered from 0"
        ),
        Role::Register(thread) if used.part == Part::Initial => format!(in alloc;
            "{name} is a parameter of P{thread}, and no register; the location itself is {name}, without {thread}:"
        ),
        Role::Register(thread) => not_in_thread(alloc, marks, used, thread),
        _ => no_location(alloc, marks, used),
    }
}

/// What is wrong with a register that is listed or asked for, and that its thread doesn't have.
fn not_in_thread(
    alloc: Global,
    marks: &[Mark],
    used: Use<'_>,
    thread: u32,
) -> Result<String, AllocError> {
    let name = used.name;
    match meant_by(alloc, marks, used)? {
        Some(known) => format!(in alloc; "P{thread} has no register {name}; did you mean {known}?"),
        None => format!(in alloc;
            "P{thread} has no register {name}; it has those that it declares or assigns, and those of the initial state"
        ),
    }
}

/// What is wrong with a location that is listed or asked for, and that isn't there.
fn no_location(alloc: Global, marks: &[Mark], used: Use<'_>) -> Result<String, AllocError> {
    let name = used.name;
    match meant_by(alloc, marks, used)? {
        Some(known) => format!(in alloc; "there is no location {name}; did you mean {known}?"),
        None => format!(in alloc;
            "there is no location {name}; a location is named in the initial state or by a parameter, and a register with its thread, as in 0:{name}"
        ),
    }
}
