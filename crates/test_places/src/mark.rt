//! What each symbol of a test does where it stands.

ghost use Rattle.std.specs.Prelude.{◌≡◌, ◌+◌, ◌<◌, ◌^◌, IfOk, length};
ghost use Rattle.test_places.specs.Marks as spec;

use crate::beside::{Beside, told_by};
use litmus_syntax::{Operation, Symbol};
use litmus_tree::LocationKind;
use std::alloc::{AllocError, Global};
use wb_text::Name;

/// A part of a test.
#[derive(Clone, Copy, PartialEq, Eq)]
pub enum Part {
    /// The head and the initial state.
    Initial,
    /// The thread of this number.
    Thread(usize),
    /// What is listed, and the condition.
    Final,
}

/// What a symbol does.
#[derive(Clone, Copy, PartialEq, Eq)]
pub enum Role {
    /// Names the thread that begins.
    Head,
    /// Names a location outside the threads.
    Location,
    /// Names a register of the thread of this number, outside the threads.
    Register(u32),
    /// Names a parameter.
    Parameter(LocationKind),
    /// Names a register that is declared or assigned.
    Given,
    /// Names a register that is read.
    Read,
    /// Names the location of a plain access.
    Accessed,
    /// Names the location of a call.
    Called,
    /// Names an order.
    Order,
    /// Calls.
    Calls(Operation),
    /// A constant.
    Constant(u32),
    /// What a call adds.
    Added(u32),
    Nothing,
}

/// A symbol by what it does, with its name if it is one.
pub struct Mark {
    pub part: Part,
    pub role: Role,
    pub name: Option<Name>,
}

// A function of its own: whoever holds one drops it by a call.
impl Drop for Mark {
    fn drop(self) {
        let Mark {
            part: _,
            role: _,
            name: _,
        } = self;
    }
}

/// Where a walk over symbols is.
#[derive(Clone, Copy)]
pub struct Walk {
    part: Part,
    /// The symbol before the last one, and the last one.
    former: Beside,
    last: Beside,
    /// The call whose arguments these are, and how many parentheses of it are open.
    call: Option<Operation>,
    depth: usize,
}

/// Whether the last argument of a call is an order.
fn takes_order(operation: Operation) -> bool
    ensures { result ≡ spec.takes_order operation }
{
    match operation {
        Operation::LoadExplicit
        | Operation::StoreExplicit
        | Operation::ExchangeExplicit
        | Operation::FetchAddExplicit
        | Operation::Fence => true,
        Operation::Load | Operation::Store | Operation::Exchange | Operation::FetchAdd => false,
    }
}

/// Whether a call adds a number.
fn adds(operation: Operation) -> bool
    ensures { result ≡ spec.adds operation }
{
    match operation {
        Operation::FetchAdd | Operation::FetchAddExplicit => true,
        _ => false,
    }
}

impl Walk {
    /// Before all symbols.
    fn start() -> Walk
        ensures { result ≡ spec.start }
    {
        Walk {
            part: Part::Initial,
            former: Beside::Other,
            last: Beside::Other,
            call: None,
            depth: 0,
        }
    }

    /// What a name does outside the threads.
    fn outside(self) -> Role
        ensures { result ≡ spec.outside self }
    {
        match self.last {
            Beside::Colon => match self.former {
                Beside::Number(thread) => Role::Register(thread),
                _ => Role::Location,
            },
            _ => Role::Location,
        }
    }

    /// What a name behind an opening parenthesis does.
    fn opened(self) -> Role
        ensures { result ≡ spec.opened self }
    {
        match self.former {
            Beside::Call(Operation::Fence) => Role::Order,
            Beside::Call(_) => Role::Called,
            _ => Role::Read,
        }
    }

    /// What a name behind a comma does: one of several registers that are declared, or in a call's arguments.
    fn listed(self, next: Beside) -> Role
        ensures { result ≡ spec.listed self next }
    {
        match self.call {
            None => Role::Given,
            Some(operation) => {
                if takes_order(operation) && next == Beside::Close {
                    Role::Order
                } else {
                    Role::Read
                }
            }
        }
    }

    /// What a name does in a thread.
    fn inside(self, next: Beside) -> Role
        ensures { result ≡ spec.inside self next }
    {
        match self.last {
            Beside::Star => match self.former {
                Beside::Typed(kind) => Role::Parameter(kind),
                _ => Role::Accessed,
            },
            Beside::Open => self.opened(),
            Beside::Comma => self.listed(next),
            Beside::Typed(_) => Role::Given,
            _ => {
                if next == Beside::Assign {
                    Role::Given
                } else {
                    Role::Read
                }
            }
        }
    }

    /// What a name does: a thread's is the only one that stands before an opening parenthesis.
    fn named(self, next: Beside) -> Role
        ensures { result ≡ spec.named self next }
    {
        if next == Beside::Open {
            return Role::Head;
        }
        match self.part {
            Part::Thread(_) => self.inside(next),
            Part::Initial | Part::Final => self.outside(),
        }
    }

    /// What a number does in a thread.
    fn argument(self, number: u32) -> Role
        ensures { result ≡ spec.argument self number }
    {
        match self.call {
            Some(operation) => {
                if adds(operation) {
                    Role::Added(number)
                } else {
                    Role::Constant(number)
                }
            }
            None => Role::Constant(number),
        }
    }

    /// What a number does.
    fn numbered(self, number: u32, next: Beside) -> Role
        ensures { result ≡ spec.numbered self number next }
    {
        match self.part {
            Part::Thread(_) => self.argument(number),
            Part::Initial => {
                if next == Beside::Colon {
                    Role::Nothing
                } else {
                    Role::Constant(number)
                }
            }
            Part::Final => Role::Nothing,
        }
    }

    /// What the next symbol does, where `next` stands behind it.
    fn role_of(self, this: Beside, next: Beside) -> Role
        ensures { result ≡ spec.role self this next }
    {
        match this {
            Beside::Name => self.named(next),
            Beside::Number(number) => self.numbered(number, next),
            Beside::Call(operation) => Role::Calls(operation),
            _ => Role::Nothing,
        }
    }

    /// The part that the next symbol is in.
    fn part_of(self, this: Beside, next: Beside) -> Part
        ensures { result ≡ spec.part_at self this next }
    {
        match this {
            Beside::Name if next == Beside::Open => match self.part {
                Part::Thread(number) => Part::Thread(number.saturating_add(1)),
                Part::Initial | Part::Final => Part::Thread(0),
            },
            Beside::Asks => Part::Final,
            _ => self.part,
        }
    }

    /// How many parentheses are open behind the next symbol.
    fn open_behind(self, this: Beside) -> usize
        ensures { result ≡ spec.open_behind self this }
    {
        match this {
            Beside::Call(_) => 0,
            Beside::Open => self.depth.saturating_add(1),
            Beside::Close => self.depth.saturating_sub(1),
            _ => self.depth,
        }
    }

    /// The call whose arguments stand behind the next symbol.
    fn call_behind(self, this: Beside) -> Option<Operation>
        ensures { result ≡ spec.call_behind self this }
    {
        match this {
            Beside::Call(operation) => Some(operation),
            Beside::Close if self.depth <= 1 => None,
            _ => self.call,
        }
    }

    /// Behind the next symbol.
    fn behind(self, this: Beside, next: Beside) -> Walk
        ensures { result ≡ spec.behind self this next }
    {
        Walk {
            part: self.part_of(this, next),
            former: self.last,
            last: this,
            call: self.call_behind(this),
            depth: self.open_behind(this),
        }
    }
}

/// The name of a symbol, if it has one.
fn name_of(symbol: &Symbol) -> Result<Option<Name>, AllocError>
    ensures { IfOk result (λ o. o ≡ spec.name_of symbol.now) }
{
    match symbol {
        Symbol::Name(name) => Ok(Some(name.copy()?)),
        _ => Ok(None),
    }
}

/// What stands first.
fn first(symbols: &[Symbol]) -> Beside
    ensures { result ≡ spec.first symbols.now }
{
    match symbols.split_first() {
        Some((symbol, _)) => told_by(symbol),
        None => Beside::Other,
    }
}

/// What each symbol does, in order.
pub fn marks(alloc: Global, symbols: &[Symbol]) -> Result<Vec<Mark>, AllocError>
    ensures { IfOk result (λ v. v.items ≡ spec.marks_from spec.start symbols.now) }
{
    let mut marks = Vec::new(alloc);
    let mut walk = Walk::start();
    let mut rest = symbols;
    while let Some((symbol, behind)) = rest.split_first() {
        let (this, next) = (told_by(symbol), first(behind));
        marks.push(Mark {
            part: walk.part_of(this, next),
            role: walk.role_of(this, next),
            name: name_of(symbol)?,
        })?;
        walk = walk.behind(this, next);
        rest = behind;
    }
    Ok(marks)
}
