//! The tree of a thread.

ghost use Rattle.std.specs.Prelude.{◌≡◌, ◌<◌, ◌^◌};
ghost use Rattle.litmus_tree.specs.Names.{is_one_of};
ghost use Rattle.litmus_tree.specs.Tree.{computed_by, steps_of};

mod spelling;

use crate::expression::Expression;
use events::Order;
use indexmap::IndexSet;
use std::marker::Model;
use wb_text::Name;

/// How a parameter's type lets its location be accessed.
#[derive(Clone, Copy, Debug, PartialEq, Eq)]
pub enum LocationKind {
    /// `atomic_int*`: by atomic calls alone.
    Atomic,
    /// `int*`: by plain reads and writes alone.
    Plain,
}

/// A parameter, which names its location.
pub struct Parameter {
    pub name: Name,
    pub kind: LocationKind,
}

// A function of its own: whoever holds one drops it by a call.
impl Drop for Parameter {
    fn drop(self) {
        let Parameter { name: _, kind: _ } = self;
    }
}

/// What a call that modifies a location writes there, of the value that it read and of a constant.
/// (ISO/IEC 9899:2011, 7.17.7.5.)
#[derive(Clone, Copy, Debug, PartialEq, Eq)]
pub enum Computation {
    /// Their sum.
    Addition,
}

impl Computation {
    /// What it gives of these two.
    pub fn of(self, value: u32, constant: u32) -> u32
        requires { computed_by self value constant < 2 ^ 32 }
        ensures { result ≡ computed_by self value constant }
    {
        match self {
            Computation::Addition => value + constant,
        }
    }
}

/// A call of an atomic operation: the location first, the order last. A short form, as `atomic_load(x)`, is
/// the explicit one with `memory_order_seq_cst`.
pub enum Call {
    Load(Name, Order),
    Store(Name, Expression, Order),
    Exchange(Name, Expression, Order),
    /// Reads, and writes what is computed of the value read and a constant, in one step.
    Modify(Name, Computation, u32, Order),
    Fence(Order),
}

// A function of its own: whoever holds one drops it by a call.
impl Drop for Call {
    fn drop(self) {
        match self {
            Call::Load(_, _) => {}
            Call::Store(_, _, _) => {}
            Call::Exchange(_, _, _) => {}
            Call::Modify(_, _, _, _) => {}
            Call::Fence(_) => {}
        }
    }
}

/// What a register is given.
pub enum RightSide {
    /// The value of an expression.
    Value(Expression),
    /// A plain read of a location.
    Read(Name),
    /// The value of a call that has one: that of its read.
    Call(Call),
}

// A function of its own: whoever holds one drops it by a call.
impl Drop for RightSide {
    fn drop(self) {
        match self {
            RightSide::Value(_) => {}
            RightSide::Read(_) => {}
            RightSide::Call(_) => {}
        }
    }
}

/// A register that is declared. Without a value it gets 0.
pub struct Declarator {
    pub register: Name,
    pub value: Option<RightSide>,
}

// A function of its own: whoever holds one drops it by a call.
impl Drop for Declarator {
    fn drop(self) {
        let Declarator {
            register: _,
            value: _,
        } = self;
    }
}

/// A statement.
#[derive(Drop)]
pub enum Statement {
    Empty,
    Block(Vec<Statement>),
    Declare(Vec<Declarator>),
    Assign(Name, RightSide),
    /// A plain write to a location.
    Write(Name, Expression),
    /// A call whose value, if it has one, is dropped.
    Perform(Call),
    /// A test, the statement where it isn't 0, and the one behind `else`.
    If(Expression, Box<Statement>, Option<Box<Statement>>),
}

/// A thread. Contracts see its program.
pub struct Thread {
    parameters: Vec<Parameter>,
    statements: Vec<Statement>,
    registers: IndexSet<Name>,
}

// A function of its own: whoever holds one drops it by a call.
impl Drop for Thread {
    fn drop(self) {
        let Thread {
            parameters: _,
            statements: _,
            registers: _,
        } = self;
    }
}

impl Model for Thread {
    ghost use Rattle.litmus_tree.specs.Codes.{coded_program};
    ghost use Rattle.litmus_tree.specs.Tree.{Program, steps_of};

    ghost Value = { Program };

    ghost coded = { coded_program };

    ghost view = { λ t. record { parameters = t.parameters.items; steps = steps_of t.statements.items; registers = t.registers.keys } };
}

impl Thread {
    /// A thread of these parts.
    pub fn new(
        parameters: Vec<Parameter>,
        statements: Vec<Statement>,
        registers: IndexSet<Name>,
    ) -> Self
        ensures { result ≡ record { parameters = parameters.items; steps = steps_of statements.items; registers = registers.keys } }
    {
        Thread {
            parameters,
            statements,
            registers,
        }
    }

    /// The parameters, in order.
    pub fn parameters(&self) -> &[Parameter]
        ensures { result.now ≡ self.now.parameters }
    {
        &self.parameters
    }

    /// The statements, in order.
    pub fn statements(&self) -> &[Statement]
        ensures { steps_of result.now ≡ self.now.steps }
    {
        &self.statements
    }

    /// All its registers: those of the initial state, and then those that it declares or assigns, once each.
    pub fn registers(&self) -> &[Name]
        ensures { result.now ≡ self.now.registers }
    {
        self.registers.as_slice()
    }

    /// Whether this is one of its registers. It looks at no list of them.
    pub fn has_register(&self, name: &Name) -> bool
        ensures { result ≡ is_one_of self.now.registers name.now }
    {
        self.registers.contains(name)
    }
}
