//! The parts of a thread as they are written in a key.

ghost use Rattle.std.specs.Prelude.{◌≡◌, OnOk, map};
ghost use Rattle.litmus_tree.specs.Spellings.{spelled_parameter, spelled_declared, spelled_declarations, spelled_program, kind_byte, order_byte, computation_byte, action_over, right_over, step_over, steps_over};
ghost use Rattle.litmus_tree.specs.Tree.{action_of, right_of, declared_of, step_of, steps_of};

use crate::tree::{
    Call, Computation, Declarator, LocationKind, Parameter, RightSide, Statement, Thread,
};
use events::Order;
use keys::{Key, Spell, spell_all};
use std::alloc::AllocError;

impl LocationKind {
    fn byte(self) -> u8
        ensures { result ≡ kind_byte self }
    {
        match self {
            LocationKind::Atomic => 0,
            LocationKind::Plain => 1,
        }
    }
}

impl Spell for Parameter {
    ghost over = { spelled_parameter.over };

    fn spell(&self, key: &mut Key) -> Result<(), AllocError>
        ensures { OnOk result (key.new ≡ spelled_parameter.over self.now key.old) }
    {
        self.name.spell(key)?;
        key.push_byte(self.kind.byte())
    }
}

fn order_byte(order: Order) -> u8
    ensures { result ≡ order_byte order }
{
    match order {
        Order::NoOrder => 0,
        Order::Na => 1,
        Order::Rlx => 2,
        Order::Acq => 3,
        Order::Rel => 4,
        Order::AcqRel => 5,
        Order::Sc => 6,
    }
}

impl Computation {
    fn byte(self) -> u8
        ensures { result ≡ computation_byte self }
    {
        match self {
            Computation::Addition => 0,
        }
    }
}

impl Call {
    fn spell(&self, key: &mut Key) -> Result<(), AllocError>
        ensures { OnOk result (key.new ≡ action_over (action_of self.now) key.old) }
    {
        match self {
            Call::Load(location, order) => {
                location.spell(key)?;
                key.push_byte(order_byte(*order))?;
                key.push_byte(0)
            }
            Call::Store(location, value, order) => {
                location.spell(key)?;
                value.spell(key)?;
                key.push_byte(order_byte(*order))?;
                key.push_byte(1)
            }
            Call::Exchange(location, value, order) => {
                location.spell(key)?;
                value.spell(key)?;
                key.push_byte(order_byte(*order))?;
                key.push_byte(2)
            }
            Call::Modify(location, computation, constant, order) => {
                location.spell(key)?;
                key.push_byte(computation.byte())?;
                key.push_number(u64::from(*constant))?;
                key.push_byte(order_byte(*order))?;
                key.push_byte(3)
            }
            Call::Fence(order) => {
                key.push_byte(order_byte(*order))?;
                key.push_byte(4)
            }
        }
    }
}

impl RightSide {
    fn spell(&self, key: &mut Key) -> Result<(), AllocError>
        ensures { OnOk result (key.new ≡ right_over (right_of self.now) key.old) }
    {
        match self {
            RightSide::Value(value) => {
                value.spell(key)?;
                key.push_byte(0)
            }
            RightSide::Read(location) => {
                location.spell(key)?;
                key.push_byte(1)
            }
            RightSide::Call(call) => {
                call.spell(key)?;
                key.push_byte(2)
            }
        }
    }
}

impl Spell for Declarator {
    ghost over = { λ d. spelled_declared.over (declared_of d) };

    fn spell(&self, key: &mut Key) -> Result<(), AllocError>
        ensures { OnOk result (key.new ≡ spelled_declared.over (declared_of self.now) key.old) }
    {
        self.register.spell(key)?;
        match &self.value {
            None => key.push_byte(0),
            Some(value) => {
                value.spell(key)?;
                key.push_byte(1)
            }
        }
    }
}

#[tactic(auto, using(crate::proofs::Lists::list_over_map))]
fn spell_declarators(declarators: &[Declarator], key: &mut Key) -> Result<(), AllocError>
    ensures { OnOk result (key.new ≡ spelled_declarations.over (map declared_of declarators.now) key.old) }
{
    spell_all(declarators, key)
}

impl Statement {
    #[cycle(spelling)]
    #[tactic(auto, using(crate::proofs::Steps::only_if, crate::proofs::Steps::if_and_else))]
    fn spell(&self, key: &mut Key) -> Result<(), AllocError>
        ensures { OnOk result (key.new ≡ step_over (step_of self.now) key.old) }
    {
        match self {
            Statement::Empty => key.push_byte(0),
            Statement::Block(statements) => {
                spell_statements(statements, key)?;
                key.push_byte(1)
            }
            Statement::Declare(declarators) => {
                spell_declarators(declarators, key)?;
                key.push_byte(2)
            }
            Statement::Assign(register, value) => {
                register.spell(key)?;
                value.spell(key)?;
                key.push_byte(3)
            }
            Statement::Write(location, value) => {
                location.spell(key)?;
                value.spell(key)?;
                key.push_byte(4)
            }
            Statement::Perform(call) => {
                call.spell(key)?;
                key.push_byte(5)
            }
            Statement::If(test, arm, rest) => {
                test.spell(key)?;
                arm.spell(key)?;
                match rest {
                    None => key.push_byte(6),
                    Some(rest) => {
                        rest.spell(key)?;
                        key.push_byte(7)
                    }
                }
            }
        }
    }
}

/// Writes one after another, and how many they are. It isn't `spell_all`, since a statement's own writing calls it.
#[cycle(spelling)]
fn spell_statements(statements: &[Statement], key: &mut Key) -> Result<(), AllocError>
    ensures { OnOk result (key.new ≡ steps_over (steps_of statements.now) key.old) }
{
    for statement in statements {
        statement.spell(key)?;
    }
    key.push_number(statements.len() as u64)
}

impl Spell for Thread {
    ghost over = { spelled_program.over };

    fn spell(&self, key: &mut Key) -> Result<(), AllocError>
        ensures { OnOk result (key.new ≡ spelled_program.over self.now key.old) }
    {
        spell_all(&self.parameters, key)?;
        spell_statements(&self.statements, key)?;
        spell_all(self.registers(), key)
    }
}
