//! The numbers that a test is written with.

ghost use Rattle.std.specs.Prelude.{◌≡◌, ◌∷◌, [], map, IfErr, IfOk, OnOk};
ghost use Rattle.std.specs.List.{flat_map};
ghost use Rattle.litmus_tree.specs.Tree.{leaf_of, growth_of, term_of, action_of, right_of, declared_of, step_of, steps_of};
ghost use Rattle.litmus_value.specs.Gathering.{gathered, all_noted, AreFew, IsFull};
ghost use Rattle.litmus_value.specs.Values.{literal, term_numerals, growth_numerals, operand_numerals, action_numerals, right_numerals, optional_numerals, step_numerals, steps_numerals, numerals_among};

use crate::values::{ValuesFault, insert};
use conditions::Binding;
use litmus_tree::{
    Call, Computation, Declarator, Expression, Leaf, Link, RightSide, Statement, Thread,
};
use std::alloc::Global;

/// The numbers that are read so far.
#[derive(Drop)]
pub(super) struct Numbers {
    /// 0, 1 and constants, in the order in which they first stand.
    pub(super) values: Vec<u128>,
    /// What calls add, each once.
    pub(super) adds: Vec<u32>,
}

impl Numbers {
    /// 0 and 1.
    pub(super) fn new(alloc: Global) -> Result<Numbers, ValuesFault>
        ensures values { IfOk result (λ n. gathered n ≡ (0 ∷ 1 ∷ [], [])) }
        ensures within { IfOk result (λ n. AreFew n.values.items) }
        ensures fault { IfErr result (IsFull []) }
    {
        Ok(Numbers {
            values: vec![in alloc; 0, 1]?,
            adds: Vec::new(alloc),
        })
    }

    /// Notes a constant.
    #[tactic(auto, using(crate::proofs::Bounds::few_with))]
    fn note(&mut self, constant: u32) -> Result<(), ValuesFault>
        requires { AreFew self.old.values.items }
        ensures done { OnOk result (gathered self.new ≡ all_noted (gathered self.old) (literal constant ∷ [])) }
        ensures within { OnOk result (AreFew self.new.values.items) }
        ensures fault { IfErr result (IsFull (all_noted (gathered self.old) (literal constant ∷ [])).0) }
    {
        insert(&mut self.values, u128::from(constant))
    }

    /// Notes the constant of a leaf, if it is one.
    fn note_leaf(&mut self, leaf: &Leaf) -> Result<(), ValuesFault>
        requires { AreFew self.old.values.items }
        ensures done { OnOk result (gathered self.new ≡ all_noted (gathered self.old) (term_numerals (leaf_of leaf.now))) }
        ensures within { OnOk result (AreFew self.new.values.items) }
        ensures fault { IfErr result (IsFull (all_noted (gathered self.old) (term_numerals (leaf_of leaf.now))).0) }
    {
        match leaf {
            Leaf::Number(value) => self.note(*value),
            Leaf::Register(_) => Ok(()),
        }
    }

    /// Notes the constants of an expression. Recursion goes into right operands alone.
    #[cycle(expressions)]
    #[tactic(auto, using(crate::proofs::Terms::term_noted))]
    fn note_expression(&mut self, expression: &Expression) -> Result<(), ValuesFault>
        requires { AreFew self.old.values.items }
        ensures done { OnOk result (gathered self.new ≡ all_noted (gathered self.old) (term_numerals (term_of expression.now))) }
        ensures within { OnOk result (AreFew self.new.values.items) }
        ensures fault { IfErr result (IsFull (all_noted (gathered self.old) (term_numerals (term_of expression.now))).0) }
    {
        self.note_leaf(&expression.first)?;
        self.note_links(&expression.rest)
    }

    /// Notes the constants of the operands behind a leaf.
    #[cycle(expressions)]
    fn note_links(&mut self, links: &Vec<Link>) -> Result<(), ValuesFault>
        requires { AreFew self.old.values.items }
        ensures done { OnOk result (gathered self.new ≡ all_noted (gathered self.old) (flat_map growth_numerals (map growth_of links.now.items))) }
        ensures within { OnOk result (AreFew self.new.values.items) }
        ensures fault { IfErr result (IsFull (all_noted (gathered self.old) (flat_map growth_numerals (map growth_of links.now.items))).0) }
    {
        for link in links {
            self.note_link(link)?;
        }
        Ok(())
    }

    #[cycle(expressions)]
    #[tactic(auto, using(litmus_tree::specs::Chains::join_is))]
    fn note_link(&mut self, link: &Link) -> Result<(), ValuesFault>
        requires { AreFew self.old.values.items }
        ensures done { OnOk result (gathered self.new ≡ all_noted (gathered self.old) (growth_numerals (growth_of link.now))) }
        ensures within { OnOk result (AreFew self.new.values.items) }
        ensures fault { IfErr result (IsFull (all_noted (gathered self.old) (growth_numerals (growth_of link.now))).0) }
    {
        match link {
            Link::Not => Ok(()),
            Link::Join(_, operand) => self.note_expression(operand),
        }
    }

    /// Notes what a call computes with.
    fn note_operand(&mut self, computation: Computation, constant: u32) -> Result<(), ValuesFault>
        requires { AreFew self.old.values.items }
        ensures done { OnOk result (gathered self.new ≡ all_noted (gathered self.old) (operand_numerals computation constant)) }
        ensures within { OnOk result (AreFew self.new.values.items) }
        ensures fault { IfErr result (IsFull (all_noted (gathered self.old) (operand_numerals computation constant)).0) }
    {
        match computation {
            Computation::Addition => {
                self.adds.push(constant)?;
                Ok(())
            }
        }
    }

    /// Notes the numerals of a call.
    fn note_call(&mut self, call: &Call) -> Result<(), ValuesFault>
        requires { AreFew self.old.values.items }
        ensures done { OnOk result (gathered self.new ≡ all_noted (gathered self.old) (action_numerals (action_of call.now))) }
        ensures within { OnOk result (AreFew self.new.values.items) }
        ensures fault { IfErr result (IsFull (all_noted (gathered self.old) (action_numerals (action_of call.now))).0) }
    {
        match call {
            Call::Load(_, _) | Call::Fence(_) => Ok(()),
            Call::Store(_, value, _) | Call::Exchange(_, value, _) => self.note_expression(value),
            Call::Modify(_, computation, constant, _) => self.note_operand(*computation, *constant),
        }
    }

    /// Notes the numerals of what is assigned.
    fn note_right(&mut self, right: &RightSide) -> Result<(), ValuesFault>
        requires { AreFew self.old.values.items }
        ensures done { OnOk result (gathered self.new ≡ all_noted (gathered self.old) (right_numerals (right_of right.now))) }
        ensures within { OnOk result (AreFew self.new.values.items) }
        ensures fault { IfErr result (IsFull (all_noted (gathered self.old) (right_numerals (right_of right.now))).0) }
    {
        match right {
            RightSide::Value(value) => self.note_expression(value),
            RightSide::Read(_) => Ok(()),
            RightSide::Call(call) => self.note_call(call),
        }
    }

    /// Notes the numerals of a declarator.
    fn note_declarator(&mut self, declarator: &Declarator) -> Result<(), ValuesFault>
        requires { AreFew self.old.values.items }
        ensures done { OnOk result (gathered self.new ≡ all_noted (gathered self.old) (optional_numerals (declared_of declarator.now).value)) }
        ensures within { OnOk result (AreFew self.new.values.items) }
        ensures fault { IfErr result (IsFull (all_noted (gathered self.old) (optional_numerals (declared_of declarator.now).value)).0) }
    {
        match &declarator.value {
            Some(right) => self.note_right(right),
            None => Ok(()),
        }
    }

    /// Notes the numerals of declarators.
    fn note_declarators(&mut self, declarators: &[Declarator]) -> Result<(), ValuesFault>
        requires { AreFew self.old.values.items }
        ensures done { OnOk result (gathered self.new ≡ all_noted (gathered self.old) (flat_map (λ d. optional_numerals d.value) (map declared_of declarators.now))) }
        ensures within { OnOk result (AreFew self.new.values.items) }
        ensures fault { IfErr result (IsFull (all_noted (gathered self.old) (flat_map (λ d. optional_numerals d.value) (map declared_of declarators.now))).0) }
    {
        for declarator in declarators {
            self.note_declarator(declarator)?;
        }
        Ok(())
    }

    /// Notes the numerals of a statement.
    #[cycle(statements)]
    #[tactic(auto, using(crate::proofs::Branches::branch_only, crate::proofs::Branches::branch_else))]
    fn note_statement(&mut self, statement: &Statement) -> Result<(), ValuesFault>
        requires { AreFew self.old.values.items }
        ensures done { OnOk result (gathered self.new ≡ all_noted (gathered self.old) (step_numerals (step_of statement.now))) }
        ensures within { OnOk result (AreFew self.new.values.items) }
        ensures fault { IfErr result (IsFull (all_noted (gathered self.old) (step_numerals (step_of statement.now))).0) }
    {
        match statement {
            Statement::Empty => Ok(()),
            Statement::Block(statements) => self.note_statements(statements.as_slice()),
            Statement::Declare(declarators) => self.note_declarators(declarators.as_slice()),
            Statement::Assign(_, right) => self.note_right(right),
            Statement::Write(_, value) => self.note_expression(value),
            Statement::Perform(call) => self.note_call(call),
            Statement::If(test, arm, other) => match other {
                None => {
                    self.note_expression(test)?;
                    self.note_statement(arm)
                }
                Some(other) => {
                    self.note_expression(test)?;
                    self.note_statement(arm)?;
                    self.note_statement(other)
                }
            },
        }
    }

    /// Notes the numerals of statements.
    #[cycle(statements)]
    fn note_statements(&mut self, statements: &[Statement]) -> Result<(), ValuesFault>
        requires { AreFew self.old.values.items }
        ensures done { OnOk result (gathered self.new ≡ all_noted (gathered self.old) (steps_numerals (steps_of statements.now))) }
        ensures within { OnOk result (AreFew self.new.values.items) }
        ensures fault { IfErr result (IsFull (all_noted (gathered self.old) (steps_numerals (steps_of statements.now))).0) }
    {
        for statement in statements {
            self.note_statement(statement)?;
        }
        Ok(())
    }

    /// Notes the numerals of threads.
    pub(super) fn note_threads(&mut self, threads: &[Thread]) -> Result<(), ValuesFault>
        requires { AreFew self.old.values.items }
        ensures done { OnOk result (gathered self.new ≡ all_noted (gathered self.old) (numerals_among threads.now)) }
        ensures within { OnOk result (AreFew self.new.values.items) }
        ensures fault { IfErr result (IsFull (all_noted (gathered self.old) (numerals_among threads.now)).0) }
    {
        for thread in threads {
            self.note_statements(thread.statements())?;
        }
        Ok(())
    }

    /// Notes the constants of an initial state.
    pub(super) fn note_initial(&mut self, bindings: &[Binding]) -> Result<(), ValuesFault>
        requires { AreFew self.old.values.items }
        ensures done { OnOk result (gathered self.new ≡ all_noted (gathered self.old) (map (λ b. literal b.value) bindings.now)) }
        ensures within { OnOk result (AreFew self.new.values.items) }
        ensures fault { IfErr result (IsFull (all_noted (gathered self.old) (map (λ b. literal b.value) bindings.now)).0) }
    {
        for binding in bindings {
            self.note(binding.value)?;
        }
        Ok(())
    }
}
