//! The runs of a thread, unrolled choice by choice.

ghost use Rattle.std.specs.Prelude.{[], ◌∷◌, map, Some};
ghost use Rattle.litmus_tree.specs.Tree.{action_of, right_of, declared_of, step_of, steps_of};
ghost use Rattle.c11_threads.specs.Serving.{ServesRead, ServesCall, ServesRight, ServesOption, ServesAll, Serves, ServesSteps};
ghost use Rattle.c11_threads.specs.Unrolled.{giving, event_runs, read_runs, call_runs, right_runs, declare_runs, declares_runs, step_runs, steps_runs};
ghost use Rattle.c11_threads.specs.Ways.{Adds, Leads};

use crate::content::Content;
use crate::fault::RunFault;
use crate::idle::is_idle;
use crate::progress::Progress;
use crate::reading::{Behind, Reading};
use crate::setting::Setting;
use crate::ways::Ways;
use events::{Access, Event, Order};
use litmus_tree::{Call, Declarator, RightSide, Statement};
use std::alloc::Global;

/// Adds the way on that has the event and gives 0 to the register, if there is one.
fn happen(
    event: Event,
    register: Option<usize>,
    from: Progress,
    ends: &mut Ways,
) -> Result<(), RunFault>
    ensures { Adds (event_runs event register from) ends.old ends.new result }
{
    let mut end = from;
    end.push(event)?;
    end.give(register, Content::nothing());
    ends.add(end)
}

/// Adds the way on that gives the content to the register.
fn given(register: usize, content: Content, from: Progress, ends: &mut Ways) -> Result<(), RunFault>
    ensures { Adds (giving (Some register) content from ∷ []) ends.old ends.new result }
{
    let mut end = from;
    end.give(Some(register), content);
    ends.add(end)
}

impl Setting<'_> {
    /// Adds the ways on that read each of the values that may be read so.
    fn read_each(
        &self,
        alloc: Global,
        reading: &Reading,
        from: &Progress,
        ends: &mut Ways,
    ) -> Result<(), RunFault>
        requires { ServesRead self.now.values reading.now.behind }
        ensures { Adds (read_runs self.now reading.now from.now) ends.old ends.new result }
    {
        for value in self.values {
            if !self.may_read(&reading.behind, *value) {
                continue;
            }
            ends.look_for_room()?;
            ends.add(reading.way_on(alloc, from, *value)?)?;
        }
        Ok(())
    }

    /// Adds the ways on of a call, whose value is given to the register, if there is one.
    fn call(
        &self,
        alloc: Global,
        call: &Call,
        register: Option<usize>,
        from: Progress,
        ends: &mut Ways,
    ) -> Result<(), RunFault>
        requires { ServesCall self.now.values (action_of call.now) }
        ensures { Adds (call_runs self.now (action_of call.now) register from) ends.old ends.new result }
    {
        match call {
            Call::Load(location, order) => {
                let load = self.load(location, *order, register);
                self.read_each(alloc, &load, &from, ends)
            }
            Call::Store(location, expression, order) => {
                let content = self.content(&from, expression);
                let write = self.access(Access::Write, location, *order, content);
                happen(write, register, from, ends)
            }
            Call::Exchange(location, expression, order) => {
                let content = self.content(&from, expression);
                let write = self.access(Access::ExWrite, location, *order, content);
                let update = self.update(location, *order, Behind::Write(write), register);
                self.read_each(alloc, &update, &from, ends)
            }
            Call::Modify(location, computation, constant, order) => {
                let write = self.unwritten(location, *order);
                let behind = Behind::Modify(*computation, *constant, write);
                let update = self.update(location, *order, behind, register);
                self.read_each(alloc, &update, &from, ends)
            }
            Call::Fence(order) => happen(self.fence(*order), register, from, ends),
        }
    }

    /// Adds the ways on that give the register the value of the right side.
    fn assign(
        &self,
        alloc: Global,
        right: &RightSide,
        register: usize,
        from: Progress,
        ends: &mut Ways,
    ) -> Result<(), RunFault>
        requires { ServesRight self.now.values (right_of right.now) }
        ensures { Adds (right_runs self.now (right_of right.now) register from) ends.old ends.new result }
    {
        match right {
            RightSide::Value(expression) => {
                let content = self.content(&from, expression);
                given(register, content, from, ends)
            }
            RightSide::Read(location) => {
                let load = self.load(location, Order::Na, Some(register));
                self.read_each(alloc, &load, &from, ends)
            }
            RightSide::Call(call) => self.call(alloc, call, Some(register), from, ends),
        }
    }

    /// Adds the ways on that declare a register.
    fn declare(
        &self,
        alloc: Global,
        declarator: &Declarator,
        from: Progress,
        ends: &mut Ways,
    ) -> Result<(), RunFault>
        requires { ServesOption self.now.values (declared_of declarator.now).value }
        ensures { Adds (declare_runs self.now (declared_of declarator.now) from) ends.old ends.new result }
    {
        let register = self.register(&declarator.register);
        match &declarator.value {
            Some(right) => self.assign(alloc, right, register, from, ends),
            None => given(register, Content::nothing(), from, ends),
        }
    }

    /// Declares one register on each of the ways.
    fn declare_each(
        &self,
        alloc: Global,
        declarator: &Declarator,
        starts: Ways,
    ) -> Result<Ways, RunFault>
        requires { ServesOption self.now.values (declared_of declarator.now).value }
        ensures { Leads (declare_runs self.now (declared_of declarator.now)) starts result }
    {
        let (starts, mut ends) = starts.set_out(alloc)?;
        for from in starts {
            ends.take_on();
            self.declare(alloc, declarator, from, &mut ends)?;
        }
        Ok(ends)
    }

    /// Declares registers on each of the ways, one after another.
    fn declare_all(
        &self,
        alloc: Global,
        declarators: &[Declarator],
        starts: Ways,
    ) -> Result<Ways, RunFault>
        requires { ServesAll self.now.values (map declared_of declarators.now) }
        ensures { Leads (declares_runs self.now (map declared_of declarators.now)) starts result }
    {
        let mut ends = starts;
        for declarator in declarators {
            ends = self.declare_each(alloc, declarator, ends)?;
        }
        Ok(ends)
    }

    /// Adds the ways on that declare registers, one after another.
    fn declare_onto(
        &self,
        alloc: Global,
        declarators: &[Declarator],
        from: Progress,
        ends: &mut Ways,
    ) -> Result<(), RunFault>
        requires { ServesAll self.now.values (map declared_of declarators.now) }
        ensures { Adds (declares_runs self.now (map declared_of declarators.now) from) ends.old ends.new result }
    {
        let start = ends.apart(alloc, from)?;
        let more = self.declare_all(alloc, declarators, start)?;
        Ok(ends.append(more)?)
    }

    /// Adds the ways on of a statement. The arms of an `if` stand under its test.
    #[cycle(performing)]
    fn perform(
        &self,
        alloc: Global,
        statement: &Statement,
        from: Progress,
        ends: &mut Ways,
    ) -> Result<(), RunFault>
        requires { Serves self.now.values (step_of statement.now) }
        ensures { Adds (step_runs (step_of statement.now) self.now from) ends.old ends.new result }
    {
        match statement {
            Statement::Empty => ends.add(from),
            Statement::Block(statements) => {
                self.perform_onto(alloc, statements.as_slice(), from, ends)
            }
            Statement::Declare(declarators) => {
                self.declare_onto(alloc, declarators.as_slice(), from, ends)
            }
            Statement::Assign(register, right) => {
                self.assign(alloc, right, self.register(register), from, ends)
            }
            Statement::Write(location, expression) => {
                let content = self.content(&from, expression);
                let write = self.access(Access::Write, location, Order::Na, content);
                happen(write, None, from, ends)
            }
            Statement::Perform(call) => self.call(alloc, call, None, from, ends),
            Statement::If(expression, first, second) => {
                let test = self.content(&from, expression);
                let arm = self.inside(&test.reads);
                if test.value != 0 {
                    return arm.perform(alloc, first, from, ends);
                }
                match second {
                    Some(second) => arm.perform(alloc, second, from, ends),
                    None => ends.add(from),
                }
            }
        }
    }

    /// Performs a statement on each of the ways by itself.
    #[cycle(performing)]
    fn perform_apart(
        &self,
        alloc: Global,
        statement: &Statement,
        starts: Ways,
    ) -> Result<Ways, RunFault>
        requires { Serves self.now.values (step_of statement.now) }
        ensures { Leads (step_runs (step_of statement.now) self.now) starts result }
    {
        let (starts, mut ends) = starts.set_out(alloc)?;
        for from in starts {
            ends.take_on();
            self.perform(alloc, statement, from, &mut ends)?;
        }
        Ok(ends)
    }

    /// Performs a statement on each of the ways. One that does nothing leaves them as they are, a block or a declaration
    /// takes them together through its parts, and a computed value is given to the register where they lie.
    #[cycle(performing)]
    fn perform_each(
        &self,
        alloc: Global,
        statement: &Statement,
        starts: Ways,
    ) -> Result<Ways, RunFault>
        requires { Serves self.now.values (step_of statement.now) }
        ensures { Leads (step_runs (step_of statement.now) self.now) starts result }
    {
        if is_idle(statement) {
            return Ok(starts);
        }
        match statement {
            Statement::Block(statements) => {
                self.perform_all(alloc, statements.as_slice(), starts)
            }
            Statement::Declare(declarators) => {
                self.declare_all(alloc, declarators.as_slice(), starts)
            }
            Statement::Assign(register, right) => match right {
                RightSide::Value(expression) => {
                    Ok(starts.giving(self, self.register(register), expression))
                }
                _ => self.perform_apart(alloc, statement, starts),
            },
            _ => self.perform_apart(alloc, statement, starts),
        }
    }

    /// Performs statements on each of the ways, one after another, each under the same tests.
    #[cycle(performing)]
    pub(crate) fn perform_all(
        &self,
        alloc: Global,
        statements: &[Statement],
        starts: Ways,
    ) -> Result<Ways, RunFault>
        requires { ServesSteps self.now.values (steps_of statements.now) }
        ensures { Leads (steps_runs (steps_of statements.now) self.now) starts result }
    {
        let mut ends = starts;
        for statement in statements {
            ends = self.perform_each(alloc, statement, ends)?;
        }
        Ok(ends)
    }

    /// Adds the ways on of statements.
    #[cycle(performing)]
    fn perform_onto(
        &self,
        alloc: Global,
        statements: &[Statement],
        from: Progress,
        ends: &mut Ways,
    ) -> Result<(), RunFault>
        requires { ServesSteps self.now.values (steps_of statements.now) }
        ensures { Adds (steps_runs (steps_of statements.now) self.now from) ends.old ends.new result }
    {
        let start = ends.apart(alloc, from)?;
        let more = self.perform_all(alloc, statements, start)?;
        Ok(ends.append(more)?)
    }
}
