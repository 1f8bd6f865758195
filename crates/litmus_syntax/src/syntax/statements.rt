//! Statements.

ghost use Rattle.std.specs.Prelude.{◌≡◌, map};
ghost use Rattle.litmus_syntax.specs.Reading.{Gives, declarator_at, declarators_at, assignment_at, write_at, declaration_at, performed_at, simple_at, closed_at, tested_at, if_with, block_with, step_with, steps_with, inside, step_at, steps_at};
ghost use Rattle.litmus_tree.specs.Tree.{declared_of, step_of, steps_of, term_of};

use crate::symbol::Terminal;
use crate::syntax::Reader;
use crate::syntax_fault::SyntaxFault;
use litmus_tree::{Declarator, Expression, Statement};

impl<'a> Reader<'a> {
    /// declarator := name ["=" right]
    #[tactic(auto, unfolding(crate::specs::Reading::declarator_at))]
    fn declarator(&mut self, nesting: u32) -> Result<Declarator, SyntaxFault>
        ensures { Gives declared_of result self.new.rest.now (declarator_at nesting self.old.rest.now) }
    {
        let register = self.name()?;
        if !self.take(Terminal::Assign) {
            return Ok(Declarator {
                register,
                value: None,
            });
        }
        let value = self.right_side(nesting)?;
        Ok(Declarator {
            register,
            value: Some(value),
        })
    }

    /// declarators := declarator {"," declarator}
    #[tactic(auto, unfolding(crate::specs::Reading::declarators_at, crate::specs::Reading::declarators_more))]
    fn declarators(&mut self, nesting: u32) -> Result<Vec<Declarator>, SyntaxFault>
        ensures { Gives (λ v. map declared_of v.items) result self.new.rest.now (declarators_at nesting self.old.rest.now) }
    {
        let mut declarators = Vec::new(self.alloc);
        loop {
            let declarator = self.declarator(nesting)?;
            declarators.push(declarator)?;
            if !self.take(Terminal::Comma) {
                return Ok(declarators);
            }
        }
    }

    /// name "=" right
    #[tactic(auto, unfolding(crate::specs::Reading::assignment_at))]
    fn assignment(&mut self, nesting: u32) -> Result<Statement, SyntaxFault>
        ensures { Gives step_of result self.new.rest.now (assignment_at nesting self.old.rest.now) }
    {
        let register = self.name()?;
        self.expect(Terminal::Assign)?;
        let value = self.right_side(nesting)?;
        Ok(Statement::Assign(register, value))
    }

    /// The rest of a plain write: name "=" expression
    #[tactic(auto, unfolding(crate::specs::Reading::write_at))]
    fn write(&mut self, nesting: u32) -> Result<Statement, SyntaxFault>
        ensures { Gives step_of result self.new.rest.now (write_at nesting self.old.rest.now) }
    {
        let location = self.name()?;
        self.expect(Terminal::Assign)?;
        let value = self.expression(nesting)?;
        Ok(Statement::Write(location, value))
    }

    /// A call whose value, if it has one, is dropped.
    #[tactic(auto, unfolding(crate::specs::Reading::performed_at))]
    fn performed(&mut self, nesting: u32) -> Result<Statement, SyntaxFault>
        ensures { Gives step_of result self.new.rest.now (performed_at nesting self.old.rest.now) }
    {
        match self.take_call() {
            Some(operation) => Ok(Statement::Perform(self.operation(operation, nesting)?)),
            None => Err(self.stuck()),
        }
    }

    /// A statement that ends with a semicolon, without it.
    #[tactic(auto, unfolding(crate::specs::Reading::simple_at, crate::specs::Reading::declaration_at))]
    fn simple(&mut self, nesting: u32) -> Result<Statement, SyntaxFault>
        ensures { Gives step_of result self.new.rest.now (simple_at nesting self.old.rest.now) }
    {
        if self.take(Terminal::Int) {
            return Ok(Statement::Declare(self.declarators(nesting)?));
        }
        if self.take(Terminal::Star) {
            return self.write(nesting);
        }
        if self.is_before_name() {
            return self.assignment(nesting);
        }
        self.performed(nesting)
    }

    #[tactic(auto, unfolding(crate::specs::Reading::closed_at))]
    fn closed(&mut self, nesting: u32) -> Result<Statement, SyntaxFault>
        ensures { Gives step_of result self.new.rest.now (closed_at nesting self.old.rest.now) }
    {
        let statement = self.simple(nesting)?;
        self.expect(Terminal::Semicolon).and(Ok(statement))
    }

    /// The rest of an if's test: expression ")"
    #[tactic(auto, unfolding(crate::specs::Reading::tested_at))]
    fn tested(&mut self, nesting: u32) -> Result<Expression, SyntaxFault>
        ensures { Gives term_of result self.new.rest.now (tested_at nesting self.old.rest.now) }
    {
        let test = self.expression(nesting)?;
        self.expect(Terminal::RightParen).and(Ok(test))
    }

    /// A statement that stands in an if.
    #[cycle(statements)]
    fn arm(&mut self, nesting: u32) -> Result<Box<Statement>, SyntaxFault>
        ensures { Gives (λ b. step_of b.value) result self.new.rest.now (step_at nesting self.old.rest.now) }
    {
        Ok(Box::new(self.alloc, self.statement(nesting)?)?)
    }

    /// The rest of an if: "(" expression ")" statement ["else" statement]
    #[cycle(statements)]
    #[tactic(auto, unfolding(crate::specs::Reading::if_with, crate::specs::Reading::else_with, crate::specs::Reading::tested_at, crate::specs::Reading::open_at, crate::specs::Reading::opened, crate::specs::Reading::inside))]
    fn branch(&mut self, nesting: u32) -> Result<Statement, SyntaxFault>
        ensures { Gives step_of result self.new.rest.now (if_with (inside nesting) self.old.rest.now) }
    {
        let nesting = self.open(nesting)?;
        let test = self.tested(nesting)?;
        let arm = self.arm(nesting)?;
        if !self.take(Terminal::Else) {
            return Ok(Statement::If(test, arm, None));
        }
        let other = self.arm(nesting)?;
        Ok(Statement::If(test, arm, Some(other)))
    }

    /// statement := ";" | "{" statements "}" | simple ";" | "if" "(" expression ")" statement ["else" statement]
    #[cycle(statements)]
    #[tactic(auto, unfolding(crate::specs::Reading::step_with, crate::specs::Reading::block_with, crate::specs::Reading::inside))]
    fn statement(&mut self, nesting: u32) -> Result<Statement, SyntaxFault>
        ensures { Gives step_of result self.new.rest.now (step_at nesting self.old.rest.now) }
    {
        if self.take(Terminal::Semicolon) {
            return Ok(Statement::Empty);
        }
        if self.take(Terminal::LeftBrace) {
            let nesting = self.deeper(nesting)?;
            return Ok(Statement::Block(self.statements(nesting)?));
        }
        if self.take(Terminal::If) {
            return self.branch(nesting);
        }
        self.closed(nesting)
    }

    /// Statements up to a brace, and the brace.
    #[cycle(statements)]
    #[tactic(auto, unfolding(crate::specs::Reading::steps_with, crate::specs::Reading::unless, crate::specs::Reading::expected))]
    pub(super) fn statements(&mut self, nesting: u32) -> Result<Vec<Statement>, SyntaxFault>
        ensures { Gives (λ v. steps_of v.items) result self.new.rest.now (steps_at nesting self.old.rest.now) }
    {
        let mut statements = Vec::new(self.alloc);
        while !self.take(Terminal::RightBrace) {
            let statement = self.statement(nesting)?;
            statements.push(statement)?;
        }
        Ok(statements)
    }
}
