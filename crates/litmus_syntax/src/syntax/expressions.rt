//! Expressions, by a table of levels of operators.

ghost use Rattle.std.specs.Prelude.{◌≡◌, Some, None, IfOk, IfSome, IfNone, MatchOption};
ghost use Rattle.std.proofs.Common.{suc};
ghost use Rattle.litmus_syntax.specs.Reading.{Gives, operator_at, unary_with, operands, level_with, terms_below, expression_at};
ghost use Rattle.litmus_tree.specs.Tree.{term_of};

use crate::symbol::{Symbol, Terminal};
use crate::syntax::Reader;
use crate::syntax_fault::SyntaxFault;
use litmus_tree::{Expression, Leaf, Operator};

/// How many levels of operators there are.
const LEVELS: u32 = 3;

impl<'a> Reader<'a> {
    /// Takes the operator of a level, if it comes next.
    #[tactic(auto, unfolding(crate::specs::Reading::operator_at))]
    fn operator(&mut self, level: u32) -> Option<Operator>
        ensures { MatchOption result ((operator_at level self.old.rest.now ≡ None) × (self.new.rest.now ≡ self.old.rest.now)) (λ o. operator_at level self.old.rest.now ≡ Some (o, self.new.rest.now)) }
    {
        match level {
            0 => {
                if self.take(Terminal::EqualEqual) {
                    return Some(Operator::Equal);
                }
                if self.take(Terminal::BangEqual) {
                    return Some(Operator::Unequal);
                }
                None
            }
            1 => {
                if self.take(Terminal::AndAnd) {
                    return Some(Operator::Both);
                }
                None
            }
            2 => {
                if self.take(Terminal::OrOr) {
                    return Some(Operator::Either);
                }
                None
            }
            _ => None,
        }
    }

    /// expression := level 3
    pub(super) fn expression(&mut self, nesting: u32) -> Result<Expression, SyntaxFault>
        ensures { Gives term_of result self.new.rest.now (expression_at nesting self.old.rest.now) }
    {
        Ok(self.level(LEVELS, nesting)?.trimmed())
    }

    /// level 0 := unary; level k + 1 := level k {operator of level k} level k
    #[cycle(expressions)]
    #[tactic(auto, unfolding(crate::specs::Reading::level_with))]
    fn level(&mut self, level: u32, nesting: u32) -> Result<Expression, SyntaxFault>
        ensures { Gives term_of result self.new.rest.now (level_with (terms_below nesting) level self.old.rest.now) }
    {
        match level.checked_sub(1) {
            Some(tighter) => self.operands(tighter, nesting),
            None => self.unary(nesting),
        }
    }

    /// Operands of a level, joined from the left.
    #[cycle(expressions)]
    #[tactic(auto, unfolding(crate::specs::Reading::operands))]
    fn operands(&mut self, level: u32, nesting: u32) -> Result<Expression, SyntaxFault>
        ensures { Gives term_of result self.new.rest.now (operands (operator_at level) (level_with (terms_below nesting) level) self.old.rest.now) }
    {
        let mut left = self.level(level, nesting)?;
        while let Some(operator) = self.operator(level) {
            let right = self.level(level, nesting)?;
            left = left.joined(operator, right)?;
        }
        Ok(left)
    }

    /// unary := "!" unary | "(" expression ")" | name | number
    #[cycle(expressions)]
    #[tactic(auto, unfolding(crate::specs::Reading::unary_with, crate::specs::Reading::terms_below))]
    fn unary(&mut self, nesting: u32) -> Result<Expression, SyntaxFault>
        ensures { Gives term_of result self.new.rest.now (unary_with (terms_below nesting) self.old.rest.now) }
    {
        let Some((first, rest)) = self.rest.split_first() else {
            return Err(self.stuck());
        };
        match first {
            Symbol::Name(register) => {
                let register = register.copy()?;
                self.rest = rest;
                Ok(Expression::leaf(self.alloc, Leaf::Register(register)))
            }
            Symbol::Number(number) => {
                self.rest = rest;
                Ok(Expression::leaf(self.alloc, Leaf::Number(*number)))
            }
            Symbol::Fixed(Terminal::Bang) => {
                let nesting = self.deeper(nesting)?;
                self.rest = rest;
                let operand = self.unary(nesting)?;
                Ok(operand.denied()?)
            }
            Symbol::Fixed(Terminal::LeftParen) => {
                let nesting = self.deeper(nesting)?;
                self.rest = rest;
                let inner = self.level(LEVELS, nesting)?;
                self.expect(Terminal::RightParen).and(Ok(inner))
            }
            _ => Err(self.stuck()),
        }
    }
}
