//! Expressions, by a table of levels of operators.

ghost use Rattle.std.specs.Prelude.{◌≡◌, List, Ok, map, IfOk};
ghost use Rattle.cat_tree.specs.Tree.{term_of};
ghost use Rattle.descent.specs.Reading.{repeated};
ghost use Rattle.cat_syntax.specs.Grammar.{begins_operand as operand_next, begins_check as check_next};
ghost use Rattle.cat_syntax.specs.Reading.{Gives, Takes, cut, applied, applied_at, infix_at, associates_left as is_left, postfix_at, arguments_with, call_with, opens_arguments as arguments_next, begins_call as call_next, parentheses, signed as sign_over, enclosure_at, opened, leaf_at, opens_operand as terminal_opens, primary_with, unary_with, level_with, below, expression_at};

use crate::operator::{Enclosure, Postfix};
use crate::reading::Reader;
use crate::symbol::{Symbol, Terminal};
use crate::syntax_fault::SyntaxFault;
use cat_tree::{Expression, Infix, Leaf, Sign};
use std::alloc::AllocError;

/// How deep an expression may nest.
const MOST_NESTED: u32 = 64;

/// How many levels of operators there are.
const LEVELS: u32 = 5;

/// `[` and `]`.
const IN_BRACKETS: Enclosure = Enclosure {
    opening: Terminal::LeftBracket,
    closing: Terminal::RightBracket,
    sign: Some(Sign::Identity),
};

/// Whether a check's word comes next.
#[tactic(auto, unfolding(crate::specs::Grammar::begins_check))]
fn begins_check(symbols: &[Symbol]) -> bool
    ensures { result ≡ check_next symbols.now }
{
    match symbols {
        [first, ..] => matches!(
            first,
            Symbol::Fixed(Terminal::Acyclic | Terminal::Irreflexive | Terminal::Empty)
        ),
        [] => false,
    }
}

/// Whether an operand begins with this terminal, whatever follows it.
fn opens_operand(terminal: Terminal) -> bool
    ensures { result ≡ terminal_opens terminal }
{
    matches!(
        terminal,
        Terminal::Domain
            | Terminal::Range
            | Terminal::Underscore
            | Terminal::Zero
            | Terminal::LeftParen
            | Terminal::LeftBracket
            | Terminal::LeftBrace
    )
}

/// Whether an operand comes next.
#[tactic(auto, unfolding(crate::specs::Grammar::begins_operand))]
fn begins_operand(symbols: &[Symbol]) -> bool
    ensures { result ≡ operand_next symbols.now }
{
    match symbols {
        [first, rest @ ..] => match first {
            Symbol::Name(_) | Symbol::Unsupported(_) => true,
            Symbol::Fixed(terminal) => {
                opens_operand(*terminal) || (*terminal == Terminal::Tilde && !begins_check(rest))
            }
            _ => false,
        },
        [] => false,
    }
}

/// Whether arguments come next.
#[tactic(auto, unfolding(crate::specs::Reading::opens_arguments))]
fn opens_arguments(symbols: &[Symbol]) -> bool
    ensures { result ≡ arguments_next symbols.now }
{
    match symbols {
        [first, ..] => matches!(first, Symbol::Fixed(Terminal::LeftParen)),
        [] => false,
    }
}

/// Whether a name comes next, with arguments or parameters behind it.
#[tactic(auto, unfolding(crate::specs::Reading::begins_call))]
pub fn begins_call(symbols: &[Symbol]) -> bool
    ensures { result ≡ call_next symbols.now }
{
    match symbols {
        [first, rest @ ..] => match first {
            Symbol::Name(_) => opens_arguments(rest),
            _ => false,
        },
        [] => false,
    }
}

/// Whether the operator of a level associates to the left.
#[tactic(auto, unfolding(crate::specs::Reading::associates_left))]
fn associates_left(level: u32) -> bool
    ensures { result ≡ is_left level }
{
    matches!(level, 0 | 2)
}

/// The expression that an operator makes of the operand before it.
fn apply(operator: Postfix, operand: Expression) -> Result<Expression, AllocError>
    ensures { IfOk result (λ e. term_of e ≡ applied operator (term_of operand)) }
{
    match operator {
        Postfix::Plus => operand.applied(Sign::Plus),
        Postfix::Star => operand.applied(Sign::Star),
        Postfix::Optional => operand.applied(Sign::Optional),
        Postfix::Inverse => operand.applied(Sign::Inverse),
    }
}

/// The expression that a sign makes of another, if one stands there.
fn signed(sign: Option<Sign>, operand: Expression) -> Result<Expression, SyntaxFault>
    ensures { (ts : List Symbol) → Gives term_of result ts (Ok (sign_over sign (term_of operand), ts)) }
{
    match sign {
        Some(sign) => Ok(operand.applied(sign)?),
        None => Ok(operand),
    }
}

/// Parentheses, and the sign that the word before them is.
fn in_parentheses(sign: Option<Sign>) -> Enclosure
    ensures { result ≡ parentheses sign }
{
    Enclosure {
        opening: Terminal::LeftParen,
        closing: Terminal::RightParen,
        sign,
    }
}

impl<'a> Reader<'a> {
    /// Takes the operator of a level, if it comes next.
    #[tactic(auto, unfolding(crate::specs::Reading::infix_at))]
    fn infix(&mut self, level: u32) -> Option<Infix>
        ensures { Takes result self.old.rest.now self.new.rest.now (infix_at level self.old.rest.now) }
    {
        let (terminal, operator) = match level {
            0 => (Terminal::Star, Infix::Product),
            1 => (Terminal::Ampersand, Infix::Intersection),
            2 => (Terminal::Backslash, Infix::Difference),
            3 => (Terminal::Semicolon, Infix::Sequence),
            4 => (Terminal::Bar, Infix::Union),
            _ => return None,
        };
        if self.take(terminal) {
            Some(operator)
        } else {
            None
        }
    }

    /// Takes an operator that stands behind its operand, if it comes next.
    #[tactic(auto, unfolding(crate::specs::Reading::postfix_at))]
    fn postfix_sign(&mut self) -> Option<Postfix>
        ensures { Takes result self.old.rest.now self.new.rest.now (postfix_at self.old.rest.now) }
    {
        let [first, rest @ ..] = self.rest else {
            return None;
        };
        let operator = match first {
            Symbol::Fixed(Terminal::Plus) => Postfix::Plus,
            Symbol::Fixed(Terminal::Star) if !begins_operand(rest) => Postfix::Star,
            Symbol::Fixed(Terminal::Question) => Postfix::Optional,
            Symbol::Fixed(Terminal::Inverse) => Postfix::Inverse,
            _ => return None,
        };
        self.rest = rest;
        Some(operator)
    }

    /// level 0 := unary; level k + 1 := level k {operator of level k} level k
    #[cycle(expressions)]
    #[tactic(auto, unfolding(crate::specs::Reading::level_with), using(crate::proofs::Levels::level_start, crate::proofs::Levels::level_turn, crate::proofs::Levels::level_takes, crate::proofs::Levels::infix_takes))]
    fn level(&mut self, level: u32, nesting: u32) -> Result<Expression, SyntaxFault>
        ensures { Gives term_of result self.new.rest.now (level_with (below nesting) level self.old.rest.now) }
    {
        let Some(tighter) = level.checked_sub(1) else {
            return self.unary(nesting);
        };
        let mut last = self.level(tighter, nesting)?;
        let mut lefts = Vec::new(self.alloc);
        while let Some(operator) = self.infix(tighter) {
            let next = self.level(tighter, nesting)?;
            if associates_left(tighter) {
                last = last.joined(operator, next)?;
            } else {
                lefts.push((operator, last))?;
                last = next;
            }
        }
        Ok(Expression::nested(self.alloc, lefts, last)?)
    }

    /// unary := "~" unary | primary {"+" | "*" | "?" | "^-1"}
    #[cycle(expressions)]
    #[tactic(auto, unfolding(crate::specs::Reading::postfix_with), using(crate::proofs::Levels::unary_parts, crate::proofs::Levels::opened_takes))]
    fn unary(&mut self, nesting: u32) -> Result<Expression, SyntaxFault>
        ensures { Gives term_of result self.new.rest.now (unary_with (below nesting) self.old.rest.now) }
    {
        if self.sees(Terminal::Tilde) {
            let inner = self.open(Terminal::Tilde, nesting)?;
            let operand = self.unary(inner)?;
            return signed(Some(Sign::Complement), operand);
        }
        let operand = self.primary(nesting)?;
        self.postfixed(operand)
    }

    /// What the operators that stand behind an operand make of it.
    #[tactic(auto, using(crate::proofs::Levels::postfix_more, crate::proofs::Levels::postfix_takes))]
    fn postfixed(&mut self, mut operand: Expression) -> Result<Expression, SyntaxFault>
        ensures { Gives term_of result self.new.rest.now (repeated cut postfix_at applied_at (term_of operand) self.old.rest.now) }
    {
        while let Some(operator) = self.postfix_sign() {
            operand = apply(operator, operand)?;
        }
        Ok(operand)
    }

    /// What stands around the expression that comes next, if it is one in parentheses or brackets; a word before them is taken.
    #[tactic(auto, unfolding(crate::specs::Reading::enclosure_at))]
    fn enclosure(&mut self) -> Option<Enclosure>
        ensures { Takes result self.old.rest.now self.new.rest.now (enclosure_at self.old.rest.now) }
    {
        let [first, rest @ ..] = self.rest else {
            return None;
        };
        match first {
            Symbol::Fixed(Terminal::LeftParen) => Some(in_parentheses(None)),
            Symbol::Fixed(Terminal::LeftBracket) => Some(IN_BRACKETS),
            Symbol::Fixed(Terminal::Domain) => {
                self.rest = rest;
                Some(in_parentheses(Some(Sign::Domain)))
            }
            Symbol::Fixed(Terminal::Range) => {
                self.rest = rest;
                Some(in_parentheses(Some(Sign::Range)))
            }
            _ => None,
        }
    }

    /// name | "_" | "0" | "{" "}"
    #[tactic(auto, unfolding(crate::specs::Reading::expected), using(crate::proofs::Levels::leaf_parts))]
    fn leaf(&mut self) -> Result<Expression, SyntaxFault>
        ensures { Gives term_of result self.new.rest.now (leaf_at self.old.rest.now) }
    {
        let leaf = if self.take(Terminal::Underscore) {
            Leaf::Universe
        } else if self.take(Terminal::Zero) {
            Leaf::EmptyRelation
        } else if self.take(Terminal::LeftBrace) {
            self.expect(Terminal::RightBrace)?;
            Leaf::EmptySet
        } else {
            Leaf::Name(self.name()?)
        };
        Ok(Expression::leaf(self.alloc, leaf)?)
    }

    /// Takes a sign behind which more may nest, and gives how deep.
    #[tactic(auto, unfolding(crate::specs::Reading::opened, crate::specs::Reading::expected))]
    fn open(&mut self, opening: Terminal, nesting: u32) -> Result<u32, SyntaxFault>
        ensures { Gives (λ n. n) result self.new.rest.now (opened nesting opening self.old.rest.now) }
    {
        if !self.sees(opening) {
            return Err(SyntaxFault::Unexpected);
        }
        let Some(inner) = nesting.checked_sub(1) else {
            return Err(SyntaxFault::TooDeep);
        };
        self.expect(opening).and(Ok(inner))
    }

    /// primary := leaf | "(" level 5 ")" | "[" level 5 "]" | ("domain" | "range") "(" level 5 ")" | call
    #[cycle(expressions)]
    #[tactic(auto, using(crate::proofs::Levels::primary_parts, crate::proofs::Levels::enclosure_takes, crate::proofs::Levels::opened_takes))]
    fn primary(&mut self, nesting: u32) -> Result<Expression, SyntaxFault>
        ensures { Gives term_of result self.new.rest.now (primary_with (below nesting) self.old.rest.now) }
    {
        let Some(enclosure) = self.enclosure() else {
            if begins_call(self.rest) {
                return self.call(nesting);
            }
            return self.leaf();
        };
        let inner = self.open(enclosure.opening, nesting)?;
        let expression = self.level(LEVELS, inner)?;
        self.expect(enclosure.closing)?;
        signed(enclosure.sign, expression)
    }

    /// call := name arguments
    #[cycle(expressions)]
    #[tactic(auto, unfolding(crate::specs::Reading::call_with), using(crate::proofs::Levels::name_takes))]
    fn call(&mut self, nesting: u32) -> Result<Expression, SyntaxFault>
        ensures { Gives term_of result self.new.rest.now (call_with (below nesting) self.old.rest.now) }
    {
        let name = self.name()?;
        let arguments = self.arguments(nesting)?;
        Ok(Expression::call(self.alloc, name, arguments)?)
    }

    /// arguments := "(" level 5 {"," level 5} ")"
    #[cycle(expressions)]
    #[tactic(auto, using(crate::proofs::Levels::arguments_start, crate::proofs::Levels::arguments_next, crate::proofs::Levels::terms_push, crate::proofs::Levels::after_takes, crate::proofs::Levels::level_takes, crate::proofs::Levels::opened_takes))]
    fn arguments(&mut self, nesting: u32) -> Result<Vec<Expression>, SyntaxFault>
        ensures { Gives (λ v. map term_of v.items) result self.new.rest.now (arguments_with (below nesting) self.old.rest.now) }
    {
        let inner = self.open(Terminal::LeftParen, nesting)?;
        let mut arguments = Vec::new(self.alloc);
        loop {
            let next = self.level(LEVELS, inner)?;
            arguments.push(next)?;
            if !self.take(Terminal::Comma) {
                return self.expect(Terminal::RightParen).and(Ok(arguments));
            }
        }
    }

    /// An expression.
    #[tactic(auto, unfolding(crate::specs::Reading::expression_at))]
    pub fn expression(&mut self) -> Result<Expression, SyntaxFault>
        ensures { Gives term_of result self.new.rest.now (expression_at self.old.rest.now) }
    {
        Ok(self.level(LEVELS, MOST_NESTED)?.trimmed())
    }
}
