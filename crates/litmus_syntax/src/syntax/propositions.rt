//! Conditions.

ghost use Rattle.std.specs.Prelude.{◌≡◌, List, Some, None, MatchBool};
ghost use Rattle.conditions.specs.Conditions.{Formula, connected, formula_of};
ghost use Rattle.litmus_syntax.specs.declared.symbol.Symbol.{Symbol};
ghost use Rattle.litmus_syntax.specs.Reading.{Gives, Reading, turned, equation_at, denial, plain_atomic_at, denied_with, enclosed_with, atomic_with, conjunction_with, or_with, proposition_with, propositions_below, kind_of_at, condition_at};

use crate::symbol::Terminal;
use crate::syntax::Reader;
use crate::syntax_fault::SyntaxFault;
use conditions::{Atom, Cond, Connective, Kind, Prop};

/// What a connective makes of a proposition and of what was read behind it.
fn join(
    left: Prop,
    connective: Connective,
    right: Result<Prop, SyntaxFault>,
) -> Result<Prop, SyntaxFault>
    ensures { (rest : List Symbol) → (read : Reading Formula) → Gives formula_of right rest read → Gives formula_of result rest (turned (connected connective (formula_of left)) read) }
{
    Ok(left.joined(connective, right?)?)
}

impl<'a> Reader<'a> {
    /// place "=" number
    #[tactic(auto, unfolding(crate::specs::Reading::equation_at))]
    fn equation(&mut self) -> Result<Prop, SyntaxFault>
        ensures { Gives formula_of result self.new.rest.now (equation_at self.old.rest.now) }
    {
        let place = self.place()?;
        self.expect(Terminal::Assign)?;
        let value = self.number()?;
        Ok(Prop::atom(self.alloc, Atom::Equals(place, value)))
    }

    /// Takes "~" or "not".
    #[tactic(auto, unfolding(crate::specs::Reading::denial))]
    fn take_denial(&mut self) -> bool
        ensures { MatchBool result (denial self.old.rest.now ≡ Some (tt, self.new.rest.now)) ((denial self.old.rest.now ≡ None) × (self.new.rest.now ≡ self.old.rest.now)) }
    {
        if self.take(Terminal::Tilde) {
            return true;
        }
        self.take(Terminal::Not)
    }

    /// "true" | "false" | place "=" number
    #[tactic(auto, unfolding(crate::specs::Reading::plain_atomic_at))]
    fn plain_atomic(&mut self) -> Result<Prop, SyntaxFault>
        ensures { Gives formula_of result self.new.rest.now (plain_atomic_at self.old.rest.now) }
    {
        if self.take(Terminal::True) {
            return Ok(Prop::atom(self.alloc, Atom::True));
        }
        if self.take(Terminal::False) {
            return Ok(Prop::atom(self.alloc, Atom::False));
        }
        self.equation()
    }

    /// atomic := ("~" | "not") atomic | "(" proposition ")" | "true" | "false" | place "=" number
    #[cycle(propositions)]
    #[tactic(auto, unfolding(crate::specs::Reading::atomic_with, crate::specs::Reading::denied_with, crate::specs::Reading::enclosed_with, crate::specs::Reading::propositions_below))]
    fn atomic(&mut self, nesting: u32) -> Result<Prop, SyntaxFault>
        ensures { Gives formula_of result self.new.rest.now (atomic_with (propositions_below nesting) self.old.rest.now) }
    {
        if self.take_denial() {
            let nesting = self.deeper(nesting)?;
            let operand = self.atomic(nesting)?;
            return Ok(operand.denied()?);
        }
        if !self.take(Terminal::LeftParen) {
            return self.plain_atomic();
        }
        let nesting = self.deeper(nesting)?;
        let inner = self.proposition(nesting)?;
        self.expect(Terminal::RightParen).and(Ok(inner))
    }

    /// conjunction := atomic {"/\" atomic}
    #[cycle(propositions)]
    #[tactic(auto, unfolding(crate::specs::Reading::conjunction_with))]
    fn conjunction(&mut self, nesting: u32) -> Result<Prop, SyntaxFault>
        ensures { Gives formula_of result self.new.rest.now (conjunction_with (propositions_below nesting) self.old.rest.now) }
    {
        let mut left = self.atomic(nesting)?;
        while self.take(Terminal::And) {
            left = join(left, Connective::And, self.atomic(nesting))?;
        }
        Ok(left)
    }

    /// or := conjunction {"\/" conjunction}
    #[cycle(propositions)]
    #[tactic(auto, unfolding(crate::specs::Reading::or_with))]
    fn disjunction(&mut self, nesting: u32) -> Result<Prop, SyntaxFault>
        ensures { Gives formula_of result self.new.rest.now (or_with (propositions_below nesting) self.old.rest.now) }
    {
        let mut left = self.conjunction(nesting)?;
        while self.take(Terminal::Or) {
            left = join(left, Connective::Or, self.conjunction(nesting))?;
        }
        Ok(left)
    }

    /// proposition := or ["=>" proposition]
    #[cycle(propositions)]
    #[tactic(auto, unfolding(crate::specs::Reading::proposition_with, crate::specs::Reading::propositions_below))]
    fn proposition(&mut self, nesting: u32) -> Result<Prop, SyntaxFault>
        ensures { Gives formula_of result self.new.rest.now (proposition_with (propositions_below nesting) self.old.rest.now) }
    {
        let left = self.disjunction(nesting)?;
        if !self.take(Terminal::Arrow) {
            return Ok(left);
        }
        let nesting = self.deeper(nesting)?;
        join(left, Connective::Implies, self.proposition(nesting))
    }

    /// kind := "exists" | ("~" | "not") "exists" | "forall"
    #[tactic(auto, unfolding(crate::specs::Reading::kind_of_at))]
    fn kind_of(&mut self) -> Result<Kind, SyntaxFault>
        ensures { Gives (λ k. k) result self.new.rest.now (kind_of_at self.old.rest.now) }
    {
        if self.take(Terminal::Forall) {
            return Ok(Kind::Forall);
        }
        if self.take_denial() {
            return self.expect(Terminal::Exists).and(Ok(Kind::NotExists));
        }
        self.expect(Terminal::Exists).and(Ok(Kind::Exists))
    }

    /// condition := kind proposition
    #[tactic(auto, unfolding(crate::specs::Reading::condition_at))]
    pub(super) fn condition(&mut self, nesting: u32) -> Result<Cond, SyntaxFault>
        ensures { Gives (λ c. c) result self.new.rest.now (condition_at nesting self.old.rest.now) }
    {
        let kind = self.kind_of()?;
        Ok(Cond::new(kind, self.proposition(nesting)?.trimmed()))
    }
}
