//! Calls of C's atomics, and what a register is given.

ghost use Rattle.std.specs.Prelude.{◌≡◌};
ghost use Rattle.litmus_syntax.specs.Reading.{Gives, order_at, last_order_at, closing_at, located_at, valued_at, constant_at, load_at, store_at, exchange_at, modify_at, fence_at, operation_at, is_among, value_at, computed_at, plain_at, right_at};
ghost use Rattle.litmus_tree.specs.Tree.{term_of, action_of, right_of};

use crate::atomics::{Effect, Operation, accepted, effect_of, order_named};
use crate::symbol::Terminal;
use crate::syntax::Reader;
use crate::syntax_fault::SyntaxFault;
use events::Order;
use litmus_tree::{Call, Computation, Expression, RightSide};
use wb_text::Name;

/// Whether the order is one of these.
fn is_among(orders: &[Order], order: Order) -> bool
    ensures { result ≡ is_among orders.now order }
{
    orders.contains(&order)
}

impl<'a> Reader<'a> {
    /// One of these orders.
    #[tactic(auto, unfolding(crate::specs::Reading::order_at))]
    fn order(&mut self, accepted: &[Order]) -> Result<Order, SyntaxFault>
        ensures { Gives (λ o. o) result self.new.rest.now (order_at accepted.now self.old.rest.now) }
    {
        let stuck = self.stuck();
        let name = self.name_ref()?;
        let Some(order) = order_named(name.bytes()) else {
            return Err(stuck);
        };
        if is_among(accepted, order) {
            Ok(order)
        } else {
            Err(SyntaxFault::BadOrder)
        }
    }

    /// The end of a call: order ")"
    #[tactic(auto, unfolding(crate::specs::Reading::last_order_at))]
    fn last_order(&mut self, accepted: &[Order]) -> Result<Order, SyntaxFault>
        ensures { Gives (λ o. o) result self.new.rest.now (last_order_at accepted.now self.old.rest.now) }
    {
        let order = self.order(accepted)?;
        self.expect(Terminal::RightParen).and(Ok(order))
    }

    /// The end of a call: "," order ")", or ")" alone where none is accepted, and the order is `sc`.
    #[tactic(auto, unfolding(crate::specs::Reading::closing_at))]
    fn closing(&mut self, accepted: &[Order]) -> Result<Order, SyntaxFault>
        ensures { Gives (λ o. o) result self.new.rest.now (closing_at accepted.now self.old.rest.now) }
    {
        if accepted.is_empty() {
            return self.expect(Terminal::RightParen).and(Ok(Order::Sc));
        }
        self.expect(Terminal::Comma)?;
        self.last_order(accepted)
    }

    /// "(" name, which answers how deep what follows may nest.
    #[tactic(auto, unfolding(crate::specs::Reading::located_at))]
    fn located(&mut self, nesting: u32) -> Result<(Name, u32), SyntaxFault>
        ensures { Gives (λ x. x) result self.new.rest.now (located_at nesting self.old.rest.now) }
    {
        let inside = self.open(nesting)?;
        let location = self.name()?;
        Ok((location, inside))
    }

    /// "(" name "," expression
    #[tactic(auto, unfolding(crate::specs::Reading::target_at, crate::specs::Reading::valued_at))]
    fn valued(&mut self, nesting: u32) -> Result<(Name, Expression), SyntaxFault>
        ensures { Gives (λ v. (v.0, term_of v.1)) result self.new.rest.now (valued_at nesting self.old.rest.now) }
    {
        let (location, inside) = self.located(nesting)?;
        self.expect(Terminal::Comma)?;
        let value = self.expression(inside)?;
        Ok((location, value))
    }

    /// "(" name "," number
    #[tactic(auto, unfolding(crate::specs::Reading::target_at, crate::specs::Reading::constant_at))]
    fn constant(&mut self, nesting: u32) -> Result<(Name, u32), SyntaxFault>
        ensures { Gives (λ v. v) result self.new.rest.now (constant_at nesting self.old.rest.now) }
    {
        let (location, _) = self.located(nesting)?;
        self.expect(Terminal::Comma)?;
        let constant = self.number()?;
        Ok((location, constant))
    }

    #[tactic(auto, unfolding(crate::specs::Reading::load_at))]
    fn load(&mut self, accepted: &[Order], nesting: u32) -> Result<Call, SyntaxFault>
        ensures { Gives action_of result self.new.rest.now (load_at accepted.now nesting self.old.rest.now) }
    {
        let (location, _) = self.located(nesting)?;
        let order = self.closing(accepted)?;
        Ok(Call::Load(location, order))
    }

    #[tactic(auto, unfolding(crate::specs::Reading::store_at))]
    fn store(&mut self, accepted: &[Order], nesting: u32) -> Result<Call, SyntaxFault>
        ensures { Gives action_of result self.new.rest.now (store_at accepted.now nesting self.old.rest.now) }
    {
        let (location, value) = self.valued(nesting)?;
        let order = self.closing(accepted)?;
        Ok(Call::Store(location, value, order))
    }

    #[tactic(auto, unfolding(crate::specs::Reading::exchange_at))]
    fn exchange(&mut self, accepted: &[Order], nesting: u32) -> Result<Call, SyntaxFault>
        ensures { Gives action_of result self.new.rest.now (exchange_at accepted.now nesting self.old.rest.now) }
    {
        let (location, value) = self.valued(nesting)?;
        let order = self.closing(accepted)?;
        Ok(Call::Exchange(location, value, order))
    }

    #[tactic(auto, unfolding(crate::specs::Reading::modify_at))]
    fn modify(
        &mut self,
        computation: Computation,
        accepted: &[Order],
        nesting: u32,
    ) -> Result<Call, SyntaxFault>
        ensures { Gives action_of result self.new.rest.now (modify_at computation accepted.now nesting self.old.rest.now) }
    {
        let (location, constant) = self.constant(nesting)?;
        let order = self.closing(accepted)?;
        Ok(Call::Modify(location, computation, constant, order))
    }

    #[tactic(auto, unfolding(crate::specs::Reading::fence_at))]
    fn fence(&mut self, accepted: &[Order], nesting: u32) -> Result<Call, SyntaxFault>
        ensures { Gives action_of result self.new.rest.now (fence_at accepted.now nesting self.old.rest.now) }
    {
        let _ = self.open(nesting)?;
        let order = self.last_order(accepted)?;
        Ok(Call::Fence(order))
    }

    /// What stands behind the word of a call.
    #[tactic(auto, unfolding(crate::specs::Reading::operation_at))]
    pub(super) fn operation(
        &mut self,
        operation: Operation,
        nesting: u32,
    ) -> Result<Call, SyntaxFault>
        ensures { Gives action_of result self.new.rest.now (operation_at operation nesting self.old.rest.now) }
    {
        let accepted = accepted(operation);
        match effect_of(operation) {
            Effect::Loads => self.load(accepted, nesting),
            Effect::Stores => self.store(accepted, nesting),
            Effect::Exchanges => self.exchange(accepted, nesting),
            Effect::Modifies(computation) => self.modify(computation, accepted, nesting),
            Effect::Fences => self.fence(accepted, nesting),
        }
    }

    /// What stands behind the word of a call that has a value. With its word so many symbols are left.
    #[tactic(auto, unfolding(crate::specs::Reading::value_at))]
    fn value(
        &mut self,
        left: usize,
        operation: Operation,
        nesting: u32,
    ) -> Result<RightSide, SyntaxFault>
        ensures { Gives right_of result self.new.rest.now (value_at left operation nesting self.old.rest.now) }
    {
        if !effect_of(operation).is_valued() {
            return Err(SyntaxFault::Syntax(left));
        }
        Ok(RightSide::Call(self.operation(operation, nesting)?))
    }

    /// right := expression | "*" name | call that has a value
    #[tactic(auto, unfolding(crate::specs::Reading::right_at, crate::specs::Reading::plain_at, crate::specs::Reading::computed_at))]
    pub(super) fn right_side(&mut self, nesting: u32) -> Result<RightSide, SyntaxFault>
        ensures { Gives right_of result self.new.rest.now (right_at nesting self.old.rest.now) }
    {
        if self.take(Terminal::Star) {
            return Ok(RightSide::Read(self.name()?));
        }
        let left = self.left();
        match self.take_call() {
            Some(operation) => self.value(left, operation, nesting),
            None => Ok(RightSide::Value(self.expression(nesting)?)),
        }
    }
}
