//! The places whose values are observed.

ghost use Rattle.std.specs.Prelude.{◌≡◌, ◌++◌, IfOk, OnOk};
ghost use Rattle.conditions.specs.Chains.{mentioned_by};
ghost use Rattle.conditions.specs.Conditions.{atomic, growth_of, formula_of};
ghost use Rattle.conditions.specs.States.{mentioned, AreObserved};

use crate::condition::Cond;
use crate::place::Place;
use crate::prop::{Atom, Link, Prop};
use std::alloc::{AllocError, Global};

/// The places of the condition and of the list.
pub fn observed(alloc: Global, condition: &Cond, listed: &[Place]) -> Result<Vec<Place>, AllocError>
    ensures { IfOk result (λ places. AreObserved condition.now listed.now places.items) }
{
    let mut places = Vec::new(alloc);
    push_mentioned(condition.prop(), &mut places)?;
    push_copies(listed, &mut places)?;
    places.sort_unstable();
    places.dedup();
    Ok(places)
}

impl Atom {
    fn push_mentioned(&self, places: &mut Vec<Place>) -> Result<(), AllocError>
        ensures { OnOk result (places.new.items ≡ places.old.items ++ mentioned (atomic self.now)) }
    {
        match self {
            Atom::True | Atom::False => Ok(()),
            Atom::Equals(place, _) => Ok(places.push(place.copy()?)?),
        }
    }
}

/// Recursion goes into right operands alone.
#[cycle(mentioning)]
fn push_mentioned(prop: &Prop, places: &mut Vec<Place>) -> Result<(), AllocError>
    ensures { OnOk result (places.new.items ≡ places.old.items ++ mentioned (formula_of prop.now)) }
{
    prop.first.push_mentioned(places)?;
    for link in &prop.rest {
        link.push_mentioned(places)?;
    }
    Ok(())
}

impl Link {
    #[cycle(mentioning)]
    #[tactic(auto, using(crate::specs::Chains::join_is))]
    fn push_mentioned(&self, places: &mut Vec<Place>) -> Result<(), AllocError>
        ensures { OnOk result (places.new.items ≡ places.old.items ++ mentioned_by (growth_of self.now)) }
    {
        match self {
            Link::Not => Ok(()),
            Link::Join(_, operand) => push_mentioned(operand, places),
        }
    }
}

fn push_copies(listed: &[Place], places: &mut Vec<Place>) -> Result<(), AllocError>
    ensures { OnOk result (places.new.items ≡ places.old.items ++ listed.now) }
{
    for place in listed {
        places.push(place.copy()?)?;
    }
    Ok(())
}
