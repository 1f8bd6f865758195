//! The values that an initial state gives.

ghost use Rattle.std.specs.Prelude.{◌≡◌, ◌<◌, length, if◌then◌else◌, IfOk, OnOk};
ghost use Rattle.std.specs.Option.{unwrap_or};
ghost use Rattle.conditions.specs.Equality.{same_place};
ghost use Rattle.conditions.specs.States.{value_at};
ghost use Rattle.conditions.specs.declared.place.Place.{Place};
ghost use Rattle.conditions.specs.declared.place.Place.TheVariants.{Reg};
ghost use Rattle.events.specs.Executions.{no_places};
ghost use Rattle.indexmap.specs.IndexMap.{get};
ghost use Rattle.c11_threads.specs.Runs.{initial_contents};

use crate::content::Content;
use conditions::{Binding, Place};
use events::no_places;
use indexmap::IndexMap;
use litmus_value::Test;
use std::alloc::{AllocError, Global};
use wb_text::Name;

/// The value that an initial state gives a place.
pub fn initial_value(initial: &[Binding], place: &Place) -> u32
    ensures { result ≡ value_at initial.now place.now }
{
    for binding in initial {
        if binding.place == *place {
            return binding.value;
        }
    }
    0
}

/// Gives the place of a binding its value.
fn note_value(state: &mut IndexMap<Place, u32>, binding: &Binding) -> Result<(), AllocError>
    ensures { OnOk result ((p : Place) → unwrap_or (get same_place state.new p) 0 ≡ (if same_place binding.now.place p then binding.now.value else unwrap_or (get same_place state.old p) 0)) }
{
    state.insert(binding.place.copy()?, binding.value)?;
    Ok(())
}

/// The places that an initial state gives a value, each with its value.
fn initial_state(alloc: Global, initial: &[Binding]) -> Result<IndexMap<Place, u32>, AllocError>
    ensures { IfOk result (λ m. (p : Place) → unwrap_or (get same_place m p) 0 ≡ value_at initial.now p) }
{
    let mut state = IndexMap::new(alloc);
    for binding in initial.iter().rev() {
        note_value(&mut state, binding)?;
    }
    Ok(state)
}

/// What a register of a thread holds at its start, by the values of the places.
fn initial_content(
    state: &IndexMap<Place, u32>,
    thread: usize,
    name: &Name,
) -> Result<Content, AllocError>
    ensures { IfOk result (λ c. c ≡ record { value = unwrap_or (get same_place state.now (Reg thread name.now)) 0; reads = no_places }) }
{
    let place = Place::Reg(thread, name.copy()?);
    Ok(Content {
        value: state.get(&place).copied().unwrap_or(0),
        reads: no_places(),
    })
}

/// What the registers of a thread hold at its start, by the values of the places.
fn contents_by(
    alloc: Global,
    test: &Test,
    thread: usize,
    state: &IndexMap<Place, u32>,
) -> Result<Vec<Content>, AllocError>
    requires thread { thread < length test.now.threads }
    requires state { (p : Place) → unwrap_or (get same_place state.now p) 0 ≡ value_at test.now.initial p }
    ensures { IfOk result (λ v. v.items ≡ initial_contents test.now thread) }
{
    let mut contents = Vec::new(alloc);
    for name in test.threads()[thread].registers() {
        contents.push(initial_content(state, thread, name)?)?;
    }
    Ok(contents)
}

/// What the registers of a thread hold at its start.
pub(crate) fn initial_contents(
    alloc: Global,
    test: &Test,
    thread: usize,
) -> Result<Vec<Content>, AllocError>
    requires { thread < length test.now.threads }
    ensures { IfOk result (λ v. v.items ≡ initial_contents test.now thread) }
{
    let state = initial_state(alloc, test.initial())?;
    contents_by(alloc, test, thread, &state)
}
