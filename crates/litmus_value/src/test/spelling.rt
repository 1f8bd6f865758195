//! The key of a test.

ghost use Rattle.std.specs.Prelude.{◌≡◌, IfOk};
ghost use Rattle.litmus_value.specs.Tests.{key_of};

use conditions::{Binding, Cond, Place};
use keys::{Key, Spell, spell_all};
use litmus_tree::Thread;
use std::alloc::{AllocError, Global};
use wb_text::Name;

/// The key of a test of these parts, with no room for more bytes.
#[tactic(auto, unfolding(crate::specs::Tests::key_of))]
pub(super) fn key_of(
    alloc: Global,
    name: &Name,
    initial: &[Binding],
    threads: &[Thread],
    condition: &Cond,
    listed: &[Place],
    locations: &[Name],
) -> Result<Key, AllocError>
    ensures { IfOk result (λ k. k ≡ key_of (record { name = name.now; initial = initial.now; threads = threads.now; condition = condition.now; listed = listed.now; locations = locations.now })) }
{
    let mut key = Key::new(alloc);
    name.spell(&mut key)?;
    spell_all(initial, &mut key)?;
    spell_all(threads, &mut key)?;
    condition.spell(&mut key)?;
    spell_all(listed, &mut key)?;
    spell_all(locations, &mut key)?;
    Ok(key.trimmed())
}
