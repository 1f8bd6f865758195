//! Values that can be written in a key.

ghost use Rattle.std.specs.Prelude.{◌≡◌, OnOk};
ghost use Rattle.keys.specs.Spelling.{list_over, spelled_bytes};

use crate::key::Key;
use std::alloc::AllocError;
use wb_text::Name;

/// A value that can be written in a key.
pub trait Spell {
    ghost use Rattle.std.specs.Prelude.{ℕ, List};

    /// The bytes of the value, over those that stand there.
    ghost over: { Self → List ℕ → List ℕ };

    /// Writes the value.
    fn spell(&self, key: &mut Key) -> Result<(), AllocError>
        ensures { OnOk result (key.new ≡ over self.now key.old) };
}

/// Writes a list: one value after another, and how many they are.
pub fn spell_all<T: Spell>(items: &[T], key: &mut Key) -> Result<(), AllocError>
    ensures { OnOk result (key.new ≡ list_over T.over items.now key.old) }
{
    for item in items {
        item.spell(key)?;
    }
    key.push_number(items.len() as u64)
}

impl Spell for Name {
    ghost use Rattle.keys.specs.Spelling.{spelled_bytes};

    ghost over = { spelled_bytes.over };

    fn spell(&self, key: &mut Key) -> Result<(), AllocError>
        ensures { OnOk result (key.new ≡ spelled_bytes.over self.now key.old) }
    {
        key.push_bytes(self.bytes())
    }
}
