//! The key of a value.

ghost use Rattle.std.specs.Prelude.{◌≡◌, ◌∷◌, [], OnOk};
ghost use Rattle.keys.specs.Spelling.{number_over, digits_over, spelled_bytes};

use std::alloc::{AllocError, Global};
use std::marker::Model;

/// What a value is written as. Contracts see its bytes, last first. After an `Err` a part of a value stands in it, so that
/// it is no one's key: drop it.
pub struct Key {
    bytes: Vec<u8>,
}

// A function of its own: whoever holds one drops it by a call.
impl Drop for Key {
    fn drop(self) {
        let Key { bytes: _ } = self;
    }
}

impl Model for Key {
    ghost use Rattle.std.specs.Prelude.{ℕ, List, reverse};

    ghost Value = { List ℕ };

    ghost view = { λ k. reverse k.bytes.items };
}

impl PartialEq for Key {
    ghost use Rattle.std.specs.Prelude.{◌≡◌, ◌↔◌, IsTrue};
    ghost use Rattle.std.proofs.Common.{rules};
    ghost use Rattle.std.specs.Cmp.Rules.{comparing};
    ghost use Rattle.std.specs.Str.{bytes_eq};

    ghost eq = { bytes_eq };

    ghost laws = { Prim.search (comparing, rules) };

    fn eq(&self, other: &Key) -> bool
        ensures value { result ≡ bytes_eq self.now other.now }
        ensures exact { IsTrue result ↔ (self.now ≡ other.now) }
    {
        self.bytes == other.bytes
    }
}

impl Eq for Key {
    ghost use Rattle.std.proofs.Common.{rules};
    ghost use Rattle.std.specs.Cmp.Rules.{comparing};

    ghost laws = { Prim.search (comparing, rules) };
}

impl Key {
    /// A key in which nothing is written.
    pub fn new(alloc: Global) -> Key
        ensures { result ≡ [] }
    {
        Key {
            bytes: Vec::new(alloc),
        }
    }

    /// Writes a byte.
    pub fn push_byte(&mut self, byte: u8) -> Result<(), AllocError>
        ensures { OnOk result (self.new ≡ byte ∷ self.old) }
    {
        self.bytes.push(byte)?;
        Ok(())
    }

    /// Writes a number.
    pub fn push_number(&mut self, number: u64) -> Result<(), AllocError>
        ensures { OnOk result (self.new ≡ number_over number self.old) }
    {
        if number < 255 {
            return self.push_byte(number as u8);
        }
        self.push_digits(number)?;
        self.push_byte(255)
    }

    /// Writes the bytes of a number, the last first.
    fn push_digits(&mut self, number: u64) -> Result<(), AllocError>
        ensures { OnOk result (self.new ≡ digits_over 7 number self.old) }
    {
        let mut rest = number;
        for _ in 0..7usize {
            self.push_byte((rest % 256) as u8)?;
            rest /= 256;
        }
        self.push_byte(rest as u8)
    }

    /// Writes the bytes of a name or of a text.
    #[tactic(auto, using(crate::proofs::Stacks::bytes_behind))]
    pub fn push_bytes(&mut self, bytes: &[u8]) -> Result<(), AllocError>
        ensures { OnOk result (self.new ≡ spelled_bytes.over bytes.now self.old) }
    {
        self.bytes.extend_from_slice(bytes)?;
        self.push_number(bytes.len() as u64)
    }

    /// The same, with no room for more bytes.
    pub fn trimmed(self) -> Key
        ensures { result ≡ self }
    {
        let Key { mut bytes } = self;
        bytes.shrink_to_fit();
        Key { bytes }
    }
}
