//! Bytes that were taken from a source at once.

ghost use Rattle.std.specs.Prelude.{◌≡◌, ◌≤◌, [], length, drop, Err, IfOk, OnOk, OnErr, true};
ghost use Rattle.std.specs.Io.KnownBytes.{Keeps, IsAtEnd};
ghost use Rattle.scripts.specs.Lines.{ahead};

use std::alloc::{AllocError, Global};
use std::marker::Model;
use wb_text::{Failed, Source};

/// How many bytes are taken at once.
const BLOCK: usize = 8_192;

/// Bytes that were taken from a source and are not used yet. Contracts see those.
#[derive(Drop)]
pub struct Block {
    bytes: Vec<u8>,
    from: usize,
    to: usize,
}

impl Model for Block {
    ghost use Rattle.std.specs.Prelude.{ℕ, List, ◌≤◌, ◌<◌, ◌-◌, take, drop, vec_len};

    ghost Value = { List ℕ };

    ghost view = { λ b. take (b.to - b.from) (drop b.from b.bytes.items) };

    ghost invariant = { λ b. (b.from ≤ b.to) × ((b.to ≤ vec_len b.bytes) × (0 < vec_len b.bytes)) };
}

impl Block {
    /// No bytes, and room for a block of them.
    pub fn new(alloc: Global) -> Result<Self, AllocError>
        ensures { IfOk result (λ b. b ≡ []) }
    {
        let mut bytes = Vec::with_capacity(alloc, BLOCK)?;
        bytes.resize(BLOCK, 0)?;
        Ok(Block {
            bytes,
            from: 0,
            to: 0,
        })
    }

    /// The bytes.
    pub fn rest(&self) -> &[u8]
        ensures { result.now ≡ self.now }
    {
        &self.bytes[self.from..self.to]
    }

    /// Uses the first bytes.
    pub fn skip(&mut self, count: usize)
        requires { count ≤ length self.old }
        ensures { self.new ≡ drop count self.old }
    {
        self.from += count;
    }

    /// Takes bytes from the source where none is left. None then is the source's end.
    pub fn fill<R: Source>(&mut self, reader: &mut R) -> Result<(), Failed>
        ensures kept { Keeps (ahead self.old (R.left reader.old)) (ahead self.new (R.left reader.new)) }
        ensures end { OnOk result (self.new ≡ [] → IsAtEnd (R.left reader.new)) }
        ensures marked { OnErr result (R.has_failed reader.new ≡ true) }
        ensures lasting { R.has_failed reader.old ≡ true → R.has_failed reader.new ≡ true }
    {
        if self.from == self.to {
            self.to = reader.take(&mut self.bytes)?;
            self.from = 0;
        }
        Ok(())
    }
}
