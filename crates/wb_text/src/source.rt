//! Where bytes come from.

ghost use Rattle.std.specs.Prelude.{◌≡◌, ◌≤◌, ◌<◌, ℕ, List, Option, Some, None, Bool, true, false, length, take, drop, min, [], ◌↔◌, IfOk, OnOk, OnErr, Err, IsErr, vec_len};
ghost use Rattle.std.specs.Io.KnownBytes.{Keeps, Consumes, IsAtEnd};
ghost use Rattle.wb_text.specs.Memory.{LosesAtMost};

use crate::fault::{Failed, ReadFault};
use std::alloc::Global;
use std::io::{ErrorKind, Read};
use std::marker::Model;

/// A source of bytes.
pub trait Source {
    /// The bytes that are left, where they are known.
    ghost left: { Self → Option (List ℕ) };

    /// The mark of failure. Nothing clears it.
    ghost has_failed: { Self → Bool };

    /// Moves bytes to the front of `into`, and answers how many. 0 for a nonempty slice is the end.
    fn take(&mut self, into: &mut [u8]) -> Result<usize, Failed>
        ensures count { IfOk result (λ n. n ≤ length into.new) }
        // What was left began with the bytes that came, and has lost them.
        ensures taken { IfOk result (λ n. Consumes (left self.old) (left self.new) (take n into.new)) }
        ensures end { IfOk result (λ n. n ≡ 0 → 0 < length into.new → IsAtEnd (left self.new)) }
        ensures kept { OnErr result (Keeps (left self.old) (left self.new)) }
        ensures marked { OnErr result (has_failed self.new ≡ true) }
        ensures lasting { has_failed self.old ≡ true → has_failed self.new ≡ true };
}

/// How many bytes are taken at once.
const CHUNK: usize = 4096;

/// Takes bytes until there are `limit` or the source ends.
pub fn read_up_to<S: Source>(
    alloc: Global,
    source: &mut S,
    limit: usize,
) -> Result<Vec<u8>, ReadFault>
    // They are the first that were left, and are left no more.
    ensures taken { IfOk result (λ v. Consumes (S.left source.old) (S.left source.new) v.items) }
    ensures at_most { IfOk result (λ v. vec_len v ≤ limit) }
    // They are fewer than `limit` only where the source ends.
    ensures end { IfOk result (λ v. vec_len v < limit → IsAtEnd (S.left source.new)) }
    // At a fault, too, no other bytes are gone than the first.
    ensures lost { OnErr result (LosesAtMost limit (S.left source.old) (S.left source.new)) }
    ensures marked { result ≡ Err ReadFault.Failed → S.has_failed source.new ≡ true }
    ensures lasting { S.has_failed source.old ≡ true → S.has_failed source.new ≡ true }
{
    let mut bytes = Vec::new(alloc);
    let mut chunk = [0u8; CHUNK];
    while bytes.len() < limit {
        let room = limit - bytes.len();
        let count = source.take(&mut chunk[..room.min(CHUNK)])?;
        if count == 0 {
            return Ok(bytes);
        }
        bytes.extend_from_slice(&chunk[..count])?;
    }
    Ok(bytes)
}

/// A source of the bytes of a slice, that ends or fails behind them.
#[derive(Drop)]
pub struct MemSource<'a> {
    rest: &'a [u8],
    fails: bool,
    has_failed: bool,
}

impl<'a> Model for MemSource<'a> {
    ghost use Rattle.wb_text.specs.Memory.{Left};

    ghost Value = { Left };

    ghost view = { λ s. record { bytes = s.rest.now; fails = s.fails; has_failed = s.has_failed } };
}

impl<'a> MemSource<'a> {
    /// A source of these bytes, that fails in place of the end if `fails`.
    pub fn new(bytes: &'a [u8], fails: bool) -> Self
        ensures bytes { result.bytes ≡ bytes.now }
        ensures fails { result.fails ≡ fails }
        ensures unmarked { result.has_failed ≡ false }
    {
        MemSource {
            rest: bytes,
            fails,
            has_failed: false,
        }
    }
}

impl<'a> Source for MemSource<'a> {
    ghost left = { λ s. Some s.bytes };

    ghost has_failed = { λ s. s.has_failed };

    fn take(&mut self, into: &mut [u8]) -> Result<usize, Failed>
        ensures count { IfOk result (λ n. n ≤ length into.new) }
        ensures taken { IfOk result (λ n. Consumes (Some self.old.bytes) (Some self.new.bytes) (take n into.new)) }
        ensures end { IfOk result (λ n. n ≡ 0 → 0 < length into.new → IsAtEnd (Some self.new.bytes)) }
        ensures kept { OnErr result (Keeps (Some self.old.bytes) (Some self.new.bytes)) }
        ensures marked { OnErr result (self.new.has_failed ≡ true) }
        ensures lasting { self.old.has_failed ≡ true → self.new.has_failed ≡ true }

        // As many as there are and fit, and a failure only in place of the end.
        ensures all { IfOk result (λ n. n ≡ min (length into.new) (length self.old.bytes)) }
        ensures fails { IsErr result ↔ (self.old.bytes ≡ []) × (self.old.fails ≡ true) }
        ensures same { self.new.fails ≡ self.old.fails }
        ensures unmarked { OnOk result (self.new.has_failed ≡ self.old.has_failed) }
    {
        if self.rest.is_empty() && self.fails {
            self.has_failed = true;
            return Err(Failed);
        }
        let n = into.len().min(self.rest.len());
        let (front, rest) = self.rest.split_at(n);
        into[..n].copy_from_slice(front);
        self.rest = rest;
        Ok(n)
    }
}

/// A reader of std's as a source of the bytes that it has left, as far as std knows them.
///
/// It reads again where a read was interrupted, as std's own readers do.
#[derive(Drop)]
pub struct ReadSource<R: Read> {
    reader: R,
    has_failed: bool,
}

impl<R: Read> ReadSource<R> {
    pub fn new(reader: R) -> Self
        ensures left { R.remaining result.reader ≡ R.remaining reader }
        ensures unmarked { result.has_failed ≡ false }
    {
        ReadSource {
            reader,
            has_failed: false,
        }
    }
}

impl<R: Read> Source for ReadSource<R> {
    ghost left = { λ s. R.remaining s.reader };

    ghost has_failed = { λ s. s.has_failed };

    #[tactic(auto, using(crate::proofs::Moves::keeps_first, crate::proofs::Moves::keeps_on, crate::proofs::Moves::takes_kept))]
    fn take(&mut self, into: &mut [u8]) -> Result<usize, Failed> {
        for _ in 0..u64::MAX {
            match self.reader.read(into) {
                Ok(count) => return Ok(count),
                Err(error) if error.kind() == ErrorKind::Interrupted => {}
                Err(_) => break,
            }
        }
        self.has_failed = true;
        Err(Failed)
    }
}
