//! Where bytes go.

ghost use Rattle.std.specs.Prelude.{◌≡◌, ◌≤◌, ◌<◌, ◌-◌, ℕ, List, Option, Some, None, Bool, true, false, [], length, take, min, ◌↔◌, IfOk, IsErr, OnOk, OnErr};
ghost use Rattle.std.specs.Io.KnownBytes.{Keeps, Appends};
ghost use Rattle.wb_text.specs.Memory.{AppendsPrefix};

use crate::fault::Failed;
use std::alloc::{AllocError, Global};
use std::io::{ErrorKind, Write};
use std::marker::Model;

/// A sink of bytes.
pub trait Sink {
    /// The bytes that it holds, where they are known.
    ghost held: { Self → Option (List ℕ) };

    /// The mark of failure. Nothing clears it.
    ghost has_failed: { Self → Bool };

    /// Takes bytes from the front of `bytes`, at least one of a nonempty slice, and answers how many.
    fn give(&mut self, bytes: &[u8]) -> Result<usize, Failed>
        ensures count { IfOk result (λ n. n ≤ length bytes.now) }
        ensures some { IfOk result (λ n. 0 < length bytes.now → 0 < n) }
        // What it holds has grown by the bytes that it took.
        ensures given { IfOk result (λ n. Appends (held self.old) (held self.new) (take n bytes.now)) }
        ensures kept { OnErr result (Keeps (held self.old) (held self.new)) }
        ensures marked { OnErr result (has_failed self.new ≡ true) }
        ensures lasting { has_failed self.old ≡ true → has_failed self.new ≡ true };
}

/// Gives all of the bytes.
pub fn give_all<S: Sink>(sink: &mut S, bytes: &[u8]) -> Result<(), Failed>
    ensures given { OnOk result (Appends (S.held sink.old) (S.held sink.new) bytes.now) }
    // A sink that fails has taken some first part of them.
    ensures partly { OnErr result (AppendsPrefix (S.held sink.old) (S.held sink.new) bytes.now) }
    ensures marked { OnErr result (S.has_failed sink.new ≡ true) }
    ensures lasting { S.has_failed sink.old ≡ true → S.has_failed sink.new ≡ true }
{
    let mut rest = bytes;
    while !rest.is_empty() {
        let count = sink.give(rest)?;
        rest = &rest[count..];
    }
    Ok(())
}

/// A sink in memory, with room for so many bytes and no more.
#[derive(Drop)]
pub struct MemSink {
    bytes: Vec<u8>,
    room: usize,
    has_failed: bool,
}

impl Model for MemSink {
    ghost use Rattle.std.specs.Prelude.{◌≤◌, vec_len, vec_capacity};
    ghost use Rattle.wb_text.specs.Memory.{Held};

    ghost Value = { Held };

    ghost view = { λ s. record { bytes = s.bytes.items; room = s.room; has_failed = s.has_failed } };

    ghost invariant = { λ s. (vec_len s.bytes ≤ s.room) × (s.room ≤ vec_capacity s.bytes) };
}

impl MemSink {
    /// An empty sink that has reserved its room.
    pub fn new(alloc: Global, room: usize) -> Result<MemSink, AllocError>
        ensures empty { IfOk result (λ s. s.bytes ≡ []) }
        ensures room { IfOk result (λ s. s.room ≡ room) }
        ensures unmarked { IfOk result (λ s. s.has_failed ≡ false) }
    {
        Ok(MemSink {
            bytes: Vec::with_capacity(alloc, room)?,
            room,
            has_failed: false,
        })
    }

    /// The bytes that it holds.
    pub fn bytes(&self) -> &[u8]
        ensures { result.now ≡ self.now.bytes }
    {
        self.bytes.as_slice()
    }
}

impl Sink for MemSink {
    ghost held = { λ s. Some s.bytes };

    ghost has_failed = { λ s. s.has_failed };

    fn give(&mut self, bytes: &[u8]) -> Result<usize, Failed>
        ensures count { IfOk result (λ n. n ≤ length bytes.now) }
        ensures some { IfOk result (λ n. 0 < length bytes.now → 0 < n) }
        ensures given { IfOk result (λ n. Appends (Some self.old.bytes) (Some self.new.bytes) (take n bytes.now)) }
        ensures kept { OnErr result (Keeps (Some self.old.bytes) (Some self.new.bytes)) }
        ensures marked { OnErr result (self.new.has_failed ≡ true) }
        ensures lasting { self.old.has_failed ≡ true → self.new.has_failed ≡ true }

        // As many as there is room for, and a failure only where there is none.
        ensures all { IfOk result (λ n. n ≡ min (length bytes.now) (self.old.room - length self.old.bytes)) }
        ensures full { IsErr result ↔ (0 < length bytes.now) × (self.old.room ≤ length self.old.bytes) }
        ensures same { self.new.room ≡ self.old.room }
        ensures unmarked { OnOk result (self.new.has_failed ≡ self.old.has_failed) }
    {
        let n = bytes.len().min(self.room - self.bytes.len());
        if n == 0 && !bytes.is_empty() {
            self.has_failed = true;
            return Err(Failed);
        }
        match self.bytes.extend_from_slice(&bytes[..n]) {
            Ok(()) => Ok(n),
            Err(_) => {
                self.has_failed = true;
                Err(Failed)
            }
        }
    }
}

/// A writer of std's as a sink of the bytes that it holds, as far as std knows them.
///
/// It writes again where a write was interrupted, as std's `write_all` does.
#[derive(Drop)]
pub struct WriteSink<W: Write> {
    writer: W,
    has_failed: bool,
}

impl<W: Write> WriteSink<W> {
    pub fn new(writer: W) -> Self
        ensures held { W.contents result.writer ≡ W.contents writer }
        ensures unmarked { result.has_failed ≡ false }
    {
        WriteSink {
            writer,
            has_failed: false,
        }
    }

    /// Sends on what the writer still holds back.
    pub fn flush(&mut self) -> Result<(), Failed>
        ensures kept { Keeps (W.contents self.old.writer) (W.contents self.new.writer) }
        ensures marked { OnErr result (self.new.has_failed ≡ true) }
        ensures lasting { self.old.has_failed ≡ true → self.new.has_failed ≡ true }
    {
        match self.writer.flush() {
            Ok(()) => Ok(()),
            Err(_) => {
                self.has_failed = true;
                Err(Failed)
            }
        }
    }
}

impl<W: Write> Sink for WriteSink<W> {
    ghost held = { λ s. W.contents s.writer };

    ghost has_failed = { λ s. s.has_failed };

    #[tactic(auto, using(crate::proofs::Moves::keeps_first, crate::proofs::Moves::keeps_on, crate::proofs::Moves::given_kept))]
    fn give(&mut self, bytes: &[u8]) -> Result<usize, Failed> {
        for _ in 0..u64::MAX {
            match self.writer.write(bytes) {
                Ok(count) if count > 0 || bytes.is_empty() => return Ok(count),
                Err(error) if error.kind() == ErrorKind::Interrupted => {}
                _ => break,
            }
        }
        self.has_failed = true;
        Err(Failed)
    }
}
