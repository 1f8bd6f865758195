//! The lines of a script.

ghost use Rattle.std.specs.Prelude.{◌≡◌, ◌≤◌, ◌<◌, ◌≢◌, ◌++◌, ◌+◌, ◌⊎◌, ℕ, List, Option, [], length, Ok, Err, true, false, IfOk, IfErr, OnOk, OnErr, codes};
ghost use Rattle.std.specs.Io.KnownBytes.{IsAtEnd, Keeps};
ghost use Rattle.scripts.specs.Lines.{ahead, IsUnbroken, IsTrimmed, Grows, IsNextLine, IsLong, HasMore, Loses};
ghost use Rattle.scripts.specs.declared.reading_fault.ScriptFault.TheVariants as faults;

use crate::block::Block;
use crate::reading_fault::ScriptFault;
use memchr::memchr;
use std::alloc::{AllocError, Global};
use wb_text::Source;

/// The most bytes of a line, without its line feed.
const MOST_BYTES: usize = 65_536;

/// The most lines of a script.
const MOST_LINES: u32 = 1_000_000;

/// The lines of a script, one after another.
#[derive(Drop)]
pub struct Lines {
    block: Block,
    line: Vec<u8>,
    count: u32,
}

impl Lines {
    /// No line yet.
    pub fn new(alloc: Global) -> Result<Self, AllocError>
        ensures block { IfOk result (λ lines. lines.block ≡ []) }
        ensures count { IfOk result (λ lines. lines.count ≡ 0) }
    {
        Ok(Lines {
            block: Block::new(alloc)?,
            line: Vec::new(alloc),
            count: 0,
        })
    }

    /// The line, without its line feed and a carriage return before that.
    pub fn line(&self) -> &[u8]
        ensures { result.now ≡ self.now.line.items }
    {
        &self.line
    }

    /// How many lines were read.
    pub fn count(&self) -> u32
        ensures { result ≡ self.now.count }
    {
        self.count
    }

    /// Goes to the next line, and answers whether there is one. At a fault some bytes of that line may be gone.
    pub fn next<R: Source>(&mut self, reader: &mut R) -> Result<bool, ScriptFault>
        // The number of a line is one more than that of the line before it.
        ensures line { (n : ℕ) → result ≡ Err (faults.BadLine n) → (n ≡ self.old.count + 1) × (self.old.count < 1000000) × IsLong (ahead self.old.block (R.left reader.old)) }
        ensures count { result ≡ Ok true → self.new.count ≡ self.old.count + 1 }
        ensures still { result ≡ Ok false → self.new.count ≡ self.old.count }
        ensures room { result ≡ Ok true → self.old.count < 1000000 }
        // Reading fails where the reader does, or where a script has too many lines.
        ensures read { result ≡ Err faults.Read → (R.has_failed reader.new ≡ true)
            ⊎ ((1000000 ≤ self.old.count) × HasMore (ahead self.old.block (R.left reader.old))) }
        // However it ends, no bytes are gone but the first of what was ahead, and no more than one line is counted.
        ensures counted { (self.old.count ≤ self.new.count) × (self.new.count ≤ self.old.count + 1) }
        ensures lost { Loses (ahead self.old.block (R.left reader.old)) (ahead self.new.block (R.left reader.new)) }
        // The line is the next of what was ahead, or nothing was.
        ensures next { result ≡ Ok true → IsNextLine (ahead self.old.block (R.left reader.old)) (ahead self.new.block (R.left reader.new)) self.new.line.items }
        ensures end { result ≡ Ok false → IsAtEnd (R.left reader.new) }
        ensures none { result ≡ Ok false → self.new.block ≡ [] }
        ensures kept { result ≡ Ok false → Keeps (ahead self.old.block (R.left reader.old)) (ahead self.new.block (R.left reader.new)) }
    {
        if self.is_at_end(reader)? {
            return Ok(false);
        }
        if self.count >= MOST_LINES {
            return Err(ScriptFault::Read);
        }
        self.count += 1;
        self.line.clear();
        if self.read_line(reader)? {
            self.trim();
        }
        Ok(true)
    }

    /// Takes a carriage return off the end of the line.
    fn trim(&mut self)
        ensures trimmed { IsTrimmed self.old.line.items self.new.line.items }
        ensures block { self.new.block ≡ self.old.block }
        ensures count { self.new.count ≡ self.old.count }
    {
        if self.line.ends_with(b"\r") {
            self.line.pop();
        }
    }

    /// Whether no byte is left.
    fn is_at_end<R: Source>(&mut self, reader: &mut R) -> Result<bool, ScriptFault>
        ensures fault { IfErr result (λ e. e ≡ faults.Read) }
        ensures count { self.new.count ≡ self.old.count }
        ensures line { self.new.line ≡ self.old.line }
        ensures kept { Keeps (ahead self.old.block (R.left reader.old)) (ahead self.new.block (R.left reader.new)) }
        ensures end { result ≡ Ok true → IsAtEnd (R.left reader.new) }
        ensures none { result ≡ Ok true → self.new.block ≡ [] }
        ensures more { result ≡ Ok false → self.new.block ≢ [] }
        ensures marked { OnErr result (R.has_failed reader.new ≡ true) }
    {
        match self.block.fill(reader) {
            Ok(()) => Ok(self.block.rest().is_empty()),
            Err(_) => Err(ScriptFault::Read),
        }
    }

    /// Adds bytes to the line up to a line feed or the end, and answers whether the feed stood there. It stops where the
    /// line is too long.
    fn read_line<R: Source>(&mut self, reader: &mut R) -> Result<bool, ScriptFault>
        ensures line { (n : ℕ) → result ≡ Err (faults.BadLine n) → n ≡ self.old.count }
        ensures long { (n : ℕ) → result ≡ Err (faults.BadLine n) → (after : Option (List ℕ)) × (ending : List ℕ)
            × Grows (ahead self.old.block (R.left reader.old)) after self.old.line.items self.new.line.items ending × (65536 < length self.new.line.items) }
        ensures count { self.new.count ≡ self.old.count }
        ensures short { OnOk result (length self.old.line.items ≤ 65536 → length self.new.line.items ≤ 65536) }
        ensures read { result ≡ Err faults.Read → R.has_failed reader.new ≡ true }
        ensures lost { Loses (ahead self.old.block (R.left reader.old)) (ahead self.new.block (R.left reader.new)) }
        ensures fed { result ≡ Ok true → Grows (ahead self.old.block (R.left reader.old)) (ahead self.new.block (R.left reader.new)) self.old.line.items self.new.line.items (codes "\n") }
        ensures last { result ≡ Ok false → Grows (ahead self.old.block (R.left reader.old)) (ahead self.new.block (R.left reader.new)) self.old.line.items self.new.line.items []
            × IsAtEnd (ahead self.new.block (R.left reader.new)) }
    {
        while !self.is_at_end(reader)? {
            let is_fed = self.take_part()?;
            if self.line.len() > MOST_BYTES {
                return Err(ScriptFault::BadLine(self.count));
            }
            if is_fed {
                return Ok(true);
            }
        }
        Ok(false)
    }

    /// Adds what the block has before a line feed to the line, and answers whether the feed stood there.
    fn take_part(&mut self) -> Result<bool, AllocError>
        ensures fed { result ≡ Ok true → (part : List ℕ) × IsUnbroken part × (self.new.line.items ≡ self.old.line.items ++ part)
            × (self.old.block ≡ part ++ (codes "\n" ++ self.new.block)) }
        ensures whole { result ≡ Ok false → IsUnbroken self.old.block × (self.new.line.items ≡ self.old.line.items ++ self.old.block) × (self.new.block ≡ []) }
        ensures count { self.new.count ≡ self.old.count }
        ensures same { OnErr result (self.new.block ≡ self.old.block) }
    {
        let rest = self.block.rest();
        match memchr(b'\n', rest) {
            Some(place) => {
                self.line.extend_from_slice(&rest[..place])?;
                self.block.skip(place + 1);
                Ok(true)
            }
            None => {
                let count = rest.len();
                self.line.extend_from_slice(rest)?;
                self.block.skip(count);
                Ok(false)
            }
        }
    }
}
