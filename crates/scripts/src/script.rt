//! The instructions of a script.

ghost use Rattle.std.specs.Prelude.{◌≡◌, [], ◌⊎◌, ◌↔◌, ◌<◌, ◌≤◌, ◌≢◌, ◌++◌, ◌-◌, ℕ, true, Err, IfOk, IfErr, IfSome, IfNone, OnOk, length, take, vec_len, codes};
ghost use Rattle.scripts.specs.Lines.{ahead, AreLines, IsNextLine, IsTooLong, Loses};
ghost use Rattle.scripts.specs.Scripts.{IsText, IsFollowed, IsNextInstruction, IsSpent, IsBadLine, IsCutOff};
ghost use Rattle.scripts.specs.Spelled.{Begins, OpensText, IsSeated, IsSkipped, IsBad, IsWork, SpellsNone};
ghost use Rattle.std.specs.Io.KnownBytes.{IsAtEnd};
ghost use Rattle.scripts.specs.declared.reading_fault.ScriptFault.TheVariants as faults;

use crate::instruction::{Head, Instruction, LineFault, Request, read_head};
use crate::lines::Lines;
use crate::reading_fault::ScriptFault;
use journal::Text;
use std::alloc::{AllocError, Global};
use wb_text::Source;

/// The most bytes that are kept of a text: one more than a text may have.
const MOST_BYTES: usize = 65_537;

/// A script, whose instructions are read one after another.
#[derive(Drop)]
pub struct Script {
    alloc: Global,
    lines: Lines,
}

impl Script {
    /// A script of which nothing is read.
    pub fn new(alloc: Global) -> Result<Self, AllocError>
        ensures block { IfOk result (λ script. script.lines.block ≡ []) }
        ensures count { IfOk result (λ script. script.lines.count ≡ 0) }
    {
        Ok(Script {
            alloc,
            lines: Lines::new(alloc)?,
        })
    }

    /// How many lines were read.
    pub fn line_count(&self) -> u32
        ensures { result ≡ self.now.lines.count }
    {
        self.lines.count()
    }

    /// The next instruction, if there is one. Behind a fault what is ahead may begin in the midst of an instruction.
    pub fn next<R: Source>(&mut self, reader: &mut R) -> Result<Option<Instruction>, ScriptFault>
        ensures seat { IfOk result (λ next. IfSome next IsSeated) }
        // It is the next of what was ahead, or none is left.
        ensures next { IfOk result (λ next. IfSome next (IsNextInstruction (ahead self.old.lines.block (R.left reader.old)) (ahead self.new.lines.block (R.left reader.new)))) }
        ensures spent { IfOk result (λ next. IfNone next (IsSpent (ahead self.old.lines.block (R.left reader.old)) self.old.lines.count (ahead self.new.lines.block (R.left reader.new)))) }
        ensures end { IfOk result (λ next. IfNone next (IsAtEnd (R.left reader.new))) }
        // Each line that was read is counted once.
        ensures more { IfOk result (λ next. IfSome next (λ _. (self.old.lines.count < 1000000) × (self.old.lines.count < self.new.lines.count))) }
        ensures lines { IfOk result (λ next. IfSome next (λ _. AreLines (ahead self.old.lines.block (R.left reader.old)) self.old.lines.count (ahead self.new.lines.block (R.left reader.new)) self.new.lines.count)) }
        ensures line { (n : ℕ) → result ≡ Err (faults.BadLine n) → IsBadLine (ahead self.old.lines.block (R.left reader.old)) self.old.lines.count n }
        // However it ends, no bytes are gone but the first of what was ahead, and lines are only counted.
        ensures lost { Loses (ahead self.old.lines.block (R.left reader.old)) (ahead self.new.lines.block (R.left reader.new)) }
        ensures counted { self.old.lines.count ≤ self.new.lines.count }
        ensures read { result ≡ Err faults.Read → (R.has_failed reader.new ≡ true)
            ⊎ IsTooLong (ahead self.old.lines.block (R.left reader.old)) self.old.lines.count }
    {
        while self.lines.next(reader)? {
            if !is_skipped(self.lines.line()) {
                return Ok(Some(self.instruction(reader)?));
            }
        }
        Ok(None)
    }

    /// The instruction that begins with the line.
    fn instruction<R: Source>(&mut self, reader: &mut R) -> Result<Instruction, ScriptFault>
        ensures bad { (n : ℕ) → result ≡ Err (faults.BadLine n) → ((n ≡ self.old.lines.count) × IsBad self.old.lines.line.items)
            ⊎ (OpensText self.old.lines.line.items × IsCutOff (ahead self.old.lines.block (R.left reader.old)) self.old.lines.count n) }
        ensures seat { IfOk result IsSeated }
        ensures begins { IfOk result (Begins self.old.lines.line.items) }
        ensures followed { IfOk result (IsFollowed (ahead self.old.lines.block (R.left reader.old)) (ahead self.new.lines.block (R.left reader.new))) }
        ensures lines { OnOk result (AreLines (ahead self.old.lines.block (R.left reader.old)) self.old.lines.count (ahead self.new.lines.block (R.left reader.new)) self.new.lines.count) }
        ensures lost { Loses (ahead self.old.lines.block (R.left reader.old)) (ahead self.new.lines.block (R.left reader.new)) }
        ensures counted { self.old.lines.count ≤ self.new.lines.count }
        ensures read { result ≡ Err faults.Read → (R.has_failed reader.new ≡ true)
            ⊎ IsTooLong (ahead self.old.lines.block (R.left reader.old)) self.old.lines.count }
    {
        if is_work(self.lines.line()) {
            return Ok(Instruction::Work);
        }
        self.call(reader)
    }

    /// What the session asks whose line this is.
    fn call<R: Source>(&mut self, reader: &mut R) -> Result<Instruction, ScriptFault>
        ensures bad { (n : ℕ) → result ≡ Err (faults.BadLine n) → ((n ≡ self.old.lines.count) × SpellsNone self.old.lines.line.items)
            ⊎ (OpensText self.old.lines.line.items × IsCutOff (ahead self.old.lines.block (R.left reader.old)) self.old.lines.count n) }
        ensures seat { IfOk result IsSeated }
        ensures begins { IfOk result (Begins self.old.lines.line.items) }
        ensures followed { IfOk result (IsFollowed (ahead self.old.lines.block (R.left reader.old)) (ahead self.new.lines.block (R.left reader.new))) }
        ensures lines { OnOk result (AreLines (ahead self.old.lines.block (R.left reader.old)) self.old.lines.count (ahead self.new.lines.block (R.left reader.new)) self.new.lines.count) }
        ensures lost { Loses (ahead self.old.lines.block (R.left reader.old)) (ahead self.new.lines.block (R.left reader.new)) }
        ensures counted { self.old.lines.count ≤ self.new.lines.count }
        ensures read { result ≡ Err faults.Read → (R.has_failed reader.new ≡ true)
            ⊎ IsTooLong (ahead self.old.lines.block (R.left reader.old)) self.old.lines.count }
    {
        let (seat, head) = match read_head(self.alloc, self.lines.line()) {
            Ok(head) => head,
            Err(LineFault::Bad) => return Err(ScriptFault::BadLine(self.lines.count())),
            Err(LineFault::NoMemory) => return Err(ScriptFault::NoMemory),
        };
        let request = match head {
            Head::Cat(name) => Request::PutCat(name, self.text(reader)?),
            Head::Test => Request::PutTest(self.text(reader)?),
            Head::Whole(request) => request,
        };
        Ok(Instruction::Call(seat, request))
    }

    /// The text that follows: its lines up to a line `.` alone.
    fn text<R: Source>(&mut self, reader: &mut R) -> Result<Text, ScriptFault>
        ensures text { IfOk result (IsText (ahead self.old.lines.block (R.left reader.old)) (ahead self.new.lines.block (R.left reader.new))) }
        ensures lines { OnOk result (AreLines (ahead self.old.lines.block (R.left reader.old)) self.old.lines.count (ahead self.new.lines.block (R.left reader.new)) self.new.lines.count) }
        ensures line { (n : ℕ) → result ≡ Err (faults.BadLine n) → IsCutOff (ahead self.old.lines.block (R.left reader.old)) self.old.lines.count n }
        ensures lost { Loses (ahead self.old.lines.block (R.left reader.old)) (ahead self.new.lines.block (R.left reader.new)) }
        ensures counted { self.old.lines.count ≤ self.new.lines.count }
        ensures read { result ≡ Err faults.Read → (R.has_failed reader.new ≡ true)
            ⊎ IsTooLong (ahead self.old.lines.block (R.left reader.old)) self.old.lines.count }
    {
        let mut bytes = Vec::new(self.alloc);
        while self.lines.next(reader)? {
            if is_last(self.lines.line()) {
                return Ok(Text::new(self.alloc, bytes)?);
            }
            add_front(&mut bytes, self.lines.line())?;
            add_front(&mut bytes, b"\n")?;
        }
        Err(ScriptFault::BadLine(self.lines.count()))
    }
}

/// Whether a line outside texts is empty or a remark.
fn is_skipped(line: &[u8]) -> bool
    ensures { (result ≡ true) ↔ IsSkipped line.now }
{
    line.is_empty() || line.first() == Some(&b'#')
}

/// Whether a line is `work`.
fn is_work(line: &[u8]) -> bool
    ensures { (result ≡ true) ↔ IsWork line.now }
{
    line == b"work".as_slice()
}

/// Whether a line ends a text.
fn is_last(line: &[u8]) -> bool
    ensures { (result ≡ true) ↔ (line.now ≡ codes ".") }
{
    line == b".".as_slice()
}

/// Adds as many of the bytes as a text keeps.
fn add_front(text: &mut Vec<u8>, bytes: &[u8]) -> Result<(), AllocError>
    ensures { OnOk result (text.new.items ≡ text.old.items ++ take (65537 - length text.old.items) bytes.now) }
{
    let room = MOST_BYTES.saturating_sub(text.len());
    text.extend_from_slice(&bytes[..bytes.len().min(room)])
}
