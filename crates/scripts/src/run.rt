//! From a script to the replies of a book.

ghost use Rattle.std.specs.Prelude.{◌≡◌, ◌+◌, ◌-◌, ◌≤◌, ◌⊎◌, [], ℕ, List, true, Ok, Err, IfErr, IsErr, OnErr, OnOk};
ghost use Rattle.std.specs.Io.KnownBytes.{IsAtEnd};
ghost use Rattle.scripts.specs.Lines.{ahead, IsTooLong, Loses};
ghost use Rattle.sessions.specs.declared.ending.FinishCause.{FinishCause as FinishCauseOf};
ghost use Rattle.scripts.specs.Answers.{worker_count};
ghost use Rattle.scripts.specs.Passes.{EndsWith, Follows, Have, IsTable, ending};
ghost use Rattle.scripts.specs.Serving.{AreAnswered, Call, Closes, IsRead, IsServed, Tells, calls_text, entries_at};

use crate::fault::ServeFault;
use crate::options::Options;
use crate::print::{write_bad_line, write_cause, write_finish};
use crate::reading_fault::ScriptFault;
use crate::script::Script;
use crate::seats::{NoPiece, SESSIONS, Seats};
use std::alloc::Global;
use std::marker::Brand;
use std::sync::Wait;
use std::sync::ledger::{Blank, Ledger};
use std::thread::Threads;
use wb_text::{Failed, Sink, Source};

/// Reads a script line by line, carries out its instructions at a desk, and writes what becomes of each line before it reads on.
pub fn serve<R: Source, W: Sink, T: Threads + Wait + Sync>(
    rt: &T,
    alloc: Global,
    reader: &mut R,
    writer: &mut W,
    options: &Options,
) -> Result<(), ServeFault>
    requires { options.now.workers ≤ 8 }
    // The script's instructions are answered, in order. What is written is these answers, and then the length of the legal
    // journal, or that the line behind them is bad: by its number one that is, or that asks to return a piece which no claim
    // of a session gave before. In the journal the entries of each seat are those that answered it.
    ensures served { IsServed (worker_count options.now.workers) (R.left reader.old) (W.held writer.old) (W.held writer.new) result }
    // The whole script is read only at Ok. However it ends, no bytes of the reader's are gone but the first.
    ensures end { OnOk result (IsAtEnd (R.left reader.new)) }
    ensures left { Loses (R.left reader.old) (R.left reader.new) }
    // Reading fails where the reader does, or where a script has too many lines.
    ensures read { result ≡ Err ServeFault.Read → (R.has_failed reader.new ≡ true) ⊎ IsTooLong (R.left reader.old) 0 }
    ensures write { result ≡ Err ServeFault.Write → W.has_failed writer.new ≡ true }
{
    let blank = Blank::new(seat_count(options) as u64);
    serve_at::<Brand, R, W, T>(rt, alloc, blank, reader, writer, options)
}

/// How many seats the desk of a script has.
fn seat_count(options: &Options) -> u8
    requires { options.now.workers ≤ 8 }
    ensures { result ≡ 8 + worker_count options.now.workers }
{
    SESSIONS + options.workers.max(1)
}

/// The same at a desk whose calls are counted by L.
fn serve_at<L: Ledger + Send + Sync, R: Source, W: Sink, T: Threads + Wait + Sync>(
    rt: &T,
    alloc: Global,
    blank: Blank,
    reader: &mut R,
    writer: &mut W,
    options: &Options,
) -> Result<(), ServeFault>
    requires workers { options.now.workers ≤ 8 }
    requires blank { (blank.name ≡ L.name) × (blank.parts ≡ L.parts) × (blank.parts ≡ 8 + worker_count options.now.workers) }
    ensures served { IsServed (worker_count options.now.workers) (R.left reader.old) (W.held writer.old) (W.held writer.new) result }
    ensures end { OnOk result (IsAtEnd (R.left reader.new)) }
    ensures left { Loses (R.left reader.old) (R.left reader.new) }
    ensures read { result ≡ Err ServeFault.Read → (R.has_failed reader.new ≡ true) ⊎ IsTooLong (R.left reader.old) 0 }
    ensures write { result ≡ Err ServeFault.Write → W.has_failed writer.new ≡ true }
{
    let mut script = Script::new(alloc)?;
    let mut seats = Seats::<L>::open(alloc, blank, options.limits, seat_count(options))?;
    let outcome = answer_all(rt, &mut script, reader, &mut seats, writer);
    end(outcome, seats, writer)
}

/// Writes what stands behind the answers.
fn end<L: Ledger, W: Sink>(
    outcome: Result<Result<(), ScriptFault>, Failed>,
    seats: Seats<L>,
    writer: &mut W,
) -> Result<(), ServeFault>
    requires table { IsTable seats.desk seats.passes.items }
    requires write { OnErr outcome (W.has_failed writer.now ≡ true) }
    ensures reported { (calls : List Call) → AreAnswered (seats.desk - 8) calls → Have (λ seat. entries_at seat calls) 0 seats.passes.items
        → EndsWith (seats.desk - 8) calls (W.held writer.old) (W.held writer.new) (ending outcome) result }
    ensures follows { Follows (ending outcome) result }
    ensures write { result ≡ Err ServeFault.Write → W.has_failed writer.new ≡ true }
{
    match outcome {
        Ok(Ok(())) => conclude(seats, writer),
        Ok(Err(fault)) => {
            drop(seats);
            tell(fault, writer)
        }
        Err(Failed) => {
            drop(seats);
            Err(ServeFault::Write)
        }
    }
}

/// Writes what becomes of each instruction of a script at a desk of which no call was made. Where all is written, it answers how the
/// script ended.
fn answer_all<L: Ledger + Send + Sync, R: Source, W: Sink, T: Threads + Wait + Sync>(
    rt: &T,
    script: &mut Script,
    reader: &mut R,
    seats: &mut Seats<L>,
    writer: &mut W,
) -> Result<Result<(), ScriptFault>, Failed>
    requires table { IsTable seats.old.desk seats.old.passes.items }
    requires fresh { Have (λ _. []) 0 seats.old.passes.items }
    ensures reported { (calls : List Call)
        × AreAnswered (seats.old.desk - 8) calls
        × Have (λ seat. entries_at seat calls) 0 seats.new.passes.items
        × Tells (W.held writer.old) (W.held writer.new) (ending result) (calls_text calls)
        × IsRead (ahead script.old.lines.block (R.left reader.old)) script.old.lines.count (ending result) calls }
    ensures end { ending result ≡ Ok tt → IsAtEnd (R.left reader.new) }
    ensures left { Loses (ahead script.old.lines.block (R.left reader.old)) (ahead script.new.lines.block (R.left reader.new)) }
    ensures read { ending result ≡ Err ServeFault.Read → (R.has_failed reader.new ≡ true)
        ⊎ IsTooLong (ahead script.old.lines.block (R.left reader.old)) script.old.lines.count }
    ensures write { OnErr result (W.has_failed writer.new ≡ true) }
    ensures table { IsTable seats.new.desk seats.new.passes.items }
    ensures desk { seats.new.desk ≡ seats.old.desk }
{
    loop {
        match script.next(reader) {
            Ok(Some(instruction)) => match seats.call(rt, instruction) {
                Ok(outcome) => seats.give_answer(outcome, writer)?,
                Err(NoPiece) => return Ok(Err(ScriptFault::BadLine(script.line_count()))),
            },
            Ok(None) => return Ok(Ok(())),
            Err(fault) => return Ok(Err(fault)),
        }
    }
}

/// Ends the desk of a script that is read to its end, and writes the last line.
fn conclude<L: Ledger, W: Sink>(seats: Seats<L>, writer: &mut W) -> Result<(), ServeFault>
    requires { IsTable seats.desk seats.passes.items }
    ensures reported { (calls : List Call) → AreAnswered (seats.desk - 8) calls → Have (λ seat. entries_at seat calls) 0 seats.passes.items
        → (closing : List ℕ) × Closes (seats.desk - 8) calls result closing × Tells (W.held writer.old) (W.held writer.new) result closing }
    ensures fault { IfErr result (λ e. (e ≡ ServeFault.Write) ⊎ ((cause : FinishCauseOf) × (e ≡ ServeFault.Finish cause))) }
    ensures write { result ≡ Err ServeFault.Write → W.has_failed writer.new ≡ true }
{
    match seats.close() {
        Ok(entries) => Ok(write_finish(entries, writer)?),
        Err(cause) => {
            write_cause(cause, writer)?;
            Err(ServeFault::Finish(cause))
        }
    }
}

/// Tells why a script isn't read to its end: writes which line is bad, and else nothing.
fn tell<W: Sink>(fault: ScriptFault, writer: &mut W) -> Result<(), ServeFault>
    ensures reported { (workers : ℕ) (calls : List Call) → (closing : List ℕ) × Closes workers calls result closing × Tells (W.held writer.old) (W.held writer.new) result closing }
    ensures fault { IfErr result (λ e. (e ≡ ServeFault.Write) ⊎ (ending (Ok (Err fault)) ≡ Err e)) }
    ensures err { IsErr result }
    ensures write { result ≡ Err ServeFault.Write → W.has_failed writer.new ≡ true }
{
    match fault {
        ScriptFault::BadLine(line) => {
            write_bad_line(line, writer)?;
            Err(ServeFault::BadLine(line))
        }
        ScriptFault::Read => Err(ServeFault::Read),
        ScriptFault::NoMemory => Err(ServeFault::NoMemory),
    }
}
