//! The sessions and the workers of a script, at one desk.

ghost use Rattle.std.specs.Prelude.{◌≡◌, ◌<◌, ◌≤◌, ◌-◌, [], ℕ, List, length, take, Some, Ok, slice_get, IfOk, IfErr, IfNone, IfSome, IsErr, OnErr, OnSome, MatchOption};
ghost use Rattle.journal.specs.Lines.{Line, seen};
ghost use Rattle.sessions.specs.Finish.{IsFault, IsLegal, IsShared};
ghost use Rattle.scripts.specs.Spelled.{IsSeated};
ghost use Rattle.scripts.specs.Answers.{Answer, Answers, Asks, IsGiven, IsRight};
ghost use Rattle.scripts.specs.Passes.{Have, IsAnswered, IsCall, IsTable, NoneGives, Shows, SomeGives, session_receipts};
ghost use Rattle.scripts.specs.Serving.{GivesNone, GivesPiece, answer_text};
ghost use Rattle.report.specs.Writing.{Writes};

use crate::instruction::{Instruction, Request};
use crate::outcome::{Outcome, Sums};
use crate::print::{give_reply, write_not_taken, write_worked};
use crate::work::{NoGate, sums};
use book::{Command, Entry, Limits, Refused, Reply};
use sessions::{Desk, FinishCause, Pass, Receipt, finish, open};
use slices::{KeptSpace, Piece};
use std::alloc::{AllocError, Global};
use std::sync::Wait;
use std::sync::ledger::{Blank, Ledger};
use std::thread::Threads;
use wb_text::{Failed, Sink};
use workers::work_until_idle;

/// How many sessions a script has. They sit at the first seats, and the workers behind them.
pub const SESSIONS: u8 = 8;

/// A desk and the passes of all its seats. A pass keeps each piece that was claimed by it to the end, so that a result can be
/// returned twice.
#[derive(Drop)]
pub struct Seats<L: Ledger> {
    alloc: Global,
    desk: Desk<L>,
    passes: Vec<Pass<L>>,
    // What a session's evaluation leaves for the next.
    space: KeptSpace,
}

/// A result is to be returned of a piece that no claim gave.
#[derive(Clone, Copy, Debug, Drop, PartialEq, Eq)]
pub struct NoPiece;

impl<L: Ledger> Seats<L> {
    /// A desk of n seats with an empty book.
    pub fn open(alloc: Global, blank: Blank, limits: Limits, n: u8) -> Result<Self, AllocError>
        requires name { blank.name ≡ L.name }
        requires parts { (blank.parts ≡ L.parts) × (blank.parts ≡ n) }
        requires seats { (8 < n) × (n ≤ 64) }
        ensures table { IfOk result (λ s. IsTable s.desk s.passes.items) }
        ensures desk { IfOk result (λ s. s.desk ≡ n) }
        ensures fresh { IfOk result (λ s. Have (λ _. []) 0 s.passes.items) }
    {
        let (desk, passes) = open::<L>(alloc, blank, limits, n)?;
        Ok(Seats {
            alloc,
            desk,
            passes,
            space: KeptSpace::new(alloc),
        })
    }

    /// Makes the call that the session at a seat asks for.
    fn ask<R: Wait>(&mut self, rt: &R, seat: u8, request: Request) -> Result<Outcome, NoPiece>
        requires table { IsTable self.old.desk self.old.passes.items }
        requires seat { seat < 8 }
        ensures table { IsTable self.new.desk self.new.passes.items }
        ensures desk { self.new.desk ≡ self.old.desk }
        ensures call { IfOk result (λ outcome. IsAnswered self.old.passes.items self.new.passes.items outcome (IsCall seat (Asks (session_receipts self.old.passes.items) request))) }
        ensures same { OnErr result (self.new.passes.items ≡ self.old.passes.items) }
        ensures none { OnErr result ((claim : ℕ) × (request ≡ Request.Return claim) × GivesNone claim (session_receipts self.old.passes.items)) }
    {
        match command(request) {
            Ok(command) => Ok(self.apply(rt, seat, command)),
            Err(claim) => self.return_piece(rt, seat, claim),
        }
    }

    /// Evaluates the piece of a claim and returns the result.
    fn return_piece<R: Wait>(&mut self, rt: &R, seat: u8, claim: u32) -> Result<Outcome, NoPiece>
        requires table { IsTable self.old.desk self.old.passes.items }
        requires seat { seat < 8 }
        ensures table { IsTable self.new.desk self.new.passes.items }
        ensures desk { self.new.desk ≡ self.old.desk }
        ensures call { IfOk result (λ outcome. IsAnswered self.old.passes.items self.new.passes.items outcome (IsCall seat (Asks (session_receipts self.old.passes.items) (Request.Return claim)))) }
        ensures same { OnErr result (self.new.passes.items ≡ self.old.passes.items) }
        ensures none { OnErr result (GivesNone claim (session_receipts self.old.passes.items)) }
    {
        match piece_in(&self.passes[..SESSIONS as usize], claim) {
            Some(piece) => match self.space.evaluate(piece) {
                Ok(part) => Ok(self.apply(rt, seat, Command::Return(part))),
                Err(AllocError) => Ok(Outcome::NotTaken(Refused::NoMemory)),
            },
            None => Err(NoPiece),
        }
    }

    /// Makes a call of the session at a seat.
    fn apply<R: Wait>(&mut self, rt: &R, seat: u8, command: Command) -> Outcome
        requires table { IsTable self.old.desk self.old.passes.items }
        requires seat { seat < 8 }
        ensures table { IsTable self.new.desk self.new.passes.items }
        ensures desk { self.new.desk ≡ self.old.desk }
        ensures call { IsAnswered self.old.passes.items self.new.passes.items result (IsCall seat (λ said. said ≡ seen command)) }
    {
        let answer = self.desk.call(rt, &mut self.passes[seat as usize], command);
        match refusal(answer) {
            None => {
                prove_eq!(last_entry(&self.passes[seat as usize]).seat(), seat);
                Outcome::Made(seat)
            }
            Some(why) => Outcome::NotTaken(why),
        }
    }

    /// Gives the writer the text of what became of an instruction.
    pub fn give_answer<W: Sink>(&self, outcome: Outcome, writer: &mut W) -> Result<(), Failed>
        requires { (answer : Answer) × Shows self.now.passes.items outcome answer }
        ensures { (answer : Answer) → Shows self.now.passes.items outcome answer → Writes W.held W.has_failed writer.old writer.new result (answer_text answer) }
    {
        match outcome {
            Outcome::Made(seat) => {
                let entry = last_entry(&self.passes[seat as usize]);
                give_reply(self.alloc, entry.reply(), writer)
            }
            Outcome::NotTaken(why) => write_not_taken(why, writer),
            Outcome::Worked(sums) => write_worked(sums, writer),
        }
    }

    /// Ends the desk, and answers how many entries its journal has.
    pub fn close(self) -> Result<usize, FinishCause>
        requires { IsTable self.desk self.passes.items }
        ensures done { IfOk result (λ entries. (journal : List Line) × IsLegal journal × (entries ≡ length journal) × IsShared journal self.passes.items) }
        ensures fault { IfErr result (λ cause. (journal : List Line) × IsLegal journal × IsFault self.desk self.passes.items journal cause) }
    {
        let Seats {
            alloc: _,
            desk,
            passes,
            space: _,
        } = self;
        match finish(desk, passes) {
            Ok(closed) => Ok(closed.journal.len()),
            Err(fault) => Err(fault.cause),
        }
    }
}

impl<L: Ledger + Send + Sync> Seats<L> {
    /// Carries out an instruction.
    pub fn call<R: Threads + Wait + Sync>(
        &mut self,
        rt: &R,
        instruction: Instruction,
    ) -> Result<Outcome, NoPiece>
        requires table { IsTable self.old.desk self.old.passes.items }
        requires seated { IsSeated instruction }
        ensures table { IsTable self.new.desk self.new.passes.items }
        ensures desk { self.new.desk ≡ self.old.desk }
        ensures answered { IfOk result (λ outcome. IsAnswered self.old.passes.items self.new.passes.items outcome (Answers (self.old.desk - 8) (session_receipts self.old.passes.items) instruction)) }
        ensures same { OnErr result (self.new.passes.items ≡ self.old.passes.items) }
        ensures none { OnErr result ((seat : ℕ) × (claim : ℕ) × (instruction ≡ Instruction.Call seat (Request.Return claim)) × GivesNone claim (session_receipts self.old.passes.items)) }
    {
        match instruction {
            Instruction::Call(seat, request) => self.ask(rt, seat, request),
            Instruction::Work => Ok(Outcome::Worked(self.work(rt))),
        }
    }

    /// Lets the workers work until nothing is free.
    fn work<R: Threads + Wait + Sync>(&mut self, rt: &R) -> Sums
        requires { IsTable self.old.desk self.old.passes.items }
        ensures table { IsTable self.new.desk self.new.passes.items }
        ensures desk { self.new.desk ≡ self.old.desk }
        ensures worked { IsAnswered self.old.passes.items self.new.passes.items (Outcome.Worked result) (Answers (self.old.desk - 8) (session_receipts self.old.passes.items) Instruction.Work) }
    {
        work_behind(rt, self.alloc, &self.desk, &mut self.passes)
    }
}

/// Lets the workers work, whose passes stand behind those of the sessions.
fn work_behind<L: Ledger + Send + Sync, R: Threads + Wait + Sync>(
    rt: &R,
    alloc: Global,
    desk: &Desk<L>,
    passes: &mut [Pass<L>],
) -> Sums
    requires { IsTable desk.now passes.old }
    ensures table { IsTable desk.now passes.new }
    ensures worked { IsAnswered passes.old passes.new (Outcome.Worked result) (Answers (desk.now - 8) (session_receipts passes.old) Instruction.Work) }
{
    let (_, workers) = passes.split_at_mut(SESSIONS as usize);
    let report = work_until_idle(rt, alloc, desk, workers, &NoGate);
    sums(report.counts.as_slice())
}

/// Why a call isn't taken, if it isn't. The command is let go.
fn refusal(answer: Result<(), (Command, Refused)>) -> Option<Refused>
    ensures made { IfNone result (answer ≡ Ok tt) }
    ensures refused { OnSome result (IsErr answer) }
    ensures why { IfSome result (λ why. IfErr answer (λ e. e.1 ≡ why)) }
{
    match answer {
        Ok(()) => None,
        Err((_, why)) => Some(why),
    }
}

/// The piece that one of the passes was given under a claim.
fn piece_in<L: Ledger>(passes: &[Pass<L>], claim: u32) -> Option<&Piece>
    ensures { MatchOption result (NoneGives claim passes.now) (λ p. SomeGives claim passes.now p.now) }
{
    for pass in passes {
        if let Some(piece) = piece_among(pass.receipts(), claim) {
            return Some(piece);
        }
    }
    None
}

/// The entry of the last call of a pass. A verdict that it replies is right, as each verdict is.
fn last_entry<L: Ledger>(pass: &Pass<L>) -> &Entry
    requires { 0 < length pass.now.receipts }
    ensures last { slice_get pass.now.receipts (length pass.now.receipts - 1) ≡ Some result.now }
    ensures right { IsRight result.now.reply }
{
    match pass.receipts().last() {
        Some(receipt) => {
            let entry = receipt.entry();
            if let Reply::Verdict(verdict) = entry.reply() {
                let verdict = verdict.verdict();
                prove_eq!(verdict.finding().positive(), verdict.positive());
            }
            entry
        }
        None => unreachable!(),
    }
}

/// The piece that one of the receipts gives under a claim. It is looked for from the last back, since most pieces are returned soon.
fn piece_among(receipts: &[Receipt], claim: u32) -> Option<&Piece>
    ensures { MatchOption result (GivesNone claim receipts.now) (λ p. IsGiven claim p.now receipts.now) }
{
    let mut rest = receipts;
    while let Some((last, before)) = rest.split_last() {
        if let Some(piece) = piece_of(last.entry(), claim) {
            return Some(piece);
        }
        rest = before;
    }
    None
}

/// The piece that an entry gives, if it is this claim's.
fn piece_of(entry: &Entry, claim: u32) -> Option<&Piece>
    ensures { MatchOption result (¬ GivesPiece claim entry.now) (λ p. (p.now.claim ≡ claim) × (entry.now.reply ≡ Reply.Piece p.now)) }
{
    match entry.reply() {
        Reply::Piece(piece) if piece.claim() == claim => Some(piece),
        _ => None,
    }
}

/// The command of a request; of one to return a piece, its claim.
fn command(request: Request) -> Result<Command, u32>
    ensures asks { IfOk result (λ c. (entries : List Line) → Asks entries request (seen c)) }
    ensures returns { IfErr result (λ claim. request ≡ Request.Return claim) }
{
    match request {
        Request::PutCat(name, text) => Ok(Command::PutCat(name, text)),
        Request::PutTest(text) => Ok(Command::PutTest(text)),
        Request::DropCat(name) => Ok(Command::DropCat(name)),
        Request::DropTest(name) => Ok(Command::DropTest(name)),
        Request::Ask(test, cat) => Ok(Command::Ask(test, cat)),
        Request::Poll(job) => Ok(Command::Poll(job)),
        Request::Forget(job) => Ok(Command::Forget(job)),
        Request::Release(job) => Ok(Command::Release(job)),
        Request::List => Ok(Command::List),
        Request::Claim => Ok(Command::Claim),
        Request::Return(claim) => Err(claim),
        Request::GiveBack(claim) => Ok(Command::GiveBack(claim)),
        Request::Close => Ok(Command::Close),
    }
}
