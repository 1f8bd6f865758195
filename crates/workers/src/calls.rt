//! The calls that a worker makes and how it evaluates, and how both are done at a desk.

ghost use Rattle.std.specs.Prelude.{◌≡◌, ◌≢◌, ◌-◌, ◌<◌, length, slice_get, IfOk, OnOk, OnErr, MatchBool, MatchOption};
ghost use Rattle.journal.specs.declared.records.Refusal.TheVariants.{Closed};
ghost use Rattle.journal.specs.Lines.{returned, seen};
ghost use Rattle.journal.specs.declared.records.Said.{Said};
ghost use Rattle.sessions.specs.Calls.{Adds};
ghost use Rattle.workers.specs.Deeds.{call, evaluation};
ghost use Rattle.workers.specs.Replies.{Replied, claimed_of, goes_on, is_done, last_piece};

use book::{Command, Entry, Refusal, Refused, Reply};
use sessions::{Desk, Pass};
use slices::{KeptSpace, Piece, PieceResult};
use std::alloc::AllocError;
use std::sync::Wait;
use std::sync::ledger::Ledger;

/// What a claim brought.
#[derive(Clone, Copy)]
pub enum Claimed {
    /// A piece, which the pass's last receipt names.
    Held,
    /// Nothing is free.
    Idle,
    /// No claim will be given: the book is closed, or its claims are spent.
    Over,
}

/// The calls of a worker, and the evaluation between them. Each call adds one receipt to its pass, or is refused and leaves the
/// pass as it was.
pub trait Calls<L: Ledger> {
    ghost use Rattle.workers.specs.Deeds.{Deed};

    /// That this is refused. Of that a worker is told by an `Err`, and by nothing else.
    ghost refuses: { Self → Deed → Type 0 };

    fn claim<R: Wait>(&self, rt: &R, pass: &mut Pass<L>) -> Result<Claimed, Refused>
        requires { pass.old.parts ≡ 1 }
        ensures ok { IfOk result (λ r. Replied pass.old pass.new Said.Claim (λ reply. r ≡ claimed_of reply)) }
        ensures err { OnErr result (pass.new ≡ pass.old) }
        ensures refused { OnErr result (refuses self.now (call Said.Claim)) };

    /// Evaluates a piece, over what the piece before left. That is no call of the desk.
    fn evaluate(&self, space: &mut KeptSpace, piece: &Piece) -> Result<PieceResult, AllocError>
        ensures piece { IfOk result (λ f. f.piece ≡ piece.now) }
        ensures refused { OnErr result (refuses self.now (evaluation piece.now)) };

    /// Returns what was found, and answers whether the book still stands open.
    fn hand_in<R: Wait>(
        &self,
        rt: &R,
        pass: &mut Pass<L>,
        found: PieceResult,
    ) -> Result<bool, Refused>
        requires { pass.old.parts ≡ 1 }
        ensures ok { IfOk result (λ r. Replied pass.old pass.new (Said.Return (returned found)) (λ reply. r ≡ goes_on reply)) }
        ensures err { OnErr result (pass.new ≡ pass.old) }
        ensures refused { OnErr result (refuses self.now (call (Said.Return (returned found)))) };

    /// Gives a claim back, and answers whether that was done.
    fn give_back<R: Wait>(&self, rt: &R, pass: &mut Pass<L>, number: u32) -> Result<bool, Refused>
        requires { pass.old.parts ≡ 1 }
        ensures ok { IfOk result (λ r. Replied pass.old pass.new (Said.GiveBack number) (λ reply. r ≡ is_done reply)) }
        ensures err { OnErr result (pass.new ≡ pass.old) }
        ensures refused { OnErr result (refuses self.now (call (Said.GiveBack number))) };

    /// Waits until there may be work.
    fn wait_work<R: Wait>(&self, rt: &R);
}

impl<L: Ledger> Calls<L> for Desk<L> {
    ghost use Rattle.workers.specs.Trace.{anything};

    ghost refuses = { λ desk. anything };

    fn claim<R: Wait>(&self, rt: &R, pass: &mut Pass<L>) -> Result<Claimed, Refused> {
        match called(self, rt, pass, Command::Claim) {
            Ok(()) => Ok(match last_entry(pass).reply() {
                Reply::Piece(_) => Claimed::Held,
                Reply::Nothing => Claimed::Idle,
                _ => Claimed::Over,
            }),
            Err(refused) => Err(refused),
        }
    }

    fn evaluate(&self, space: &mut KeptSpace, piece: &Piece) -> Result<PieceResult, AllocError> {
        space.evaluate(piece)
    }

    fn hand_in<R: Wait>(
        &self,
        rt: &R,
        pass: &mut Pass<L>,
        found: PieceResult,
    ) -> Result<bool, Refused> {
        match called(self, rt, pass, Command::Return(found)) {
            Ok(()) => Ok(stays_open(last_entry(pass).reply())),
            Err(refused) => Err(refused),
        }
    }

    fn give_back<R: Wait>(&self, rt: &R, pass: &mut Pass<L>, number: u32) -> Result<bool, Refused> {
        match called(self, rt, pass, Command::GiveBack(number)) {
            Ok(()) => Ok(matches!(last_entry(pass).reply(), Reply::Done)),
            Err(refused) => Err(refused),
        }
    }

    fn wait_work<R: Wait>(&self, rt: &R) {
        Desk::wait_work(self, rt)
    }
}

// A call, whose command isn't wanted back.
fn called<L: Ledger, R: Wait>(
    desk: &Desk<L>,
    rt: &R,
    pass: &mut Pass<L>,
    command: Command,
) -> Result<(), Refused>
    requires { pass.old.parts ≡ 1 }
    ensures receipt { OnOk result (Adds pass.old pass.new (seen command)) }
    ensures same { OnErr result (pass.new ≡ pass.old) }
{
    match desk.call(rt, pass, command) {
        Ok(()) => Ok(()),
        Err((_, refused)) => Err(refused),
    }
}

// Whether the book isn't closed, by its reply to a return.
#[tactic(auto, using(crate::proofs::Going::goes_on_unless))]
fn stays_open(reply: &Reply) -> bool
    ensures { result ≡ goes_on reply.now }
{
    match reply {
        Reply::Refused(refusal) => !is_closed(refusal),
        _ => true,
    }
}

fn is_closed(refusal: &Refusal) -> bool
    ensures { MatchBool result (refusal.now ≡ Closed) (refusal.now ≢ Closed) }
{
    matches!(refusal, Refusal::Closed)
}

// The entry of the last call.
fn last_entry<L: Ledger>(pass: &Pass<L>) -> &Entry
    requires { 0 < length pass.now.receipts }
    ensures { slice_get pass.now.receipts (length pass.now.receipts - 1) ≡ Some result.now }
{
    match pass.receipts().last() {
        Some(receipt) => receipt.entry(),
        None => unreachable!(),
    }
}

/// The piece that the last call gave.
pub fn held<L: Ledger>(pass: &Pass<L>) -> Option<&Piece>
    ensures { MatchOption result (last_piece pass.now.receipts ≡ None) (λ p. last_piece pass.now.receipts ≡ Some p.now) }
{
    match pass.receipts().last()?.entry().reply() {
        Reply::Piece(piece) => Some(piece),
        _ => None,
    }
}
