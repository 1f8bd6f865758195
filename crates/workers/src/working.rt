//! What one worker does.

ghost use Rattle.std.specs.Prelude.{◌≡◌, ◌≤◌, Some, IsSome, IfOk, OnErr};
ghost use Rattle.slices.specs.Parts.{PieceValue};
ghost use Rattle.workers.specs.Deeds.{evaluation};
ghost use Rattle.workers.specs.Replies.{last_piece};
ghost use Rattle.workers.specs.Trace.{Stage, Excuses, WorkedUnder};
ghost use Rattle.workers.specs.Turns.{IsTurn, Settles};

use crate::calls::{Calls, Claimed, held};
use sessions::{Counts, Pass};
use slices::{KeptSpace, Piece, PieceResult};
use std::alloc::{AllocError, Global};
use std::sync::Wait;
use std::sync::ledger::Ledger;

/// When a worker ends: where nothing is free, or once the book is closed.
#[derive(Clone, Copy)]
pub enum Form {
    UntilIdle,
    UntilClosed,
}

/// Is notified when an evaluation begins and ends. A worker holds no lock then.
pub trait Gate {
    fn enter<R: Wait>(&self, rt: &R, pass: usize, piece: &Piece);

    fn leave<R: Wait>(&self, rt: &R, pass: usize, piece: &Piece);
}

// What a turn came to: nothing was free, a piece was returned, or the worker ends.
#[derive(Clone, Copy)]
pub enum Turn {
    Waited,
    Returned,
    Ended(Counts),
}

fn counts(evaluated: u64, given_back: u64, refused: u64) -> Counts
    ensures { result ≡ record { evaluated = evaluated; given_back = given_back; refused = refused } }
{
    Counts {
        evaluated,
        given_back,
        refused,
    }
}

/// One worker: turns, until one ends it. Each turn adds a receipt, of which a pass holds a `usize`.
pub fn work<L: Ledger, C: Calls<L>, G: Gate, R: Wait>(
    rt: &R,
    alloc: Global,
    form: Form,
    calls: &C,
    gate: &G,
    place: usize,
    pass: &mut Pass<L>,
)
    requires { pass.old.parts ≡ 1 }
    ensures { WorkedUnder (C.refuses calls.now) form pass.old pass.new }
{
    let mut space = KeptSpace::new(alloc);
    let mut evaluated = 0;
    loop {
        // Each return has its receipt.
        prove!(evaluated <= pass.receipts().len() as u64);
        match one_turn(rt, &mut space, form, calls, gate, place, pass) {
            Turn::Waited => {}
            Turn::Returned => evaluated += 1,
            Turn::Ended(last) => {
                pass.set_counts(counts(evaluated + last.evaluated, last.given_back, last.refused));
                return;
            }
        }
    }
}

// A claim, and what follows it.
fn one_turn<L: Ledger, C: Calls<L>, G: Gate, R: Wait>(
    rt: &R,
    space: &mut KeptSpace,
    form: Form,
    calls: &C,
    gate: &G,
    place: usize,
    pass: &mut Pass<L>,
) -> Turn
    requires { pass.old.parts ≡ 1 }
    ensures { IsTurn (C.refuses calls.now) form Stage.Free pass.old pass.new result }
{
    match calls.claim(rt, pass) {
        Ok(Claimed::Held) => settle(rt, space, calls, gate, place, pass),
        Ok(Claimed::Idle) => match form {
            Form::UntilIdle => Turn::Ended(counts(0, 0, 0)),
            Form::UntilClosed => {
                calls.wait_work(rt);
                Turn::Waited
            }
        },
        Ok(Claimed::Over) => Turn::Ended(counts(0, 0, 0)),
        Err(_) => Turn::Ended(counts(0, 0, 1)),
    }
}

// Evaluates the piece that the pass was given, and returns what was found or gives the claim back.
fn settle<L: Ledger, C: Calls<L>, G: Gate, R: Wait>(
    rt: &R,
    space: &mut KeptSpace,
    calls: &C,
    gate: &G,
    place: usize,
    pass: &mut Pass<L>,
) -> Turn
    requires shares { pass.old.parts ≡ 1 }
    requires held { IsSome (last_piece pass.old.receipts) }
    ensures { Settles (C.refuses calls.now) pass.old pass.new result }
{
    let (number, found) = evaluated(rt, space, calls, gate, place, pass);
    match found {
        Ok(found) => match calls.hand_in(rt, pass, found) {
            Ok(true) => Turn::Returned,
            Ok(false) => Turn::Ended(counts(1, 0, 0)),
            Err(_) => give_up(rt, calls, pass, number, 1),
        },
        Err(AllocError) => give_up(rt, calls, pass, number, 0),
    }
}

// The number of the claim, and what was found.
fn evaluated<L: Ledger, C: Calls<L>, G: Gate, R: Wait>(
    rt: &R,
    space: &mut KeptSpace,
    calls: &C,
    gate: &G,
    place: usize,
    pass: &Pass<L>,
) -> (u32, Result<PieceResult, AllocError>)
    requires { IsSome (last_piece pass.now.receipts) }
    ensures { (piece : PieceValue) × (last_piece pass.now.receipts ≡ Some piece) × (result.0 ≡ piece.claim) × IfOk result.1 (λ f. f.piece ≡ piece) × OnErr result.1 (C.refuses calls.now (evaluation piece)) }
{
    match held(pass) {
        Some(piece) => {
            gate.enter(rt, place, piece);
            let found = calls.evaluate(space, piece);
            gate.leave(rt, place, piece);
            (piece.claim(), found)
        }
        None => unreachable!(),
    }
}

// Gives the claim back, once, after so many evaluations whose return was refused.
fn give_up<L: Ledger, C: Calls<L>, R: Wait>(
    rt: &R,
    calls: &C,
    pass: &mut Pass<L>,
    number: u32,
    refused: u64,
) -> Turn
    requires shares { pass.old.parts ≡ 1 }
    requires few { refused ≤ 1 }
    requires held { (piece : PieceValue) × (last_piece pass.old.receipts ≡ Some piece) × (number ≡ piece.claim) × Excuses (C.refuses calls.now) refused piece }
    ensures { Settles (C.refuses calls.now) pass.old pass.new result }
{
    match calls.give_back(rt, pass, number) {
        Ok(true) => Turn::Ended(counts(refused, 1, refused)),
        Ok(false) => Turn::Ended(counts(refused, 0, refused)),
        Err(_) => Turn::Ended(counts(refused, 0, refused + 1)),
    }
}
