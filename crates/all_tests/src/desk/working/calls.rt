//! What passes of sessions and workers tell.

ghost use Rattle.std.specs.Prelude.{◌≡◌, ◌≤◌, IfSome, All, length};

use crate::desk::calls::last_reply;
use book::{Reply, Said};
use sessions::Pass;
use std::alloc::AllocError;
use std::sync::ledger::Ledger;

/// The job that the last call asked for.
pub fn job_of<L: Ledger>(pass: &Pass<L>) -> Option<u32> {
    match last_reply(pass) {
        Some(Reply::Job(id)) => Some(*id),
        _ => None,
    }
}

/// The claim under which a reply gives a piece.
fn claim_of(reply: &Reply) -> Option<u32> {
    match reply {
        Reply::Piece(piece) => Some(piece.claim()),
        _ => None,
    }
}

/// The claim that is held after one call more. `Err` where a worker makes no such call.
fn held_after(held: Option<u32>, said: &Said, reply: &Reply) -> Result<Option<u32>, ()> {
    match (held, said) {
        (None, Said::Claim) => Ok(claim_of(reply)),
        (Some(claim), Said::Return(found)) => {
            if found.claim == claim {
                Ok(None)
            } else {
                Err(())
            }
        }
        (Some(claim), Said::GiveBack(number)) => {
            if *number == claim { Ok(None) } else { Err(()) }
        }
        _ => Err(()),
    }
}

/// Each piece is returned or given back before the next claim. The last may be in hand.
fn alternates<L: Ledger>(pass: &Pass<L>) -> bool {
    let mut held = None;
    for receipt in pass.receipts() {
        let entry = receipt.entry();
        match held_after(held, entry.said(), entry.reply()) {
            Ok(claim) => held = claim,
            Err(()) => return false,
        }
    }
    true
}

/// Whether each of the passes alternates so.
pub fn all_alternate<L: Ledger>(passes: &[Pass<L>]) -> bool {
    for pass in passes {
        if !alternates(pass) {
            return false;
        }
    }
    true
}

/// The claim of the last piece that the pass was given, or 0.
pub fn last_claim<L: Ledger>(pass: &Pass<L>) -> u32 {
    let mut last = 0;
    for receipt in pass.receipts() {
        if let Some(claim) = claim_of(receipt.entry().reply()) {
            last = claim;
        }
    }
    last
}

/// Whether a call of the pass was replied a verdict.
pub fn had_verdict<L: Ledger>(pass: &Pass<L>) -> bool {
    for receipt in pass.receipts() {
        if matches!(receipt.entry().reply(), Reply::Verdict(_)) {
            return true;
        }
    }
    false
}

/// The last pass, apart from the others.
pub fn take_last<L: Ledger>(passes: &mut Vec<Pass<L>>) -> Option<Pass<L>>
    requires { All (λ p. p.parts ≡ 1) passes.old.items }
    ensures rest { All (λ p. p.parts ≡ 1) passes.new.items }
    ensures fewer { length passes.new.items ≤ length passes.old.items }
    ensures last { IfSome result (λ p. p.parts ≡ 1) }
{
    passes.pop()
}

pub fn put_back<L: Ledger>(passes: &mut Vec<Pass<L>>, pass: Pass<L>) -> Result<(), AllocError>
    requires all { All (λ p. p.parts ≡ 1) passes.old.items }
    requires one { pass.parts ≡ 1 }
    ensures { All (λ p. p.parts ≡ 1) passes.new.items }
{
    passes.push(pass)?;
    Ok(())
}
