//! Calls through a desk, as tests write them, and what is replied.

ghost use Rattle.std.specs.Prelude.{◌≡◌, All};

use crate::cases::sink;
use crate::desk::commands::{claim_of, command_of, give, head_of};
use book::{Command, Reply};
use report::write_reply;
use sessions::{Desk, Pass, finish};
use std::alloc::{AllocError, Global};
use std::sync::Wait;
use std::sync::ledger::Ledger;
use wb_text::MemSink;

/// The reply to the last call of a pass.
pub fn last_reply<L: Ledger>(pass: &Pass<L>) -> Option<&Reply> {
    match pass.receipts().last() {
        Some(receipt) => Some(receipt.entry().reply()),
        None => None,
    }
}

/// The command of a call of a script. A result is that of the piece that the pass's last receipt gives.
fn call_of<L: Ledger>(alloc: Global, pass: &Pass<L>, call: &str) -> Result<Command, AllocError> {
    let (_, head, text) = head_of(alloc, call)?;
    match claim_of(&head) {
        Some(_) => give(alloc, last_reply(pass)),
        None => command_of(alloc, head, text),
    }
}

/// Makes the call of a command, which comes back where it is refused.
fn refused<L: Ledger, R: Wait>(
    rt: &R,
    desk: &Desk<L>,
    pass: &mut Pass<L>,
    command: Command,
) -> Option<Command>
    requires { pass.old.parts ≡ 1 }
    ensures { pass.new.parts ≡ 1 }
{
    match desk.call(rt, pass, command) {
        Ok(()) => None,
        Err((command, _)) => Some(command),
    }
}

/// Makes the call of a command. One that is refused adds no receipt and hands the command back, which is then made once more.
pub fn recorded<L: Ledger, R: Wait>(
    rt: &R,
    desk: &Desk<L>,
    pass: &mut Pass<L>,
    command: Command,
) -> bool
    requires { pass.old.parts ≡ 1 }
    ensures { pass.new.parts ≡ 1 }
{
    let before = pass.receipts().len();
    match refused(rt, desk, pass, command) {
        None => true,
        Some(command) => {
            let same = pass.receipts().len() == before;
            refused(rt, desk, pass, command).is_none() && same
        }
    }
}

/// Makes a call of a script, and says whether it was recorded.
fn made<L: Ledger, R: Wait>(
    rt: &R,
    alloc: Global,
    desk: &Desk<L>,
    pass: &mut Pass<L>,
    call: &str,
) -> bool
    requires { pass.old.parts ≡ 1 }
    ensures { pass.new.parts ≡ 1 }
{
    match call_of(alloc, pass, call) {
        Ok(command) => recorded(rt, desk, pass, command),
        Err(AllocError) => false,
    }
}

/// Makes the calls of a script by one pass, whatever seats they name, and says how many were recorded.
pub fn make_all<L: Ledger, R: Wait>(
    rt: &R,
    alloc: Global,
    desk: &Desk<L>,
    pass: &mut Pass<L>,
    script: &str,
) -> usize
    requires { pass.old.parts ≡ 1 }
    ensures { pass.new.parts ≡ 1 }
{
    let mut recorded = 0usize;
    for call in script.split("> ").skip(1) {
        if made(rt, alloc, desk, pass, call) {
            recorded = recorded.saturating_add(1);
        }
    }
    recorded
}

/// Prints all replies to a pass.
fn tell<L: Ledger>(pass: &Pass<L>, writer: &mut MemSink) -> bool {
    for receipt in pass.receipts() {
        if write_reply(receipt.entry().reply(), writer).is_err() {
            return false;
        }
    }
    true
}

/// Whether all replies to a pass are printed so.
pub fn are_told<L: Ledger>(alloc: Global, pass: &Pass<L>, wanted: &str) -> bool {
    match sink(alloc, 8192) {
        Ok(mut writer) => tell(pass, &mut writer) && writer.bytes() == wanted.as_bytes(),
        Err(AllocError) => false,
    }
}

/// The places of the receipts rise.
fn rise<L: Ledger>(pass: &Pass<L>) -> bool {
    let mut next = 0;
    for receipt in pass.receipts() {
        let place = receipt.entry().place();
        if place < next {
            return false;
        }
        next = place.saturating_add(1);
    }
    true
}

/// How many receipts the passes have, where the places of each pass's rise.
fn count_rising<L: Ledger>(passes: &[Pass<L>]) -> Option<usize> {
    let mut count = 0usize;
    for pass in passes {
        if !rise(pass) {
            return None;
        }
        count = count.saturating_add(pass.receipts().len());
    }
    Some(count)
}

/// How many entries the journal has, where `finish` answers Ok, each receipt has its entry and each entry its receipt, and the places of each
/// pass's receipts rise.
pub fn entries<L: Ledger>(desk: Desk<L>, passes: Vec<Pass<L>>) -> Option<usize>
    requires { All (λ p. p.parts ≡ 1) passes.items }
{
    let receipts = count_rising(&passes);
    match finish(desk, passes) {
        Ok(closed) => {
            if receipts == Some(closed.journal.len()) {
                receipts
            } else {
                None
            }
        }
        Err(_) => None,
    }
}
