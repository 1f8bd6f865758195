//! Sessions over one desk, each with a pass.

ghost use Rattle.std.specs.Prelude.{◌≡◌, All};

use crate::desk::calls::{are_told, entries, last_reply, make_all, recorded};
use crate::desk::commands::is_told;
use crate::rows::{again, expect};
use crate::script::texts::expanded;
use book::{Command, Entry, Limits, Refused};
use sessions::{Desk, FinishCause, FinishFault, Pass, Receipt, finish, open};
use std::alloc::{AllocError, Global};
use std::marker::Brand;
use std::sync::Wait;
use std::sync::ledger::{Blank, Ledger};

pub const WIDE: Limits = Limits {
    journal: 1_000_000,
    versions: 1_000_000,
    claims: 1_000_000,
};

/// Puts a test of one thread that does nothing, and asks for it.
pub const FIRST: &str = "
> 0 test
C A
{ x; }
P0 () {}
exists (x=0)
> 0 ask A rc11.cat
";

pub const SECOND: &str = "
> 1 test
C B
{ x; }
P0 () {}
exists (x=0)
> 1 ask B rc11.cat
";

/// Returns what is found of a piece.
const THEN: &str = "
> 0 claim
> 0 return 1
";

/// Asks, and returns what is found of a piece. How many calls were recorded.
pub fn asks_and_returns<L: Ledger, R: Wait>(
    rt: &R,
    alloc: Global,
    desk: &Desk<L>,
    pass: &mut Pass<L>,
    asks: &str,
) -> usize
    requires { pass.old.parts ≡ 1 }
    ensures { pass.new.parts ≡ 1 }
{
    let asked = make_all(rt, alloc, desk, pass, asks);
    asked.saturating_add(make_all(rt, alloc, desk, pass, THEN))
}

/// Two sessions call in turn: what `finish` counts, and how many calls were recorded.
fn run_both<L: Ledger, R: Wait>(
    rt: &R,
    alloc: Global,
    blank: Blank,
) -> Result<(Option<usize>, usize), AllocError>
    requires { (blank.name ≡ L.name) × (blank.parts ≡ L.parts) × (blank.parts ≡ 2) }
{
    let (desk, mut passes) = open::<L>(alloc, blank, WIDE, 2)?;
    let first = asks_and_returns(rt, alloc, &desk, &mut passes[0], FIRST);
    let second = asks_and_returns(rt, alloc, &desk, &mut passes[1], SECOND);
    let entries = entries(desk, passes);
    Ok((entries, first.saturating_add(second)))
}

fn both<R: Wait>(rt: &R, alloc: Global) -> bool {
    run_both::<Brand, R>(rt, alloc, Blank::new(2)) == Ok((Some(8), 8))
}

fn is_entry(alloc: Global, entry: &Entry, place: u32, seat: u8, wanted: &str) -> bool {
    entry.place() == place && entry.seat() == seat && is_told(alloc, Some(entry.reply()), wanted)
}

fn is_only(receipts: &[Receipt], entry: &Entry) -> bool {
    match receipts {
        [receipt] => receipt.entry() == entry,
        _ => false,
    }
}

fn are_left<L: Ledger>(passes: &[Pass<L>], list: &Entry) -> bool {
    match passes {
        [first, last] => {
            let seated = first.seat() == 0 && last.seat() == 2;
            seated && first.receipts().is_empty() && is_only(last.receipts(), list)
        }
        _ => false,
    }
}

/// Whether seat 1 is told as missing, the journal has its put and the list of seat 2, and the other passes have what they had.
fn lacks_seat_1<L: Ledger>(alloc: Global, fault: &FinishFault<L>) -> bool {
    match fault.closed.journal.as_slice() {
        [put, list] => {
            fault.cause == FinishCause::MissingPass(1)
                && is_entry(alloc, put, 0, 1, "version a.cat 1\n")
                && is_entry(alloc, list, 1, 2, "cat a.cat 1\nend\n")
                && are_left(&fault.closed.passes, list)
        }
        _ => false,
    }
}

fn is_amiss<L: Ledger>(alloc: Global, desk: Desk<L>, passes: Vec<Pass<L>>) -> bool
    requires { All (λ p. p.parts ≡ 1) passes.items }
{
    match finish(desk, passes) {
        Ok(_) => false,
        Err(fault) => lacks_seat_1(alloc, &fault),
    }
}

/// Seat 1 puts a file and seat 2 lists. Then the pass of seat 1 is lost.
fn run_missing<L: Ledger, R: Wait>(rt: &R, alloc: Global, blank: Blank) -> Result<bool, AllocError>
    requires { (blank.name ≡ L.name) × (blank.parts ≡ L.parts) × (blank.parts ≡ 3) }
{
    let (desk, mut passes) = open::<L>(alloc, blank, WIDE, 3)?;
    let _ = make_all(rt, alloc, &desk, &mut passes[1], "> 1 cat a.cat\n");
    let _ = make_all(rt, alloc, &desk, &mut passes[2], "> 2 list\n");
    drop(passes.remove(1));
    Ok(is_amiss(alloc, desk, passes))
}

fn missing<R: Wait>(rt: &R, alloc: Global) -> bool {
    run_missing::<Brand, R>(rt, alloc, Blank::new(3)) == Ok(true)
}

/// Whether a command is refused as the journal is full, and handed back.
fn is_full<L: Ledger, R: Wait>(rt: &R, desk: &Desk<L>, pass: &mut Pass<L>) -> bool
    requires { pass.old.parts ≡ 1 }
    ensures { pass.new.parts ≡ 1 }
{
    let answer = desk.call(rt, pass, Command::List);
    matches!(&answer, Err((Command::List, Refused::JournalFull)))
}

/// Whether the first two receipts differ, and each is equal to itself.
fn differ<L: Ledger>(pass: &Pass<L>) -> bool {
    match pass.receipts() {
        [first, second, ..] => first == first && first != second,
        _ => false,
    }
}

/// Two versions of a file, and the third spent; one claim given back, and the second spent.
const SPENDING: &str = "
> 0 cat a.cat
> 0 dropcat a.cat
> 0 cat a.cat
> 0 test
%SB%> 0 ask SB rc11.cat
> 0 claim
> 0 back 1
> 0 claim
";

const SPENT: &str = "version a.cat 1
version a.cat 2
refused 81 VersionsSpent a.cat
version SB 1
job 1
piece 1 job 1 slice 0 from 0 to 16
done
refused 82 ClaimsSpent
";

/// How often a file is put, and a slice claimed, at a desk of the widest limits.
const OFTEN: u32 = 1_001;

/// Each command once, and what there is between.
const EACH: &str = "
> 0 cat a.cat
acyclic po | rf | co | fr as sc
> 0 test
%SB%> 0 list
> 0 ask SB a.cat
> 0 poll 1
> 0 claim
> 0 list
> 0 release 1
> 0 claim
> 0 back 2
> 0 claim
> 0 return 3
> 0 poll 1
> 0 forget 1
> 0 list
> 0 dropcat a.cat
> 0 droptest SB
> 0 list
> 0 close
> 0 poll 1
";

const EACH_ANSWERED: &str = "version a.cat 1
version SB 1
test SB 1
cat a.cat 1
end
job 1
pending 0 1
piece 1 job 1 slice 0 from 0 to 16
test SB 1
cat a.cat 1
job 1 SB a.cat 0 1
end
freed 1
piece 2 job 1 slice 0 from 0 to 16
done
piece 3 job 1 slice 0 from 0 to 16
taken 1 1
verdict SB 1 a.cat 1
%SB never%done
test SB 1
cat a.cat 1
end
version a.cat 2
version SB 2
end
done
refused 71 Closed
";

/// What a session does alone at a desk.
#[derive(Clone, Copy)]
enum Session {
    /// Fills a journal of three entries, and calls once more.
    Full,
    /// These calls, so many, which are to be answered so.
    Calls(&'static str, usize, &'static str),
    /// Puts a file and claims a slice so often.
    Often,
}

/// Whether three calls were recorded, and the fourth handed back.
fn fills<L: Ledger, R: Wait>(rt: &R, alloc: Global, desk: &Desk<L>, pass: &mut Pass<L>) -> bool
    requires { pass.old.parts ≡ 1 }
    ensures { pass.new.parts ≡ 1 }
{
    let recorded = make_all(rt, alloc, desk, pass, "> 0 list\n> 0 list\n> 0 list\n");
    recorded == 3 && is_full(rt, desk, pass) && differ(pass)
}

/// Whether so many calls were recorded, and answered so.
fn is_answered<L: Ledger, R: Wait>(
    rt: &R,
    alloc: Global,
    desk: &Desk<L>,
    pass: &mut Pass<L>,
    calls: &str,
    number: usize,
    answers: &str,
) -> bool
    requires { pass.old.parts ≡ 1 }
    ensures { pass.new.parts ≡ 1 }
{
    match (&expanded(alloc, calls), &expanded(alloc, answers)) {
        (Ok(calls), Ok(answers)) => {
            make_all(rt, alloc, desk, pass, calls.as_str()) == number
                && are_told(alloc, pass, answers.as_str())
        }
        _ => false,
    }
}

/// Whether version 1,001 of a file is reached.
fn puts_often<L: Ledger, R: Wait>(rt: &R, alloc: Global, desk: &Desk<L>, pass: &mut Pass<L>) -> bool
    requires { pass.old.parts ≡ 1 }
    ensures { pass.new.parts ≡ 1 }
{
    for _ in 0..OFTEN {
        let _ = make_all(rt, alloc, desk, pass, "> 0 cat a.cat\n");
    }
    is_told(alloc, last_reply(pass), "version a.cat 1001\n")
}

/// Whether claim 1,001 is reached.
fn claims_often<L: Ledger, R: Wait>(
    rt: &R,
    alloc: Global,
    desk: &Desk<L>,
    pass: &mut Pass<L>,
) -> bool
    requires { pass.old.parts ≡ 1 }
    ensures { pass.new.parts ≡ 1 }
{
    let _ = make_all(rt, alloc, desk, pass, FIRST);
    for claim in 1..OFTEN {
        let _ = recorded(rt, desk, pass, Command::Claim);
        let _ = recorded(rt, desk, pass, Command::GiveBack(claim));
    }
    let _ = recorded(rt, desk, pass, Command::Claim);
    is_told(
        alloc,
        last_reply(pass),
        "piece 1001 job 1 slice 0 from 0 to 1\n",
    )
}

/// Whether all goes as it should.
fn follow<L: Ledger, R: Wait>(
    rt: &R,
    alloc: Global,
    desk: &Desk<L>,
    pass: &mut Pass<L>,
    session: Session,
) -> bool
    requires { pass.old.parts ≡ 1 }
    ensures { pass.new.parts ≡ 1 }
{
    match session {
        Session::Full => fills(rt, alloc, desk, pass),
        Session::Calls(calls, number, answers) => {
            is_answered(rt, alloc, desk, pass, calls, number, answers)
        }
        Session::Often => {
            let put = puts_often(rt, alloc, desk, pass);
            let claimed = claims_often(rt, alloc, desk, pass);
            put && claimed
        }
    }
}

/// A session alone: what `finish` counts, and whether all went as it should.
fn run_alone<L: Ledger, R: Wait>(
    rt: &R,
    alloc: Global,
    blank: Blank,
    limits: Limits,
    session: Session,
) -> Result<(Option<usize>, bool), AllocError>
    requires { (blank.name ≡ L.name) × (blank.parts ≡ L.parts) × (blank.parts ≡ 1) }
{
    let (desk, mut passes) = open::<L>(alloc, blank, limits, 1)?;
    let told = follow(rt, alloc, &desk, &mut passes[0], session);
    let entries = entries(desk, passes);
    Ok((entries, told))
}

fn alone<R: Wait>(
    rt: &R,
    alloc: Global,
    limits: Limits,
    session: Session,
) -> Result<(Option<usize>, bool), AllocError> {
    run_alone::<Brand, R>(rt, alloc, Blank::new(1), limits, session)
}

/// Whether all goes as it should in a session alone, with so many entries where that is told. A desk that isn't opened for want of memory is
/// opened again.
fn goes_well<R: Wait>(
    rt: &R,
    alloc: Global,
    limits: Limits,
    session: Session,
    entries: Option<usize>,
) -> bool {
    match again!(AllocError, alone(rt, alloc, limits, session)) {
        Ok((found, told)) => found.is_some() && (found == entries || entries.is_none()) && told,
        Err(AllocError) => false,
    }
}

/// Limits that a few calls reach.
const NARROW: Limits = Limits {
    journal: 3,
    versions: 2,
    claims: 1,
};

/// Limits that `SPENDING` reaches.
const SPENT_AT: Limits = Limits {
    journal: 20,
    versions: 2,
    claims: 1,
};

#[test]
fn desks(rt: HostRuntime) {
    let alloc = rt.alloc();
    let spending = Session::Calls(SPENDING, 8, SPENT);
    expect(&rt, "two_sessions_in_turn", both(&rt, alloc));
    expect(&rt, "missing_pass", missing(&rt, alloc));
    let is_full = goes_well(&rt, alloc, NARROW, Session::Full, Some(3));
    expect(&rt, "journal_full", is_full);
    let are_spent = goes_well(&rt, alloc, SPENT_AT, spending, Some(8));
    expect(&rt, "spent", are_spent);
    let often = goes_well(&rt, alloc, WIDE, Session::Often, None);
    expect(&rt, "a_thousand_versions_and_claims", often);
}

/// `tools/refuse-each-growth` runs this once for each request for memory.
#[test]
fn each_call(rt: HostRuntime) {
    let each = Session::Calls(EACH, 20, EACH_ANSWERED);
    let is_answered = goes_well(&rt, rt.alloc(), WIDE, each, Some(20));
    expect(&rt, "each call", is_answered);
}
