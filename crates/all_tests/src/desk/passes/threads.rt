//! Sessions on real threads over one desk, each with a pass.

ghost use Rattle.std.specs.Prelude.{◌≡◌, ◌≤◌, ◌<◌, All};

use crate::desk::calls::{entries, make_all};
use crate::desk::commands::is_told;
use crate::desk::passes::desks::{FIRST, SECOND, WIDE, asks_and_returns};
use crate::rows::expect;
use sessions::{Desk, Pass, open};
use std::alloc::{AllocError, Global};
use std::marker::Brand;
use std::sync::Wait;
use std::sync::ledger::{Blank, Ledger};
use std::thread;
use std::thread::Threads;

/// What each session of a test does.
#[derive(Clone, Copy)]
enum Session {
    /// The first two put and ask for a test of their own. Each claims once, and returns what it finds of its piece.
    Once,
    /// Calls of each kind, over four names.
    Mixed,
}

const MIXED: &str = "
> 0 test
C A
{ x; }
P0 () {}
exists (x=0)
> 0 ask A stdlib.cat
> 0 claim
> 0 return 1
> 0 poll 1
> 0 test
C B
{ x; }
P0 () {}
exists (x=0)
> 0 ask B stdlib.cat
> 0 claim
> 0 back 1
> 0 poll 2
> 0 test
C C
{ x; }
P0 () {}
exists (x=0)
> 0 ask C stdlib.cat
> 0 claim
> 0 return 1
> 0 poll 3
> 0 test
C D
{ x; }
P0 () {}
exists (x=0)
> 0 ask D stdlib.cat
> 0 cat a.cat
> 0 dropcat a.cat
> 0 list
";

/// At least 200 calls, since each round has 18 that need no piece.
fn mixed<L: Ledger, R: Wait>(rt: &R, alloc: Global, desk: &Desk<L>, pass: &mut Pass<L>) -> usize
    requires { pass.old.parts ≡ 1 }
    ensures { pass.new.parts ≡ 1 }
{
    let mut recorded = 0usize;
    for _ in 0..12u8 {
        recorded = recorded.saturating_add(make_all(rt, alloc, desk, pass, MIXED));
    }
    recorded
}

fn make_session<L: Ledger, R: Wait>(
    rt: &R,
    alloc: Global,
    session: Session,
    desk: &Desk<L>,
    pass: &mut Pass<L>,
) -> usize
    requires { pass.old.parts ≡ 1 }
    ensures { pass.new.parts ≡ 1 }
{
    match session {
        Session::Once => {
            let asks = match pass.seat() {
                0 => FIRST,
                1 => SECOND,
                _ => "",
            };
            asks_and_returns(rt, alloc, desk, pass, asks)
        }
        Session::Mixed => mixed(rt, alloc, desk, pass),
    }
}

/// A session of each pass, each on a thread of its own.
fn all<L: Ledger + Send + Sync, R: Threads + Wait + Sync>(
    rt: &R,
    alloc: Global,
    what: Session,
    desk: &Desk<L>,
    passes: &mut [Pass<L>],
)
    requires { All (λ p. p.parts ≡ 1) passes.old }
    ensures { All (λ p. p.parts ≡ 1) passes.new }
{
    let threads = passes.len().max(1);
    thread::for_each_mut(
        rt,
        passes,
        threads,
        &move |_, pass: &mut Pass<L>|
            requires { pass.old.parts ≡ 1 }
            ensures { pass.new.parts ≡ 1 }
        {
            let _ = make_session(rt, alloc, what, desk, pass);
        },
    );
}

/// Whether a pass begins with the first version of its test.
fn begins_with_version<L: Ledger>(alloc: Global, pass: &Pass<L>) -> bool {
    let version = match pass.seat() {
        0 => "version A 1\n",
        1 => "version B 1\n",
        _ => return false,
    };
    match pass.receipts().first() {
        Some(receipt) => is_told(alloc, Some(receipt.entry().reply()), version),
        None => false,
    }
}

/// How many passes begin so.
fn count_versions<L: Ledger>(alloc: Global, passes: &[Pass<L>]) -> usize {
    let mut count = 0usize;
    for pass in passes {
        if begins_with_version(alloc, pass) {
            count = count.saturating_add(1);
        }
    }
    count
}

/// What the passes of a run come to: how many receipts there are where `finish` answers Ok and all is told, and how many passes begin with the
/// first version of their test.
fn run<L: Ledger + Send + Sync, R: Threads + Wait + Sync>(
    rt: &R,
    alloc: Global,
    blank: Blank,
    what: Session,
    n: u8,
) -> Result<(Option<usize>, usize), AllocError>
    requires ledger { (blank.name ≡ L.name) × (blank.parts ≡ L.parts) × (blank.parts ≡ n) }
    requires seats { (0 < n) × (n ≤ 64) }
{
    let (desk, mut passes) = open::<L>(alloc, blank, WIDE, n)?;
    all(rt, alloc, what, &desk, &mut passes);
    let versions = count_versions(alloc, &passes);
    Ok((entries(desk, passes), versions))
}

fn goes_well<R: Threads + Wait + Sync>(
    rt: &R,
    alloc: Global,
    what: Session,
    n: u8,
    least: usize,
    versions: Option<usize>,
) -> bool
    requires { (0 < n) × (n ≤ 64) }
{
    match run::<Brand, R>(rt, alloc, Blank::new(n.into()), what, n) {
        Ok((Some(receipts), found)) => receipts >= least && versions.unwrap_or(found) == found,
        _ => false,
    }
}

#[test]
fn threads(rt: HostRuntime) {
    let alloc = rt.alloc();
    let four = goes_well(&rt, alloc, Session::Once, 4, 0, Some(2));
    expect(&rt, "four_passes", four);
    let mixed = goes_well(&rt, alloc, Session::Mixed, 8, 1600, None);
    expect(&rt, "eight_sessions_of_mixed_calls", mixed);
}
