//! Two sessions that ask and poll for a verdict of their own.

ghost use Rattle.std.specs.Prelude.{◌≡◌};

use crate::desk::calls::{last_reply, make_all, recorded};
use crate::desk::commands::is_told;
use crate::desk::working::calls::job_of;
use crate::desk::working::running::poll_to_verdict;
use book::Command;
use sessions::{Desk, Pass};
use std::alloc::Global;
use std::sync::Wait;
use std::sync::ledger::Ledger;
use std::thread;
use std::thread::Threads;
use std::time::Clock;

/// What a session puts and asks for.
#[derive(Clone, Copy)]
struct Own {
    calls: &'static str,
    /// The verdict of its own test under its own file, each at its first version.
    verdict: &'static str,
}

const FIRST: Own = Own {
    calls: "
> 0 cat first.cat
acyclic po | rf | co | fr as sc
> 0 test
C First
{ x; }
P0 () {}
exists (x=0)
> 0 ask First first.cat
",
    verdict: "verdict First 1 first.cat 1
Test First Allowed
States 1
[x]=0;
Ok
Witnesses
Positive: 1 Negative: 0
Condition exists ([x]=0)
Observation First Always 1 0
",
};

const SECOND: Own = Own {
    calls: "
> 1 cat second.cat
acyclic rf | co | fr as coherent
> 1 test
C Second
{ x; }
P0 () {}
exists (x=0)
> 1 ask Second second.cat
",
    verdict: "verdict Second 1 second.cat 1
Test Second Allowed
States 1
[x]=0;
Ok
Witnesses
Positive: 1 Negative: 0
Condition exists ([x]=0)
Observation Second Always 1 0
",
};

/// Puts a file and a test, asks, and polls until there is a verdict.
fn session<L: Ledger, R: Wait + Clock>(
    rt: &R,
    alloc: Global,
    desk: &Desk<L>,
    mut pass: Pass<L>,
    own: Own,
) -> Pass<L>
    requires { pass.parts ≡ 1 }
    ensures { result.parts ≡ 1 }
{
    let _ = make_all(rt, alloc, desk, &mut pass, own.calls);
    if let Some(job) = job_of(&pass) {
        poll_to_verdict(rt, desk, &mut pass, job);
    }
    pass
}

/// Both sessions, and then one closes. Whether each has its own verdict.
pub fn sessions_then_close<L: Ledger + Send + Sync, R: Threads + Wait + Clock + Sync>(
    rt: &R,
    alloc: Global,
    desk: &Desk<L>,
    first: Pass<L>,
    second: Pass<L>,
) -> (Pass<L>, Pass<L>, bool)
    requires first { first.parts ≡ 1 }
    requires second { second.parts ≡ 1 }
    ensures first { result.0.parts ≡ 1 }
    ensures second { result.1.parts ≡ 1 }
{
    let (mut first, second) = thread::join(
        rt,
        || -> Pass<L>
            requires { first.parts ≡ 1 }
            ensures { result.parts ≡ 1 }
        { session(rt, alloc, desk, first, FIRST) },
        || -> Pass<L>
            requires { second.parts ≡ 1 }
            ensures { result.parts ≡ 1 }
        { session(rt, alloc, desk, second, SECOND) },
    );
    let one = is_told(alloc, last_reply(&first), FIRST.verdict);
    let two = is_told(alloc, last_reply(&second), SECOND.verdict);
    let closed = recorded(rt, desk, &mut first, Command::Close);
    (first, second, one && two && closed)
}
