//! Commands that are refused in whole: nothing changes, and the command that comes back gets its own answer.
//!
//! In a full journal each is refused. For memory, one in each run of `tools/refuse-each-growth`.

ghost use Rattle.std.specs.Prelude.{◌<◌};

use crate::cases::parts_of;
use crate::desk::books::scene::{call, call_of, new_book, play, refused};
use crate::desk::commands::is_told;
use crate::rows::expect;
use crate::script::texts::expanded;
use book::{Book, Command, Limits, Refused};
use std::alloc::{AllocError, Global};
use std::process::Abort;

/// Each command once: a call behind others, and what it is answered where it is taken.
const ROWS: &str = "
=== a cat file is put
+++ 0 cat a.cat
acyclic po as program
---
version a.cat 1
=== a test is put
+++ 0 test
%SB%---
version SB 1
=== a cat file is dropped
> 0 cat a.cat
+++ 0 dropcat a.cat
---
version a.cat 2
=== a test is dropped
> 0 test
%SB%+++ 0 droptest SB
---
version SB 2
=== a test is asked for
> 0 test
%SB%+++ 0 ask SB rc11.cat
---
job 1
=== a job is polled
> 0 test
%SB%> 0 ask SB stdlib.cat
+++ 0 poll 1
---
pending 0 1
=== a job is forgotten
> 0 test
%SB%> 0 ask SB stdlib.cat
+++ 0 forget 1
---
done
=== claims are released
> 0 test
%SB%> 0 ask SB stdlib.cat
> 0 claim
+++ 0 release 1
---
freed 1
=== all is listed
> 0 test
%SB%> 0 ask SB stdlib.cat
+++ 0 list
---
test SB 1
job 1 SB stdlib.cat 0 1
end
=== a slice is claimed
> 0 test
%SB%> 0 ask SB stdlib.cat
+++ 0 claim
---
piece 1 job 1 slice 0 from 0 to 16
=== a result is returned
> 0 test
%SB%> 0 ask SB stdlib.cat
> 0 claim
+++ 0 return 1
---
taken 1 1
=== a claim is given back
> 0 test
%SB%> 0 ask SB stdlib.cat
> 0 claim
+++ 0 back 1
---
done
=== the book is closed
> 0 test
%SB%> 0 ask SB stdlib.cat
+++ 0 close
---
done
";

/// Limits that no row reaches.
const WIDE: Limits = Limits {
    journal: 20,
    versions: 10,
    claims: 10,
};

/// Whether a command comes back as this one since the journal is full, which has no entry for it.
fn is_handed_back(book: &mut Book, command: Command, same: &Command) -> bool {
    let entries = book.journal().len();
    match book.apply(0, command) {
        Err((back, why)) => {
            matches!(why, Refused::JournalFull) && back == *same && book.journal().len() == entries
        }
        Ok(_) => false,
    }
}

/// Whether the command of a call comes back where it is made.
fn comes_back(alloc: Global, book: &mut Book, line: &str) -> bool {
    match call_of(alloc, book, line) {
        Ok((_, same)) => match call_of(alloc, book, line) {
            Ok((_, command)) => is_handed_back(book, command, &same),
            Err(AllocError) => false,
        },
        Err(AllocError) => false,
    }
}

/// Whether the command of a row comes back where the calls before it fill the journal.
fn is_refused_when_full(alloc: Global, row: &str) -> bool {
    let Some((before, line, _)) = parts_of(row) else {
        return false;
    };
    let limits = Limits {
        journal: u32::try_from(before.split("> ").skip(1).count()).unwrap_or(0),
        versions: 10,
        claims: 10,
    };
    match new_book(alloc, limits) {
        Ok(mut book) => play(alloc, &mut book, before) && comes_back(alloc, &mut book, line),
        Err(AllocError) => false,
    }
}

/// Whether the replies at a place of the journal and before it are the same.
fn is_repeated(book: &Book, place: usize) -> bool {
    let journal = book.journal();
    match (journal.get(place), journal.get(place.saturating_sub(1))) {
        (Some(now), Some(before)) => *now.reply() == *before.reply(),
        _ => false,
    }
}

/// Whether a list, the last command before one that was refused, is answered again as it was.
fn lists_as_before(alloc: Global, book: &mut Book, place: usize) -> bool {
    book.journal().len() == place && play(alloc, book, "> 0 list\n") && is_repeated(book, place)
}

/// Whether the last reply is printed so.
fn ends_so(alloc: Global, book: &Book, wanted: &str) -> bool {
    match book.journal().last() {
        Some(entry) => is_told(alloc, Some(entry.reply()), wanted),
        None => false,
    }
}

/// Whether a command gets its own answer: at once, or, where it is refused for memory, behind a list that is as before.
fn gets_its_answer(alloc: Global, book: &mut Book, command: Command, wanted: &str) -> bool {
    let place = book.journal().len();
    let taken = match refused(book, 0, command) {
        None => true,
        Some(command) => {
            let same = lists_as_before(alloc, book, place);
            call(book, 0, command) && same
        }
    };
    taken && ends_so(alloc, book, wanted)
}

fn is_answered_behind(
    alloc: Global,
    book: &mut Book,
    before: &str,
    line: &str,
    wanted: &str,
) -> bool {
    if !play(alloc, book, before) || !play(alloc, book, "> 0 list\n") {
        return false;
    }
    match call_of(alloc, book, line) {
        Ok((_, command)) => gets_its_answer(alloc, book, command, wanted),
        Err(AllocError) => false,
    }
}

/// Whether the command of a row gets its own answer behind the calls before it.
fn is_answered(alloc: Global, row: &str) -> bool {
    let Some((before, line, wanted)) = parts_of(row) else {
        return false;
    };
    match new_book(alloc, WIDE) {
        Ok(mut book) => is_answered_behind(alloc, &mut book, before, line, wanted),
        Err(AllocError) => false,
    }
}

/// Fails with the first row that doesn't hold.
fn all_hold(rt: &impl Abort, alloc: Global, holds: fn(Global, &str) -> bool)
    requires { IsAlwaysCallable holds }
{
    match expanded(alloc, ROWS) {
        Ok(rows) => {
            for row in rows.as_str().split("=== ").skip(1) {
                expect(rt, row, holds(alloc, row));
            }
        }
        Err(AllocError) => expect(rt, "rows", false),
    }
}

#[test]
fn journal_full(rt: HostRuntime) {
    all_hold(&rt, rt.alloc(), is_refused_when_full);
}

#[test]
fn each_command(rt: HostRuntime) {
    all_hold(&rt, rt.alloc(), is_answered);
}
