//! Rows of what the program does with its words: the text and the status of its tasks.

ghost use Rattle.program.specs.Words.{IsInRange};

use crate::cases::number_behind;
use crate::script::words::called;
use program::{Task, do_task, read_task};
use std::alloc::{AllocError, Global};
use std::sync::Wait;
use std::thread::Threads;
use wb_text::{MemSink, MemSource};

/// Each worker that ends on one claim adds an entry: two of them, and with no word one.
pub const ROWS: &str = "
=== tasks: sb_relaxed, by --alone
%SB%+++ bench --alone
---
0
%SB summary%=== tasks: reading_faults, by --alone
C SB
{+++ bench --alone
---
2
refused 12 Syntax 6
=== tasks: a word that is left out, by --alone
C E { 0:r0 = 1; } P0 () { while (r0) {} } exists true
+++ bench --alone
---
2
refused 17 Unsupported while
=== tasks: a writer that fails within a summary
%SB%+++ bench --alone, room 16
---
1
Test SB Allowed
=== tasks: a writer that fails within a refusal
C SB
{+++ bench --alone, room 8
---
1
refused === tasks: journal_full, by --journal 3
%4 times 0 list
%+++ bench --journal 3
---
0
end
end
end
not taken JournalFull
finish ok 3
=== tasks: a journal of 12, by --journal=12
0 close
%12 times 0 list
%+++ bench --journal=12
---
0
done
refused 71 Closed
refused 71 Closed
refused 71 Closed
refused 71 Closed
refused 71 Closed
refused 71 Closed
refused 71 Closed
refused 71 Closed
refused 71 Closed
refused 71 Closed
refused 71 Closed
not taken JournalFull
finish ok 12
=== tasks: two workers, by --workers 2
work
+++ bench --workers 2
---
0
worked 0 0 0
finish ok 2
=== tasks: eight workers and a journal of 5
work
+++ bench --workers=8 --journal=5
---
0
worked 0 0 3
finish ok 5
=== tasks: one worker, where no word says how many
work
+++ bench
---
0
worked 0 0 0
finish ok 1
=== tasks: Hostile-input-row-7: a piece that was never given
0 list
0 return 5
+++ bench
---
2
end
bad line 2
=== tasks: a writer that fails within an answer
%2 times 0 list
%+++ bench, room 6
---
1
end
en";

/// Whether a task on an input comes to what is wanted, where the writer has so much room.
fn is_done_so<T: Threads + Wait + Sync>(
    rt: &T,
    alloc: Global,
    task: Task,
    input: &str,
    room: usize,
    wanted: &str,
) -> bool
    requires { IsInRange task }
{
    let mut reader = MemSource::new(input.as_bytes(), false);
    match MemSink::new(alloc, room) {
        Ok(mut writer) => {
            let status = do_task(rt, alloc, task, &mut reader, &mut writer);
            is_wanted(status, writer.bytes(), wanted)
        }
        Err(_) => false,
    }
}

/// Whether this status is the first line of what is wanted, and these bytes what stands behind it.
fn is_wanted(status: u8, bytes: &[u8], wanted: &str) -> bool {
    match wanted.split_once('\n') {
        Some((number, written)) => { number.parse() == Ok(status) && bytes == written.as_bytes() }
        None => false,
    }
}

/// Whether the words ask for a task that comes to what is wanted.
fn are_done<T: Threads + Wait + Sync>(
    rt: &T,
    alloc: Global,
    words: &[String],
    input: &str,
    room: usize,
    wanted: &str,
) -> bool {
    match read_task(alloc, words) {
        Ok(task) => is_done_so(rt, alloc, task, input, room, wanted),
        Err(_) => false,
    }
}

/// Whether the words of a call, which ends with the room of the writer where that is small, come to what is wanted.
pub fn is_done<T: Threads + Wait + Sync>(
    rt: &T,
    alloc: Global,
    call: &str,
    input: &str,
    wanted: &str,
) -> bool {
    let (words, _) = call.split_once(", ").unwrap_or((call, ""));
    let room = number_behind(call, ", room ").unwrap_or(1000) as usize;
    match called(alloc, words) {
        Ok(words) => are_done(rt, alloc, &words, input, room, wanted),
        Err(AllocError) => false,
    }
}
