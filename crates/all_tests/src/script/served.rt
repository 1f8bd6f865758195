//! Rows of scripts, and scripts that no row has: lines without end, each prefix of a script, and each room of a writer.

use crate::cases::{is_cut_off, sink};
use crate::rows::expect;
use crate::script::calls::{ALONE, served};
use crate::script::texts::meant;
use scripts::{ServeFault, serve};
use std::alloc::{AllocError, Global};
use std::io;
use std::io::Read;
use std::sync::Wait;
use std::thread::Threads;
use wb_text::{MemSink, ReadSource};

pub const ROWS: &str = "
=== answered: script_first
%script_first%+++ serve
---
ok
%script_first answers%=== answered: names of 64 bytes
0 cat abcdefghijklmnopqrstuvwxyzabcdefghijklmnopqrstuvwxyzabcdefghijkl
.
0 test
C abcdefghijklmnopqrstuvwxyzabcdefghijklmnopqrstuvwxyzabcdefghijkl
{}
P0 () {}
exists true
.
0 ask abcdefghijklmnopqrstuvwxyzabcdefghijklmnopqrstuvwxyzabcdefghijkl abcdefghijklmnopqrstuvwxyzabcdefghijklmnopqrstuvwxyzabcdefghijkl
0 list
0 dropcat abcdefghijklmnopqrstuvwxyzabcdefghijklmnopqrstuvwxyzabcdefghijkl
0 droptest abcdefghijklmnopqrstuvwxyzabcdefghijklmnopqrstuvwxyzabcdefghijkl
0 poll 1
+++ serve
---
ok
version abcdefghijklmnopqrstuvwxyzabcdefghijklmnopqrstuvwxyzabcdefghijkl 1
version abcdefghijklmnopqrstuvwxyzabcdefghijklmnopqrstuvwxyzabcdefghijkl 1
job 1
test abcdefghijklmnopqrstuvwxyzabcdefghijklmnopqrstuvwxyzabcdefghijkl 1
cat abcdefghijklmnopqrstuvwxyzabcdefghijklmnopqrstuvwxyzabcdefghijkl 1
job 1 abcdefghijklmnopqrstuvwxyzabcdefghijklmnopqrstuvwxyzabcdefghijkl abcdefghijklmnopqrstuvwxyzabcdefghijklmnopqrstuvwxyzabcdefghijkl 0 1
end
version abcdefghijklmnopqrstuvwxyzabcdefghijklmnopqrstuvwxyzabcdefghijkl 2
version abcdefghijklmnopqrstuvwxyzabcdefghijklmnopqrstuvwxyzabcdefghijkl 2
refused 79 Replaced test abcdefghijklmnopqrstuvwxyzabcdefghijklmnopqrstuvwxyzabcdefghijkl 2
finish ok 7
=== answered: script_replaced
0 cat base.cat
let com = rf | co | fr
.
0 cat sc.cat
include \"base.cat\"
acyclic po | com as sc
.
0 test
%store buffering%
.
0 ask SB sc.cat
1 claim
0 cat base.cat
let com = rf | co | fr
.
1 return 1
1 return 1
0 poll 1
0 ask SB sc.cat
1 claim
1 return 2
0 poll 2
+++ serve
---
ok
version base.cat 1
version sc.cat 1
version SB 1
job 1
piece 1 job 1 slice 0 from 0 to 16
version base.cat 2
refused 79 Replaced cat base.cat 2
refused 78 NoClaim 1
refused 79 Replaced cat base.cat 2
job 2
piece 2 job 2 slice 0 from 0 to 16
taken 1 1
verdict SB 1 sc.cat 1 base.cat 2
%SB never%finish ok 13
=== answered: a_built_in_model
0 test
%SB%.
0 ask SB rc11.cat
1 claim
1 return 1
0 poll 1
+++ serve
---
ok
version SB 1
job 1
piece 1 job 1 slice 0 from 0 to 16
taken 1 1
verdict SB 1 rc11.cat 0
%SB summary%finish ok 5
=== answered: a_model_is_refused
0 test
%SB%.
0 ask SB a.cat
0 cat a.cat
include \"b.cat\"
.
0 ask SB a.cat
+++ serve
---
ok
version SB 1
refused 74 Model 61 NoCat a.cat
version a.cat 1
refused 74 Model 62 NoInclude b.cat
finish ok 4
=== answered: Cat-functions-row-4
0 test
%SB%.
0 cat a.cat
let f(x) = x | x
%15 times let f(x) = f(x) | f(x)
%empty f(0)
.
0 ask SB a.cat
0 cat b.cat
let f(x) = x | x
%14 times let f(x) = f(x) | f(x)
%empty f(0)
.
0 ask SB b.cat
1 claim
1 return 1
0 poll 1
+++ serve
---
ok
version SB 1
version a.cat 1
refused 74 Model 69 CallsTooLarge empty
version b.cat 1
job 1
piece 1 job 1 slice 0 from 0 to 16
taken 1 1
verdict SB 1 b.cat 1
%SB summary%finish ok 8
=== answered: Cat-functions-row-5
0 cat base.cat
let f(x) = x | fr
.
0 cat sc.cat
include \"base.cat\"
acyclic f(po | rf | co) as sc
.
0 test
%SB%.
0 ask SB sc.cat
1 claim
0 cat base.cat
let f(x) = x
.
1 return 1
0 poll 1
0 ask SB sc.cat
1 claim
1 return 2
0 poll 2
+++ serve
---
ok
version base.cat 1
version sc.cat 1
version SB 1
job 1
piece 1 job 1 slice 0 from 0 to 16
version base.cat 2
refused 79 Replaced cat base.cat 2
refused 79 Replaced cat base.cat 2
job 2
piece 2 job 2 slice 0 from 0 to 16
taken 1 1
verdict SB 1 sc.cat 1 base.cat 2
%SB summary%finish ok 12
=== answered: a_piece_is_returned_twice
0 test
%SB%.
0 ask SB stdlib.cat
1 claim
1 claim
1 return 1
1 return 1
+++ serve
---
ok
version SB 1
job 1
piece 1 job 1 slice 0 from 0 to 16
nothing
taken 1 1
refused 78 NoClaim 1
finish ok 6
=== answered: refusals: an open comment
0 test
C SB
{ /*
.
+++ serve
---
ok
refused 72 Reading 11 Text 3 OpenComment
finish ok 1
=== answered: refusals: a cat text that is no model
0 cat a.cat
let
.
+++ serve
---
ok
refused 72 Reading 52 Syntax 4
finish ok 1
=== answered: refusals: no test
0 ask SB a.cat
+++ serve
---
ok
refused 73 NoTest SB
finish ok 1
=== answered: refusals: no job 0
0 poll 0
+++ serve
---
ok
refused 77 NoJob 0
finish ok 1
=== answered: refusals: no job, with remarks and carriage returns
# remark\r
\r
0 poll 4294967295\r
+++ serve
---
ok
refused 77 NoJob 4294967295
finish ok 1
=== answered: refusals: nothing to claim, without a line feed
7 claim+++ serve
---
ok
nothing
finish ok 1
=== answered: full_journal
0 test
%SB%.
0 test
%SB%.
0 test
%SB%.
0 test
%SB%.
+++ serve journal 3 versions 1 claims 10
---
ok
version SB 1
refused 81 VersionsSpent SB
refused 81 VersionsSpent SB
not taken JournalFull
finish ok 3
=== answered: replaced_file
0 test
%SB%.
0 ask SB stdlib.cat
0 cat stdlib.cat
.
0 poll 1
+++ serve journal 4 versions 1 claims 10
---
ok
version SB 1
job 1
version stdlib.cat 1
refused 79 Replaced cat stdlib.cat 1
finish ok 4
=== bad_lines: bad_lines: seat 8
8 claim
+++ serve
---
98 BadLine 1
bad line 1
=== bad_lines: bad_lines: no seat
claim
+++ serve
---
98 BadLine 1
bad line 1
=== bad_lines: bad_lines: a blank behind
0 claim 
+++ serve
---
98 BadLine 1
bad line 1
=== bad_lines: bad_lines: a blank before
 0 claim
+++ serve
---
98 BadLine 1
bad line 1
=== bad_lines: bad_lines: two blanks
0  claim
+++ serve
---
98 BadLine 1
bad line 1
=== bad_lines: bad_lines: a tab
0\tclaim
+++ serve
---
98 BadLine 1
bad line 1
=== bad_lines: bad_lines: a word too many
0 claim 1
+++ serve
---
98 BadLine 1
bad line 1
=== bad_lines: bad_lines: a leading zero
0 poll 01
+++ serve
---
98 BadLine 1
bad line 1
=== bad_lines: bad_lines: a number too large
0 poll 4294967296
+++ serve
---
98 BadLine 1
bad line 1
=== bad_lines: bad_lines: a sign before the number
0 poll +1
+++ serve
---
98 BadLine 1
bad line 1
=== bad_lines: bad_lines: no number
0 poll
+++ serve
---
98 BadLine 1
bad line 1
=== bad_lines: bad_lines: one name
0 ask SB
+++ serve
---
98 BadLine 1
bad line 1
=== bad_lines: bad_lines: a blank behind the names
0 ask SB a.cat 
+++ serve
---
98 BadLine 1
bad line 1
=== bad_lines: bad_lines: a byte that no name has
0 cat \x07
.
+++ serve
---
98 BadLine 1
bad line 1
=== bad_lines: Hostile-input-row-7: a piece that was never given
0 return 5
+++ serve
---
98 BadLine 1
bad line 1
=== bad_lines: bad_lines: a piece that only work was given
0 test
%SB%.
0 ask SB stdlib.cat
work
1 return 1
+++ serve
---
98 BadLine 16
version SB 1
job 1
worked 1 0 0
bad line 16
=== bad_lines: bad_lines: work at a seat
0 work
+++ serve
---
98 BadLine 1
bad line 1
=== bad_lines: bad_lines: a name behind close
0 list
0 close SB
+++ serve
---
98 BadLine 2
end
bad line 2
=== bad_lines: bad_lines: a drop of no name
0 droptest
+++ serve
---
98 BadLine 1
bad line 1
=== bad_lines: bad_lines: a carriage return alone
0 claim\r+++ serve
---
98 BadLine 1
bad line 1
=== bad_lines: a_text_without_its_end
0 test
C SB

+++ serve
---
98 BadLine 3
bad line 3
=== long_scripts: long_lines: 65,536 bytes
%65536 times #%+++ serve
---
ok
finish ok 0
=== long_scripts: Hostile-input-row-7: a line of 65,537 bytes
%65537 times #%+++ serve
---
98 BadLine 1
bad line 1
=== long_scripts: a_long_text_is_too_long
0 test
%7000 times 0123456789
%.
+++ serve
---
ok
refused 72 Reading 11 Text 6 TooLong
finish ok 1
=== long_scripts: many_lines: 1,000,000
%1000000 times 
%+++ serve
---
ok
finish ok 0
=== long_scripts: Hostile-input-row-7: a line more than 1,000,000
%1000000 times 
%#+++ serve
---
96 Read
=== long_scripts: Hostile-input-row-6: a reader that fails
0 cat none.cat
.
0 test
+++ serve with a reader that fails
---
96 Read
version none.cat 1
";

/// Empty lines without end.
#[derive(Drop)]
struct Endless;

impl Read for Endless {
    fn read(&mut self, buf: &mut [u8]) -> io::Result<usize> {
        buf.fill(b'\n');
        Ok(buf.len())
    }
}

/// Whether a script whose lines don't end is given up, with nothing written.
fn is_given_up<T: Threads + Wait + Sync>(rt: &T, alloc: Global) -> bool {
    let mut reader = ReadSource::new(Endless);
    match MemSink::new(alloc, 100) {
        Ok(mut writer) => {
            serve(rt, alloc, &mut reader, &mut writer, &ALONE) == Err(ServeFault::Read)
                && writer.bytes().is_empty()
        }
        Err(_) => false,
    }
}

#[test]
fn hostile_input_row_7_endless(rt: HostRuntime) {
    expect(&rt, "a script without end", is_given_up(&rt, rt.alloc()));
}

/// Whether a line of the bytes, the last, begins so.
fn ends_with_line(bytes: &[u8], start: &[u8]) -> bool {
    let mut last: &[u8] = b"";
    for line in bytes.split(|byte| *byte == b'\n') {
        if !line.is_empty() {
            last = line;
        }
    }
    last.starts_with(start)
}

/// How the last line of a script with this outcome begins.
fn last_line_of(outcome: &Result<(), ServeFault>) -> Option<&'static [u8]> {
    match outcome {
        Ok(()) => Some(b"finish ok "),
        Err(ServeFault::BadLine(_)) => Some(b"bad line "),
        Err(_) => None,
    }
}

/// Whether a script ends with the line of its outcome.
fn ends_well<T: Threads + Wait + Sync>(rt: &T, alloc: Global, script: &[u8]) -> bool {
    match sink(alloc, 2000) {
        Ok(mut writer) => {
            match last_line_of(&served(rt, alloc, script, &ALONE, false, &mut writer)) {
                Some(start) => ends_with_line(writer.bytes(), start),
                None => false,
            }
        }
        Err(AllocError) => false,
    }
}

/// Each prefix of a script ends so.
#[test]
fn hostile_input_row_1(rt: HostRuntime) {
    let alloc = rt.alloc();
    let script = meant("script_replaced").as_bytes();
    for length in 0..script.len() {
        assert!(rt; ends_well(&rt, alloc, &script[..length]), "at {length}");
    }
}

/// Whether a writer of too little room has just the prefix of the answers, with the fault that says so.
fn has_a_front_part<T: Threads + Wait + Sync>(rt: &T, alloc: Global, room: usize) -> bool {
    let script = meant("script_first").as_bytes();
    match sink(alloc, room) {
        Ok(mut writer) => {
            served(rt, alloc, script, &ALONE, false, &mut writer) == Err(ServeFault::Write)
                && is_cut_off(writer.bytes(), meant("script_first answers"), room)
        }
        Err(AllocError) => false,
    }
}

#[test]
fn hostile_input_row_6_writer(rt: HostRuntime) {
    let alloc = rt.alloc();
    for room in 0..meant("script_first answers").len() {
        assert!(rt; has_a_front_part(&rt, alloc, room), "at {room}");
    }
}
