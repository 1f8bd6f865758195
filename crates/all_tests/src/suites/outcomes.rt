//! What is told of a test in each form, rows that are read back, and the last line of a run.
//!
//! The expected texts are written by hand, after docs/COMMAND.md.

use crate::rows::expect;
use crate::suites::told::{CASE, SB, verdicts_of, words_of};
use outcome::{Counts, Fate, Form, RowsFault, Tested, Told, Wanted, rows_in};
use slices::Verdict;
use std::alloc::{AllocError, Global};
use std::process::Abort;
use suite::{Row, TestTrouble};

/// Forms, and the bytes of a verdict in them.
const FORMS: [(Form, &str); 3] = [
    (Form::Line, "SB.litmus SB No Never 0 3\n"),
    (Form::Table, "  SB.litmus   Never\n"),
    (
        Form::Tabs,
        "SB.litmus\tsc.cat\tSB\tAllowed\tNo\tNever\t0\t3\t3\t\t7\tsc.cat=0123456789abcdef\n",
    ),
];

/// Forms, and the bytes of a refusal in them.
const REFUSED: [(Form, &str); 5] = [
    (Form::Summary, ""),
    (Form::Line, "SB.litmus refused Late\n"),
    (Form::Table, "  SB.litmus   refused\n"),
    (
        Form::Tabs,
        "SB.litmus\tsc.cat\t\t\trefused\tLate\t\t\t\t\t7\tsc.cat=0123456789abcdef\n",
    ),
    (
        Form::Json,
        "{\"digests\":\"sc.cat=0123456789abcdef\",\"file\":\"SB.litmus\",\"milliseconds\":7,\"model\":\"sc.cat\",\"refused\":\"Late\"}\n",
    ),
];

/// How many tests were judged, refused and not read, whether something differs from what is expected, and the status.
const STATUSES: [([u64; 3], bool, u8); 6] = [
    ([0, 0, 0], false, 0),
    ([5, 0, 0], false, 0),
    ([5, 1, 0], false, 2),
    ([5, 0, 1], false, 1),
    ([5, 1, 1], false, 1),
    ([5, 1, 1], true, 3),
];

/// The test under one model.
const TEST: Tested = Tested {
    path: "SB.litmus",
    text: SB,
    cases: &[CASE],
    milliseconds: 7,
};

/// Rows as they are stored, or as they are printed between tabs, and as they are stored once they were read.
const ROWS: [(&str, &str); 4] = [
    (
        "a\tm\tNever 0 3\t3\n\nb\tm\trefused 13 BadOrder\t\n",
        "a\tm\tNever 0 3\t3\nb\tm\trefused 13 BadOrder\t\n",
    ),
    (
        "a\tm\tSB\tAllowed\tOk\tSometimes\t1\t3\t4\tdata-race,other\t7\td\n",
        "a\tm\tSometimes 1 3 data-race other\t4\n",
    ),
    (
        "a\tm\t\t\trefused\t13 BadOrder\t\t\t\t\t7\td",
        "a\tm\trefused 13 BadOrder\t\n",
    ),
    ("", ""),
];

/// Texts with a line that is no row, and its number.
const NO_ROWS: [(&str, usize); 2] = [("a\tb\tc\td\n\nabc\n", 3), ("a\tb\tc\n", 1)];

/// How many tests were judged, refused and not read, how many differ, and the last line.
const COUNTS: [(Form, [u64; 4], &str); 3] = [
    (
        Form::Line,
        [981, 18, 1, 0],
        "1,000 tests: 981 judged, 18 refused, 1 not read\n",
    ),
    (
        Form::Json,
        [1, 0, 0, 1],
        "1 test: 1 judged, 0 refused, 0 not read\n",
    ),
    (
        Form::Table,
        [1_234_567, 0, 999, 1_000],
        "1,235,566 tests: 1,234,567 judged, 0 refused, 999 not read; the models differ in 1,000 (*)\n",
    ),
];

/// Whether a verdict is told so in a form, under a model of this name.
fn is_told(
    alloc: Global,
    models: &[Vec<u8>],
    verdicts: &[Verdict],
    form: Form,
    text: &str,
) -> bool {
    let wanted = Wanted {
        form,
        width: 10,
        models,
        keeps_rows: true,
    };
    let mut told = Told::new(alloc);
    told.tell(alloc, &wanted, &TEST, verdicts).is_ok() && told.lines.as_slice() == text.as_bytes()
}

fn expect_forms(rt: &impl Abort, alloc: Global, models: &[Vec<u8>], verdicts: &[Verdict]) {
    for (form, text) in &FORMS {
        expect(rt, text, is_told(alloc, models, verdicts, *form, text));
    }
}

#[test]
fn verdict_in_each_form(rt: HostRuntime) {
    let alloc = rt.alloc();
    match (&words_of(alloc, "sc.cat"), &verdicts_of(&rt, alloc, 1)) {
        (Ok(models), Ok(verdicts)) => expect_forms(&rt, alloc, models, verdicts),
        _ => expect(&rt, "no memory", false),
    }
}

/// Whether a refusal is told so in a form, under a model of this name.
fn is_refused(alloc: Global, models: &[Vec<u8>], form: Form, text: &str) -> bool {
    let wanted = Wanted {
        form,
        width: 10,
        models,
        keeps_rows: true,
    };
    let mut told = Told::new(alloc);
    told.refuse(alloc, &wanted, &TEST, &TestTrouble::Late)
        .is_ok()
        && told.lines.as_slice() == text.as_bytes()
}

fn expect_refusals(rt: &impl Abort, alloc: Global, models: &[Vec<u8>]) {
    for (form, text) in &REFUSED {
        expect(rt, text, is_refused(alloc, models, *form, text));
    }
}

#[test]
fn refusal_in_each_form(rt: HostRuntime) {
    match &words_of(rt.alloc(), "sc.cat") {
        Ok(models) => expect_refusals(&rt, rt.alloc(), models),
        Err(AllocError) => expect(&rt, "no memory", false),
    }
}

/// The rows of a text, stored again.
fn stored(alloc: Global, rows: &[Row]) -> Result<Vec<u8>, AllocError> {
    let mut text = Vec::new(alloc);
    for row in rows {
        text.append(&mut row.stored(alloc)?)?;
    }
    Ok(text)
}

fn are_stored(alloc: Global, rows: &[Row], expected: &str) -> bool {
    match &stored(alloc, rows) {
        Ok(found) => found.as_slice() == expected.as_bytes(),
        Err(AllocError) => false,
    }
}

/// Whether the rows of a text are these.
fn are_read(alloc: Global, text: &str, expected: &str) -> bool {
    match &rows_in(alloc, text.as_bytes()) {
        Ok(rows) => are_stored(alloc, rows, expected),
        Err(_fault) => false,
    }
}

/// Whether the line of this number is told to be no row.
fn is_no_row(alloc: Global, text: &str, number: usize) -> bool {
    match &rows_in(alloc, text.as_bytes()) {
        Err(RowsFault::NoRow(line)) => *line == number,
        _ => false,
    }
}

#[test]
fn rows_read_back(rt: HostRuntime) {
    for (text, expected) in &ROWS {
        expect(&rt, expected, are_read(rt.alloc(), text, expected));
    }
    for (text, number) in &NO_ROWS {
        expect(&rt, text, is_no_row(rt.alloc(), text, *number));
    }
}

/// Counts as they are in a row.
fn counts_of(judged: u64, refused: u64, unread: u64, differing: u64) -> Counts {
    Counts {
        judged,
        refused,
        unread,
        differing,
    }
}

/// Whether the last line of a run is this.
fn is_last_line(alloc: Global, form: Form, counts: &[u64; 4], text: &str) -> bool {
    let [judged, refused, unread, differing] = *counts;
    match &counts_of(judged, refused, unread, differing).line(alloc, form) {
        Ok(found) => found.as_slice() == text.as_bytes(),
        Err(AllocError) => false,
    }
}

#[test]
fn last_lines(rt: HostRuntime) {
    for (form, counts, text) in &COUNTS {
        expect(&rt, text, is_last_line(rt.alloc(), *form, counts, text));
    }
}

#[test]
fn tests_are_counted(rt: HostRuntime) {
    let mut counts = Counts::unread(2);
    counts.count(Fate::Judged, true);
    counts.count(Fate::Judged, false);
    counts.count(Fate::Refused, false);
    counts.count(Fate::Unread, false);
    expect(&rt, "judged", counts.judged == 2);
    expect(&rt, "refused", counts.refused == 1);
    expect(&rt, "not read", counts.unread == 3);
    expect(&rt, "differing", counts.differing == 1);
}

#[test]
fn statuses(rt: HostRuntime) {
    for ([judged, refused, unread], differs, status) in &STATUSES {
        let counts = counts_of(*judged, *refused, *unread, 0);
        assert!(rt; counts.status(*differs).code() == *status, "{status}");
    }
}
