//! Verdicts on texts as summaries, lines, rows, objects and tables, and differences between suites.
//!
//! The expected bytes are written by hand, after the definitions of `suite`.

use crate::names::name;
use crate::rows::{all_hold, expect};
use cat_model::Model;
use outcome::rows_in;
use slices::Verdict;
use std::alloc::{AllocError, Global};
use std::thread::Threads;
use suite::{
    Case, CatText, Endless, Row, TestTrouble, answer_of, are_alike, cell_of, differences,
    digests_of, head_of, judge_text, line_of, load_model, object_of, row_of, summary_of,
    table_row_of,
};
use wb_text::Name;

pub const SB: &[u8] =
    b"C SB\n{}\nP0 (atomic_int* x, atomic_int* y) {\n  atomic_store_explicit(x, 1, memory_order_relaxed);\n  int r0 = atomic_load_explicit(y, memory_order_relaxed);\n}\nP1 (atomic_int* x, atomic_int* y) {\n  atomic_store_explicit(y, 1, memory_order_relaxed);\n  int r0 = atomic_load_explicit(x, memory_order_relaxed);\n}\nexists (0:r0=0 /\\ 1:r0=0)\n";

/// Sequential consistency, with an include.
const SC: &[u8] = b"include \"base.cat\" acyclic po | com as sc";

const BASE: &[u8] = b"let com = rf | co | fr";

pub const CASE: Case = Case {
    path: "SB.litmus",
    model: "sc.cat",
    digests: "sc.cat=0123456789abcdef",
};

const SUMMARY: &[u8] =
    b"Test SB Allowed\nStates 3\n0:r0=0; 1:r0=1;\n0:r0=1; 1:r0=0;\n0:r0=1; 1:r0=1;\nNo\nWitnesses\nPositive: 0 Negative: 3\nCondition exists (0:r0=0 /\\ 1:r0=0)\nObservation SB Never 0 3\n";

const OBJECT: &[u8] =
    b"{\"digests\":\"sc.cat=0123456789abcdef\",\"file\":\"SB.litmus\",\"flags\":[],\"kind\":\"Allowed\",\"milliseconds\":7,\"model\":\"sc.cat\",\"name\":\"SB\",\"negative\":3,\"ok\":false,\"positive\":0,\"states\":3,\"word\":\"Never\"}";

/// The texts of the model, under these names.
fn texts<'a>(root: &'a Name, base: &'a Name) -> [CatText<'a>; 2] {
    [
        CatText {
            name: root,
            text: SC,
        },
        CatText {
            name: base,
            text: BASE,
        },
    ]
}

/// The model of `SC` under the name `m.cat`.
pub fn model(alloc: Global) -> Result<Model, AllocError> {
    let root = name(alloc, b"m.cat")?;
    let base = name(alloc, b"base.cat")?;
    let both = texts(&root, &base);
    match load_model(alloc, &root, &both) {
        Ok(model) => Ok(model),
        Err(_) => Err(AllocError),
    }
}

/// A way to tell a verdict.
#[derive(Clone, Copy)]
enum Form {
    Summary,
    Line,
    Row,
    Object,
    Answer,
    Cell,
}

const FORMS: [(Form, &[u8]); 6] = [
    (Form::Summary, SUMMARY),
    (Form::Line, b"a b.litmus SB No Never 0 3\n"),
    (
        Form::Row,
        b"SB.litmus\tsc.cat\tSB\tAllowed\tNo\tNever\t0\t3\t3\t\t7\tsc.cat=0123456789abcdef\n",
    ),
    (Form::Object, OBJECT),
    (Form::Answer, b"Never 0 3"),
    (Form::Cell, b"Never"),
];

fn told(alloc: Global, form: Form, verdict: &Verdict) -> Result<Vec<u8>, AllocError> {
    match form {
        Form::Summary => summary_of(alloc, verdict),
        Form::Line => line_of(alloc, b"a b.litmus", verdict),
        Form::Row => row_of(alloc, &CASE, verdict, 7),
        Form::Object => Ok(object_of(alloc, &CASE, verdict, 7)?.into_bytes()),
        Form::Answer => answer_of(alloc, verdict),
        Form::Cell => cell_of(alloc, verdict),
    }
}

fn is_told(alloc: Global, form: Form, verdict: &Verdict, expected: &[u8]) -> bool {
    match told(alloc, form, verdict) {
        Ok(text) => text.as_slice() == expected,
        Err(_) => false,
    }
}

/// Whether a verdict is told in each form as it is expected.
fn is_told_in_each(alloc: Global, verdict: &Verdict) -> bool {
    for (form, expected) in &FORMS {
        if !is_told(alloc, *form, verdict, expected) {
            return false;
        }
    }
    true
}

fn are_told(alloc: Global, verdicts: &[Verdict]) -> bool {
    match verdicts.first() {
        Some(verdict) => is_told_in_each(alloc, verdict),
        None => false,
    }
}

/// The verdict on SB by so many threads.
pub fn verdicts_of<R: Threads + Sync>(
    rt: &R,
    alloc: Global,
    threads: u16,
) -> Result<Vec<Verdict>, AllocError> {
    let models = [model(alloc)?];
    match judge_text(rt, alloc, SB, &models, threads, &mut Endless) {
        Ok(verdicts) => Ok(verdicts),
        Err(_trouble) => Err(AllocError),
    }
}

/// Whether that verdict is told as it is expected.
fn is_judged<R: Threads + Sync>(rt: &R, alloc: Global, threads: u16) -> bool {
    match &verdicts_of(rt, alloc, threads) {
        Ok(verdicts) => are_told(alloc, verdicts),
        Err(AllocError) => false,
    }
}

/// Whether a text that is no test is told to be none.
fn is_no_test<R: Threads + Sync>(rt: &R, alloc: Global) -> bool {
    let judged = judge_text(rt, alloc, b"C SB\n{", &[], 1, &mut Endless);
    matches!(&judged, Err(TestTrouble::Test(_)))
}

#[test]
fn verdicts(rt: HostRuntime) {
    let alloc = rt.alloc();
    expect(&rt, "one thread", is_judged(&rt, alloc, 1));
    expect(&rt, "several threads", is_judged(&rt, alloc, 3));
    expect(&rt, "a text that is no test", is_no_test(&rt, alloc));
}

/// The words of a line, as bytes.
pub fn words_of(alloc: Global, line: &str) -> Result<Vec<Vec<u8>>, AllocError> {
    let mut words = Vec::new(alloc);
    for word in line.split(' ') {
        words.push(Vec::from_slice(alloc, word.as_bytes())?)?;
    }
    Ok(words)
}

/// The models of a table, and its head behind paths of at most six bytes.
const MODELS: &str = "rc11.cat sc.cat";

const HEAD: &[u8] = b"          rc11.cat   sc.cat\n";

/// Rows of it: the cells, and what is printed.
const TABLE: &str = "Sometimes Never ==> * a.lit   Sometimes  Never
Never Never ==>   a.lit   Never      Never";

/// Whether cells are printed as a row so, with a line feed behind it, and are alike where it begins with blanks.
fn is_row_of(
    alloc: Global,
    models: &[Vec<u8>],
    cells: &[Vec<u8>],
    wanted: &[u8],
) -> Result<bool, AllocError> {
    let row = table_row_of(alloc, 6, b"a.lit", models, cells)?;
    Ok(row.strip_suffix(b"\n") == Some(wanted) && are_alike(cells) == wanted.starts_with(b"  "))
}

/// Whether the words of a row are printed so.
fn is_row(alloc: Global, words: &str, wanted: &str) -> Result<bool, AllocError> {
    let models = words_of(alloc, MODELS)?;
    let cells = words_of(alloc, words)?;
    is_row_of(alloc, &models, &cells, wanted.as_bytes())
}

/// Whether the head of a table is as expected.
fn is_head(alloc: Global) -> Result<bool, AllocError> {
    let models = words_of(alloc, MODELS)?;
    Ok(head_of(alloc, 6, &models)?.as_slice() == HEAD)
}

/// Rows of a suite: path, model, answer, and how many states.
const EXPECTED: &[u8] = b"tests/MP.litmus\trc11.cat\tNever 0 3\t3
tests/LB.litmus\trc11.cat\tNever 0 3\t3
tests/CoRR.litmus\trc11.cat\tNever 0 3\t3
";

const LATER: &[u8] = b"tests/CoRR.litmus\trc11.cat\tNever 0 3\t3
tests/MP.litmus\trc11.cat\tSometimes 1 3\t4
tests/SB.litmus\trc11.cat\tSometimes 1 3\t4
";

const CHANGES: &[u8] =
    b"CHANGED tests/MP.litmus rc11.cat: was Never 0 3, is Sometimes 1 3\nMISSING tests/LB.litmus rc11.cat\nNEW tests/SB.litmus rc11.cat: Sometimes 1 3\n";

fn are_changes(alloc: Global, expected: &[Row], found: &[Row]) -> Result<bool, AllocError> {
    let told = differences(alloc, expected, found)?;
    Ok(told.as_slice() == CHANGES && differences(alloc, found, found)?.is_empty())
}

/// Whether the differences between two suites are those, and there are none between a suite and itself.
fn differ(alloc: Global) -> bool {
    match (&rows_in(alloc, EXPECTED), &rows_in(alloc, LATER)) {
        (Ok(expected), Ok(found)) => are_changes(alloc, expected, found).unwrap_or(false),
        _ => false,
    }
}

/// As `sha256sum` prints the digests of both texts.
const DIGESTS: &[u8] = b"m.cat=a6d48b49766874d0,base.cat=87f2162ba8e02842";

/// Whether the digests of a model's texts are those.
fn are_digests(alloc: Global) -> Result<bool, AllocError> {
    let root = name(alloc, b"m.cat")?;
    let base = name(alloc, b"base.cat")?;
    let told = digests_of(alloc, &texts(&root, &base))?;
    Ok(told.as_slice() == DIGESTS)
}

#[test]
fn tables_suites_and_digests(rt: HostRuntime) {
    let alloc = rt.alloc();
    all_hold(&rt, alloc, "tables", TABLE, is_row);
    expect(&rt, "the head of a table", is_head(alloc).unwrap_or(false));
    expect(&rt, "two suites", differ(alloc));
    let are_digests = are_digests(alloc).unwrap_or(false);
    expect(&rt, "texts of a model", are_digests);
}
