//! What is told of a test of a run.

ghost use Rattle.std.specs.Prelude.{◌≡◌};

use crate::rows::expect;
use inputs::{Asked, Models, Stage, Test, Timer, Trouble};
use outcome::{Fate, Form, Told};
use std::alloc::{AllocError, Global};
use std::rt::Files;
use std::thread::Threads;
use suite::Patience;

/// Load buffering: `rc11.cat` allows no execution with the proposition, and `stdlib.cat`, which has no check, one of four.
const LB: &str =
    "C LB\n{}\nP0 (atomic_int* x, atomic_int* y) { int r0 = atomic_load_explicit(x, memory_order_relaxed); atomic_store_explicit(y, 1, memory_order_relaxed); }\nP1 (atomic_int* x, atomic_int* y) { int r0 = atomic_load_explicit(y, memory_order_relaxed); atomic_store_explicit(x, 1, memory_order_relaxed); }\nexists (0:r0=1 /\\ 1:r0=1)\n";

/// Someone whose patience is over at once, or never is, and whose clock stands at 7.
#[derive(Drop)]
struct Waits {
    is_over: bool,
    gives_up: bool,
}

impl Patience for Waits {
    fn is_over(&mut self) -> bool {
        self.is_over
    }
}

impl Timer for Waits {
    ghost is_last = { λ w. w.gives_up };

    ghost may_tell = { λ w ms. ms ≡ 7 };

    fn milliseconds(&self) -> u64 {
        7
    }

    fn gives_up(&self) -> bool {
        self.gives_up
    }
}

/// How far a test is, in a word.
fn word_of(stage: Stage) -> &'static str {
    match stage {
        Stage::Waiting => "waiting",
        Stage::Done(Fate::Judged) => "judged",
        Stage::Done(Fate::Refused) => "refused",
        Stage::Done(Fate::Unread) => "unread",
        Stage::Lost => "lost",
    }
}

/// A test of this text, which waits.
fn waiting(alloc: Global, text: &str) -> Result<Test<'static>, AllocError> {
    Ok(Test {
        path: "a.litmus",
        text: Vec::from_slice(alloc, text.as_bytes())?,
        stage: Stage::Waiting,
        told: Told::new(alloc),
    })
}

/// The two models.
fn both<R: Files + Eprint + AllocGlobal>(rt: &R) -> Result<Models, Trouble> {
    let mut models = Models::new(rt.alloc());
    models.add(rt, "rc11.cat", &[])?;
    models.add(rt, "stdlib.cat", &[])?;
    Ok(models)
}

/// How far a test is, what is printed of it, and what is told on standard error.
fn shown(alloc: Global, test: &Test<'_>) -> Result<String, AllocError> {
    let lines = std::str::from_utf8(&test.told.lines).unwrap_or("no text");
    format!(in alloc;
        "{}\n{lines}{}",
        word_of(test.stage),
        test.told.message.as_str()
    )
}

/// What is shown of a test of this text, judged under both models by one thread.
fn told<R: Files + Eprint + AllocGlobal + Threads + Sync>(
    rt: &R,
    text: &str,
    form: Form,
    timer: Waits,
) -> Result<String, Trouble> {
    let mut timer = timer;
    let models = both(rt)?;
    let asked = Asked {
        models: &models,
        form,
        width: 8,
        keeps_rows: false,
        explains: false,
    };
    let mut test = waiting(rt.alloc(), text)?;
    test.judge(rt, rt.alloc(), &asked, 1, &mut timer);
    Ok(shown(rt.alloc(), &test)?)
}

/// Whether a test of this text is told so.
fn is_told<R: Files + Eprint + AllocGlobal + Threads + Sync>(
    rt: &R,
    text: &str,
    form: Form,
    timer: Waits,
    wanted: &str,
) -> bool {
    match &told(rt, text, form, timer) {
        Ok(told) => told.as_str() == wanted,
        Err(_) => false,
    }
}

const PATIENT: Waits = Waits {
    is_over: false,
    gives_up: true,
};

const HURRIED: Waits = Waits {
    is_over: true,
    gives_up: false,
};

const SPENT: Waits = Waits {
    is_over: true,
    gives_up: true,
};

#[test]
fn tests_are_judged(rt: HostRuntime) {
    let lines = "judged\na.litmus LB No Never 0 3\na.litmus LB Ok Sometimes 1 3\n";
    expect(&rt, "lines", is_told(&rt, LB, Form::Line, PATIENT, lines));
    let row = "judged\n* a.litmus  Never      Sometimes\n";
    expect(&rt, "row", is_told(&rt, LB, Form::Table, PATIENT, row));
}

#[test]
fn tests_are_refused(rt: HostRuntime) {
    let wanted =
        "refused\na.litmus\trc11.cat\t\t\trefused\t11 Text\t\t\t\t\t7\t\na.litmus\tstdlib.cat\t\t\trefused\t11 Text\t\t\t\t\t7\t\na.litmus:1:1: ";
    let is_told = match &told(&rt, "\u{e9}", Form::Tabs, PATIENT) {
        Ok(told) => told.as_str().starts_with(wanted),
        Err(_) => false,
    };
    expect(&rt, wanted, is_told);
}

/// What is told of a path where nothing is.
fn unread<R: Files + Input + AllocGlobal>(rt: &R) -> Result<String, AllocError> {
    let test = Test::read(rt, "nowhere/a.litmus")?;
    shown(rt.alloc(), &test)
}

#[test]
fn tests_are_not_read(rt: HostRuntime) {
    let is_told = match &unread(&rt) {
        Ok(told) => told.as_str().starts_with("unread\nnowhere/a.litmus: "),
        Err(AllocError) => false,
    };
    expect(&rt, "unread", is_told);
}

#[test]
fn late_tests(rt: HostRuntime) {
    expect(
        &rt,
        "waits",
        is_told(&rt, LB, Form::Line, HURRIED, "waiting\n"),
    );
    let told =
        "refused\na.litmus refused Late\na.litmus refused Late\na.litmus: given up: it took longer than --timeout says\n";
    expect(&rt, "given up", is_told(&rt, LB, Form::Line, SPENT, told));
}
