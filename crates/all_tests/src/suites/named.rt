//! The tests and the models that words name. What lies in files is tried by tools/suite-of-files, since a test has none.

use crate::rows::expect;
use inputs::{Models, Paths, Trouble, read_front};
use std::alloc::AllocError;
use std::rt::Files;

/// Whether these are the paths of the tests that the words name, a line each, behind them what is told of other paths, and the width of their column.
fn are_named<R: Files + AllocGlobal + Clone + Drop>(
    rt: &R,
    words: &[&str],
    told: &str,
    width: usize,
) -> Result<bool, AllocError> {
    let mut paths = Paths::new(rt.alloc());
    paths.find(rt, words)?;
    let mut text = String::new(rt.alloc());
    for path in paths.tests.paths() {
        writeln!(text, "{}", path.as_str())?;
    }
    for message in &paths.unread {
        text.push_str(message.as_str())?;
    }
    Ok(text.as_str() == told && paths.tests.width() == width)
}

#[test]
fn tests_are_named(rt: HostRuntime) {
    let told = "-\nb.litmus\na\tb: its path has a tab or a line feed\n";
    let are_named = are_named(&rt, &["-", "b.litmus", "a\tb"], told, 8);
    expect(&rt, told, are_named.unwrap_or(false));
}

/// Whether the built-in model is found by its word, and is told by that.
fn is_built_in<R: Files + Eprint + AllocGlobal>(rt: &R) -> Result<bool, Trouble> {
    let mut models = Models::new(rt.alloc());
    models.add(rt, "rc11.cat", &[])?;
    let case = models.case("a.litmus", 0);
    Ok(
        models.models().len() == 1
            && models.names().len() == 1
            && case.path == "a.litmus"
            && case.model == "rc11.cat"
            && case.digests.is_empty(),
    )
}

#[test]
fn models_are_named(rt: HostRuntime) {
    expect(&rt, "rc11.cat", is_built_in(&rt).unwrap_or(false));
}

#[test]
fn fronts(rt: HostRuntime) {
    let is_front = match &read_front(rt.alloc(), b"C SB".as_slice()) {
        Ok(text) => text.as_slice() == b"C SB".as_slice(),
        Err(_) => false,
    };
    expect(&rt, "C SB", is_front);
}
