//! What is told of a text, and of the files of a model.

use crate::names::name;
use crate::rows::{Answer, is_answer};
use cat_model::{Files, ModelFault, resolve};
use cat_syntax::{CatFault, CatFile, read_cat};
use fault_messages::{Source, cat_trouble, model_fault, test_fault};
use litmus_c::read_test;
use std::alloc::{AllocError, Global};
use std::process::Abort;

/// What is told of a text of any bytes that is no test, or an empty text of one that is.
pub fn told_of_test(alloc: Global, text: &[u8]) -> Result<String, AllocError> {
    match read_test(alloc, text).err() {
        Some(fault) => test_fault(alloc, "t.litmus", text, &fault),
        None => Ok(String::new(alloc)),
    }
}

/// What is told of a text.
pub fn told_of_text(alloc: Global, text: &str) -> Result<String, AllocError> {
    told_of_test(alloc, text.as_bytes())
}

fn holds(alloc: Global, row: &str, answer: Answer) -> bool
    requires { IsAlwaysCallable answer }
{
    match row.split_once("----\n") {
        Some((given, message)) => is_answer(alloc, given, message, answer),
        None => false,
    }
}

/// Fails with the first row that doesn't hold: rows of a text, or of the files of a model, `----` and its message, with `====` between them.
/// Each of the two signs has a line end behind it, and stands where what is before it ends.
pub fn all_are_told(rt: &impl Abort, alloc: Global, name: &str, rows: &str, answer: Answer)
    requires { IsAlwaysCallable answer }
{
    for row in rows.split("====\n") {
        assert!(rt; holds(alloc, row, answer), "{name}: {row}");
    }
}

/// A file of a model: a line with its name, and its text.
fn source(alloc: Global, file: &str) -> Result<Source, AllocError> {
    match file.split_once('\n') {
        Some((word, text)) => Ok(Source {
            name: name(alloc, word.as_bytes())?,
            path: String::from_str(alloc, word)?,
            text: Vec::from_slice(alloc, text.as_bytes())?,
        }),
        None => Err(AllocError),
    }
}

/// The files of a model, the root first, with `++++` between them.
fn sources(alloc: Global, files: &str) -> Result<Vec<Source>, AllocError> {
    let mut sources = Vec::new(alloc);
    for file in files.split("++++\n") {
        sources.push(source(alloc, file)?)?;
    }
    Ok(sources)
}

fn put(alloc: Global, files: &mut Files, word: &str, file: CatFile) -> Result<(), AllocError> {
    let name = name(alloc, word.as_bytes())?;
    if files.version(&name) > 0 {
        return Err(AllocError);
    }
    match files.put(name, 1, file) {
        Ok(()) => Ok(()),
        Err(_) => Err(AllocError),
    }
}

/// Puts each of the files, or tells of the first that is no cat file.
fn put_all(
    alloc: Global,
    files: &mut Files,
    sources: &[Source],
) -> Result<Option<String>, AllocError> {
    for source in sources {
        match read_cat(alloc, &source.text) {
            Ok(file) => put(alloc, files, source.path.as_str(), file)?,
            Err(CatFault::NoMemory) => return Err(AllocError),
            Err(fault) => return Ok(Some(cat_trouble(alloc, source, &fault)?)),
        }
    }
    Ok(None)
}

/// What is told of the model of a root, or nothing.
fn told_of_root(
    alloc: Global,
    files: &Files,
    root: &Source,
    sources: &[Source],
) -> Result<String, AllocError> {
    match resolve(alloc, files, &root.name).err() {
        Some(ModelFault::NoMemory) => Err(AllocError),
        Some(fault) => model_fault(alloc, root.path.as_str(), sources, &fault),
        None => Ok(String::new(alloc)),
    }
}

/// What is told of the first text that is no cat file, or nothing where each is one, and then of the model.
fn told_of_sources(alloc: Global, sources: &[Source]) -> Result<String, AllocError> {
    let mut files = Files::new(alloc)?;
    match (put_all(alloc, &mut files, sources)?, sources.first()) {
        (Some(told), _) => Ok(told),
        (None, Some(root)) => told_of_root(alloc, &files, root, sources),
        (None, None) => Ok(String::new(alloc)),
    }
}

/// The same of the files of a model.
pub fn told_of_model(alloc: Global, texts: &str) -> Result<String, AllocError> {
    let sources = sources(alloc, texts)?;
    told_of_sources(alloc, &sources)
}
