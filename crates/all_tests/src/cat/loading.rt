//! Files with texts, and what is to hold of them. What is refused for want of memory is made again.

use crate::cat::judging::{Fact, fact_of, says};
use crate::cat::opened::is_opened;
use crate::cat::refuting::{is_excerpt_known, is_known};
use crate::names::name;
use crate::rows::{again, expanded};
use cat_eval::is_orderless;
use cat_model::{Files, Model, ModelFault, resolve};
use cat_syntax::{CatFault, CatFile, read_cat};
use std::alloc::{AllocError, Global};
use std::process::Abort;
use wb_text::Name;

/// The model that a text spells.
pub fn read(alloc: Global, text: &str) -> Result<CatFile, AllocError> {
    match again!(CatFault::NoMemory, read_cat(alloc, text.as_bytes())) {
        Ok(file) => Ok(file),
        Err(_) => Err(AllocError),
    }
}

/// The model that the text of a row spells.
pub fn spelled(alloc: Global, text: &str) -> Result<CatFile, AllocError> {
    let whole = again!(_, expanded(alloc, text))?;
    read(alloc, whole.as_str())
}

/// What a file under a name is: its version, whether it is loaded, and how many items are to be put.
fn state(files: &Files, name: &Name, file: &CatFile) -> (u32, bool, usize) {
    (
        files.version(name),
        files.is_loaded(name),
        file.items().len(),
    )
}

/// Puts a file under a name at the next version, unless that is handed back.
fn put_once(files: &mut Files, name: Name, file: CatFile) -> Result<(), (Name, CatFile)> {
    let version = files.version(&name);
    if version == u32::MAX {
        return Err((name, file));
    }
    match files.put(name, version + 1, file) {
        Ok(()) => Ok(()),
        Err((name, file, _)) => Err((name, file)),
    }
}

/// Puts a file under a name at the next version. A refused call hands it back and leaves things as they were.
fn put_next(files: &mut Files, name: Name, file: CatFile) -> bool {
    let before = state(files, &name, &file);
    match put_once(files, name, file) {
        Ok(()) => true,
        Err((name, file)) => {
            let same = state(files, &name, &file) == before;
            put_once(files, name, file).is_ok() && same
        }
    }
}

/// Puts the text of a row under a name, at the next version.
pub fn put(alloc: Global, files: &mut Files, word: &str, text: &str) -> Result<bool, AllocError> {
    let name = name(alloc, word.as_bytes())?;
    let file = spelled(alloc, text)?;
    Ok(put_next(files, name, file))
}

/// A model as text: how many items it has, and the files with their versions.
fn shown(alloc: Global, model: &Model) -> Result<String, AllocError> {
    let mut text = format!(in alloc; "{}", model.items().len())?;
    for file in model.files() {
        write!(text, " {} {}", file.name, file.version)?;
    }
    Ok(text)
}

/// The files as text: those that were put, in order, with the versions of those that are loaded.
fn shown_files(alloc: Global, files: &Files) -> Result<String, AllocError> {
    let mut text = String::from_str(alloc, "put")?;
    for place in 0..64 {
        match files.name_at(place) {
            Some(name) if files.is_loaded(name) => {
                write!(text, " {name} {}", files.version(name))?;
            }
            Some(_) => text.push_str(" none")?,
            None => return Ok(text),
        }
    }
    Ok(text)
}

/// Whether a model's copy is equal to a second model of a root.
fn is_copied(alloc: Global, files: &Files, root: &Name, model: &Model) -> Result<bool, AllocError> {
    match again!(ModelFault::NoMemory, resolve(alloc, files, root)) {
        Ok(second) => Ok(again!(_, model.copy())? == second),
        Err(_) => Ok(false),
    }
}

/// Whether a fact holds of what a name is resolved to.
fn model_has(alloc: Global, model: &Model, fact: Fact) -> Result<bool, AllocError> {
    match fact {
        Fact::Answer(wanted) => Ok(again!(_, shown(alloc, model))?.as_str() == wanted),
        Fact::Files(count) => Ok(model.files().len() == count),
        Fact::Says(order, allowed, flags) => again!(_, says(alloc, model, order, allowed, flags)),
        Fact::Refutes(order, known) => is_known(alloc, model, order, known),
        Fact::RefutesExcerpt(word, known) => is_excerpt_known(alloc, model, word, known),
        Fact::Opens(order, opened, flags) => is_opened(alloc, model, order, opened, flags),
        Fact::Orderless(known) => Ok(is_orderless(model) == known),
        _ => Ok(false),
    }
}

/// Whether a fact is that a name is refused so as a root.
fn fault_is(alloc: Global, fault: &ModelFault, fact: Fact) -> Result<bool, AllocError> {
    match fact {
        Fact::Answer(wanted) => { Ok(again!(_, format!(in alloc; "{fault}"))?.as_str() == wanted) }
        _ => Ok(false),
    }
}

/// Whether a fact holds of the model of a root.
fn root_has(
    alloc: Global,
    files: &Files,
    root: &Name,
    model: &Model,
    fact: Fact,
) -> Result<bool, AllocError> {
    match fact {
        Fact::Copied => is_copied(alloc, files, root, model),
        _ => model_has(alloc, model, fact),
    }
}

/// Whether a fact holds of what `resolve` answers for a root.
fn resolves(alloc: Global, files: &Files, root: &Name, fact: Fact) -> Result<bool, AllocError> {
    match again!(ModelFault::NoMemory, resolve(alloc, files, root)) {
        Ok(model) => root_has(alloc, files, root, &model, fact),
        Err(fault) => fault_is(alloc, &fault, fact),
    }
}

/// Takes a file away, if it is loaded and a version is left.
fn remove(files: &mut Files, name: &Name) -> bool {
    if !files.is_loaded(name) {
        return false;
    }
    let version = files.version(name);
    if version == u32::MAX {
        return false;
    }
    files.remove(name, version + 1);
    true
}

/// Whether a file can be taken away, and then not once more.
fn is_removed_once(files: &mut Files, name: &Name) -> bool {
    let first = remove(files, name);
    let second = remove(files, name);
    first && !second
}

/// Whether a name stands for what a text is read as.
fn holds_text(alloc: Global, files: &Files, name: &Name, text: &str) -> Result<bool, AllocError> {
    let wanted = read(alloc, text)?;
    match files.get(name) {
        Some(file) => Ok(*file == wanted),
        None => Ok(false),
    }
}

/// Whether a fact holds of a name.
fn has(alloc: Global, files: &mut Files, name: &Name, fact: Fact) -> Result<bool, AllocError> {
    match fact {
        Fact::Text(text) => holds_text(alloc, files, name, text),
        Fact::Removed => Ok(is_removed_once(files, name)),
        Fact::Put(wanted) => Ok(again!(_, shown_files(alloc, files))?.as_str() == wanted),
        _ => resolves(alloc, files, name, fact),
    }
}

/// Whether that holds of a name, in words.
fn is_so_of(alloc: Global, files: &mut Files, word: &str, words: &str) -> Result<bool, AllocError> {
    let name = name(alloc, word.as_bytes())?;
    has(alloc, files, &name, fact_of(words))
}

/// Takes a step among files: `name: text` puts a text under a name at the next version, and `name ==> words` says what holds of
/// a name. One that begins with `#` is a heading.
fn take(alloc: Global, files: &mut Files, step: &str) -> Result<bool, AllocError> {
    if let Some((name, words)) = step.split_once(" ==> ") {
        return is_so_of(alloc, files, name, words);
    }
    match step.split_once(": ") {
        Some((name, text)) => put(alloc, files, name, text),
        None => Ok(step.starts_with('#')),
    }
}

/// Takes the steps of a script among files, in order.
fn take_all(rt: &impl Abort, alloc: Global, files: &mut Files, name: &str, script: &str) {
    for step in script.split("\n- ") {
        assert!(rt; take(alloc, files, step) == Ok(true), "{name}: {step}");
    }
}

/// Takes the steps of a script of this name, at first among the built-in files alone, and fails at the first that doesn't hold.
pub fn follow(rt: &impl Abort, alloc: Global, name: &str, script: &str) {
    match again!(_, Files::new(alloc)) {
        Ok(mut files) => take_all(rt, alloc, &mut files, name, script),
        Err(AllocError) => panic!(rt; "{name}"),
    }
}

/// Puts one file of this text, and says whether that holds of it.
fn put_and_has(
    alloc: Global,
    files: &mut Files,
    text: &str,
    words: &str,
) -> Result<bool, AllocError> {
    Ok(put(alloc, files, "main.cat", text)? && is_so_of(alloc, files, "main.cat", words)?)
}

/// Whether that holds of one file of a text.
pub fn is_so(alloc: Global, text: &str, words: &str) -> Result<bool, AllocError> {
    let mut files = again!(_, Files::new(alloc))?;
    put_and_has(alloc, &mut files, text, words)
}
