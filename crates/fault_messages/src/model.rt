//! Why files give no model.

ghost use Rattle.std.specs.Prelude.{IfOk};
ghost use Rattle.std.specs.String.{string_bytes};
ghost use Rattle.cat_model.specs.Labels.{model_label};
ghost use Rattle.fault_messages.specs.Told.{IsMessage, TellsModel};

use crate::words::{nearest, shown, with_meant};
use cat_model::ModelFault;
use cat_places::{Source, place_of};
use places::{is_word, message_at, message_without_place, spelled};
use std::alloc::{AllocError, Global};
use wb_text::{Dialect, TextFault, tokens};

/// The sets and relations that a model has beforehand, and its function.
const BEFOREHAND: [&str; 37] = [
    "W", "R", "M", "F", "IW", "FW", "I", "A", "NA", "RLX", "ACQ", "REL", "ACQ_REL", "SC", "RMW",
    "po", "int", "ext", "loc", "po-loc", "rf", "co", "fr", "rfi", "coi", "fri", "rfe", "coe",
    "fre", "rmw", "data", "ctrl", "addr", "id", "fencerel", "domain", "range",
];

/// Why the files of a model give none, in the file that has the first place at which they break the rule. The first file is the root, and
/// `word` is what named it.
pub fn model_fault(
    alloc: Global,
    word: &str,
    sources: &[Source],
    fault: &ModelFault,
) -> Result<String, AllocError>
    ensures { IfOk result (λ s. TellsModel word.now sources.now fault.now (string_bytes s)) }
{
    let sentence = sentence(alloc, sources, fault)?;
    match place_of(alloc, sources, fault)? {
        Some(place) => message_in(alloc, &sources[place.0], place.1, fault, sentence.as_str()),
        None => message_without_place(alloc, word, fault.label(), sentence.as_str()),
    }
}

/// What is told at an offset of a file.
fn message_in(
    alloc: Global,
    source: &Source,
    offset: usize,
    fault: &ModelFault,
    sentence: &str,
) -> Result<String, AllocError>
    ensures { IfOk result (λ s. IsMessage (string_bytes source.now.path) source.now.text.items (model_label fault.now) offset (string_bytes s)) }
{
    message_at(
        alloc,
        source.path.as_str(),
        &source.text,
        offset,
        fault.label(),
        sentence,
    )
}

/// What is wrong, and what to do.
fn sentence(alloc: Global, sources: &[Source], fault: &ModelFault) -> Result<String, AllocError> {
    match fault {
        ModelFault::Unbound(name) => unbound_sentence(alloc, sources, name.bytes()),
        ModelFault::NoInclude(name) => {
            let name = shown(name.bytes());
            format!(in alloc;
                "{name} isn't there; put it beside the file that includes it, or name its folder by -I"
            )
        }
        ModelFault::IncludeCycle(name) => {
            let name = shown(name.bytes());
            format!(in alloc; "{name} includes itself, or is included by what it includes")
        }
        ModelFault::WrongSort(name) => {
            let name = shown(name.bytes());
            format!(in alloc;
                "at {name} a set stands where a relation is wanted, or the other way round, or a call is wrong; [s] makes a relation of a set, domain(r) and range(r) make sets, and functions alone are called, with as many arguments as they have, as in fencerel(F)"
            )
        }
        ModelFault::NotMonotone(name) => {
            let name = shown(name.bytes());
            format!(in alloc;
                "{name} is bound by this let rec, and may not stand under ~ or right of \\ in it"
            )
        }
        _ => String::from_str(alloc, limit_sentence(fault)),
    }
}

/// What is wrong that has no name.
fn limit_sentence(fault: &ModelFault) -> &'static str {
    match fault {
        ModelFault::NoCat(_) => "no such file, and no built-in model: rc11.cat is one",
        ModelFault::FlagWithoutName => {
            "a flagged check wants a name, as in flag ~empty race as data-race"
        }
        ModelFault::ModelTooLarge => {
            "here are more than 4096 items, or includes nest more than 16 deep"
        }
        ModelFault::CallsTooLarge(_) => {
            "with calls replaced by the functions' bodies there are more than 65536 nodes, or they stand more than 64 deep in one another"
        }
        _ => "memory ran out",
    }
}

/// What may be meant by a name that is bound nowhere before.
fn unbound_sentence(alloc: Global, sources: &[Source], name: &[u8]) -> Result<String, AllocError> {
    let word = shown(name);
    let mut meant = nearest(alloc, word, &BEFOREHAND)?;
    for source in sources {
        let names = names_in(alloc, &source.text)?;
        if let Some(other) = nearest(alloc, word, &names)? {
            meant = Some(other);
        }
    }
    let sentence = format!(in alloc; "{word} is bound nowhere before")?;
    with_meant(alloc, sentence, meant)
}

/// The words that stand in a cat text behind `let`, `rec` or `and`.
fn names_in(alloc: Global, text: &[u8]) -> Result<Vec<&str>, AllocError> {
    let mut names = Vec::new(alloc);
    match tokens(alloc, text, Dialect::Cat) {
        Ok(tokens) => {
            let mut binds = false;
            for token in &tokens {
                let word = spelled(text, token);
                if binds && is_word(token) && word != b"rec".as_slice() {
                    names.push(shown(word))?;
                }
                binds = matches!(word, b"let" | b"rec" | b"and");
            }
            return Ok(names);
        }
        Err(TextFault::NoMemory) => return Err(AllocError),
        Err(_found) => return Ok(names),
    }
}
