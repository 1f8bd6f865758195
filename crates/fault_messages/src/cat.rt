//! Why a text is no cat file.

ghost use Rattle.std.specs.Prelude.{IfOk};
ghost use Rattle.std.specs.String.{string_bytes};
ghost use Rattle.fault_messages.specs.Told.{TellsCat};

use crate::text::text_trouble;
use crate::words::{Row, is_among, nearest_in, shown, told_of};
use cat_places::{Source, place_of_text};
use cat_syntax::CatFault;
use places::{message_at, message_without_place, token_at};
use std::alloc::{AllocError, Global};
use wb_text::{Dialect, TextFault, tokens};

/// Why a text is no cat file, at the first place at which it breaks the rule.
pub fn cat_trouble(alloc: Global, source: &Source, fault: &CatFault) -> Result<String, AllocError>
    ensures { IfOk result (λ s. TellsCat (string_bytes source.now.path) source.now.text.items fault.now (string_bytes s)) }
{
    let (path, text) = (source.path.as_str(), source.text.as_slice());
    if let CatFault::Text(cause) = fault {
        return text_trouble(alloc, path, text, Dialect::Cat, fault.label(), *cause);
    }
    let sentence = sentence(alloc, text, fault)?;
    match place_of_text(alloc, text, fault)? {
        Some(offset) => message_at(alloc, path, text, offset, fault.label(), sentence.as_str()),
        None => message_without_place(alloc, path, fault.label(), sentence.as_str()),
    }
}

/// What is wrong, and what to do.
fn sentence(alloc: Global, text: &[u8], fault: &CatFault) -> Result<String, AllocError> {
    match fault {
        CatFault::Syntax(offset) => syntax_sentence(alloc, text, *offset),
        CatFault::Unsupported(word) => left_out_sentence(alloc, word.bytes()),
        CatFault::TooDeep => String::from_str(
            alloc,
            "this would nest 65 deep, and parentheses, brackets and ~ nest at most 64; bind a part by let",
        ),
        CatFault::TooLarge => String::from_str(
            alloc,
            "with this the file has more than 4096 names, operators and items; part it by include",
        ),
        _ => String::from_str(alloc, "memory ran out"),
    }
}

/// What is wrong with a token that nothing takes.
fn syntax_sentence(alloc: Global, text: &[u8], offset: usize) -> Result<String, AllocError> {
    match tokens(alloc, text, Dialect::Cat) {
        Ok(tokens) => match token_at(text, &tokens, offset) {
            Some(token) => return misplaced(alloc, token),
            None => {
                return String::from_str(
                    alloc,
                    "the file ends here, where more is wanted; docs/MODELS.md has the grammar",
                );
            }
        },
        Err(TextFault::NoMemory) => return Err(AllocError),
        Err(_found) => return String::from_str(alloc, "this can't stand here"),
    }
}

/// The words with which items of a model begin, or that stand between their parts.
const KEYWORDS: &str = "let rec and acyclic irreflexive empty include show unshow flag as";

/// What helps with a quoted text that nothing takes.
const QUOTED: &str =
    "a quoted text is the model's title or, after include, names a file that is there: beside this one, or in a folder of -I";

/// What helps with any other token that nothing takes.
const GRAMMAR: &str = "docs/MODELS.md has the grammar";

/// What is told of a token that nothing takes.
fn misplaced(alloc: Global, token: &[u8]) -> Result<String, AllocError> {
    let word = shown(token);
    if !is_among(KEYWORDS, token) {
        if let Some(known) = nearest_in(alloc, word, &[KEYWORDS])? {
            return format!(in alloc; "{word} can't stand here; did you mean {known}?");
        }
    }
    let help = if word.starts_with('"') {
        QUOTED
    } else {
        GRAMMAR
    };
    format!(in alloc; "{word} can't stand here; {help}")
}

/// Words that models leave out, with the whole sentence.
const SENTENCES: [Row; 2] = [
    ("++", "++ is left out; write | for a union"),
    (
        "with from",
        "with .. from is left out; co is there beforehand, and needs no choice",
    ),
];

/// Words that models leave out, with what stands behind the word.
const LEFT_OUT: [Row; 2] = [
    (
        "procedure call fun in",
        "is left out; bind a function by let, as in let f(x) = x ; po",
    ),
    (
        "enum instructions match if then else end forall do try begin default undefined_unless",
        "is left out; docs/MODELS.md says what is there",
    ),
];

/// What stands behind the name of a function that a let rec binds.
const FUNCTION: &str =
    "is a function of a let rec, which is left out; write it without rec, or without parameters";

/// What stands for a word that models leave out.
fn left_out_sentence(alloc: Global, word: &[u8]) -> Result<String, AllocError> {
    if let Some(sentence) = told_of(&SENTENCES, word) {
        return String::from_str(alloc, sentence);
    }
    let (name, behind) = (shown(word), told_of(&LEFT_OUT, word).unwrap_or(FUNCTION));
    format!(in alloc; "{name} {behind}")
}
