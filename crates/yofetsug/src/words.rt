//! The words of the command line.

use clap::{Arg, ArgAction, ArgMatches, Command, Error, value_parser};
use outcome::Form;
use std::alloc::{AllocError, Global};

/// The models where none is named.
const MODELS: [&str; 1] = ["rc11.cat"];

/// What the words ask for.
#[derive(Clone, Copy)]
pub struct Words<'a> {
    pub models: &'a [&'a str],
    pub folders: &'a [&'a str],
    pub form: Form,
    /// Whether an execution is shown that shows why.
    pub why: bool,
    /// Where such executions are written for Graphviz.
    pub dot: Option<&'a str>,
    pub expected: Option<&'a str>,
    pub write_expected: Option<&'a str>,
    /// Rows that were found before, which are compared in place of tests that are judged.
    pub found: Option<&'a str>,
    /// How many threads judge, if it is said.
    pub threads: Option<u32>,
    /// After how many seconds a test is given up, if it is said.
    pub timeout: Option<u32>,
    pub tests: &'a [&'a str],
}

/// What stands behind a word.
enum Value {
    /// Nothing.
    None,
    /// One of these; the word is given once.
    One(&'static str),
    /// One of these, each time that the word is given.
    Each(&'static str),
    /// A file of rows that were found before.
    Found,
    /// A number from 1 on, up to this one.
    Number(&'static str, i64),
    /// What stands there is a test, and no word before it.
    Test,
}

/// A word: its name, its letter if it has one, what stands behind it, and what the help tells of it.
struct Word {
    name: &'static str,
    letter: Option<char>,
    value: Value,
    help: &'static str,
}

/// The words for models, and for what is printed of a test.
static FORMS: [Word; 6] = [
    Word {
        name: "model",
        letter: Some('m'),
        value: Value::Each("MODEL"),
        help: "A cat file, or rc11.cat, which is built in and the default; several make a table",
    },
    Word {
        name: "include",
        letter: Some('I'),
        value: Value::Each("DIR"),
        help: "A folder to look in for the files that models include",
    },
    Word {
        name: "quiet",
        letter: Some('q'),
        value: Value::None,
        help: "One line a test: path, name, Ok or No, how often, counts, flags",
    },
    Word {
        name: "tsv",
        letter: None,
        value: Value::None,
        help: "A line for each test and model, fields between tabs",
    },
    Word {
        name: "json",
        letter: None,
        value: Value::None,
        help: "A line of JSON for each test and model",
    },
    Word {
        name: "why",
        letter: None,
        value: Value::None,
        help: "Show an execution that is allowed, or why the one asked for is not",
    },
];

/// The words for what is written to files, for how tests are judged, and the tests.
static OTHERS: [Word; 7] = [
    Word {
        name: "dot",
        letter: None,
        value: Value::One("FILE"),
        help: "Write these executions to a file for Graphviz",
    },
    Word {
        name: "expected",
        letter: Some('e'),
        value: Value::One("FILE"),
        help: "Compare with stored lines; ends with 3 where something differs",
    },
    Word {
        name: "write-expected",
        letter: None,
        value: Value::One("FILE"),
        help: "Store what is found, for -e",
    },
    Word {
        name: "found",
        letter: None,
        value: Value::Found,
        help: "Compare these lines of --tsv or --write-expected, and judge nothing",
    },
    Word {
        name: "threads",
        letter: Some('j'),
        value: Value::Number("N", 64),
        help: "How many threads judge; else one for each processor, up to 8",
    },
    Word {
        name: "timeout",
        letter: None,
        value: Value::Number("S", 1_000_000),
        help: "Give a test up after so many seconds, and go on",
    },
    Word {
        name: "test",
        letter: None,
        value: Value::Test,
        help: "Test files; folders; @FILE, a list of paths; - for standard input",
    },
];

/// The argument that a word is.
fn argument<'a>(alloc: Global, word: &Word) -> Result<Arg<'a>, AllocError> {
    let mut arg = Arg::new(alloc, word.name).help(word.help);
    if let Some(letter) = word.letter {
        arg = arg.short(letter);
    }
    match word.value {
        Value::None => Ok(arg.long(word.name).action(ArgAction::SetTrue)),
        Value::One(name) => Ok(with_value(arg, word, name)),
        Value::Each(name) => Ok(with_value(arg, word, name).action(ArgAction::Append)),
        Value::Found => with_value(arg, word, "FILE")
            .requires_arg("expected")?
            .conflicts_with("test"),
        Value::Number(name, most) => {
            Ok(with_value(arg, word, name).value_parser(value_parser!(u32).range(1..=most)))
        }
        Value::Test => arg
            .action(ArgAction::Append)
            .value_name("TEST")
            .required_unless_present("found"),
    }
}

/// The argument of a word with one value behind it, which the help calls by this name.
fn with_value<'a>(arg: Arg<'a>, word: &Word, name: &'static str) -> Arg<'a> {
    arg.long(word.name).action(ArgAction::Set).value_name(name)
}

/// The arguments that the words are.
fn arguments<'a>(alloc: Global) -> Result<Vec<Arg<'a>>, AllocError> {
    let mut arguments = Vec::new(alloc);
    for word in FORMS.iter().chain(&OTHERS) {
        arguments.push(argument(alloc, word)?)?;
    }
    Ok(arguments)
}

/// The words as clap reads them. The first is the program's name.
pub fn read_words<'a>(alloc: Global, words: &'a [String]) -> Result<ArgMatches<'a>, Error> {
    let arguments = arguments(alloc)?;
    Command::new(alloc, "yofetsug")
        .about("Judges C litmus tests under cat memory models; its verdicts are proved")
        .version("0.1.0")
        .args(arguments)?
        .try_get_matches_from(words)
}

/// What is asked for by the words that clap found.
pub fn words_of<'a>(matches: &'a ArgMatches<'_>) -> Words<'a> {
    let models = matches.get_strs("model").unwrap_or(&MODELS);
    Words {
        models,
        folders: matches.get_strs("include").unwrap_or(&[]),
        form: form_of(matches, models.len() > 1),
        why: matches.get_flag("why"),
        dot: matches.get_str("dot"),
        expected: matches.get_str("expected"),
        write_expected: matches.get_str("write-expected"),
        found: matches.get_str("found"),
        threads: matches.get_one::<u32>("threads"),
        timeout: matches.get_one::<u32>("timeout"),
        tests: matches.get_strs("test").unwrap_or(&[]),
    }
}

/// The form that is asked for, where there are several models or not.
fn form_of(matches: &ArgMatches<'_>, are_several: bool) -> Form {
    if matches.get_flag("json") {
        Form::Json
    } else if matches.get_flag("tsv") {
        Form::Tabs
    } else if are_several {
        Form::Table
    } else if matches.get_flag("quiet") {
        Form::Line
    } else {
        Form::Summary
    }
}
