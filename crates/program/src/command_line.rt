//! What the words of the command line ask for.

ghost use Rattle.std.specs.Prelude.{◌≡◌, IfOk, false};
ghost use Rattle.clap.specs.Words.{FailsBy, app_of, fault_of, rule_of};
ghost use Rattle.program.specs.Words as words_of;
ghost use Rattle.program.specs.Words.{AsksFor, IsInRange, bench, texts_of};

use clap::{Arg, ArgAction, Command, Error, value_parser};
use std::alloc::{AllocError, Global};

/// The most entries of a journal where no word says otherwise, as it is written.
const JOURNAL: &str = "100000";

/// How many workers a script has where no word says otherwise, as it is written.
const WORKERS: &str = "0";

/// What the words ask for.
#[derive(Clone, Copy, Drop)]
pub enum Task {
    /// To read the input as one test.
    Alone,
    /// To read the input as a script, with a journal of at most so many entries and with so many workers.
    Script(u32, u8),
}

/// `--journal N`, which is 100,000 where the words leave it out.
fn journal<'a>(alloc: Global) -> Arg<'a>
    ensures rule { rule_of result ≡ words_of.journal }
    ensures local { result.global ≡ false }
{
    Arg::new(alloc, "journal")
        .long("journal")
        .action(ArgAction::Set)
        .value_name("N")
        .help("The most entries of the journal, 1 to 1000000")
        .value_parser(value_parser!(u32).range(1..=1_000_000))
        .default_value(JOURNAL)
}

/// `--workers N`, which is 0 where the words leave it out.
fn workers<'a>(alloc: Global) -> Arg<'a>
    ensures rule { rule_of result ≡ words_of.workers }
    ensures local { result.global ≡ false }
{
    Arg::new(alloc, "workers")
        .long("workers")
        .action(ArgAction::Set)
        .value_name("N")
        .help("The threads that work, 0 to 8; with 0 the script's own does")
        .value_parser(value_parser!(u8).range(0..=8))
        .default_value(WORKERS)
}

/// The flag `--alone`.
fn alone<'a>(alloc: Global) -> Arg<'a>
    ensures rule { rule_of result ≡ words_of.alone }
    ensures local { result.global ≡ false }
{
    Arg::new(alloc, "alone")
        .long("alone")
        .help("Read the input as one test, not as a script")
        .action(ArgAction::SetTrue)
}

/// The command that clap reads the words by.
fn command<'a>(alloc: Global) -> Result<Command<'a>, AllocError>
    ensures { IfOk result (λ c. app_of c ≡ bench) }
{
    Command::new(alloc, "bench")
        .about("Evaluates litmus tests")
        .arg(journal(alloc))?
        .arg(workers(alloc))?
        .arg(alone(alloc))
}

/// What the words of a command line ask for, as clap reads them. The first word is the program's name.
///
/// The journal has 1 to 1,000,000 entries, and 100,000 if no word says otherwise; the workers are 0 to 8, and 0 if no word does.
///
/// # Errors
///
/// A word that clap doesn't know, `--journal` or `--workers` with no value or with no number in its range, and an
/// argument that is given twice each have their kind, as has `--help`, whose text the error holds.
/// Memory may run out at any words.
pub fn read_task(alloc: Global, words: &[String]) -> Result<Task, Error>
    ensures task { IfOk result (AsksFor (texts_of words.now)) }
    ensures range { IfOk result IsInRange }
    ensures kinds { FailsBy (fault_of bench (texts_of words.now)) result }
{
    let matches = command(alloc)?.try_get_matches_from(words)?;
    if matches.get_flag("alone") {
        return Ok(Task::Alone);
    }
    let journal = matches.get_one::<u32>("journal").unwrap();
    let workers = matches.get_one::<u8>("workers").unwrap();
    Ok(Task::Script(journal, workers))
}
