//! The last line of a run.

ghost use Rattle.std.specs.Prelude.{◌≡◌, ◌++◌, IfOk, OnOk};
ghost use Rattle.outcome.specs.Counts as texts;

use crate::form::Form;
use itoa::Buffer;
use std::alloc::{AllocError, Global};

/// What became of a test.
#[derive(Clone, Copy)]
pub enum Fate {
    Judged,
    Refused,
    Unread,
}

/// How a run ends.
#[derive(Clone, Copy, Debug, PartialEq, Eq)]
pub enum Status {
    /// Nothing is wrong.
    Done,
    /// A file couldn't be read or written, or memory ran out.
    Failed,
    /// A test, a model or a word was refused.
    Refused,
    /// Something differs from what is expected.
    Differs,
}

impl Status {
    /// The number with which the program ends.
    pub fn code(self) -> u8
        ensures { result ≡ texts.code self }
    {
        match self {
            Status::Done => 0,
            Status::Failed => 1,
            Status::Refused => 2,
            Status::Differs => 3,
        }
    }
}

/// What a run has come to: how many tests were judged, refused and not read, and how many the models tell apart.
#[derive(Clone, Copy)]
pub struct Counts {
    pub judged: u64,
    pub refused: u64,
    pub unread: u64,
    pub differing: u64,
}

/// Adds digits, a comma behind each that three, six, .. stand behind.
fn push_grouped(text: &mut Vec<u8>, digits: &[u8]) -> Result<(), AllocError>
    ensures { OnOk result (text.new.items ≡ text.old.items ++ texts.grouped digits.now) }
{
    let mut left = digits;
    while let Some((digit, rest)) = left.split_first() {
        text.push(*digit)?;
        push_comma(text, rest)?;
        left = rest;
    }
    Ok(())
}

/// Adds a comma before three, six, .. digits.
fn push_comma(text: &mut Vec<u8>, rest: &[u8]) -> Result<(), AllocError>
    ensures { OnOk result (text.new.items ≡ text.old.items ++ texts.comma_before rest.now) }
{
    if !rest.is_empty() && rest.len() % 3 == 0 {
        text.push(b',')?;
    }
    Ok(())
}

/// Adds a number, and what stands behind it.
fn push_number(text: &mut Vec<u8>, number: u128, behind: &[u8]) -> Result<(), AllocError>
    ensures { OnOk result (text.new.items ≡ text.old.items ++ texts.number_text number ++ behind.now) }
{
    let mut digits = Buffer::new();
    push_grouped(text, digits.format(number).as_bytes())?;
    text.extend_from_slice(behind)
}

/// Adds a number, and what stands before and behind it.
fn push_between(
    text: &mut Vec<u8>,
    before: &[u8],
    number: u128,
    behind: &[u8],
) -> Result<(), AllocError>
    ensures { OnOk result (text.new.items ≡ text.old.items ++ (before.now ++ (texts.number_text number ++ behind.now))) }
{
    text.extend_from_slice(before)?;
    push_number(text, number, behind)
}

impl Counts {
    /// Those of a run in which so many tests couldn't be read, and no other was tried.
    pub fn unread(tests: u64) -> Self
        ensures { result ≡ texts.unread_alone tests }
    {
        Counts {
            judged: 0,
            refused: 0,
            unread: tests,
            differing: 0,
        }
    }

    /// Counts a test, and whether the models tell it apart. A count of 2^64 - 1 stays as it is.
    pub fn count(&mut self, fate: Fate, differs: bool)
        ensures { self.new ≡ texts.counted fate differs self.old }
    {
        match fate {
            Fate::Judged => self.judged = self.judged.saturating_add(1),
            Fate::Refused => self.refused = self.refused.saturating_add(1),
            Fate::Unread => self.unread = self.unread.saturating_add(1),
        }
        if differs {
            self.differing = self.differing.saturating_add(1);
        }
    }

    /// The status with which a run ends whose rows differ from those that are expected, or don't, or weren't compared.
    pub fn status(&self, differs: bool) -> Status
        ensures { result ≡ texts.status differs self.now }
    {
        if differs {
            Status::Differs
        } else if self.unread > 0 {
            Status::Failed
        } else if self.refused > 0 {
            Status::Refused
        } else {
            Status::Done
        }
    }

    /// How many tests there were.
    fn all(&self) -> u128
        ensures { result ≡ texts.all self.now }
    {
        u128::from(self.judged) + u128::from(self.refused) + u128::from(self.unread)
    }

    /// Adds how many tests were judged, refused and not read.
    fn push(&self, text: &mut Vec<u8>) -> Result<(), AllocError>
        ensures { OnOk result (text.new.items ≡ text.old.items ++ texts.counts_text self.now) }
    {
        let all = self.all();
        push_number(text, all, if all == 1 { b" test: " } else { b" tests: " })?;
        push_number(text, u128::from(self.judged), b" judged, ")?;
        push_number(text, u128::from(self.refused), b" refused, ")?;
        push_number(text, u128::from(self.unread), b" not read")
    }

    /// Adds how many tests the models tell apart.
    fn push_starred(&self, text: &mut Vec<u8>) -> Result<(), AllocError>
        ensures { OnOk result (text.new.items ≡ text.old.items ++ texts.starred_text self.now) }
    {
        let number = u128::from(self.differing);
        push_between(text, b"; the models differ in ", number, b" (*)")
    }

    /// The same where a table was printed, and else nothing.
    fn push_differing(&self, text: &mut Vec<u8>, form: Form) -> Result<(), AllocError>
        ensures { OnOk result (text.new.items ≡ text.old.items ++ texts.differing_text form self.now) }
    {
        match form {
            Form::Table => self.push_starred(text),
            _ => Ok(()),
        }
    }

    /// The last line of a run.
    pub fn line(&self, alloc: Global, form: Form) -> Result<Vec<u8>, AllocError>
        ensures { IfOk result (λ v. v.items ≡ texts.last_line form self.now) }
    {
        let mut text = Vec::new(alloc);
        self.push(&mut text)?;
        self.push_differing(&mut text, form)?;
        text.push(b'\n')?;
        Ok(text)
    }
}
