//! Scripts of calls of a book.
//!
//! Only `is_played` owns a book: each drop of a book makes a proof longer.

ghost use Rattle.std.specs.Prelude.{◌<◌, IfOk};

use crate::cases::{limits_of, sink};
use crate::desk::commands::{claim_of, command_of, give, head_of};
use crate::desk::works::{whole_part, work_of};
use crate::rows::again;
use book::{Book, Command, Limits, Reply};
use report::write_reply;
use std::alloc::{AllocError, Global};
use wb_text::MemSink;

/// One thread that does nothing.
const EMPTY: &[u8] = b"C E\n{ x; }\nP0 () {}\nexists (x=0)\n";

pub fn new_book(alloc: Global, limits: Limits) -> Result<Book, AllocError> {
    again!(AllocError, Book::new(alloc, limits))
}

/// The reply that gives the piece of a claim.
fn piece_of(book: &Book, claim: u32) -> Option<&Reply> {
    for entry in book.journal() {
        if matches!(entry.reply(), Reply::Piece(piece) if piece.claim() == claim) {
            return Some(entry.reply());
        }
    }
    None
}

/// Makes a call, and gives the command that comes back where it is refused.
pub fn refused(book: &mut Book, seat: u8, command: Command) -> Option<Command>
    requires { seat < 64 }
{
    match book.apply(seat, command) {
        Ok(_) => None,
        Err((command, _)) => Some(command),
    }
}

/// Makes a call. One that is refused for memory leaves the journal as it was and hands the command back, which then gets
/// its own answer.
pub fn call(book: &mut Book, seat: u8, command: Command) -> bool
    requires { seat < 64 }
{
    let place = book.journal().len();
    match refused(book, seat, command) {
        None => true,
        Some(command) => {
            let same = book.journal().len() == place;
            refused(book, seat, command).is_none() && same
        }
    }
}

/// The return of a result of another book, whose first piece is of another test.
fn foreign(alloc: Global) -> Result<Command, AllocError> {
    let work = work_of(alloc, EMPTY, b"stdlib.cat")?;
    Ok(Command::Return(whole_part(alloc, &work)?))
}

/// The seat and the command of a call of a script. A claim of 0 is another book's.
pub fn call_of(alloc: Global, book: &Book, call: &str) -> Result<(u8, Command), AllocError>
    ensures { IfOk result (λ r. r.0 < 8) }
{
    let (seat, head, text) = head_of(alloc, call)?;
    let command = match claim_of(&head) {
        Some(0) => foreign(alloc)?,
        Some(claim) => give(alloc, piece_of(book, claim))?,
        None => command_of(alloc, head, text)?,
    };
    Ok((seat, command))
}

/// Makes a call of a script, and says whether that was done.
fn make(alloc: Global, book: &mut Book, line: &str) -> bool {
    match call_of(alloc, book, line) {
        Ok((seat, command)) => call(book, seat, command),
        Err(AllocError) => false,
    }
}

/// Makes the calls of a script, and says whether that was done.
pub fn play(alloc: Global, book: &mut Book, script: &str) -> bool {
    for call in script.split("> ").skip(1) {
        if !make(alloc, book, call) {
            return false;
        }
    }
    true
}

/// Prints all replies.
fn tell(book: &Book, writer: &mut MemSink) -> bool {
    for entry in book.journal() {
        if write_reply(entry.reply(), writer).is_err() {
            return false;
        }
    }
    true
}

/// Whether all replies are printed so.
fn are_told(alloc: Global, book: &Book, wanted: &str) -> bool {
    match sink(alloc, 8192) {
        Ok(mut writer) => tell(book, &mut writer) && writer.bytes() == wanted.as_bytes(),
        Err(AllocError) => false,
    }
}

/// Whether the calls of a script can be made at an empty book with the limits that a call of a row names, and are answered so.
pub fn is_played(alloc: Global, call: &str, script: &str, wanted: &str) -> bool {
    match new_book(alloc, limits_of(call)) {
        Ok(mut book) => play(alloc, &mut book, script) && are_told(alloc, &book, wanted),
        Err(AllocError) => false,
    }
}
