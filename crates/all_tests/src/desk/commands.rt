//! The calls of scripts, as tests make them at a book or a desk, and how replies are printed. What is refused for memory is made again.
//!
//! A script of calls is one text. Each call stands behind `> `: the seat and what is asked, as in a line of a script, and in the lines behind
//! it the text of a cat file or a test.

ghost use Rattle.std.specs.Prelude.{◌<◌, IfOk};

use crate::cases::sink;
use crate::rows::again;
use book::{Command, Reply, Text};
use report::write_reply;
use scripts::{Head, Request, read_head};
use slices::{PieceResult, evaluate};
use std::alloc::{AllocError, Global};
use wb_text::Name;

/// Store buffering.
pub const SB: &[u8] = b"C SB
{}
P0 (atomic_int* x, atomic_int* y) {
  atomic_store_explicit(x, 1, memory_order_relaxed);
  int r0 = atomic_load_explicit(y, memory_order_relaxed);
}
P1 (atomic_int* x, atomic_int* y) {
  atomic_store_explicit(y, 1, memory_order_relaxed);
  int r0 = atomic_load_explicit(x, memory_order_relaxed);
}
exists (0:r0=0 /\\ 1:r0=0)
";

pub fn name(alloc: Global, bytes: &[u8]) -> Result<Name, AllocError> {
    again!(_, Name::new(alloc, bytes)).or(Err(AllocError))
}

fn text_once(alloc: Global, bytes: &[u8]) -> Result<Text, AllocError> {
    Text::new(alloc, Vec::from_slice(alloc, bytes)?)
}

fn text(alloc: Global, bytes: &[u8]) -> Result<Text, AllocError> {
    again!(AllocError, text_once(alloc, bytes))
}

pub fn put_cat(alloc: Global, file: &[u8], bytes: &[u8]) -> Result<Command, AllocError> {
    Ok(Command::PutCat(name(alloc, file)?, text(alloc, bytes)?))
}

/// The command of a request. A result is returned by `give`.
fn requested(request: Request) -> Result<Command, AllocError> {
    match request {
        Request::PutCat(name, text) => Ok(Command::PutCat(name, text)),
        Request::PutTest(text) => Ok(Command::PutTest(text)),
        Request::DropCat(name) => Ok(Command::DropCat(name)),
        Request::DropTest(name) => Ok(Command::DropTest(name)),
        Request::Ask(test, cat) => Ok(Command::Ask(test, cat)),
        Request::Poll(job) => Ok(Command::Poll(job)),
        Request::Forget(job) => Ok(Command::Forget(job)),
        Request::Release(job) => Ok(Command::Release(job)),
        Request::List => Ok(Command::List),
        Request::Claim => Ok(Command::Claim),
        Request::Return(_) => Err(AllocError),
        Request::GiveBack(claim) => Ok(Command::GiveBack(claim)),
        Request::Close => Ok(Command::Close),
    }
}

/// The seat and the head of a call, and the text behind it.
pub fn head_of(alloc: Global, call: &str) -> Result<(u8, Head, &str), AllocError>
    ensures { IfOk result (λ r. r.0 < 8) }
{
    let (line, text) = call.split_once('\n').unwrap_or((call, ""));
    let (seat, head) = again!(_, read_head(alloc, line.as_bytes())).or(Err(AllocError))?;
    Ok((seat, head, text))
}

/// The claim whose piece a call returns.
pub fn claim_of(head: &Head) -> Option<u32> {
    match head {
        Head::Whole(Request::Return(claim)) => Some(*claim),
        _ => None,
    }
}

/// The command of a head with the text behind it, but for the return of a result.
pub fn command_of(alloc: Global, head: Head, bytes: &str) -> Result<Command, AllocError> {
    match head {
        Head::Cat(name) => Ok(Command::PutCat(name, text(alloc, bytes.as_bytes())?)),
        Head::Test => Ok(Command::PutTest(text(alloc, bytes.as_bytes())?)),
        Head::Whole(request) => requested(request),
    }
}

/// What is found of the piece that a reply gives.
fn evaluated(alloc: Global, reply: Option<&Reply>) -> Result<PieceResult, AllocError> {
    match reply {
        Some(Reply::Piece(piece)) => again!(AllocError, evaluate(alloc, piece)),
        _ => Err(AllocError),
    }
}

/// The return of what is found of the piece that a reply gives.
pub fn give(alloc: Global, reply: Option<&Reply>) -> Result<Command, AllocError> {
    Ok(Command::Return(evaluated(alloc, reply)?))
}

/// Whether a reply is printed so.
pub fn is_told(alloc: Global, reply: Option<&Reply>, wanted: &str) -> bool {
    let Some(reply) = reply else {
        return false;
    };
    match sink(alloc, 8192) {
        Ok(mut writer) => {
            write_reply(reply, &mut writer).is_ok() && writer.bytes() == wanted.as_bytes()
        }
        Err(AllocError) => false,
    }
}
