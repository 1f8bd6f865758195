//! The texts of files, and where they lie.

ghost use Rattle.std.specs.Prelude.{◌≡◌, ◌≤◌, List, ℕ, length, take, IfOk, IfSome};

use std::alloc::{AllocError, Global};
use std::io::Read;
use std::rt::Files;
use std::{fs, io};

/// The most bytes of a text that are read: one more than a test or a cat file may have.
const MOST_BYTES: u64 = 65_537;

/// The text of a file, as far as a text may go and one byte more.
pub fn text_of<R: Files + AllocGlobal>(rt: &R, path: &str) -> io::Result<Vec<u8>>
    ensures { IfOk result (λ text. length text.items ≤ MOST_BYTES) }
{
    read_front(rt.alloc(), fs::open(rt, path)?)
}

/// The front of what a reader has, as far as a text may go and one byte more.
pub fn read_front<S: Read + Drop>(alloc: Global, reader: S) -> io::Result<Vec<u8>>
    ensures few { IfOk result (λ text. length text.items ≤ MOST_BYTES) }
    ensures front { IfOk result (λ text. IfSome (S.remaining reader) (λ bytes. text.items ≡ take MOST_BYTES bytes)) }
{
    let mut text = Vec::new(alloc);
    reader.take(MOST_BYTES).read_to_end(&mut text)?;
    text.truncate(MOST_BYTES as usize);
    Ok(text)
}

/// Whether something is there, as far as that can be told.
pub(crate) fn is_there<R: Files>(rt: &R, path: &str) -> bool {
    matches!(fs::exists(rt, path), Ok(true))
}

/// The path of a name beside a file.
pub(crate) fn sibling(alloc: Global, file: &str, name: &str) -> Result<String, AllocError> {
    match file.rsplit_once('/') {
        Some((folder, _)) => joined(alloc, folder, name),
        None => String::from_str(alloc, name),
    }
}

/// The path of a name in a folder.
pub(crate) fn joined(alloc: Global, folder: &str, name: &str) -> Result<String, AllocError> {
    if name.starts_with('/') {
        return String::from_str(alloc, name);
    }
    format!(in alloc; "{folder}/{name}")
}
