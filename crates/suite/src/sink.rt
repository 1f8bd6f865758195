//! A sink of bytes in memory that grows.

ghost use Rattle.std.specs.Prelude.{◌≡◌, [], false};

use std::alloc::Global;
use wb_text::{Failed, Sink};

/// A sink that holds what it is given. It fails only where memory is refused.
pub struct TextSink {
    bytes: Vec<u8>,
    has_failed: bool,
}

impl Drop for TextSink {
    fn drop(self) {
        let TextSink {
            bytes: _,
            has_failed: _,
        } = self;
    }
}

impl TextSink {
    /// A sink of no bytes.
    pub fn new(alloc: Global) -> Self
        ensures bytes { result.bytes.items ≡ [] }
        ensures unmarked { result.has_failed ≡ false }
    {
        TextSink {
            bytes: Vec::new(alloc),
            has_failed: false,
        }
    }

    /// What it holds.
    pub fn into_bytes(self) -> Vec<u8>
        ensures { result.items ≡ self.bytes.items }
    {
        let TextSink {
            bytes,
            has_failed: _,
        } = self;
        bytes
    }
}

impl Sink for TextSink {
    ghost use Rattle.std.specs.Prelude.{Some};

    ghost held = { λ s. Some s.bytes.items };

    ghost has_failed = { λ s. s.has_failed };

    fn give(&mut self, bytes: &[u8]) -> Result<usize, Failed> {
        match self.bytes.extend_from_slice(bytes) {
            Ok(()) => Ok(bytes.len()),
            Err(_) => {
                self.has_failed = true;
                Err(Failed)
            }
        }
    }
}
