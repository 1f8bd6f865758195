//! Bytes between quotes.

ghost use Rattle.std.specs.Prelude.{◌≡◌, ◌++◌, OnOk, flat_map};
ghost use Rattle.drawing.specs.Dots.{quoted, quoted_byte};

use crate::bytes::push_bytes;
use std::alloc::AllocError;

fn push_quoted_byte(out: &mut Vec<u8>, byte: u8) -> Result<(), AllocError>
    ensures { OnOk result (out.new.items ≡ out.old.items ++ quoted_byte byte) }
{
    match byte {
        b'"' => push_bytes(out, b"\\\""),
        b'\\' => push_bytes(out, b"\\\\"),
        b'&' => push_bytes(out, b"&amp;"),
        byte => push_bytes(out, &[byte]),
    }
}

/// Adds the bytes as they stand between quotes.
pub(crate) fn push_quoted(out: &mut Vec<u8>, bytes: &[u8]) -> Result<(), AllocError>
    ensures { OnOk result (out.new.items ≡ out.old.items ++ quoted bytes.now) }
{
    for byte in bytes {
        push_quoted_byte(out, *byte)?;
    }
    Ok(())
}
