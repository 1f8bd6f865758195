//! Bytes in several parts.

ghost use Rattle.std.specs.List.{flat_map};
ghost use Rattle.report.specs.Writing.{Writes};

use wb_text::{Failed, Sink, give_all};

/// Hands the parts to the writer, one after another.
pub fn write_parts<W: Sink>(parts: &[&[u8]], writer: &mut W) -> Result<(), Failed>
    ensures { Writes W.held W.has_failed writer.old writer.new result
        (flat_map (λ p. p.now) parts.now) }
{
    for part in parts {
        write_bytes(part, writer)?;
    }
    Ok(())
}

/// Hands the bytes to the writer.
pub fn write_bytes<W: Sink>(bytes: &[u8], writer: &mut W) -> Result<(), Failed>
    ensures { Writes W.held W.has_failed writer.old writer.new result bytes.now }
{
    give_all(writer, bytes)
}
