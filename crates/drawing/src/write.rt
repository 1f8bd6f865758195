//! Drawings, written.

ghost use Rattle.std.specs.Prelude.{◌≡◌, ◌++◌, Err, OnErr, OnOk, true};
ghost use Rattle.std.specs.Io.KnownBytes.{Appends};
ghost use Rattle.wb_text.specs.Memory.{AppendsPrefix};
ghost use Rattle.drawing.specs.Dots.{Dot};
ghost use Rattle.drawing.specs.Texts.{Text};
ghost use Rattle.drawing.specs.declared.write.DrawFault.TheVariants.{NoMemory, Write};

use crate::drawing::Drawing;
use crate::graphviz::dot;
use crate::lines::text;
use std::alloc::{AllocError, Global};
use thiserror::Error;
use wb_text::{Failed, Sink, give_all};

/// Why a drawing was not written whole.
#[derive(Clone, Copy, Debug, Drop, PartialEq, Eq, Error)]
pub enum DrawFault {
    /// Memory was refused. Nothing was written.
    #[error("out of memory")]
    NoMemory,
    /// The writer failed.
    #[error("the writer failed")]
    Write,
}

/// Writes the drawing as text, or a prefix of it where the writer fails.
pub fn write_text<W: Sink>(
    alloc: Global,
    drawing: &Drawing<'_>,
    writer: &mut W,
) -> Result<(), DrawFault>
    ensures written { OnOk result (Appends (W.held writer.old) (W.held writer.new) (Text drawing.now)) }
    ensures part { OnErr result (AppendsPrefix (W.held writer.old) (W.held writer.new) (Text drawing.now)) }
    ensures marked { result ≡ Err Write → W.has_failed writer.new ≡ true }
    ensures untouched { result ≡ Err NoMemory → writer.new ≡ writer.old }
{
    let text = match text(alloc, drawing) {
        Ok(text) => text,
        Err(AllocError) => return Err(DrawFault::NoMemory),
    };
    match give_all(writer, &text) {
        Ok(()) => Ok(()),
        Err(Failed) => Err(DrawFault::Write),
    }
}

/// Writes the drawing as a file for Graphviz, or a prefix of it where the writer fails.
pub fn write_dot<W: Sink>(
    alloc: Global,
    drawing: &Drawing<'_>,
    writer: &mut W,
) -> Result<(), DrawFault>
    ensures written { OnOk result (Appends (W.held writer.old) (W.held writer.new) (Dot drawing.now)) }
    ensures part { OnErr result (AppendsPrefix (W.held writer.old) (W.held writer.new) (Dot drawing.now)) }
    ensures marked { result ≡ Err Write → W.has_failed writer.new ≡ true }
    ensures untouched { result ≡ Err NoMemory → writer.new ≡ writer.old }
{
    let dot = match dot(alloc, drawing) {
        Ok(dot) => dot,
        Err(AllocError) => return Err(DrawFault::NoMemory),
    };
    match give_all(writer, &dot) {
        Ok(()) => Ok(()),
        Err(Failed) => Err(DrawFault::Write),
    }
}
