//! The line that is printed of an input that is refused.

ghost use Rattle.report.specs.Writing.{Writes};
ghost use Rattle.program.specs.Refusals as texts;

use crate::summary::OneFault;
use report::{
    write_bytes, write_cat_fault, write_model_fault, write_space_fault, write_test_fault,
};
use wb_text::{Failed, Sink};

/// Writes the line of a fault: `refused`, and the fault's label and fields.
pub fn write_refusal<W: Sink>(fault: &OneFault, writer: &mut W) -> Result<(), Failed>
    ensures { Writes W.held W.has_failed writer.old writer.new result (texts.refusal_text fault.now) }
{
    write_bytes(b"refused ", writer)?;
    write_cause(fault, writer)?;
    write_bytes(b"\n", writer)
}

/// Writes the label and the fields of a fault.
fn write_cause<W: Sink>(fault: &OneFault, writer: &mut W) -> Result<(), Failed>
    ensures { Writes W.held W.has_failed writer.old writer.new result (texts.cause_text fault.now) }
{
    match fault {
        OneFault::Test(cause) => write_test_fault(cause, writer),
        OneFault::Cat(cause) => write_cat_fault(cause, writer),
        OneFault::Model(cause) => write_model_fault(cause, writer),
        OneFault::Space(cause) => write_space_fault(*cause, writer),
        _ => write_bytes(fault.label().as_bytes(), writer),
    }
}
