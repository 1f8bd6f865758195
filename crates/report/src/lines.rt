//! Lines of states, many of which are written at once.

ghost use Rattle.std.specs.Prelude.{◌≡◌, ◌++◌, [], map, codes, decimal, true, IfOk, OnOk, OnErr};
ghost use Rattle.std.specs.Io.KnownBytes.{Appends};
ghost use Rattle.wb_text.specs.Memory.{AppendsPrefix};
ghost use Rattle.report.specs.Pages.{Holds, labelled, labels_from};
ghost use Rattle.report.specs.Texts.{place_text};

use crate::parts::write_bytes;
use arrayvec::{ArrayVec, CapacityError};
use conditions::Place;
use itoa::Buffer;
use wb_text::{Failed, Sink};

/// How many places have labels at most.
const PLACES: usize = 24;

/// The most bytes of a label.
const LABEL: usize = 24;

/// The most bytes of a line that is made here.
const LINE: usize = 512;

/// The most bytes that are held back.
const PAGE: usize = 2_048;

/// What stands before a place's value.
pub(crate) type Label = ArrayVec<u8, LABEL>;

pub(crate) type Line = ArrayVec<u8, LINE>;

pub(crate) type Page = ArrayVec<u8, PAGE>;

fn push_place(label: &mut Label, place: &Place) -> Result<(), CapacityError>
    ensures { OnOk result (label.new.items ≡ label.old.items ++ place_text place.now) }
{
    match place {
        Place::Reg(thread, name) => {
            let mut number = Buffer::new();
            label.try_extend_from_slice(number.format(*thread).as_bytes())?;
            label.try_extend_from_slice(b":")?;
            label.try_extend_from_slice(name.bytes())
        }
        Place::Loc(name) => {
            label.try_extend_from_slice(b"[")?;
            label.try_extend_from_slice(name.bytes())?;
            label.try_extend_from_slice(b"]")
        }
    }
}

/// What stands before a place's value, behind a separator.
fn label(separator: &[u8], place: &Place) -> Result<Label, CapacityError>
    ensures { IfOk result (λ l. l.items ≡ separator.now ++ place_text place.now ++ codes "=") }
{
    let mut label = Label::new();
    label.try_extend_from_slice(separator)?;
    push_place(&mut label, place)?;
    label.try_extend_from_slice(b"=")?;
    Ok(label)
}

/// What stands before each place's value.
pub(crate) fn labels(places: &[Place]) -> Result<ArrayVec<Label, PLACES>, CapacityError>
    ensures { IfOk result (λ v. map (λ l. l.items) v.items ≡ labels_from [] places.now) }
{
    let mut labels: ArrayVec<Label, PLACES> = ArrayVec::new();
    let mut separator: &[u8] = b"";
    for place in places {
        let label = label(separator, place)?;
        if labels.try_push(label).is_err() {
            return Err(CapacityError::new(()));
        }
        separator = b" ";
    }
    Ok(labels)
}

fn push_value(line: &mut Line, value: u32) -> Result<(), CapacityError>
    ensures { OnOk result (line.new.items ≡ line.old.items ++ (decimal value ++ codes ";")) }
{
    let mut number = Buffer::new();
    line.try_extend_from_slice(number.format(value).as_bytes())?;
    line.try_extend_from_slice(b";")
}

/// Adds a label with its value.
fn push_binding(line: &mut Line, label: &[u8], value: u32) -> Result<(), CapacityError>
    ensures { OnOk result (line.new.items ≡ line.old.items ++ (label.now ++ (decimal value ++ codes ";"))) }
{
    line.try_extend_from_slice(label)?;
    push_value(line, value)
}

/// Makes the line of a state.
pub(crate) fn make_line(
    line: &mut Line,
    labels: &[Label],
    values: &[u32],
) -> Result<(), CapacityError>
    ensures { OnOk result (line.new.items ≡ labelled (map (λ l. l.items) labels.now) values.now ++ codes "\n") }
{
    line.clear();
    let count = labels.len().min(values.len());
    for place in 0..count {
        push_binding(line, labels[place].as_slice(), values[place])?;
    }
    line.try_extend_from_slice(b"\n")
}

/// Writes what is held back.
pub(crate) fn send<W: Sink>(page: &mut Page, writer: &mut W) -> Result<(), Failed>
    ensures sent { OnOk result (Appends (W.held writer.old) (W.held writer.new) page.old.items) }
    ensures none { OnOk result (page.new.items ≡ []) }
    ensures part { OnErr result (AppendsPrefix (W.held writer.old) (W.held writer.new) page.old.items) }
    ensures marked { OnErr result (W.has_failed writer.new ≡ true) }
{
    write_bytes(page.as_slice(), writer)?;
    page.clear();
    Ok(())
}

/// Writes what is held back, and holds these bytes back where they fit.
fn hold_alone<W: Sink>(page: &mut Page, bytes: &[u8], writer: &mut W) -> Result<(), Failed>
    ensures held { OnOk result (Holds (W.held writer.old) page.old.items (W.held writer.new) page.new.items bytes.now) }
    ensures part { OnErr result (AppendsPrefix (W.held writer.old) (W.held writer.new) (page.old.items ++ bytes.now)) }
    ensures marked { OnErr result (W.has_failed writer.new ≡ true) }
{
    send(page, writer)?;
    match page.try_extend_from_slice(bytes) {
        Ok(()) => Ok(()),
        Err(_) => write_bytes(bytes, writer),
    }
}

/// Holds bytes back behind others, which are written first where there is no room for these.
pub(crate) fn hold<W: Sink>(page: &mut Page, bytes: &[u8], writer: &mut W) -> Result<(), Failed>
    ensures held { OnOk result (Holds (W.held writer.old) page.old.items (W.held writer.new) page.new.items bytes.now) }
    ensures part { OnErr result (AppendsPrefix (W.held writer.old) (W.held writer.new) (page.old.items ++ bytes.now)) }
    ensures marked { OnErr result (W.has_failed writer.new ≡ true) }
{
    match page.try_extend_from_slice(bytes) {
        Ok(()) => Ok(()),
        Err(_) => hold_alone(page, bytes, writer),
    }
}
