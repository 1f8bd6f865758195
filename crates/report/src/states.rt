//! The states of a summary.

ghost use Rattle.std.specs.Prelude.{◌≡◌, ◌++◌, [], map, true, OnErr, OnOk};
ghost use Rattle.std.specs.List.{flat_map};
ghost use Rattle.wb_text.specs.Memory.{AppendsPrefix};
ghost use Rattle.report.specs.Pages.{Holds, labels_from};
ghost use Rattle.report.specs.Writing.{Writes};
ghost use Rattle.report.specs.Texts as texts;

use crate::lines::{Label, Line, Page, hold, labels, make_line, send};
use crate::parts::write_bytes;
use crate::propositions::write_atom;
use conditions::Place;
use slices::Row;
use std::collections::BTreeSet;
use wb_text::{Failed, Sink};

/// How many states there are at least where their lines are put together before they are written.
const MANY: usize = 64;

/// Writes the lines of states.
pub(crate) fn write_states<W: Sink>(
    places: &[Place],
    states: &BTreeSet<Row>,
    writer: &mut W,
) -> Result<(), Failed>
    ensures { Writes W.held W.has_failed writer.old writer.new result
        (flat_map (texts.state_line places.now) states.now.keys) }
{
    if states.len() < MANY {
        return write_each(places, states, writer);
    }
    write_many(places, states, writer)
}

/// Writes the lines of states, one after another.
fn write_each<W: Sink>(
    places: &[Place],
    states: &BTreeSet<Row>,
    writer: &mut W,
) -> Result<(), Failed>
    ensures { Writes W.held W.has_failed writer.old writer.new result
        (flat_map (texts.state_line places.now) states.now.keys) }
{
    for state in states {
        write_state(places, state.values(), writer)?;
    }
    Ok(())
}

/// Writes the lines of states, many at once.
// A function of its own: what it takes to hold lines back costs where there are few, too.
#[inline(never)]
fn write_many<W: Sink>(
    places: &[Place],
    states: &BTreeSet<Row>,
    writer: &mut W,
) -> Result<(), Failed>
    ensures { Writes W.held W.has_failed writer.old writer.new result
        (flat_map (texts.state_line places.now) states.now.keys) }
{
    match labels(places) {
        Ok(labels) => write_held(labels.as_slice(), places, states, writer),
        Err(_) => write_each(places, states, writer),
    }
}

/// Writes the lines of states whose places have these labels.
fn write_held<W: Sink>(
    labels: &[Label],
    places: &[Place],
    states: &BTreeSet<Row>,
    writer: &mut W,
) -> Result<(), Failed>
    requires { map (λ l. l.items) labels.now ≡ labels_from [] places.now }
    ensures { Writes W.held W.has_failed writer.old writer.new result
        (flat_map (texts.state_line places.now) states.now.keys) }
{
    let mut line = Line::new();
    let mut page = Page::new();
    for state in states {
        put_state(&mut line, &mut page, labels, places, state.values(), writer)?;
    }
    write_bytes(page.as_slice(), writer)
}

/// Holds the line of a state back, or writes it behind what was held back where it is long.
fn put_state<W: Sink>(
    line: &mut Line,
    page: &mut Page,
    labels: &[Label],
    places: &[Place],
    values: &[u32],
    writer: &mut W,
) -> Result<(), Failed>
    requires { map (λ l. l.items) labels.now ≡ labels_from [] places.now }
    ensures held { OnOk result (Holds (W.held writer.old) page.old.items (W.held writer.new) page.new.items (texts.state_line places.now values.now)) }
    ensures part { OnErr result (AppendsPrefix (W.held writer.old) (W.held writer.new) (page.old.items ++ texts.state_line places.now values.now)) }
    ensures marked { OnErr result (W.has_failed writer.new ≡ true) }
{
    match make_line(line, labels, values) {
        Ok(()) => hold(page, line.as_slice(), writer),
        Err(_) => write_behind(page, places, values, writer),
    }
}

/// Writes what is held back, and the line of a state.
fn write_behind<W: Sink>(
    page: &mut Page,
    places: &[Place],
    values: &[u32],
    writer: &mut W,
) -> Result<(), Failed>
    ensures held { OnOk result (Holds (W.held writer.old) page.old.items (W.held writer.new) page.new.items (texts.state_line places.now values.now)) }
    ensures part { OnErr result (AppendsPrefix (W.held writer.old) (W.held writer.new) (page.old.items ++ texts.state_line places.now values.now)) }
    ensures marked { OnErr result (W.has_failed writer.new ≡ true) }
{
    send(page, writer)?;
    write_state(places, values, writer)
}

/// Writes the line of a state.
fn write_state<W: Sink>(places: &[Place], values: &[u32], writer: &mut W) -> Result<(), Failed>
    ensures { Writes W.held W.has_failed writer.old writer.new result
        (texts.state_line places.now values.now) }
{
    let mut separator: &[u8] = b"";
    for (place, value) in places.iter().zip(values) {
        write_binding(separator, place, *value, writer)?;
        separator = b" ";
    }
    write_bytes(b"\n", writer)
}

/// Writes a place and its value behind a separator.
fn write_binding<W: Sink>(
    separator: &[u8],
    place: &Place,
    value: u32,
    writer: &mut W,
) -> Result<(), Failed>
    ensures { Writes W.held W.has_failed writer.old writer.new result
        (separator.now ++ texts.binding_text (place.now, value)) }
{
    write_bytes(separator, writer)?;
    write_atom(place, value, writer)?;
    write_bytes(b";", writer)
}
