//! A verdict as an object of JSON.

ghost use Rattle.std.specs.Prelude.{◌≡◌, [], map, take, IfOk, OnOk, string_bytes};
ghost use Rattle.serde_json.specs.Data.{array, number, object, put as with_member, string, unsigned};
ghost use Rattle.serde_json.specs.View.{view, items_of, members_view};
ghost use Rattle.serde_json.specs.Written.{compact_text};
ghost use Rattle.suite.specs.Objects.{object_data};

use crate::case::Case;
use crate::line::kind_text;
use serde_json::{Map, Value, put};
use slices::{Finding, Verdict};
use std::alloc::{AllocError, Global};
use wb_text::Name;

/// The object of a verdict, with no space and no line feed: what `row_of` tells, by name.
pub fn object_of(
    alloc: Global,
    case: &Case<'_>,
    verdict: &Verdict,
    milliseconds: u64,
) -> Result<String, AllocError>
    ensures { IfOk result (λ s. string_bytes s ≡ compact_text (object_data case.now milliseconds verdict.now.finding)) }
{
    let value = value_of(alloc, case, verdict.finding(), milliseconds)?;
    value.to_string(alloc)
}

/// The object of a finding.
fn value_of(
    alloc: Global,
    case: &Case<'_>,
    finding: &Finding,
    milliseconds: u64,
) -> Result<Value, AllocError>
    ensures { IfOk result (λ v. view v ≡ object_data case.now milliseconds finding.now) }
{
    let mut members = Map::new(alloc);
    put_members(&mut members, alloc, case, finding, milliseconds)?;
    Ok(Value::Object(members))
}

/// Puts the members of a finding, where there are none before.
fn put_members(
    members: &mut Map<String, Value>,
    alloc: Global,
    case: &Case<'_>,
    finding: &Finding,
    milliseconds: u64,
) -> Result<(), AllocError>
    requires { members.old.entries ≡ [] }
    ensures { OnOk result (object (members_view members.new.entries) ≡ object_data case.now milliseconds finding.now) }
{
    put_text(members, alloc, "digests", case.digests)?;
    put_text(members, alloc, "file", case.path)?;
    put(members, alloc, "flags", array_of(alloc, finding.flags())?)?;
    put_text(members, alloc, "kind", kind_text(finding.kind()))?;
    put_number(members, alloc, "milliseconds", milliseconds)?;
    put_text(members, alloc, "model", case.model)?;
    put_text(members, alloc, "name", text_of(finding.name()))?;
    put_number(members, alloc, "negative", finding.negative())?;
    put(members, alloc, "ok", Value::Bool(finding.ok()))?;
    put_number(members, alloc, "positive", finding.positive())?;
    put_number(members, alloc, "states", finding.states().len() as u64)?;
    put_text(members, alloc, "word", finding.word())
}

/// Puts a text under a name.
fn put_text(
    members: &mut Map<String, Value>,
    alloc: Global,
    name: &str,
    text: &str,
) -> Result<(), AllocError>
    ensures { OnOk result (members_view members.new.entries ≡ with_member name.now (string text.now) (members_view members.old.entries)) }
{
    put(members, alloc, name, Value::try_from_str(alloc, text)?)
}

/// Puts a number under a name.
fn put_number(
    members: &mut Map<String, Value>,
    alloc: Global,
    name: &str,
    count: u64,
) -> Result<(), AllocError>
    ensures { OnOk result (members_view members.new.entries ≡ with_member name.now (number (unsigned count)) (members_view members.old.entries)) }
{
    put(members, alloc, name, Value::from(count))
}

/// The names as an array.
fn array_of(alloc: Global, names: &[Name]) -> Result<Value, AllocError>
    ensures { IfOk result (λ v. view v ≡ array (items_of (map string names.now))) }
{
    Ok(Value::Array(texts_of(alloc, names)?))
}

/// The names as texts.
fn texts_of(alloc: Global, names: &[Name]) -> Result<Vec<Value>, AllocError>
    ensures { IfOk result (λ vs. map view vs.items ≡ map string names.now) }
{
    let mut values = Vec::with_capacity(alloc, names.len())?;
    for name in names {
        values.push(Value::try_from_str(alloc, text_of(name))?)?;
    }
    Ok(values)
}

/// A name as text: it has printable ASCII bytes alone.
fn text_of(name: &Name) -> &str
    ensures { result.now ≡ name.now }
{
    match std::str::from_utf8(name.bytes()) {
        Ok(text) => text,
        Err(_) => unreachable!(),
    }
}
