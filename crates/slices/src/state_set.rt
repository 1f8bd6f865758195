//! Sets of final states that grow by all of some rows, or not at all.

ghost use Rattle.std.specs.Prelude.{◌≡◌, [], map, OnOk, OnErr};
ghost use Rattle.slices.specs.Sums.{IsUnion, IsGrownBy, IsWithout};
ghost use Rattle.slices.specs.Verdicts.{AreSorted};

use crate::row::Row;
use std::alloc::{AllocError, Global};
use std::collections::BTreeSet;

/// Adds rows to a set, or changes nothing. It costs a look-up in the set for each row.
pub(crate) fn add_rows(
    alloc: Global,
    set: &mut BTreeSet<Row>,
    rows: &BTreeSet<Row>,
) -> Result<(), AllocError>
    requires sorted { AreSorted set.old.keys }
    ensures added { OnOk result (IsUnion set.old.keys rows.now.keys set.new.keys) }
    ensures same { OnErr result (set.new.keys ≡ set.old.keys) }
{
    let mut added = Vec::new(alloc);
    match insert_each(set, rows, &mut added) {
        Ok(()) => Ok(()),
        Err(AllocError) => {
            remove_each(set, &added);
            Err(AllocError)
        }
    }
}

/// Puts rows in, one after another, and notes those that were not there. Where memory runs out, those that are noted are in.
fn insert_each<'r>(
    set: &mut BTreeSet<Row>,
    rows: &'r BTreeSet<Row>,
    added: &mut Vec<&'r Row>,
) -> Result<(), AllocError>
    requires { added.old.items ≡ [] }
    ensures all { OnOk result (IsUnion set.old.keys rows.now.keys set.new.keys) }
    ensures some { OnErr result (IsGrownBy set.old.keys (map (λ row. row.now) added.new.items) set.new.keys) }
{
    // Behind a row that was there another one often comes that is: it is looked up before it is copied.
    let mut was_there = true;
    for row in rows {
        if was_there && set.contains(row) {
            continue;
        }
        added.try_reserve(1)?;
        was_there = !set.insert(row.copy()?)?;
        if !was_there {
            match added.push(row) {
                Ok(()) => {}
                Err(_) => unreachable!(),
            }
        }
    }
    Ok(())
}

/// Takes rows out.
fn remove_each(set: &mut BTreeSet<Row>, rows: &[&Row])
    requires { AreSorted set.old.keys }
    ensures { IsWithout set.old.keys (map (λ row. row.now) rows.now) set.new.keys }
{
    for row in rows {
        set.remove(*row);
    }
}
