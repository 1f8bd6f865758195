//! Lists of names without repeats.

ghost use Rattle.std.specs.Prelude.{◌≡◌, ◌↔◌, ◌⊎◌, OnOk, OnErr, option_map, Some};
ghost use Rattle.std.specs.List.{list_any};
ghost use Rattle.std.specs.Str.{bytes_eq};
ghost use Rattle.listings.specs.Lists.{IsIn, NoRepeats};
ghost use Rattle.cat_tree.specs.Tree.{Word};

use std::alloc::AllocError;
use wb_text::Name;

fn has(names: &[Name], name: &Name) -> bool
    ensures { result ≡ list_any (λ other. bytes_eq other name.now) names.now }
{
    names.iter().any(|other| *other == *name)
}

/// Puts a name in, if it isn't in already.
pub fn add(names: &mut Vec<Name>, name: &Name) -> Result<(), AllocError>
    requires { NoRepeats names.old.items }
    ensures once { NoRepeats names.new.items }
    ensures added { OnOk result ((x : Word) → IsIn x names.new.items ↔ (IsIn x names.old.items ⊎ (x ≡ name.now))) }
    ensures same { OnErr result (names.new.items ≡ names.old.items) }
{
    if has(names, name) {
        return Ok(());
    }
    let copy = name.copy()?;
    names.push(copy)?;
    Ok(())
}

/// Puts the name of a flag in, if one is raised.
pub(crate) fn add_raised(names: &mut Vec<Name>, raised: Option<&Name>) -> Result<(), AllocError>
    requires { NoRepeats names.old.items }
    ensures once { NoRepeats names.new.items }
    ensures added { OnOk result ((x : Word) → IsIn x names.new.items ↔ (IsIn x names.old.items ⊎ (option_map (λ f. f.now) raised.entry ≡ Some x))) }
{
    match raised {
        Some(name) => add(names, name),
        None => Ok(()),
    }
}
