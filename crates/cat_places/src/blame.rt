//! The item of a model that is to blame for a fault.

ghost use Rattle.std.specs.Prelude.{◌≡◌, ◌≢◌, ◌⊎◌, ◌++◌, ℕ, IfOk, OnOk, IfSome, MatchOption, Some, length, map, option_map, true, false};
ghost use Rattle.cat_model.specs.declared.fault.ModelFault.TheVariants.{NoMemory};
ghost use Rattle.cat_tree.specs.Tree.{clause_of};
ghost use Rattle.cat_model.specs.Faults.{IsCause};
ghost use Rattle.cat_model.specs.declared.fault.ModelFault.{ModelFault as Fault};
ghost use Rattle.cat_places.specs.Blame as spec;

use crate::walk::{MOST_ITEMS, Turn, Visit, items_of};
use cat_model::{Files, ModelFault, resolve};
use cat_syntax::{CatFile, Item};
use std::alloc::{AllocError, Global};
use wb_text::{Name, NameFault};

/// The item of a visit, if there is one.
pub fn item_of<'a>(files: &'a [CatFile], visit: &Visit) -> Option<&'a Item>
    ensures { option_map (λ i. clause_of i.now) result ≡ spec.item_of files.now visit.now }
{
    items_of(files, visit.source).get(visit.item)
}

/// Whether a visit is an include of this name.
fn is_include_of(files: &[CatFile], visit: &Visit, name: &Name) -> bool
    ensures { result ≡ spec.includes_in name.now (spec.item_of files.now visit.now) }
{
    match item_of(files, visit) {
        Some(item) => match item {
            Item::Include(other) => *other == *name,
            _ => false,
        },
        None => false,
    }
}

/// Whether reading stops for a fault at the visit of this number.
fn stops(files: &[CatFile], fault: &ModelFault, number: usize, visit: &Visit) -> bool
    ensures { result ≡ spec.stops files.now fault.now number visit.now }
{
    match fault {
        ModelFault::NoInclude(name) => {
            visit.turn == Turn::Missing && is_include_of(files, visit, name)
        }
        ModelFault::IncludeCycle(name) => {
            visit.turn == Turn::Cycle && is_include_of(files, visit, name)
        }
        ModelFault::ModelTooLarge => visit.turn == Turn::TooDeep || number >= MOST_ITEMS,
        _ => false,
    }
}

/// The number of the first visit at which reading stops for a fault.
fn first_stop(files: &[CatFile], fault: &ModelFault, visits: &[Visit]) -> Option<usize>
    ensures { MatchOption result (spec.NoneStops files.now fault.now visits.now (length visits.now)) (spec.IsFirstStop files.now fault.now visits.now) }
{
    for (number, visit) in visits.iter().enumerate() {
        if stops(files, fault, number, visit) {
            return Some(number);
        }
    }
    None
}

/// Whether the item of a visit stands in the model itself.
fn is_put(turn: Turn) -> bool {
    matches!(turn, Turn::Own | Turn::BuiltIn)
}

/// Adds the item of a visit, unless what it includes comes in its place.
fn put(items: &mut Vec<Item>, files: &[CatFile], visit: &Visit) -> Result<(), AllocError>
    ensures { OnOk result (map clause_of items.new.items ≡ map clause_of items.old.items ++ spec.put_as visit.now.turn (spec.item_of files.now visit.now)) }
{
    match visit.turn {
        Turn::Own | Turn::BuiltIn => match item_of(files, visit) {
            Some(item) => {
                items.push(item.copy()?)?;
                Ok(())
            }
            None => Ok(()),
        },
        Turn::Into(_) | Turn::Missing | Turn::Cycle | Turn::TooDeep => Ok(()),
    }
}

/// The items of visits, copied.
pub fn items_put(
    alloc: Global,
    files: &[CatFile],
    visits: &[Visit],
) -> Result<Vec<Item>, AllocError>
    ensures { IfOk result (λ v. map clause_of v.items ≡ spec.items_put files.now visits.now) }
{
    let mut items = Vec::new(alloc);
    for visit in visits {
        put(&mut items, files, visit)?;
    }
    Ok(items)
}

/// The name of a file of its own.
fn main_name(alloc: Global) -> Result<Name, AllocError>
    ensures { IfOk result (λ n. n ≡ spec.main) }
{
    match Name::new(alloc, b"main.cat") {
        Ok(name) => Ok(name),
        Err(NameFault::NoMemory) => Err(AllocError),
        Err(NameFault::BadName) => unreachable!(),
    }
}

/// The files with these items as the only one.
fn alone(alloc: Global, main: &Name, items: Vec<Item>) -> Result<Files, AllocError>
    requires { main.now ≡ spec.main }
    ensures { IfOk result (λ f. f ≡ spec.alone (map clause_of items.items)) }
{
    let mut files = Files::new(alloc)?;
    match files.put(main.copy()?, 1, CatFile::new(None, items)) {
        Ok(()) => Ok(files),
        Err(_) => Err(AllocError),
    }
}

/// Whether a fault is the files' own.
fn in_memory(fault: &ModelFault) -> Result<(), AllocError>
    ensures { OnOk result (fault.now ≢ NoMemory) }
{
    match fault {
        ModelFault::NoMemory => Err(AllocError),
        _ => Ok(()),
    }
}

/// Whether items, as a file of their own, break no rule.
pub fn is_model(alloc: Global, items: Vec<Item>) -> Result<bool, AllocError>
    ensures yes { IfOk result (λ b. b ≡ true → (e : Fault) → ¬ IsCause e (spec.alone (map clause_of items.items)) spec.main) }
    ensures no { IfOk result (λ b. b ≡ false → (e : Fault) × IsCause e (spec.alone (map clause_of items.items)) spec.main) }
{
    let main = main_name(alloc)?;
    let files = alone(alloc, &main, items)?;
    match resolve(alloc, &files, &main) {
        Ok(_model) => return Ok(true),
        Err(found) => {
            in_memory(&found)?;
            return Ok(false);
        }
    }
}

/// The number of the first visit with which a rule is broken.
fn first_broken(
    alloc: Global,
    files: &[CatFile],
    visits: &[Visit],
) -> Result<Option<usize>, AllocError>
    ensures { IfOk result (λ o. MatchOption o (spec.NoneBroken files.now visits.now (length visits.now)) (λ k. (e : Fault) × spec.IsFirstBroken files.now e visits.now k)) }
{
    for number in 0..visits.len() {
        let items = items_put(alloc, files, &visits[..number + 1])?;
        if !is_model(alloc, items)? {
            return Ok(Some(number));
        }
    }
    Ok(None)
}

/// The number of the visit that is to blame for a fault, if the files have it.
pub fn blamed(
    alloc: Global,
    files: &[CatFile],
    visits: &[Visit],
    fault: &ModelFault,
) -> Result<Option<usize>, AllocError>
    ensures first { IfOk result (λ o. IfSome o (λ k. spec.IsFirstStop files.now fault.now visits.now k ⊎ ((e : Fault) × spec.IsFirstBroken files.now e visits.now k))) }
    ensures only { IfOk result (λ o. (k : ℕ) → spec.IsBlamed files.now fault.now visits.now k → o ≡ Some k) }
{
    match fault {
        ModelFault::NoInclude(_) => Ok(first_stop(files, fault, visits)),
        ModelFault::IncludeCycle(_) => Ok(first_stop(files, fault, visits)),
        ModelFault::ModelTooLarge => Ok(first_stop(files, fault, visits)),
        ModelFault::NoCat(_) | ModelFault::NoMemory => Ok(None),
        _ => first_broken(alloc, files, visits),
    }
}
