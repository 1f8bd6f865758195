//! The built-in model `rc11.cat`.

ghost use Rattle.std.specs.Prelude.{◌≡◌, ◌++◌, map, take, drop, IfOk, OnOk};
ghost use Rattle.cat_tree.specs.Tree.{clause_of};
ghost use Rattle.cat_model.specs.Rc11.{rc11 as rc11_tree};
ghost use Rattle.cat_model.specs.Sketches.{line_of};

use crate::sketch::Sketch::{
    Difference, Identity, Intersection, Inverse, Name, Optional, Plus, Product, Sequence, Star,
    Union, Universe,
};
use crate::sketch::{Line, item};
use cat_tree::{CatFile, CheckKind, Item, Title};
use std::alloc::{AllocError, Global};

/// The orders, up to what happens before what.
const ORDERS: [Line; 8] = [
    // let sb = po | (IW * (_ \ IW))
    Line::Let(
        b"sb",
        Union(
            &Name(b"po"),
            &Product(&Name(b"IW"), &Difference(&Universe, &Name(b"IW"))),
        ),
    ),
    // let rb = rf^-1 ; co
    Line::Let(b"rb", Sequence(&Inverse(&Name(b"rf")), &Name(b"co"))),
    // let eco = (rf | (co | rb))+
    Line::Let(
        b"eco",
        Plus(&Union(&Name(b"rf"), &Union(&Name(b"co"), &Name(b"rb")))),
    ),
    // let rel = REL | (ACQ_REL | SC)
    Line::Let(
        b"rel",
        Union(&Name(b"REL"), &Union(&Name(b"ACQ_REL"), &Name(b"SC"))),
    ),
    // let acq = ACQ | (ACQ_REL | SC)
    Line::Let(
        b"acq",
        Union(&Name(b"ACQ"), &Union(&Name(b"ACQ_REL"), &Name(b"SC"))),
    ),
    // let rs = [W] ; ((sb & loc)? ; ([W & A] ; (rf ; rmw)*))
    Line::Let(
        b"rs",
        Sequence(
            &Identity(&Name(b"W")),
            &Sequence(
                &Optional(&Intersection(&Name(b"sb"), &Name(b"loc"))),
                &Sequence(
                    &Identity(&Intersection(&Name(b"W"), &Name(b"A"))),
                    &Star(&Sequence(&Name(b"rf"), &Name(b"rmw"))),
                ),
            ),
        ),
    ),
    // let sw = [rel] ; (([F] ; sb)? ; (rs ; (rf ; ([R & A] ; ((sb ; [F])? ; [acq])))))
    Line::Let(
        b"sw",
        Sequence(
            &Identity(&Name(b"rel")),
            &Sequence(
                &Optional(&Sequence(&Identity(&Name(b"F")), &Name(b"sb"))),
                &Sequence(
                    &Name(b"rs"),
                    &Sequence(
                        &Name(b"rf"),
                        &Sequence(
                            &Identity(&Intersection(&Name(b"R"), &Name(b"A"))),
                            &Sequence(
                                &Optional(&Sequence(&Name(b"sb"), &Identity(&Name(b"F")))),
                                &Identity(&Name(b"acq")),
                            ),
                        ),
                    ),
                ),
            ),
        ),
    ),
    // let hb = (sb | sw)+
    Line::Let(b"hb", Plus(&Union(&Name(b"sb"), &Name(b"sw")))),
];

/// The checks, with the relations that are only for them.
const CHECKS: [Line; 12] = [
    // irreflexive (hb ; eco?) as coherence
    Line::Check(
        CheckKind::Irreflexive,
        Sequence(&Name(b"hb"), &Optional(&Name(b"eco"))),
        b"coherence",
    ),
    // empty (rmw & (rb ; co)) as atomicity
    Line::Check(
        CheckKind::Empty,
        Intersection(&Name(b"rmw"), &Sequence(&Name(b"rb"), &Name(b"co"))),
        b"atomicity",
    ),
    // acyclic (sb | rf) as no-thin-air
    Line::Check(
        CheckKind::Acyclic,
        Union(&Name(b"sb"), &Name(b"rf")),
        b"no-thin-air",
    ),
    // let sbx = sb \ loc
    Line::Let(b"sbx", Difference(&Name(b"sb"), &Name(b"loc"))),
    // let scb = sb | ((sbx ; (hb ; sbx)) | ((hb & loc) | (co | rb)))
    Line::Let(
        b"scb",
        Union(
            &Name(b"sb"),
            &Union(
                &Sequence(&Name(b"sbx"), &Sequence(&Name(b"hb"), &Name(b"sbx"))),
                &Union(
                    &Intersection(&Name(b"hb"), &Name(b"loc")),
                    &Union(&Name(b"co"), &Name(b"rb")),
                ),
            ),
        ),
    ),
    // let fsc = [F & SC]
    Line::Let(b"fsc", Identity(&Intersection(&Name(b"F"), &Name(b"SC")))),
    // let base = ([SC] | (fsc ; hb?)) ; (scb ; ([SC] | (hb? ; fsc)))
    Line::Let(
        b"base",
        Sequence(
            &Union(
                &Identity(&Name(b"SC")),
                &Sequence(&Name(b"fsc"), &Optional(&Name(b"hb"))),
            ),
            &Sequence(
                &Name(b"scb"),
                &Union(
                    &Identity(&Name(b"SC")),
                    &Sequence(&Optional(&Name(b"hb")), &Name(b"fsc")),
                ),
            ),
        ),
    ),
    // let fence = fsc ; ((hb | (hb ; (eco ; hb))) ; fsc)
    Line::Let(
        b"fence",
        Sequence(
            &Name(b"fsc"),
            &Sequence(
                &Union(
                    &Name(b"hb"),
                    &Sequence(&Name(b"hb"), &Sequence(&Name(b"eco"), &Name(b"hb"))),
                ),
                &Name(b"fsc"),
            ),
        ),
    ),
    // acyclic (base | fence) as sc
    Line::Check(
        CheckKind::Acyclic,
        Union(&Name(b"base"), &Name(b"fence")),
        b"sc",
    ),
    // let conflict = (((W * M) | (M * W)) & loc) \ id
    Line::Let(
        b"conflict",
        Difference(
            &Intersection(
                &Union(
                    &Product(&Name(b"W"), &Name(b"M")),
                    &Product(&Name(b"M"), &Name(b"W")),
                ),
                &Name(b"loc"),
            ),
            &Name(b"id"),
        ),
    ),
    // let race = conflict \ ((A * A) | (hb | hb^-1))
    Line::Let(
        b"race",
        Difference(
            &Name(b"conflict"),
            &Union(
                &Product(&Name(b"A"), &Name(b"A")),
                &Union(&Name(b"hb"), &Inverse(&Name(b"hb"))),
            ),
        ),
    ),
    // flag ~empty race as data-race
    Line::FlagNot(CheckKind::Empty, Name(b"race"), b"data-race"),
];

/// Adds the items of these lines.
fn add(alloc: Global, lines: &[Line], items: &mut Vec<Item>) -> Result<(), AllocError>
    ensures { OnOk result (map clause_of items.new.items ≡ map clause_of items.old.items ++ map line_of lines.now) }
{
    for line in lines {
        items.push(item(alloc, line)?)?;
    }
    Ok(())
}

/// Adds the items of the orders.
#[tactic(auto, unfolding(crate::specs::Rc11::rc11))]
fn add_orders(alloc: Global, items: &mut Vec<Item>) -> Result<(), AllocError>
    ensures { OnOk result (map clause_of items.new.items ≡ map clause_of items.old.items ++ take 8 rc11_tree.items) }
{
    add(alloc, &ORDERS, items)
}

/// Adds the items of the checks.
#[tactic(auto, unfolding(crate::specs::Rc11::rc11))]
fn add_checks(alloc: Global, items: &mut Vec<Item>) -> Result<(), AllocError>
    ensures { OnOk result (map clause_of items.new.items ≡ map clause_of items.old.items ++ drop 8 rc11_tree.items) }
{
    add(alloc, &CHECKS, items)
}

/// The items of `rc11.cat`.
#[tactic(auto, unfolding(crate::specs::Rc11::rc11))]
fn rc11_items(alloc: Global) -> Result<Vec<Item>, AllocError>
    ensures { IfOk result (λ v. map clause_of v.items ≡ rc11_tree.items) }
{
    let mut items = Vec::new(alloc);
    add_orders(alloc, &mut items)?;
    add_checks(alloc, &mut items)?;
    Ok(items)
}

/// All of it.
#[tactic(auto, unfolding(crate::specs::Rc11::rc11))]
pub fn rc11(alloc: Global) -> Result<CatFile, AllocError>
    ensures { IfOk result (λ f. f ≡ rc11_tree) }
{
    let title = Title::new(Vec::from_slice(alloc, b"RC11")?);
    let items = rc11_items(alloc)?;
    Ok(CatFile::new(Some(title), items))
}
