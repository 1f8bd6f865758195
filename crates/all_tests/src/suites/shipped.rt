//! The models that are shipped as texts.

use crate::rows::expect;
use cat_model::Model;
use std::alloc::Global;
use suite::{CatText, load_model};
use wb_text::Name;

/// examples/models/rc11.cat, byte for byte.
const RC11: &str = "\"RC11\"
(* The built-in model rc11.cat as a text, to begin from: after Lahav, Vafeiadis, Kang, Hur and Dreyer, \"Repairing sequential consistency in
   C/C++11\", 2017, with no-thin-air as a check of its own. *)
(* what comes before what within a thread; the initial writes come before all else *)
let sb = po | IW * (_ \\ IW)
(* reads before: from a read to the writes behind the one that it reads from *)
let rb = rf^-1 ; co
(* the order of all accesses to one location, as far as one sees the other *)
let eco = (rf | co | rb)+
let rel = REL | ACQ_REL | SC
let acq = ACQ | ACQ_REL | SC
(* the release sequence of a write: later writes of its thread to the location, and read-modify-writes that read from them *)
let rs = [W] ; (sb & loc)? ; [W & A] ; (rf ; rmw)*
(* what synchronizes with what *)
let sw = [rel] ; ([F] ; sb)? ; rs ; rf ; [R & A] ; (sb ; [F])? ; [acq]
(* what happens before what *)
let hb = (sb | sw)+
irreflexive (hb ; eco?) as coherence
empty (rmw & (rb ; co)) as atomicity
acyclic (sb | rf) as no-thin-air
(* the order of seq_cst accesses and fences *)
let sbx = sb \\ loc
let scb = sb | sbx ; hb ; sbx | hb & loc | co | rb
let fsc = [F & SC]
let base = ([SC] | fsc ; hb?) ; scb ; ([SC] | hb? ; fsc)
let fence = fsc ; (hb | hb ; eco ; hb) ; fsc
acyclic (base | fence) as sc
(* two accesses to one location, one of them a write, and not both atomic, of which neither happens before the other *)
let conflict = (W * M | M * W) & loc \\ id
let race = conflict \\ (A * A | hb | hb^-1)
flag ~empty race as data-race
";

/// The model of a root among these texts and the built-in ones.
fn model(alloc: Global, root: &[u8], texts: &[CatText<'_>]) -> Option<Model> {
    let root = Name::new(alloc, root).ok()?;
    load_model(alloc, &root, texts).ok()
}

/// Whether the shipped text has the items of the built-in model.
fn is_built_in(alloc: Global) -> Option<bool> {
    let name = Name::new(alloc, b"shipped.cat").ok()?;
    let text = CatText {
        name: &name,
        text: RC11.as_bytes(),
    };
    let shipped = model(alloc, b"shipped.cat", &[text])?;
    let built_in = model(alloc, b"rc11.cat", &[])?;
    Some(shipped.items() == built_in.items())
}

#[test]
fn rc11_is_the_built_in_model(rt: HostRuntime) {
    expect(&rt, "rc11.cat", is_built_in(rt.alloc()).unwrap_or(false));
}
