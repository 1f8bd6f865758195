//! Which models are known to say the same of executions that differ in their coherence orders alone.

use crate::cat::loading::is_so;
use crate::rows::all_hold;

const MODELS: &str = " ==> orderless
acyclic po | rf as x ==> orderless
acyclic po | rf | co as x ==> ordered
include \"rc11.cat\" ==> ordered
flag ~empty coe as x ==> ordered
# Each name of what rests on the orders.
empty fr ==> ordered
empty coi ==> ordered
empty fri ==> ordered
empty fre ==> ordered
# Bindings and bodies of functions.
let r = rf ; rfe^-1 empty r \\ rfi ==> orderless
let r = co ==> ordered
let rec r = rf | r ; r empty r ==> orderless
let rec r = co | r ; r empty po ==> ordered
let f(x) = x | po empty f(rf) ==> orderless
let f(x) = x | co empty f(0) ==> ordered
acyclic fencerel(F) | rf ==> orderless
# Names that are bound anew stand for other things, and count.
let co = rf empty co ==> ordered
# What has no effect.
show co ==> orderless";

#[test]
fn known_or_not(rt: HostRuntime) {
    all_hold(&rt, rt.alloc(), "known or not", MODELS, is_so);
}
