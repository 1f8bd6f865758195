//! Calls for which memory is refused once: each says so or gives its own answer, and what is made again gives its own answer.
//!
//! `tools/refuse-each-growth all_tests why::growth::searching ..` runs these tests once for each request for memory.

use crate::rows::all_answered;
use crate::why::reasons::{names_between, why};
use crate::why::searches::found;

/// What is found of store buffering that RC11 forbids.
const FOUND: &str = "SB+sc: rc11.cat ==> nothing other initial other";

#[test]
fn searching(rt: HostRuntime) {
    all_answered(&rt, rt.alloc(), "store buffering", FOUND, found);
}

const REASON: &str =
    "IRIW: let com = rf | co | fr acyclic po | com as sc ==> 1 Acyclic sc cycle 2 4 5 3 6 7";

#[test]
fn explaining(rt: HostRuntime) {
    all_answered(&rt, rt.alloc(), "the cycle of two readers", REASON, why);
}

const STEP: &str = "3 4 1: let com = rf | co | fr acyclic po | com ==> fr loc ext fre com";

#[test]
fn naming(rt: HostRuntime) {
    let name = "bindings of a model's own";
    all_answered(&rt, rt.alloc(), name, STEP, names_between);
}
