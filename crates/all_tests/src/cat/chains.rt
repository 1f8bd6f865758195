//! The longest chains of operators, and the deepest nestings, that a model of 4,096 nodes holds: read, copied, compared,
//! resolved and judged.

use crate::cat::loading::is_so;
use crate::cat::syntax::compare;
use crate::rows::all_hold;
use std::alloc::{AllocError, Global};

/// Whether a text is equal to its copy and not to the text beside it, and that holds of it.
fn is_copied_and_so(alloc: Global, texts: &str, words: &str) -> Result<bool, AllocError> {
    let (text, _) = texts.split_once(" <> ").unwrap_or((texts, ""));
    Ok(compare(alloc, texts, false)? && is_so(alloc, text, words)?)
}

/// Texts, and others that they aren't equal to.
const CHAINS: &str = "# chains of operators
empty 0@ | 0@2046@ | fr <> empty 0@ | 0@2047@ ==> forbids
empty 0@ | 0@2047@ <> empty (0 | 0)@ | 0@2046@ ==> allows
empty id@ ; id@2046@ ; fr <> empty id@ ; id@2047@ ==> forbids
empty 0@ ; id@2047@ <> empty 0@ ; id@2046@ ==> allows
empty rf@ \\ 0@2046@ \\ rf <> empty rf@ \\ 0@2047@ ==> allows
empty rf \\ rf@ \\ 0@2046@ <> empty rf \\ (rf \\ 0)@ \\ 0@2045@ ==> allows
empty rf@ & rf@2047@ <> empty rf@ & rf@2046@ ==> forbids
empty rf@ & rf@2046@ & 0 <> empty (rf & rf)@ & rf@2046@ ==> allows
empty rf@ | rf ; rf \\ rf & rf@511@ <> empty rf@ | rf ; rf \\ rf & rf@510@ ==> forbids
# chains of signs
empty fr \\ fr@^-1@4092@ <> empty fr \\ fr@^-1@4091@ ==> allows
acyclic po@ +@4094@ <> acyclic po@ +@4093@ ? ==> allows
irreflexive po@*@4094@ <> irreflexive po@*@4093@ ==> forbids
irreflexive po@?@4094@ <> irreflexive po+@?@4093@ ==> forbids
empty @~@64@0 <> empty @~@63@0 ==> allows
empty @~@63@0 <> empty @~@62@0 ==> forbids
# calls
let f(x) = x empty @f(@64@fr@)@64@ <> let f(x) = x empty @f(@63@fr@)@63@ ==> forbids
let f(x) = fr empty @f(0 | @64@fr@)@64@ <> let f(x) = fr empty @f(0 | @64@rf@)@64@ ==> forbids
let f(x) = x @let f(x) = f(x ; id) @63@empty f(0) <> let f(x) = x @let f(x) = f(x ; id) @62@empty f(0) ==> allows
let f(x) = x | fr @let f(x) = f(x) & f(fr) @13@empty f(0) <> let f(x) = x | fr @let f(x) = f(x) & f(rf) @13@empty f(0) ==> forbids
# nestings
empty @(@64@fr@)@64@ <> empty @(@64@rf@)@64@ ==> forbids
empty @[domain(@32@0@)]@32@ <> empty @[range(@32@0@)]@32@ ==> allows
empty @0 | 0 ; 0 \\ 0 & (@64@rf@)@64@ <> empty @0 | 0 ; 0 \\ 0 & (@64@rf@)@63@ ; 0) ==> allows
empty @(@64@fr@ & fr \\ 0 ; id | 0)@64@ <> empty @(@64@fr@ & fr \\ 0 ; id | 0)@63@) ==> forbids";

#[test]
fn chains_and_nestings(rt: HostRuntime) {
    all_hold(
        &rt,
        rt.alloc(),
        "chains and nestings",
        CHAINS,
        is_copied_and_so,
    );
}
