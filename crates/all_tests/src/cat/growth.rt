//! Calls for which memory is refused once: each says so or gives its own answer, and leaves things as they were. What is
//! refused is made again, and then gives its own answer.
//!
//! `tools/refuse-each-growth all_tests cat::growth::reading ..` runs these tests once for each request for memory.

use crate::cat::loading::follow;
use crate::cat::syntax::{is_copied, read_as};
use crate::rows::{all_answered, all_hold};

/// Texts with the numbers of their items and their titles. The first has each kind of item and expression.
const COPIES: &str =
    "T let rec r = a | b ; c \\ d & W * R and s = ~(r+) let t = r* | r? | r^-1 | domain(r) | range(r) | [W] | 0 | {} | _ and f(x, y) = g(y, x | r) include \"b.cat\" flag ~empty r as none acyclic s show r as a, s unshow r, s ==> 7 T
\"a title\" let rec r = r and s = r include \"b.cat\" flag ~empty r as none show r as a, s unshow r, s ==> 5 a title";

const LEFT_OUT: &str = "let rec f(x) = x ==> 53 Unsupported f";

#[test]
fn reading(rt: HostRuntime) {
    all_hold(&rt, rt.alloc(), "items and copies", COPIES, is_copied);
    all_answered(&rt, rt.alloc(), "a word left out", LEFT_OUT, read_as);
}

/// The files of a root that includes two others, one of them built in. Store buffering with plain accesses is forbidden.
const TWO_FILES: &str = "base.cat: let com = rf | co | fr and with_po(x) = x | po
- root.cat: include \"base.cat\" include \"rc11.cat\" flag ~empty fr as read acyclic with_po(com) as sc
- root.cat ==> put base.cat 1 root.cat 1
- root.cat ==> 23 root.cat 1 base.cat 1 rc11.cat 0
- root.cat ==> copied
- root.cat ==> na forbids data-race read";

const LATER: &str = "root.cat: include \"rc11.cat\" let r = po | later
- root.cat ==> 64 Unbound later";

/// Three bindings that make half a million nodes of one.
const DOUBLED: &str =
    "root.cat: let f(x) = x | x | x | x let f(x) = f(f(f(x))) let f(x) = f(f(f(x))) empty f(0)
- root.cat ==> 69 CallsTooLarge empty";

#[test]
fn resolving(rt: HostRuntime) {
    follow(&rt, rt.alloc(), "two files", TWO_FILES);
    follow(&rt, rt.alloc(), "an unbound name", LATER);
    follow(&rt, rt.alloc(), "calls too large", DOUBLED);
}
