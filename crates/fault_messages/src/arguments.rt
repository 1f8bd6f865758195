//! What calls take between their parentheses.

use crate::found::Found;
use crate::words::{Row, told_of};

/// Words that an order's name ends with.
const SHORT: [Row; 5] = [
    ("relaxed", "is no order; did you mean memory_order_relaxed?"),
    ("acquire", "is no order; did you mean memory_order_acquire?"),
    ("release", "is no order; did you mean memory_order_release?"),
    ("acq_rel", "is no order; did you mean memory_order_acq_rel?"),
    ("seq_cst", "is no order; did you mean memory_order_seq_cst?"),
];

/// What is wrong with a token in a call, where that is known.
pub fn of_argument(found: Found<'_>) -> Option<&'static str> {
    if is_at_order(found) {
        return told_of(&SHORT, found.word).or(Some(
            "can't stand here; an order is wanted, such as memory_order_relaxed",
        ));
    }
    if lacks_order(found) {
        return Some("can't stand here; an order is wanted before it, such as memory_order_relaxed");
    }
    None
}

/// How many commas stand before a call's order, if it takes one.
fn commas_to_order(call: &[u8]) -> Option<usize> {
    match call {
        b"atomic_thread_fence" => Some(0),
        b"atomic_load_explicit" => Some(1),
        _ if call.ends_with(b"_explicit") => Some(2),
        _ => None,
    }
}

/// Whether a token stands where its call's order is wanted.
fn is_at_order(found: Found<'_>) -> bool {
    let begins = matches!(found.before, b"," | b"(");
    begins && commas_to_order(found.call) == Some(found.commas)
}

/// Whether a call is closed behind its last argument but the order.
fn lacks_order(found: Found<'_>) -> bool {
    let closes = found.word == b")".as_slice() && found.behind_value;
    closes && commas_to_order(found.call) == Some(found.commas.saturating_add(1))
}
