//! The operators that the reader tells apart.

use crate::symbol::Terminal;
use cat_tree::Sign;

/// An operator behind its operand.
#[derive(Clone, Copy)]
pub enum Postfix {
    Plus,
    Star,
    Optional,
    Inverse,
}

/// What stands around an expression that is an operand, and the sign that it comes to, if to one.
#[derive(Clone, Copy)]
pub struct Enclosure {
    pub opening: Terminal,
    pub closing: Terminal,
    pub sign: Option<Sign>,
}
