//! The grammar of C litmus tests: from the tokens of a text to the test as it is written.
#![tactic(auto)]

mod atomics;
mod draft;
pub mod laws;
mod symbol;
mod syntax;
mod syntax_fault;
mod table;

pub use atomics::Operation;
pub use draft::{Body, Draft};
pub use symbol::{Symbol, Terminal, symbols};
pub use syntax::read_draft;
pub use syntax_fault::SyntaxFault;
