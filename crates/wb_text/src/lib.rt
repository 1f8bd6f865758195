//! The text layer: names, tokens of the two languages, and byte sources and sinks.
#![tactic(auto)]

mod byte;
mod fault;
mod gap;
mod head;
pub mod laws;
mod lexeme;
mod name;
mod number;
mod same;
mod sign;
mod sink;
mod source;
mod token;

pub use fault::{Failed, NameFault, ReadFault, TextFault};
pub use name::Name;
pub use number::decimal;
pub use same::are_same;
pub use sink::{MemSink, Sink, WriteSink, give_all};
pub use source::{MemSource, ReadSource, Source, read_up_to};
pub use token::{Dialect, Token, TokenKind, tokens};
