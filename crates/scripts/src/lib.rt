//! Scripts: their lines, the instructions that these spell, and `serve`, which carries them out at a desk and prints the replies.
#![tactic(auto)]

mod block;
mod fault;
mod instruction;
pub mod laws;
mod lines;
mod options;
mod outcome;
mod print;
mod reading_fault;
mod run;
mod script;
mod seats;
mod work;

pub use block::Block;
pub use fault::ServeFault;
pub use instruction::{Head, Instruction, LineFault, Request, read_head};
pub use lines::Lines;
pub use options::Options;
pub use reading_fault::ScriptFault;
pub use run::serve;
pub use script::Script;
