//! An execution as text, and as a file for Graphviz: the numbers, names and texts of its events, and its arrows.
#![tactic(auto)]

mod arrows;
mod bytes;
mod drawing;
mod event;
mod graphviz;
mod group;
mod lines;
mod quoting;
mod scene;
mod write;

pub use drawing::{Broken, Chain, Drawing, Step};
pub use graphviz::dot;
pub use lines::text;
pub use write::{DrawFault, write_dot, write_text};
