//! Tests of the crates `slices` and `book`.
//!
//! Each test passes, too, where one request for memory is refused, whichever it is: what is refused is made again. So
//! `tools/refuse-each-growth` runs them once for each request.

mod calls;
mod growth;
mod refused;
pub mod scene;
