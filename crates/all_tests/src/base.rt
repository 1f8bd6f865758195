//! Tests of the lowest crates: the text layer, sets and relations, executions. They stand here so that those crates are proved
//! once.

mod executions;
mod failing;
mod growth;
mod sets;
mod text;
