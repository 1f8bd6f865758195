//! Tests of all that the programs stand on, by public items alone: the text layer, sets and relations, executions, the litmus reader, candidate executions
//! and the cat crates; the book, the desk that sessions share and its workers (`desk`), single tests and scripts (`script`); what is printed of suites, why an
//! execution is forbidden, and what is told of wrong texts. They stand here so that the crates that they test are proved once.
#![tactic(auto)]

#[cfg(test)]
mod base;
#[cfg(test)]
mod candidate;
#[cfg(test)]
mod cases;
#[cfg(test)]
mod cat;
#[cfg(test)]
mod desk;
#[cfg(test)]
mod graphs;
#[cfg(test)]
mod litmus;
#[cfg(test)]
mod messages;
#[cfg(test)]
mod names;
#[cfg(test)]
mod reader;
#[cfg(test)]
mod rows;
#[cfg(test)]
mod script;
#[cfg(test)]
mod suites;
#[cfg(test)]
mod why;
