//! How much is known of an execution.

use crate::event::EventId;

/// How much is known of an execution, where not all is.
#[derive(Clone, Copy, Drop)]
pub struct Cut<'a> {
    /// What so many of the first reads read from is known.
    pub reads: usize,
    /// Of so many of the first locations it is known which write is the first, and no more.
    pub locations: usize,
    /// The writes to the location behind these whose places aren't known, except that the first write stands before them. All other orders
    /// are known.
    pub unplaced: &'a [EventId],
}

/// Some of what an execution has: sources of its reads, in their order, and an order of some writes. Where the source of a read isn't known, an
/// event stands in its place that the execution hasn't got.
#[derive(Clone, Copy, Drop)]
pub struct Excerpt<'a> {
    pub sources: &'a [EventId],
    pub order: &'a [EventId],
}

/// What is known of an execution beside its runs, where not all is.
#[derive(Clone, Copy, Drop)]
pub enum Part<'a> {
    Cut(Cut<'a>),
    Excerpt(Excerpt<'a>),
}
