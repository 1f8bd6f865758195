//! What is drawn.

use events::Graph;
use wb_text::Name;

/// A step of the evidence: the number of the event that it leads to, and the names of the relations that lead there.
#[derive(Drop)]
pub struct Step {
    pub to: usize,
    pub labels: Vec<Name>,
}

/// The evidence against a check, by the numbers of its events: one event; or a first event, and steps from each event to
/// the next. The last step of a cycle leads back to the first event.
#[derive(Drop)]
pub struct Chain {
    pub first: usize,
    pub steps: Vec<Step>,
}

/// A check that the execution breaks, in the words of the model, and the evidence if there is any.
#[derive(Drop)]
pub struct Broken<'a> {
    pub check: &'a [u8],
    pub chain: Option<&'a Chain>,
}

/// An execution of a test, and what is told of it: the name of the test and those of its locations, the model that it is
/// judged under, and the check of the model that it breaks.
#[derive(Drop)]
pub struct Drawing<'a> {
    pub name: &'a Name,
    pub locations: &'a [Name],
    pub graph: &'a Graph,
    pub model: Option<&'a [u8]>,
    pub broken: Option<Broken<'a>>,
}
