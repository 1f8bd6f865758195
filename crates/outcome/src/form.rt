//! What is asked of each test, and what a test is that is told of.

use suite::Case;

/// What is printed of each test.
#[derive(Clone, Copy)]
pub enum Form {
    /// The summary of each verdict, and nothing of a refusal.
    Summary,
    /// One line for each verdict or refusal.
    Line,
    /// A row of a table for each test, with a column for each model.
    Table,
    /// Fields between tabs, a line for each verdict or refusal.
    Tabs,
    /// An object of JSON for each verdict or refusal.
    Json,
}

/// What is asked of each test.
#[derive(Clone, Copy)]
pub struct Wanted<'a> {
    pub form: Form,
    /// How wide the paths of a table are.
    pub width: usize,
    /// The words that named the models.
    pub models: &'a [Vec<u8>],
    /// Whether rows are kept, to be compared or stored.
    pub keeps_rows: bool,
}

/// A test that was judged, or couldn't be.
#[derive(Clone, Copy)]
pub struct Tested<'a> {
    pub path: &'a str,
    pub text: &'a [u8],
    /// The test under each of the models, in their order.
    pub cases: &'a [Case<'a>],
    /// How long it took under all of them.
    pub milliseconds: u64,
}
