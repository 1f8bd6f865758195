//! How far the search for free slices has come.

/// A slice, by the place of its job among the jobs and its own among the job's slices. No slice before it is free.
#[derive(Clone, Copy, Drop)]
pub struct Mark {
    pub job: usize,
    pub slice: u16,
}
