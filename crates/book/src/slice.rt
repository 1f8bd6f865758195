//! Slices of a job.

/// The numbers from `from` to `to - 1` of a job's work, and whether their result is returned.
#[derive(Clone, Copy, Drop)]
pub struct Slice {
    pub from: u64,
    pub to: u64,
    pub returned: bool,
}
