//! What is kept of the threads on the way down to a choice of runs.

use crate::counts::AccessTally;

/// A thread on the way down to a choice of runs: how often the runs that are chosen of the threads before it read and write each location,
/// and how many candidates go on with each of its own runs; the place of the run that is chosen, and how many go on with those before it.
pub(crate) struct Level {
    pub(crate) tally: AccessTally,
    pub(crate) sizes: Vec<u64>,
    pub(crate) place: usize,
    pub(crate) before: u64,
}

// A function of its own: whoever holds one drops it by a call.
impl Drop for Level {
    fn drop(self) {
        let Level {
            tally: _,
            sizes: _,
            place: _,
            before: _,
        } = self;
    }
}
