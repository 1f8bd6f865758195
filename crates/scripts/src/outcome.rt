//! What became of an instruction.

use book::Refused;

/// What the workers counted, all together.
#[derive(Clone, Copy, Drop)]
pub struct Sums {
    pub evaluated: u128,
    pub given_back: u128,
    pub refused: u128,
}

/// What became of an instruction.
#[derive(Clone, Copy, Drop)]
pub enum Outcome {
    /// An entry was made, which is the last receipt of the pass of this seat.
    Made(u8),
    NotTaken(Refused),
    Worked(Sums),
}
