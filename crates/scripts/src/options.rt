//! What a script is run under.

ghost use Rattle.std.specs.Prelude.{◌≡◌};

use book::Limits;

/// The most versions of a name, and the most claims.
const MOST_NUMBERED: u32 = 1_000_000;

/// How many workers a script has, and what its book is bounded by.
#[derive(Clone, Copy, Drop)]
pub struct Options {
    /// At most 8. Where it is 0, one worker works on the thread of the script.
    pub workers: u8,
    pub limits: Limits,
}

impl Options {
    /// So many workers over a book of at most so many entries.
    pub fn new(workers: u8, journal: u32) -> Self
        ensures workers { result.workers ≡ workers }
        ensures limits { result.limits ≡ record { journal = journal; versions = 1000000; claims = 1000000 } }
    {
        Options {
            workers,
            limits: Limits {
                journal,
                versions: MOST_NUMBERED,
                claims: MOST_NUMBERED,
            },
        }
    }
}
