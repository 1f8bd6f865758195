//! How many items are asked whether they refute a partial execution. It is a hint, of which no clause speaks but that there are so many.

ghost use Rattle.std.specs.Prelude.{◌≤◌};

/// So many questions are asked of each item that can refute.
const FIRST: u32 = 64;

/// Later, one question in so many.
const TURN: u32 = 16;

/// What the questions so far tell of the next one: an item that has refuted nothing yet is seldom worth its values.
#[derive(Clone, Copy)]
pub struct Asked {
    questions: u32,
    // Each item that has refuted is among so many of the first.
    items: usize,
}

impl Asked {
    /// No question yet.
    pub fn new() -> Self {
        Asked {
            questions: 0,
            items: 0,
        }
    }

    /// How many of the first items the next question is asked of, where those that can refute are among so many.
    pub fn ask(&mut self, telling: usize) -> usize
        ensures { result ≤ telling }
    {
        self.questions = self.questions.wrapping_add(1);
        if self.questions <= FIRST || self.questions % TURN == 0 {
            return telling;
        }
        self.items.min(telling)
    }

    /// Notes which item has refuted, if any has.
    pub fn note(&mut self, refuted: Option<usize>) {
        if let Some(number) = refuted {
            self.items = self.items.max(number.saturating_add(1));
        }
    }
}
