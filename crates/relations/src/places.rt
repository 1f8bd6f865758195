//! Sets of places.

ghost use Rattle.std.specs.Prelude.{◌≡◌, ◌⊎◌, ◌↔◌, IsTrue};
ghost use Rattle.relations.specs.Events.{Has, IsExactlySet, event_set};
ghost use Rattle.relations.specs.Words.{has_bit};

use std::marker::Model;

/// A set of the places 0 to 63, which are all that a run of at most 64 events can have. It takes eight bytes, and its value
/// is that of a `Set` over 64 events.
#[derive(Drop)]
pub struct Places {
    // Bit i tells of place i.
    word: u64,
}

impl Model for Places {
    ghost use Rattle.relations.specs.Words.{has_bit};
    ghost use Rattle.relations.specs.Events.{EventSet, event_set};

    ghost Value = { EventSet };

    ghost view = { λ s. event_set 64 (has_bit s.word) };
}

impl Places {
    /// No place.
    pub fn none() -> Self
        ensures { IsExactlySet 64 (λ i. ⊥) result }
    {
        Places { word: 0 }
    }

    /// This place alone. A place past 63 is left out.
    pub fn just(place: usize) -> Self
        ensures { IsExactlySet 64 (λ i. i ≡ place) result }
    {
        if place < 64 {
            Places { word: 1 << place }
        } else {
            Places::none()
        }
    }

    /// Is the place in?
    pub fn contains(&self, place: usize) -> bool
        ensures { IsTrue result ↔ Has self.now place }
    {
        place < 64 && (self.word >> place) & 1 == 1
    }

    /// The places of either.
    pub fn union(&self, other: &Self) -> Self
        ensures { IsExactlySet 64 (λ i. Has self.now i ⊎ Has other.now i) result }
    {
        Places {
            word: self.word | other.word,
        }
    }

    /// Are they the same places?
    pub fn is_same(&self, other: &Self) -> bool
        ensures { IsTrue result ↔ (self.now ≡ other.now) }
    {
        self.word() == other.word()
    }

    /// The same places once more.
    pub fn copy(&self) -> Self
        ensures { result ≡ self.now }
    {
        Places { word: self.word }
    }

    // The word that tells which places are in.
    fn word(&self) -> u64
        ensures { event_set 64 (has_bit result) ≡ self.now }
    {
        self.word
    }
}
