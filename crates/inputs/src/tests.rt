//! The paths of tests.

ghost use Rattle.std.specs.Prelude.{◌≡◌, ◌++◌, ◌∷◌, [], All, IfOk, IsTrue, MatchBool, OnErr, false, map, string_bytes};
ghost use Rattle.inputs.specs.Paths.{IsPlain, width_of};

use std::alloc::{AllocError, Global};
use std::marker::Model;

/// How wide the column of paths of a table is at most.
const WIDEST: usize = 60;

/// The paths of tests, in the order in which they were added. A line tells a test by its path, so none has a tab or a line feed. Contracts see the paths.
pub struct Tests {
    paths: Vec<String>,
    width: usize,
}

impl Drop for Tests {
    fn drop(self) {
        let Tests { paths: _, width: _ } = self;
    }
}

impl Model for Tests {
    ghost use Rattle.std.specs.Prelude.{◌≡◌, ℕ, List, All, map, string_bytes};
    ghost use Rattle.inputs.specs.Paths.{IsPlain, width_of};

    ghost Value = { List (List ℕ) };

    ghost view = { λ t. map string_bytes t.paths.items };

    ghost invariant = { λ t. record { plain : All IsPlain (map string_bytes t.paths.items); width : t.width ≡ width_of (map string_bytes t.paths.items) } };
}

impl Tests {
    /// None yet.
    pub(crate) fn new(alloc: Global) -> Self
        ensures { result ≡ [] }
    {
        Tests {
            paths: Vec::new(alloc),
            width: 0,
        }
    }

    /// Adds a path, if a line can tell it, and answers whether it can.
    pub(crate) fn add(&mut self, path: &str) -> Result<bool, AllocError>
        ensures added { IfOk result (λ is. MatchBool is (IsPlain path.now × (self.new ≡ self.old ++ path.now ∷ [])) ((¬ IsPlain path.now) × (self.new ≡ self.old))) }
        ensures same { OnErr result (self.new ≡ self.old) }
    {
        if !is_plain(path.as_bytes()) {
            return Ok(false);
        }
        let width = self.width.max(path.len()).min(WIDEST);
        let path = String::from_str(*self.paths.allocator(), path)?;
        self.paths.push(path)?;
        self.width = width;
        Ok(true)
    }

    /// The paths.
    pub fn paths(&self) -> &[String]
        ensures paths { map string_bytes result.now ≡ self.now }
        ensures plain { All IsPlain self.now }
    {
        &self.paths
    }

    /// How wide the column of paths of a table is: as the longest path, or 60 where that is longer.
    pub fn width(&self) -> usize
        ensures { result ≡ width_of self.now }
    {
        self.width
    }
}

/// Whether a path has neither a tab nor a line feed.
pub(crate) fn is_plain(path: &[u8]) -> bool
    ensures { MatchBool result (IsPlain path.now) (¬ IsPlain path.now) }
{
    !path.contains(&b'\t') && !path.contains(&b'\n')
}
