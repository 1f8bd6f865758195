//! What the book lists.

ghost use Rattle.std.specs.Prelude.{◌≡◌};

use std::marker::Model;
use wb_text::Name;

/// A name of a test or a cat file that is loaded, with its version.
#[derive(Drop, PartialEq, Eq)]
pub struct Loaded {
    pub name: Name,
    pub version: u32,
}

/// A job: its number, the name of its test and that of its model's root, how many of its slices are returned, and how
/// many it has.
#[derive(Drop, PartialEq, Eq)]
pub struct JobRow {
    pub number: u32,
    pub test: Name,
    pub cat: Name,
    pub done: usize,
    pub total: usize,
}

/// The loaded tests, the loaded cat files and the jobs. Contracts see the three lists.
pub struct Listing {
    tests: Vec<Loaded>,
    cats: Vec<Loaded>,
    jobs: Vec<JobRow>,
}

// A function of its own: whoever holds one drops it by a call.
impl Drop for Listing {
    fn drop(self) {
        let Listing {
            tests: _,
            cats: _,
            jobs: _,
        } = self;
    }
}

impl Model for Listing {
    ghost use Rattle.journal.specs.ListCodes.{coded_catalogue};
    ghost use Rattle.journal.specs.Listed.{Catalogue};

    ghost Value = { Catalogue };

    ghost coded = { coded_catalogue };

    ghost view = { λ l. record { tests = l.tests.items; cats = l.cats.items; jobs = l.jobs.items } };
}

impl Listing {
    /// These lists.
    pub fn new(tests: Vec<Loaded>, cats: Vec<Loaded>, jobs: Vec<JobRow>) -> Self
        ensures { result ≡ record { tests = tests.items; cats = cats.items; jobs = jobs.items } }
    {
        Listing { tests, cats, jobs }
    }

    /// The loaded tests, in the order in which their names were first loaded.
    pub fn tests(&self) -> &[Loaded]
        ensures { result.now ≡ self.now.tests }
    {
        &self.tests
    }

    /// The loaded cat files, in the order in which their names were first loaded.
    pub fn cats(&self) -> &[Loaded]
        ensures { result.now ≡ self.now.cats }
    {
        &self.cats
    }

    /// The jobs, by number.
    pub fn jobs(&self) -> &[JobRow]
        ensures { result.now ≡ self.now.jobs }
    {
        &self.jobs
    }
}
