//! What the book lists.

ghost use Rattle.std.specs.Prelude.{◌≡◌, map, IfOk};
ghost use Rattle.book.specs.Listings.{listing, listed_cats, row_of};

use crate::jobs::Job;
use crate::workbench::Bench;
use cat_model::Files;
use journal::{JobRow, Listing, Loaded};
use std::alloc::{AllocError, Global};

impl Bench {
    /// What is loaded and asked.
    pub(crate) fn listing(&self, alloc: Global) -> Result<Listing, AllocError>
        ensures { IfOk result (λ l. l ≡ listing self.now) }
    {
        let tests = self.tests.listed(alloc)?;
        let cats = loaded_cats(alloc, &self.cats)?;
        let jobs = job_rows(alloc, &self.jobs)?;
        Ok(Listing::new(tests, cats, jobs))
    }
}

/// The loaded files, in the order in which their names were first put.
#[tactic(auto, using(crate::proofs::Listed::cat_there, crate::proofs::Listed::cat_away, crate::proofs::Listed::no_more_cats))]
fn loaded_cats(alloc: Global, cats: &Files) -> Result<Vec<Loaded>, AllocError>
    ensures { IfOk result (λ v. v.items ≡ listed_cats cats.now) }
{
    let mut listed = Vec::new(alloc);
    for place in 0..usize::MAX {
        let Some(name) = cats.name_at(place) else {
            return Ok(listed);
        };
        if cats.is_loaded(name) {
            listed.push(Loaded {
                name: name.copy()?,
                version: cats.version(name),
            })?;
        }
    }
    // No memory holds so many names.
    Err(AllocError)
}

/// The jobs as they are listed.
fn job_rows(alloc: Global, jobs: &Vec<Job>) -> Result<Vec<JobRow>, AllocError>
    ensures { IfOk result (λ v. v.items ≡ map row_of jobs.now.items) }
{
    let mut rows = Vec::new(alloc);
    for job in jobs {
        rows.push(job.row()?)?;
    }
    Ok(rows)
}
