//! Which jobs are replaced.

ghost use Rattle.std.specs.Prelude.{◌≡◌, Some, false, is_some, IfOk, IfSome, IsTrue};
ghost use Rattle.book.specs.Workbench.{is_replaced, job_of, replaced, replaced_file};

use crate::jobs::Job;
use crate::workbench::Bench;
use cat_model::{FileVersion, Files};
use journal::{Replacement, SourceKind};
use std::alloc::AllocError;

impl Bench {
    /// Whether a version of a job is no longer its own. It takes no memory.
    pub(crate) fn is_replaced(&self, job: &Job) -> bool
        ensures { result ≡ is_replaced self.now job.now }
    {
        let work = job.work().work();
        self.tests.version(work.test().name()) != job.version()
            || is_replaced_file(&self.cats, work.model().files())
    }

    /// As `replaced`, of the job of a number. The job of the last search for a free slice isn't asked about again.
    pub(crate) fn replaced_since(
        &self,
        number: u32,
        job: &Job,
    ) -> Result<Option<Replacement>, AllocError>
        requires { job_of self.now.jobs number ≡ Some job.now }
        ensures { IfOk result (λ r. r ≡ replaced self.now job.now) }
    {
        if self.is_current(number) {
            return Ok(None);
        }
        self.replaced(job)
    }

    /// Whether the job of a number is known not to be replaced: the search for a free slice is behind its first.
    fn is_current(&self, number: u32) -> bool
        ensures { IsTrue result → IfSome (job_of self.now.jobs number) (λ j. is_replaced self.now j ≡ false) }
    {
        match self.jobs.get(self.mark.job) {
            Some(job) => {
                if self.mark.slice == 0 {
                    return false;
                }
                job.number() == number
            }
            None => false,
        }
    }

    /// The first of a job's test and then its files whose version is no longer the job's.
    pub(crate) fn replaced(&self, job: &Job) -> Result<Option<Replacement>, AllocError>
        ensures { IfOk result (λ r. r ≡ replaced self.now job.now) }
    {
        let work = job.work().work();
        let name = work.test().name();
        let version = self.tests.version(name);
        if version != job.version() {
            return Ok(Some(Replacement {
                kind: SourceKind::Test,
                name: name.copy()?,
                version,
            }));
        }
        let files = work.model().files();
        replaced_file(&self.cats, files)
    }
}

/// Whether the version of one of the files is no longer this.
fn is_replaced_file(cats: &Files, files: &[FileVersion]) -> bool
    ensures { result ≡ is_some (replaced_file cats.now files.now) }
{
    for file in files {
        if cats.version(&file.name) != file.version {
            return true;
        }
    }
    false
}

/// The first of the files whose version is no longer this.
fn replaced_file(cats: &Files, files: &[FileVersion]) -> Result<Option<Replacement>, AllocError>
    ensures { IfOk result (λ r. r ≡ replaced_file cats.now files.now) }
{
    for file in files {
        let version = cats.version(&file.name);
        if version != file.version {
            return Ok(Some(Replacement {
                kind: SourceKind::Cat,
                name: file.name.copy()?,
                version,
            }));
        }
    }
    Ok(None)
}
