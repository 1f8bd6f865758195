//! Works of tests under built-in models, and what is found of all their numbers. What is refused for memory is made again.

ghost use Rattle.std.specs.Prelude.{◌≡◌, IfOk};
ghost use Rattle.all_tests.specs.Whole.{IsOver};
ghost use Rattle.slices.specs.Parts.{test_size};

use crate::desk::commands::name;
use crate::rows::again;
use cat_model::{Files, Model, resolve};
use litmus_c::{Test, read_test};
use slices::{Piece, PieceResult, Work, WorkRef, evaluate};
use std::alloc::{AllocError, Global};

fn test_of(alloc: Global, text: &[u8]) -> Result<Test, AllocError> {
    again!(_, read_test(alloc, text)).or(Err(AllocError))
}

fn model_once(alloc: Global, file: &[u8]) -> Result<Model, AllocError> {
    let files = Files::new(alloc)?;
    let root = name(alloc, file)?;
    resolve(alloc, &files, &root).or(Err(AllocError))
}

fn work_once(alloc: Global, test: Test, file: &[u8]) -> Result<Work, AllocError> {
    let model = again!(AllocError, model_once(alloc, file))?;
    Work::new(alloc, test, model).or(Err(AllocError))
}

/// What is refused leaves the test, which is kept more than once.
fn work(alloc: Global, text: &[u8], file: &[u8]) -> Result<Work, AllocError> {
    let test = test_of(alloc, text)?;
    match work_once(alloc, test.copy()?, file) {
        Ok(work) => Ok(work),
        Err(AllocError) => work_once(alloc, test, file),
    }
}

/// A test under a built-in model.
pub fn work_of(alloc: Global, text: &[u8], file: &[u8]) -> Result<WorkRef, AllocError> {
    again!(AllocError, WorkRef::new(alloc, work(alloc, text, file)?))
}

/// The piece of all numbers, the first slice of job 1 under claim 1.
pub fn whole_piece(work: &WorkRef) -> Result<Piece, AllocError>
    ensures work { IfOk result (λ p. p.work ≡ work.now) }
    ensures first { IfOk result (λ p. p.from ≡ 0) }
    ensures last { IfOk result (λ p. p.to ≡ test_size work.now.test) }
{
    let size = work.work().size();
    Ok(Piece::new(1, 1, 0, 0, size, work.share()?))
}

/// The result of all numbers.
pub fn whole_part(alloc: Global, work: &WorkRef) -> Result<PieceResult, AllocError>
    ensures { IfOk result (IsOver work.now) }
{
    let piece = whole_piece(work)?;
    match evaluate(alloc, &piece) {
        Ok(part) => Ok(part),
        Err(AllocError) => evaluate(alloc, &piece),
    }
}
