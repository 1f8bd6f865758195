//! How a job's numbers are cut into slices.

ghost use Rattle.std.specs.Prelude.{◌≡◌, ◌≤◌, ◌<◌, ◌^◌, IfOk};
ghost use Rattle.book.specs.Cuts.{slice_of};
ghost use Rattle.book.specs.Step.{IsCut};

use crate::slice::Slice;
use slices::cut as start_of;
use slices::laws::cuts;
use std::alloc::{AllocError, Global};

/// How many numbers a slice has, where that gives 1 to 256 slices.
const NUMBERS_OF_A_SLICE: u64 = 256;

/// The most slices of a job.
const MOST_SLICES: u64 = 256;

/// How many slices a job of so many numbers has.
fn slice_count(size: u64) -> u16
    ensures some { 1 ≤ result }
    ensures few { result ≤ 256 }
{
    let whole = size / NUMBERS_OF_A_SLICE;
    if whole >= MOST_SLICES {
        return MOST_SLICES as u16;
    }
    if whole == 0 || size % NUMBERS_OF_A_SLICE > 0 {
        whole as u16 + 1
    } else {
        whole as u16
    }
}

/// Cuts so many numbers into slices of nearly one length.
#[tactic(auto, using(crate::proofs::Cuts::none_begun, crate::proofs::Cuts::one_more, crate::proofs::Cuts::whole))]
pub fn cut(alloc: Global, size: u64) -> Result<Vec<Slice>, AllocError>
    requires { size ≤ 2 ^ 32 }
    ensures { IfOk result (λ v. IsCut size v.items) }
{
    cuts();
    let total = slice_count(size);
    let mut slices = Vec::new(alloc);
    for place in 0..total {
        slices.push(slice_at(size, total, place))?;
    }
    Ok(slices)
}

/// The slice at a place, of so many in all.
fn slice_at(size: u64, total: u16, place: u16) -> Slice
    requires size { size ≤ 2 ^ 32 }
    requires place { place < total }
    ensures { result ≡ slice_of size total place }
{
    Slice {
        from: start_of(size, total, place),
        to: start_of(size, total, place + 1),
        returned: false,
    }
}
