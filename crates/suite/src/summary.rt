//! The summary of a verdict, in memory.

ghost use Rattle.std.specs.Prelude.{◌≡◌, IfOk};
ghost use Rattle.report.specs.Texts.{Text};

use crate::sink::TextSink;
use report::write_summary;
use slices::Verdict;
use std::alloc::{AllocError, Global};

/// The printed summary of a verdict.
pub fn summary_of(alloc: Global, verdict: &Verdict) -> Result<Vec<u8>, AllocError>
    ensures { IfOk result (λ v. v.items ≡ Text verdict.now.finding) }
{
    let mut sink = TextSink::new(alloc);
    match write_summary(verdict, &mut sink) {
        Ok(()) => Ok(sink.into_bytes()),
        Err(_) => Err(AllocError),
    }
}
