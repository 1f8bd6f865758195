//! What is known of the executions of a block.

ghost use Rattle.std.specs.Prelude.{◌≡◌, length};
ghost use Rattle.events.specs.Executions.{GraphValue};
ghost use Rattle.events.specs.Cuts.{cut_down};
ghost use Rattle.candidates.specs.Blocks.{Fits, cut_of, free_of, unplaced_of};
ghost use Rattle.candidates.specs.Readings.{IsPage};

use crate::depths::Known;
use crate::page::Page;
use events::Cut;

/// A block around the execution that a walk found last: how much is known of its executions, and the number behind them.
#[derive(Clone, Copy)]
pub struct Block<'a> {
    pub cut: Cut<'a>,
    pub end: u64,
}

/// How much is known of executions with the page's runs.
pub(crate) fn cut_to(page: &Page, locations: usize, known: Known) -> Cut<'_>
    requires page { IsPage locations page.now }
    requires known { Fits locations page.now.runs.items known }
    ensures cut { (x : GraphValue) → length x.init ≡ locations → x.runs ≡ page.now.runs.items → cut_down x result ≡ cut_of known x }
    ensures parts { (result.locations ≡ free_of locations known) × (result.unplaced.now ≡ unplaced_of page.now.runs.items known) }
{
    match known {
        Known::Sources(count) => Cut {
            reads: count,
            locations,
            unplaced: &[],
        },
        Known::Orders(unplaced) => Cut {
            reads: page.reads.len(),
            locations: unplaced.locations,
            unplaced: &page.writes_to(unplaced.locations)[..unplaced.writes],
        },
    }
}
