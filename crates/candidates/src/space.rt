//! The numbered candidates of a test.

ghost use Rattle.std.specs.Prelude.{◌≡◌, ◌<◌, ◌≤◌, ◌^◌, [], length, map, IfOk, IfErr};
ghost use Rattle.conditions.specs.States.{value_at};
ghost use Rattle.candidates.specs.Executions.{initial_values};
ghost use Rattle.candidates.specs.Executions.{IsSize, upto};
ghost use Rattle.candidates.specs.Candidates.{choices, choices_of, size_of, graph_at, no_execution};
ghost use Rattle.c11_threads.specs.Unrolled.{runs_of};
ghost use Rattle.candidates.specs.Faults.{HaveFewRuns, IsSpaceFault};
ghost use Rattle.candidates.specs.Groups.{tally_of, HasRoom};
ghost use Rattle.candidates.specs.Parts.{AreAllWithin, AreShort};
ghost use Rattle.candidates.specs.Levels.{groups_of};
ghost use Rattle.candidates.specs.Located.{AreThreads, choices_by};
ghost use Rattle.candidates.specs.Walks.{IsPausedIn};

use crate::choosing::{RunList, group_all};
use crate::fault::{MOST_CANDIDATES, SpaceFault};
use crate::groups::{Groups, count_all};
use crate::impossible::{ThreadNeeds, all_needs};
use crate::threads::Threads;
use crate::walk::{PausedWalk, Walk, find};
use c11_threads::{initial_value, runs};
use conditions::Place;
use events::Graph;
use litmus_value::Test;
use std::alloc::{AllocError, Global};
use std::marker::Model;

/// The numbered candidates of a test. It holds the runs of each thread, in groups, what these read and write, and no candidate.
pub struct Space {
    init: Vec<u32>,
    threads: Vec<RunList>,
    groups: Vec<Groups>,
    needs: Vec<ThreadNeeds>,
    size: u64,
}

// A function of its own: whoever holds one drops it by a call.
impl Drop for Space {
    fn drop(self) {
        let Space {
            init: _,
            threads: _,
            groups: _,
            needs: _,
            size: _,
        } = self;
    }
}

impl Model for Space {
    ghost use Rattle.std.specs.Prelude.{◌≡◌, ◌≤◌, length, map, []};
    ghost use Rattle.candidates.specs.Candidates.{Choices, choices, size_of};
    ghost use Rattle.candidates.specs.Groups.{tally_of, HasRoom};
    ghost use Rattle.candidates.specs.Impossible.{AreAllNeeds};
    ghost use Rattle.candidates.specs.Parts.{AreAllWithin};
    ghost use Rattle.candidates.specs.declared.fault.TheConstants.{MOST_CANDIDATES};

    ghost Value = { Choices };

    ghost view = { λ s. record { init = s.init.items; threads = s.threads.items } };

    ghost invariant = { λ s. record { size : s.size ≡ size_of (record { init = s.init.items; threads = s.threads.items }); most : s.size ≤ MOST_CANDIDATES; within : AreAllWithin (length s.init.items) (choices s.threads.items); tallied : s.groups.items ≡ map (λ runs. map (λ run. tally_of (length s.init.items) run.events) runs) s.threads.items; room : HasRoom (tally_of (length s.init.items) []) s.groups.items; needs : AreAllNeeds s.init.items s.threads.items s.needs.items } };
}

/// The initial value of a place of a test.
fn value_of(test: &Test, place: Place) -> u32
    ensures { result ≡ value_at test.now.initial place }
{
    initial_value(test.initial(), &place)
}

/// The initial value of each location of a test.
fn initial_values(alloc: Global, test: &Test) -> Result<Vec<u32>, AllocError>
    ensures { IfOk result (λ v. v.items ≡ initial_values test.now) }
{
    let mut values = Vec::new(alloc);
    for location in test.locations() {
        let place = Place::Loc(location.copy()?);
        values.push(value_of(test, place))?;
    }
    Ok(values)
}

/// The runs of each thread of a test.
fn all_runs(alloc: Global, test: &Test) -> Result<Vec<RunList>, SpaceFault>
    ensures lists { IfOk result (λ v. v.items ≡ map (runs_of test.now) (upto (length test.now.threads))) }
    ensures few { IfOk result (λ _. HaveFewRuns test.now) }
    ensures short { IfOk result (λ v. AreShort v.items) }
    ensures within { IfOk result (λ v. AreAllWithin (length test.now.locations) (choices v.items)) }
    ensures fault { IfErr result (IsSpaceFault test.now) }
{
    let mut lists = Vec::new(alloc);
    for thread in 0..test.threads().len() {
        lists.push(RunList::new(runs(alloc, test, thread)?))?;
    }
    Ok(lists)
}

impl Space {
    /// The candidates of a test.
    pub fn new(alloc: Global, test: &Test) -> Result<Self, SpaceFault>
        // It numbers the candidates as `At` does.
        ensures space { IfOk result (λ s. s ≡ choices_of test.now) }
        // Its size is the test's, and at most 2^32.
        ensures size { IfOk result (λ s. IsSize test.now (size_of s) × (size_of s ≤ 2 ^ 32)) }
        // Each thread has at most 4,096 runs.
        ensures runs { IfOk result (λ _. HaveFewRuns test.now) }
        // A thread has too many runs, the test has too many candidates, or memory ran out.
        ensures fault { IfErr result (IsSpaceFault test.now) }
    {
        let threads = all_runs(alloc, test)?;
        let init = initial_values(alloc, test)?;
        let locations = init.len();
        let groups = group_all(alloc, &threads, locations)?;
        let Some(size) = count_all(alloc, &groups, locations)? else {
            return Err(SpaceFault::TooManyCandidates);
        };
        let needs = all_needs(alloc, &init, &threads)?;
        Ok(Space {
            init,
            threads,
            groups,
            needs,
            size,
        })
    }

    /// How many candidates there are.
    pub fn size(&self) -> u64
        ensures { result ≡ size_of self.now }
    {
        self.size
    }

    /// The initial value of each location.
    pub(crate) fn init(&self) -> &[u32]
        ensures { result.now ≡ self.now.init }
    {
        &self.init
    }

    /// Its threads.
    pub(crate) fn threads(&self) -> Threads<'_>
        ensures threads { AreThreads result }
        ensures choices { choices_by result ≡ self.now }
        ensures groups { result.groups.now ≡ groups_of self.now }
    {
        Threads {
            runs: &self.threads,
            groups: &self.groups,
            needs: &self.needs,
            init: &self.init,
        }
    }

    /// The candidate with this number, where it is an execution.
    pub fn graph(&self, alloc: Global, number: u64) -> Result<Option<Graph>, AllocError>
        requires { number < size_of self.now }
        ensures { IfOk result (λ g. g ≡ graph_at self.now number) }
    {
        find(alloc, self, number)
    }

    /// A walk over the executions at the numbers from `from` to `to - 1`. To begin one takes no memory.
    pub fn walk(&self, alloc: Global, from: u64, to: u64) -> Walk<'_>
        requires order { from ≤ to }
        requires within { to ≤ size_of self.now }
        ensures { result ≡ record { space = self.now; next = from; to = to; shown = no_execution } }
    {
        self.resume(PausedWalk::new(alloc), from, to)
    }

    /// A walk over the executions at the numbers from `from` to `to - 1`, which goes on from where another over these candidates was
    /// paused. To begin takes no memory.
    pub fn resume(&self, paused: PausedWalk, from: u64, to: u64) -> Walk<'_>
        requires order { from ≤ to }
        requires within { to ≤ size_of self.now }
        requires paused { IsPausedIn self.now paused }
        ensures { result ≡ record { space = self.now; next = from; to = to; shown = paused.scene.graph } }
    {
        Walk::resumed(self, paused, from, to)
    }
}
