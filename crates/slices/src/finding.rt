//! What is found of executions.

ghost use Rattle.std.specs.Prelude.{◌≡◌, ◌+◌, ◌<◌, ◌^◌, List, [], length, IfOk, OnOk, OnErr, IsTrue};
ghost use Rattle.std.specs.BTreeSet.{insert_key};
ghost use Rattle.std.specs.Cmp.Lexicographic.{slice_cmp};
ghost use Rattle.std.specs.Ordering.{nat_cmp};
ghost use Rattle.cat_tree.specs.Tree.{Clause};
ghost use Rattle.conditions.specs.Conditions.{formula_of};
ghost use Rattle.slices.specs.Findings.{is_ok, word};
ghost use Rattle.slices.specs.Counts.{with_count};
ghost use Rattle.slices.specs.Sums.{AddsUp, IsSum, IsUnion, of_flags, of_state, state_has};
ghost use Rattle.slices.specs.Verdicts.{AreSorted, Tells};

use crate::row::Row;
use crate::state_set::add_rows;
use crate::work::WorkRef;
use conditions::{Kind, Place, Prop, State, holds, ok_of};
use std::alloc::{AllocError, Global};
use std::cmp::Ordering;
use std::collections::BTreeSet;
use std::marker::Model;
use std::sync::Arc;
use wb_text::Name;

/// What is found of some executions of a work's test, of those that the work's model allows: how many have the proposition and how many
/// have it not, which final states there are, and which flags were raised, each once and in order.
pub struct Finding {
    work: WorkRef,
    places: Arc<Vec<Place>>,
    positive: u64,
    negative: u64,
    states: BTreeSet<Row>,
    flags: Vec<Name>,
}

// A function of its own: whoever holds one drops it by a call.
impl Drop for Finding {
    fn drop(self) {
        let Finding {
            work: _,
            places: _,
            positive: _,
            negative: _,
            states: _,
            flags: _,
        } = self;
    }
}

impl Model for Finding {
    ghost use Rattle.std.specs.Arc.{arc_value};
    ghost use Rattle.conditions.specs.States.{AreObserved};
    ghost use Rattle.slices.specs.Findings.{FindingValue};
    ghost use Rattle.slices.specs.Codes.{coded_finding};

    ghost Value = { FindingValue };

    ghost coded = { coded_finding };

    ghost view = { λ v. record {
      name = v.work.test.name;
      kind = v.work.test.condition.kind;
      formula = v.work.test.condition.formula;
      places = (arc_value v.places).items;
      positive = v.positive;
      negative = v.negative;
      states = v.states.keys;
      flags = v.flags.items;
    } };

    ghost invariant = { λ v. AreObserved v.work.test.condition v.work.test.listed (arc_value v.places).items };
}

/// A finding that is kept more than once. Contracts see the finding.
pub struct FindingRef {
    finding: Arc<Finding>,
}

// A function of its own: whoever holds one drops it by a call.
impl Drop for FindingRef {
    fn drop(self) {
        let FindingRef { finding: _ } = self;
    }
}

impl Model for FindingRef {
    ghost use Rattle.std.specs.Arc.{arc_value};
    ghost use Rattle.slices.specs.Findings.{FindingValue};
    ghost use Rattle.slices.specs.Codes.{coded_finding};

    ghost Value = { FindingValue };

    ghost coded = { coded_finding };

    ghost view = { λ f. arc_value f.finding };
}

impl FindingRef {
    /// Keeps a finding.
    pub(crate) fn new(alloc: Global, finding: Finding) -> Result<Self, AllocError>
        ensures { IfOk result (λ f. f ≡ finding) }
    {
        Ok(FindingRef {
            finding: Arc::new(alloc, finding)?,
        })
    }

    /// The finding.
    pub fn finding(&self) -> &Finding
        ensures { result.now ≡ self.now }
    {
        &self.finding
    }

    /// The same finding, kept once more.
    pub fn share(&self) -> Result<Self, AllocError>
        ensures { IfOk result (λ f. f ≡ self.now) }
    {
        Ok(FindingRef {
            finding: Arc::try_clone(&self.finding)?,
        })
    }

    /// Adds what is found of other executions, or changes nothing. Where nothing was found yet, it is then kept together with the other one.
    /// What is kept elsewhere too is not changed there: a grown copy takes its place here, unless nothing is added.
    pub(crate) fn merge(&mut self, alloc: Global, other: &FindingRef) -> Result<(), AllocError>
        requires few { (self.old.positive + other.now.positive < 2 ^ 64) × (self.old.negative + other.now.negative < 2 ^ 64) }
        requires sorted { AreSorted self.old.states }
        ensures merged { OnOk result (AddsUp self.old other.now self.new) }
        ensures same { OnErr result (self.new ≡ self.old) }
    {
        if self.finding.is_nothing() {
            *self = other.share()?;
            return Ok(());
        }
        if other.finding.is_nothing() {
            return Ok(());
        }
        match Arc::get_mut(&mut self.finding) {
            Some(own) => own.merge(alloc, &other.finding),
            None => {
                *self = FindingRef::new(alloc, self.finding.merged(alloc, &other.finding)?)?;
                Ok(())
            }
        }
    }
}

impl Finding {
    /// The name of the test.
    pub fn name(&self) -> &Name
        ensures { result.now ≡ self.now.name }
    {
        self.work.work().test().name()
    }

    /// What the test asks.
    pub fn kind(&self) -> Kind
        ensures { result ≡ self.now.kind }
    {
        self.work.work().test().condition().kind()
    }

    /// The proposition that it asks for.
    pub fn prop(&self) -> &Prop
        ensures { formula_of result.now ≡ self.now.formula }
    {
        self.work.work().test().condition().prop()
    }

    /// The observed places, in order.
    pub fn places(&self) -> &[Place]
        ensures { result.now ≡ self.now.places }
    {
        &self.places
    }

    /// How many executions have the proposition.
    pub fn positive(&self) -> u64
        ensures { result ≡ self.now.positive }
    {
        self.positive
    }

    /// How many executions don't have it.
    pub fn negative(&self) -> u64
        ensures { result ≡ self.now.negative }
    {
        self.negative
    }

    /// The final states, once each, in order.
    pub fn states(&self) -> &BTreeSet<Row>
        ensures { result.now.keys ≡ self.now.states }
    {
        &self.states
    }

    /// The names of the flags that were raised, once each, in order of their bytes.
    pub fn flags(&self) -> &[Name]
        ensures { result.now ≡ self.now.flags }
    {
        &self.flags
    }

    /// Whether the answer to the test's question is yes.
    pub fn ok(&self) -> bool
        ensures { result ≡ is_ok self.now }
    {
        ok_of(self.kind(), self.positive, self.negative)
    }

    /// How often the proposition was seen: `Never`, `Always` or `Sometimes`.
    pub fn word(&self) -> &str
        ensures { result.now ≡ word self.now }
    {
        if self.positive == 0 {
            "Never"
        } else if self.negative == 0 {
            "Always"
        } else {
            "Sometimes"
        }
    }
}

impl Finding {
    /// What is found of no execution.
    pub(crate) fn nothing(alloc: Global, work: WorkRef) -> Result<Self, AllocError>
        ensures { IfOk result (λ v. (items : List Clause) → Tells work.test items [] v) }
    {
        let places = work.work().places()?;
        Ok(Finding {
            work,
            places,
            positive: 0,
            negative: 0,
            states: BTreeSet::new(alloc),
            flags: Vec::new(alloc),
        })
    }

    /// Adds a final state that is found so many times, and tells whether it has the proposition.
    pub(crate) fn add(&mut self, state: Row, times: u64) -> Result<bool, AllocError>
        requires few { self.old.positive + self.old.negative + times < 2 ^ 64 }
        requires whole { length self.old.places ≡ length state }
        ensures sum { OnOk result (IsSum self.old (of_state self.old state times []) self.new) }
        ensures has { IfOk result (λ has. has ≡ state_has self.old state) }
    {
        let has = holds(self.prop(), &State::new(self.places(), state.values()));
        self.states.insert(state)?;
        self.count(has, times);
        Ok(has)
    }

    /// Counts so many executions more that have the proposition, or have it not.
    pub(crate) fn count(&mut self, has: bool, times: u64)
        requires { self.old.positive + self.old.negative + times < 2 ^ 64 }
        ensures { self.new ≡ with_count self.old has times }
    {
        if has {
            self.positive += times;
        } else {
            self.negative += times;
        }
    }

    /// Adds the names of flags that were raised.
    pub(crate) fn raise(&mut self, names: &[Name]) -> Result<(), AllocError>
        ensures { OnOk result (IsSum self.old (of_flags self.old names.now) self.new) }
    {
        add_names(&mut self.flags, names)
    }

    /// Adds what is found of other executions, or changes nothing. It costs a look-up for each of their states.
    fn merge(&mut self, alloc: Global, other: &Finding) -> Result<(), AllocError>
        requires few { (self.old.positive + other.now.positive < 2 ^ 64) × (self.old.negative + other.now.negative < 2 ^ 64) }
        requires sorted { AreSorted self.old.states }
        ensures merged { OnOk result (IsSum self.old other.now self.new) }
        ensures same { OnErr result (self.new ≡ self.old) }
    {
        let mut flags = Vec::new(alloc);
        add_names(&mut flags, &self.flags)?;
        add_names(&mut flags, &other.flags)?;
        add_rows(alloc, &mut self.states, &other.states)?;
        self.flags = flags;
        self.positive += other.positive;
        self.negative += other.negative;
        Ok(())
    }

    /// What is found of these executions and of others.
    fn merged(&self, alloc: Global, other: &Finding) -> Result<Finding, AllocError>
        requires few { (self.now.positive + other.now.positive < 2 ^ 64) × (self.now.negative + other.now.negative < 2 ^ 64) }
        requires sorted { AreSorted self.now.states }
        ensures { IfOk result (IsSum self.now other.now) }
    {
        let mut both = Finding::nothing(alloc, self.work.share()?)?;
        both.merge(alloc, self)?;
        both.merge(alloc, other)?;
        Ok(both)
    }

    /// Whether it is found of no execution.
    fn is_nothing(&self) -> bool
        ensures { IsTrue result → (self.now.positive ≡ 0) × (self.now.negative ≡ 0) }
    {
        self.positive == 0 && self.negative == 0
    }
}

/// Adds the names that aren't there, each at its place in the order.
fn add_names(flags: &mut Vec<Name>, names: &[Name]) -> Result<(), AllocError>
    ensures { OnOk result (IsUnion flags.old.items names.now flags.new.items) }
{
    for name in names {
        add_name(flags, name)?;
    }
    Ok(())
}

/// Adds a name at its place in the order, unless it is there.
fn add_name(flags: &mut Vec<Name>, name: &Name) -> Result<(), AllocError>
    ensures { OnOk result (flags.new.items ≡ insert_key (slice_cmp nat_cmp) flags.old.items name.now) }
{
    for place in 0..flags.len() {
        match name.cmp(&flags[place]) {
            Ordering::Greater => {}
            Ordering::Equal => return Ok(()),
            Ordering::Less => return Ok(flags.insert(place, name.copy()?)?),
        }
    }
    Ok(flags.push(name.copy()?)?)
}
