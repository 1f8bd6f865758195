//! What an evaluator works with, beside the items of its model.

ghost use Rattle.std.specs.Prelude.{◌≡◌, ◌↔◌, ◌≤◌, length, map, true, IfOk, IfSome, IsTrue, OnErr, OnOk, List};
ghost use Rattle.listings.specs.Lists.{Lists};
ghost use Rattle.events.specs.Executions.{GraphValue};
ghost use Rattle.events.specs.Cuts.{part_of, IsOfEvents};
ghost use Rattle.events.specs.Extends.{Extends};
ghost use Rattle.events.specs.Opened.{IsWithin, opened};
ghost use Rattle.events.specs.Structures.{sourced_of, structure_of};
ghost use Rattle.events.specs.declared.named.Basis.TheVariants.{Sources, Orders};
ghost use Rattle.cat_eval.specs.Code.{planned_clause};
ghost use Rattle.cat_eval.specs.Extents.{AreAbsent};
ghost use Rattle.cat_eval.specs.Growth.{AreGrown};
ghost use Rattle.cat_eval.specs.declared.growth.Change.TheVariants.{Extended};
ghost use Rattle.cat_eval.specs.Judging.{Allowed, Raised};
ghost use Rattle.cat_eval.specs.Machine.{clauses_of, IsCode, Keeps};
ghost use Rattle.cat_eval.specs.Working.{WorksFor};
ghost use Rattle.cat_eval.specs.declared.plan.PlannedItem.{PlannedItem as PlannedItemValue};

use crate::asked::Asked;
use crate::bases::Bases;
use crate::early::judge_early_by;
use crate::growth::Growth;
use crate::judging::Judgement;
use crate::keeping::Kept;
use crate::machine::Code;
use crate::plan::PlannedItem;
use crate::refuting::refutes_by;
use crate::step::Step;
use crate::value::Value;
use cat_model::Named;
use events::{Basis, Cut, Graph, GraphView, Part, SourcedStructure, laws};
use relations::Rel;
use std::alloc::{AllocError, Global};

/// Where the steps of an item are, as a planned item says it.
#[derive(Clone, Copy)]
pub(crate) struct ItemSteps {
    pub(crate) start: usize,
    pub(crate) from: usize,
    pub(crate) to: usize,
}

/// The steps of a model's items with what is known of them, and their values, which executions write one after another.
#[derive(Drop)]
pub(crate) struct Workings {
    pub(crate) steps: Vec<Step>,
    // Names that stand for nothing in the executions that the steps are for.
    pub(crate) absent: Vec<Named>,
    pub(crate) bases: Bases,
    // How far the values from each step on are made in one go.
    pub(crate) ends: Vec<usize>,
    pub(crate) item_steps: Vec<ItemSteps>,
    // How the value of each step goes from an execution to those that go on from it.
    pub(crate) growths: Vec<Growth>,
    // So many of the first items that each one behind them can refute nothing.
    pub(crate) telling: usize,
    // Is it known that what is said of an allowed execution is said of all that are within it?
    pub(crate) steady: bool,
    // Which of the first items are asked.
    pub(crate) asked: Asked,
    // A value for each step.
    pub(crate) values: Vec<Value>,
    pub(crate) kept: Kept,
    // What the kept values are of.
    pub(crate) sourced: SourcedStructure,
    // Room for the coherence orders of one execution after another.
    pub(crate) room: Rel,
}

// Makes what is kept that of an execution, and tells what of it may be another than before.
#[inline(always)]
fn follow(
    sourced: &mut SourcedStructure,
    relies: bool,
    alloc: Global,
    graph: &Graph,
) -> Result<Basis, AllocError>
    requires { IsTrue relies → sourced.old.structure ≡ structure_of graph.now }
    ensures done { OnOk result (sourced.new ≡ sourced_of graph.now) }
    ensures runs { IfOk result (λ b. b ≡ Sources → sourced.new.structure ≡ sourced.old.structure) }
    ensures all { IfOk result (λ b. b ≡ Orders → sourced.new ≡ sourced.old) }
    ensures same { OnErr result (sourced.new ≡ sourced.old) }
{
    if relies {
        return sourced.follow_on(alloc, graph);
    }
    sourced.follow(alloc, graph)
}

// The same for an execution of which this is known.
#[inline(always)]
fn follow_part(
    sourced: &mut SourcedStructure,
    relies: bool,
    alloc: Global,
    graph: &Graph,
    part: &Part<'_>,
) -> Result<Basis, AllocError>
    requires { IsTrue relies → sourced.old.structure ≡ structure_of graph.now }
    ensures done { OnOk result (sourced.new ≡ sourced_of (part_of graph.now part.now)) }
    ensures runs { IfOk result (λ b. b ≡ Sources → sourced.new.structure ≡ sourced.old.structure) }
    ensures all { IfOk result (λ b. b ≡ Orders → sourced.new ≡ sourced.old) }
    ensures same { OnErr result (sourced.new ≡ sourced.old) }
{
    if relies {
        return sourced.follow_part_on(alloc, graph, part);
    }
    sourced.follow_part(alloc, graph, part)
}

// Judges an execution over what it has in common with the one before.
#[inline(always)]
fn judge_over(
    alloc: Global,
    sourced: &SourcedStructure,
    graph: &Graph,
    code: &Code<'_, '_>,
    kept: &mut Kept,
    values: &mut [Value],
    room: &mut Rel,
) -> Result<Judgement, AllocError>
    requires sourced { sourced.now ≡ sourced_of graph.now }
    requires code { IsCode code.now }
    requires absent { AreAbsent code.now.absent.now graph.now }
    requires kept { Keeps graph.now code.now kept.old values.old }
    ensures kept { Keeps graph.now code.now kept.new values.new }
    ensures allowed { IfOk result (λ j. IsTrue j.allowed ↔ Allowed (clauses_of code.now) graph.now) }
    ensures flags { IfOk result (λ j. Lists (λ name. Allowed (clauses_of code.now) graph.now × Raised (clauses_of code.now) graph.now name) j.flags) }
{
    let view = GraphView::over(sourced, graph, room);
    judge_early_by(alloc, &view, code, kept, values)
}

// Judges an execution with some writes open, over what it has in common with the one before.
#[inline(always)]
fn judge_open_over(
    alloc: Global,
    sourced: &SourcedStructure,
    graph: &Graph,
    cut: Cut<'_>,
    code: &Code<'_, '_>,
    kept: &mut Kept,
    values: &mut [Value],
    room: &mut Rel,
) -> Result<Judgement, AllocError>
    requires sourced { sourced.now ≡ sourced_of graph.now }
    requires code { IsCode code.now }
    requires absent { AreAbsent code.now.absent.now (opened graph.now cut) }
    requires kept { Keeps (opened graph.now cut) code.now kept.old values.old }
    ensures kept { Keeps (opened graph.now cut.entry) code.now kept.new values.new }
    ensures allowed { IfOk result (λ j. IsTrue j.allowed ↔ Allowed (clauses_of code.now) (opened graph.now cut.entry)) }
    ensures flags { IfOk result (λ j. Lists (λ name. Allowed (clauses_of code.now) (opened graph.now cut.entry) × Raised (clauses_of code.now) (opened graph.now cut.entry) name) j.flags) }
{
    let view = GraphView::over_open(sourced, graph, cut, room);
    judge_early_by(alloc, &view, code, kept, values)
}

// Looks for what refutes an execution as far as it is known, over what it has in common with the one before.
#[inline(always)]
fn refutes_over(
    sourced: &SourcedStructure,
    graph: &Graph,
    part: Part<'_>,
    code: &Code<'_, '_>,
    growths: &[Growth],
    count: usize,
    kept: &mut Kept,
    values: &mut [Value],
    room: &mut Rel,
) -> Option<usize>
    requires part { IsOfEvents graph.now part }
    requires sourced { sourced.now ≡ sourced_of (part_of graph.now part) }
    requires code { IsCode code.now }
    requires absent { AreAbsent code.now.absent.now (part_of graph.now part) }
    requires grown { AreGrown Extended code.now.steps.now code.now.items.now growths.now }
    requires count { count ≤ length code.now.items.now }
    requires kept { Keeps (part_of graph.now part) code.now kept.old values.old }
    ensures kept { Keeps (part_of graph.now part.entry) code.now kept.new values.new }
    ensures refuted { IfSome result (λ _. (h : GraphValue) → Extends (part_of graph.now part.entry) h → ¬ Allowed (clauses_of code.now) h) }
{
    let view = GraphView::over_part(sourced, graph, part, room);
    refutes_by(&view, code, growths, count, kept, values)
}

impl Workings {
    /// Goes on to an execution, which may be relied on to have the same events as the one before.
    #[inline(always)]
    pub(crate) fn follow(
        &mut self,
        alloc: Global,
        graph: &Graph,
        relies: bool,
    ) -> Result<(), AllocError>
        requires { IsTrue relies → self.old.sourced.structure ≡ structure_of graph.now }
        ensures works { (items : List PlannedItemValue) → WorksFor items self.old → WorksFor items self.new }
        ensures absent { self.new.absent ≡ self.old.absent }
        ensures done { OnOk result (self.new.sourced ≡ sourced_of graph.now) }
        ensures same { OnErr result (self.new.sourced ≡ self.old.sourced) }
    {
        laws::bases();
        let changed = follow(&mut self.sourced, relies, alloc, graph)?;
        self.kept = self.kept.without(changed);
        Ok(())
    }

    /// The same for an execution of which this is known.
    #[inline(always)]
    pub(crate) fn follow_part(
        &mut self,
        alloc: Global,
        graph: &Graph,
        part: &Part<'_>,
        relies: bool,
    ) -> Result<(), AllocError>
        requires { IsTrue relies → self.old.sourced.structure ≡ structure_of graph.now }
        ensures works { (items : List PlannedItemValue) → WorksFor items self.old → WorksFor items self.new }
        ensures absent { self.new.absent ≡ self.old.absent }
        ensures done { OnOk result (self.new.sourced ≡ sourced_of (part_of graph.now part.now)) }
        ensures same { OnErr result (self.new.sourced ≡ self.old.sourced) }
    {
        laws::bases();
        let changed = follow_part(&mut self.sourced, relies, alloc, graph, part)?;
        self.kept = self.kept.without(changed);
        Ok(())
    }

    /// Judges the execution that was followed last under a model of these items.
    #[inline(always)]
    pub(crate) fn judge(
        &mut self,
        alloc: Global,
        items: &[PlannedItem<'_>],
        graph: &Graph,
    ) -> Result<Judgement, AllocError>
        requires works { WorksFor items.now self.old }
        requires absent { AreAbsent self.old.absent.items graph.now }
        requires followed { self.old.sourced ≡ sourced_of graph.now }
        ensures works { WorksFor items.now self.new }
        ensures absent { self.new.absent ≡ self.old.absent }
        ensures sourced { self.new.sourced ≡ self.old.sourced }
        ensures allowed { IfOk result (λ j. IsTrue j.allowed ↔ Allowed (map planned_clause items.now) graph.now) }
        ensures flags { IfOk result (λ j. Lists (λ name. Allowed (map planned_clause items.now) graph.now × Raised (map planned_clause items.now) graph.now name) j.flags) }
    {
        laws::bases();
        let code = Code {
            items,
            steps: &self.steps,
            absent: &self.absent,
            bases: &self.bases,
            ends: &self.ends,
        };
        judge_over(
            alloc,
            &self.sourced,
            graph,
            &code,
            &mut self.kept,
            &mut self.values,
            &mut self.room,
        )
    }

    /// Judges the execution that was followed last with some writes open, under a model of these items.
    #[inline(always)]
    fn judge_open(
        &mut self,
        alloc: Global,
        items: &[PlannedItem<'_>],
        graph: &Graph,
        cut: Cut<'_>,
    ) -> Result<Judgement, AllocError>
        requires works { WorksFor items.now self.old }
        requires absent { AreAbsent self.old.absent.items (opened graph.now cut) }
        requires followed { self.old.sourced ≡ sourced_of graph.now }
        ensures works { WorksFor items.now self.new }
        ensures absent { self.new.absent ≡ self.old.absent }
        ensures sourced { self.new.sourced ≡ self.old.sourced }
        ensures allowed { IfOk result (λ j. IsTrue j.allowed ↔ Allowed (map planned_clause items.now) (opened graph.now cut.entry)) }
        ensures flags { IfOk result (λ j. Lists (λ name. Allowed (map planned_clause items.now) (opened graph.now cut.entry) × Raised (map planned_clause items.now) (opened graph.now cut.entry) name) j.flags) }
    {
        laws::bases();
        let code = Code {
            items,
            steps: &self.steps,
            absent: &self.absent,
            bases: &self.bases,
            ends: &self.ends,
        };
        judge_open_over(
            alloc,
            &self.sourced,
            graph,
            cut,
            &code,
            &mut self.kept,
            &mut self.values,
            &mut self.room,
        )
    }

    /// What a model of these items says of all executions within the one that was followed last, with some writes open, if it is known that they are
    /// allowed.
    #[inline(always)]
    pub(crate) fn judge_opened(
        &mut self,
        alloc: Global,
        items: &[PlannedItem<'_>],
        graph: &Graph,
        cut: Cut<'_>,
    ) -> Result<Option<Judgement>, AllocError>
        requires works { WorksFor items.now self.old }
        requires absent { AreAbsent self.old.absent.items (opened graph.now cut) }
        requires followed { self.old.sourced ≡ sourced_of graph.now }
        ensures works { WorksFor items.now self.new }
        ensures absent { self.new.absent ≡ self.old.absent }
        ensures sourced { self.new.sourced ≡ self.old.sourced }
        ensures allowed { IfOk result (λ o. IfSome o (λ j. (j.allowed ≡ true) × ((h : GraphValue) → IsWithin h (opened graph.now cut.entry) → Allowed (map planned_clause items.now) h))) }
        ensures flags { IfOk result (λ o. IfSome o (λ j. (h : GraphValue) → IsWithin h (opened graph.now cut.entry) → Lists (λ name. Allowed (map planned_clause items.now) h × Raised (map planned_clause items.now) h name) j.flags)) }
    {
        laws::bases();
        laws::opening();
        if !self.steady {
            return Ok(None);
        }
        let judgement = self.judge_open(alloc, items, graph, cut)?;
        Ok(judgement.if_allowed())
    }

    /// Whether it is known of the execution that was followed last, as far as it is known, that a model of these items allows none that goes on from it.
    #[inline(always)]
    pub(crate) fn refutes(
        &mut self,
        items: &[PlannedItem<'_>],
        graph: &Graph,
        part: Part<'_>,
    ) -> bool
        requires part { IsOfEvents graph.now part }
        requires works { WorksFor items.now self.old }
        requires absent { AreAbsent self.old.absent.items (part_of graph.now part) }
        requires followed { self.old.sourced ≡ sourced_of (part_of graph.now part) }
        ensures works { WorksFor items.now self.new }
        ensures absent { self.new.absent ≡ self.old.absent }
        ensures sourced { self.new.sourced ≡ self.old.sourced }
        ensures refuted { IsTrue result → (h : GraphValue) → Extends (part_of graph.now part.entry) h → ¬ Allowed (map planned_clause items.now) h }
    {
        laws::bases();
        let code = Code {
            items,
            steps: &self.steps,
            absent: &self.absent,
            bases: &self.bases,
            ends: &self.ends,
        };
        let count = self.asked.ask(self.telling);
        let refuted = refutes_over(
            &self.sourced,
            graph,
            part,
            &code,
            &self.growths,
            count,
            &mut self.kept,
            &mut self.values,
            &mut self.room,
        );
        self.asked.note(refuted);
        refuted.is_some()
    }
}
