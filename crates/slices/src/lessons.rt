//! What was learned of the executions of several event structures.

ghost use Rattle.std.specs.Prelude.{◌≡◌, ◌+◌, ◌<◌, All, List, Some, length, IfOk, IfSome};
ghost use Rattle.candidates.specs.Candidates.{Choices, graph_at};
ghost use Rattle.cat_tree.specs.Tree.{Clause};
ghost use Rattle.events.specs.Structures.{structure_of};
ghost use Rattle.listings.specs.Lists.{StandsAt};
ghost use Rattle.slices.specs.Lessons.{AreAlike, AreLearned, IsLesson};
ghost use Rattle.slices.specs.Passing.{IsForbidden};
ghost use Rattle.slices.specs.declared.lesson.Lesson.{Lesson as LessonValue};

use crate::lesson::{Forbidden, Lesson};
use crate::span::Span;
use candidates::Walk;
use cat_eval::Evaluator;
use events::Graph;
use std::alloc::{AllocError, Global};

/// How many event structures are learned of at most.
const MOST_LESSONS: usize = 16;

/// After so many forbidden executions of which nothing was learned, no more are looked at.
const PATIENCE: u32 = 8;

/// A lesson for each event structure of which something was learned.
#[derive(Drop)]
pub(crate) struct Lessons {
    pub(crate) list: Vec<Lesson>,
    /// The executions at these numbers have the events of one lesson, or of none.
    pub(crate) alike: Span,
    /// Which one that is.
    pub(crate) place: Option<usize>,
    patience: u32,
}

impl Lessons {
    /// Nothing.
    pub(crate) fn new(alloc: Global) -> Self
        ensures { (s : Choices) (items : List Clause) → AreLearned s items result }
    {
        Lessons {
            list: Vec::new(alloc),
            alike: Span { from: 0, to: 0 },
            place: None,
            patience: PATIENCE,
        }
    }

    /// The place of the lesson of executions with the events of this one.
    fn place_of(&self, graph: &Graph) -> Option<usize>
        ensures { IfSome result (λ k. (k < length self.now.list.items) × ((l : LessonValue) → StandsAt self.now.list.items k l → l.structure.structure ≡ structure_of graph.now)) }
    {
        for (place, lesson) in self.list.iter().enumerate() {
            if lesson.structure.is_of(graph) {
                return Some(place);
            }
        }
        None
    }

    /// Finds the lesson of the executions from this number on, which the walk found last, as far as it is known that they have the same events.
    fn find(&mut self, walk: &Walk<'_>, number: u64)
        requires found { walk.now.next ≡ number + 1 }
        requires shown { graph_at walk.now.space number ≡ Some walk.now.shown }
        requires alike { AreAlike walk.now.space self.old }
        ensures list { self.new.list ≡ self.old.list }
        ensures alike { AreAlike walk.now.space self.new }
        ensures place { IfSome self.new.place (λ k. (l : LessonValue) → StandsAt self.new.list.items k l → l.structure.structure ≡ structure_of walk.now.shown) }
    {
        if self.alike.from <= number && number < self.alike.to {
            return;
        }
        self.place = self.place_of(walk.graph());
        self.alike = Span {
            from: number,
            to: match walk.block(0) {
                Some(block) => block.end,
                None => number,
            },
        };
    }

    /// The widest block around the execution at this number, which the walk found last, of which it is known that none is allowed.
    pub(crate) fn forbidden_around(&mut self, walk: &Walk<'_>, number: u64) -> Option<Forbidden>
        requires found { walk.now.next ≡ number + 1 }
        requires shown { graph_at walk.now.space number ≡ Some walk.now.shown }
        requires alike { AreAlike walk.now.space self.old }
        ensures list { self.new.list ≡ self.old.list }
        ensures alike { AreAlike walk.now.space self.new }
        ensures forbidden { (items : List Clause) → All (IsLesson items) self.old.list.items → IfSome result (λ f. IsForbidden items walk.now f.end) }
    {
        if self.list.is_empty() {
            return None;
        }
        self.find(walk, number);
        match self.place {
            Some(place) => match self.list.get(place) {
                Some(lesson) => lesson.forbidden_around(walk, number),
                None => None,
            },
            None => None,
        }
    }

    /// The place of the lesson of executions with the events of this one, which is begun if there is room.
    fn place_for(&mut self, alloc: Global, graph: &Graph) -> Result<Option<usize>, AllocError>
        ensures lessons { (items : List Clause) → All (IsLesson items) self.old.list.items → All (IsLesson items) self.new.list.items }
        ensures alike { (s : Choices) → AreAlike s self.old → AreAlike s self.new }
        ensures place { IfOk result (λ o. IfSome o (λ k. (k < length self.new.list.items) × ((l : LessonValue) → StandsAt self.new.list.items k l → l.structure.structure ≡ structure_of graph.now))) }
    {
        if let Some(place) = self.place_of(graph) {
            return Ok(Some(place));
        }
        let place = self.list.len();
        if place >= MOST_LESSONS {
            return Ok(None);
        }
        self.list.push(Lesson::new(alloc, graph)?)?;
        self.alike = Span { from: 0, to: 0 };
        Ok(Some(place))
    }

    /// Learns from a forbidden execution.
    #[inline(never)]
    fn look(
        &mut self,
        alloc: Global,
        evaluator: &mut Evaluator<'_>,
        graph: &Graph,
    ) -> Result<(), AllocError>
        requires relied { IfSome evaluator.old.relied (λ s. s ≡ structure_of graph.now) }
        ensures model { evaluator.new.items ≡ evaluator.old.items }
        ensures relied { IfSome evaluator.new.relied (λ s. s ≡ structure_of graph.now) }
        ensures learned { (s : Choices) → AreLearned s evaluator.old.items self.old → AreLearned s evaluator.old.items self.new }
    {
        self.patience = self.patience.saturating_sub(1);
        let Some(place) = self.place_for(alloc, graph)? else {
            return Ok(());
        };
        if self.list[place].learn(alloc, evaluator, graph)? {
            self.patience = PATIENCE;
        }
        Ok(())
    }

    /// Learns from a forbidden execution, unless too many were looked at in vain.
    pub(crate) fn learn(
        &mut self,
        alloc: Global,
        evaluator: &mut Evaluator<'_>,
        graph: &Graph,
    ) -> Result<(), AllocError>
        requires relied { IfSome evaluator.old.relied (λ s. s ≡ structure_of graph.now) }
        ensures model { evaluator.new.items ≡ evaluator.old.items }
        ensures relied { IfSome evaluator.new.relied (λ s. s ≡ structure_of graph.now) }
        ensures learned { (s : Choices) → AreLearned s evaluator.old.items self.old → AreLearned s evaluator.old.items self.new }
    {
        if self.patience == 0 {
            return Ok(());
        }
        self.look(alloc, evaluator, graph)
    }
}
