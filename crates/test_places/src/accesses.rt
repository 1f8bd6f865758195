//! The first access with which a test has too many events.

ghost use Rattle.std.specs.Prelude.{◌≡◌, ◌-◌, ◌==◌, ℕ, MatchOption, map, if◌then◌else◌};
ghost use Rattle.litmus_syntax.specs.Drafts.{listing_of};
ghost use Rattle.litmus_tree.specs.Tree.{action_of, right_of, declared_of, step_of, steps_of};
ghost use Rattle.litmus_value.specs.Limits.{action_events, right_events, optional_events};
ghost use Rattle.test_places.specs.Accesses as spec;
ghost use Rattle.test_places.specs.Limits.{IsFirstOver};

use crate::mark::{Mark, Role};
use litmus_syntax::Body;
use litmus_tree::{Call, Declarator, RightSide, Statement};

/// As many events as a test has at most.
const MOST_EVENTS: usize = 64;

/// How many accesses and fences still count, and how many more events there may be.
#[derive(Clone, Copy)]
struct Count {
    left: usize,
    room: usize,
}

impl Count {
    /// Behind an access of so many events.
    fn behind(self, events: usize) -> Count
        ensures left { result.left ≡ self.left - 1 }
        ensures room { result.room ≡ self.room - spec.among self.left events }
    {
        if self.left == 0 {
            return self;
        }
        Count {
            left: self.left - 1,
            room: self.room.saturating_sub(events),
        }
    }

    fn behind_call(self, call: &Call) -> Count
        ensures left { result.left ≡ self.left - 1 }
        ensures room { result.room ≡ self.room - spec.among self.left (action_events (action_of call.now)) }
    {
        match call {
            Call::Load(_, _) | Call::Store(_, _, _) | Call::Fence(_) => self.behind(1),
            Call::Exchange(_, _, _) | Call::Modify(_, _, _, _) => self.behind(2),
        }
    }

    fn behind_right(self, right: &RightSide) -> Count
        ensures left { result.left ≡ self.left - spec.right_accesses (right_of right.now) }
        ensures room { result.room ≡ self.room - spec.among self.left (right_events (right_of right.now)) }
    {
        match right {
            RightSide::Value(_) => self,
            RightSide::Read(_) => self.behind(1),
            RightSide::Call(call) => self.behind_call(call),
        }
    }

    fn behind_declarator(self, declarator: &Declarator) -> Count
        ensures left { result.left ≡ self.left - spec.optional_accesses (declared_of declarator.now).value }
        ensures room { result.room ≡ self.room - spec.among self.left (optional_events (declared_of declarator.now).value) }
    {
        match &declarator.value {
            Some(value) => self.behind_right(value),
            None => self,
        }
    }

    fn behind_declarators(self, declarators: &[Declarator]) -> Count
        ensures left { result.left ≡ self.left - spec.declared_accesses (map declared_of declarators.now) }
        ensures room { result.room ≡ self.room - spec.declared_among self.left (map declared_of declarators.now) }
    {
        let mut count = self;
        for declarator in declarators {
            count = count.behind_declarator(declarator);
        }
        count
    }

    /// Behind a statement, on its longest way.
    #[cycle(counting)]
    #[tactic(auto, using(litmus_tree::proofs::Steps::only_if, litmus_tree::proofs::Steps::if_and_else))]
    fn behind_statement(self, statement: &Statement) -> Count
        ensures left { result.left ≡ self.left - spec.step_accesses (step_of statement.now) }
        ensures room { result.room ≡ self.room - spec.step_among self.left (step_of statement.now) }
    {
        match statement {
            Statement::Empty => self,
            Statement::Block(statements) => self.behind_statements(statements.as_slice()),
            Statement::Declare(declarators) => self.behind_declarators(declarators.as_slice()),
            Statement::Assign(_, value) => self.behind_right(value),
            Statement::Write(_, _) => self.behind(1),
            Statement::Perform(call) => self.behind_call(call),
            Statement::If(_, arm, None) => self.behind_statement(arm),
            Statement::If(_, arm, Some(other)) => {
                let first = self.behind_statement(arm);
                let second = Count {
                    left: first.left,
                    room: self.room,
                }
                .behind_statement(other);
                Count {
                    left: second.left,
                    room: first.room.min(second.room),
                }
            }
        }
    }

    #[cycle(counting)]
    fn behind_statements(self, statements: &[Statement]) -> Count
        ensures left { result.left ≡ self.left - spec.steps_accesses (steps_of statements.now) }
        ensures room { result.room ≡ self.room - spec.steps_among self.left (steps_of statements.now) }
    {
        let mut count = self;
        for statement in statements {
            count = count.behind_statement(statement);
        }
        count
    }

    /// What is left of the room behind the threads.
    fn room_behind(self, bodies: &[Body]) -> usize
        ensures { result ≡ self.room - spec.threads_among self.left (map listing_of bodies.now) }
    {
        let mut count = self;
        for body in bodies {
            count = count.behind_statements(body.statements.as_slice());
        }
        count.room
    }
}

impl Mark {
    /// Whether an access or a fence stands there.
    fn is_access(&self) -> bool
        ensures { result ≡ spec.is_access self.now }
    {
        matches!(&self.role, Role::Calls(_) | Role::Accessed)
    }
}

/// The place of the access or fence with which threads have too many events, besides so many initial writes.
pub fn event_too_many(writes: usize, bodies: &[Body], marks: &[Mark]) -> Option<usize>
    ensures { MatchOption result ((k : ℕ) → ¬ IsFirstOver (spec.events_with writes (map listing_of bodies.now)) 64 marks.now k) (IsFirstOver (spec.events_with writes (map listing_of bodies.now)) 64 marks.now) }
{
    if writes > MOST_EVENTS {
        return None;
    }
    let room = MOST_EVENTS + 1 - writes;
    let mut left = 0usize;
    for (place, mark) in marks.iter().enumerate() {
        if mark.is_access() {
            left += 1;
            if (Count { left, room }).room_behind(bodies) == 0 {
                return Some(place);
            }
        }
    }
    None
}
