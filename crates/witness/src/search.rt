//! Executions that show what a verdict says.

ghost use Rattle.std.specs.Prelude.{◌≡◌, IfOk};
ghost use Rattle.candidates.specs.Candidates.{choices_of};
ghost use Rattle.slices.specs.Parts.{IsAdmitted};
ghost use Rattle.slices.specs.Questions.{IsAnswer};
ghost use Rattle.witness.specs.Judges.{KnowsOf, judged};
ghost use Rattle.witness.specs.Witnesses.{IsWitness, IsFound};

use crate::judge::Judge;
use candidates::{Space, laws as numbers};
use conditions::laws as states;
use events::Graph;
use litmus_value::Test;
use slices::{Question, Work, space_of};
use std::alloc::{AllocError, Global};

/// The first execution of a test that counts, and whose final state has the proposition or has it not.
fn find(
    alloc: Global,
    test: &Test,
    space: &Space,
    judge: &mut Judge<'_>,
    has: bool,
) -> Result<Option<Graph>, AllocError>
    requires space { space.now ≡ choices_of test.now }
    requires admitted { IsAdmitted test.now }
    requires known { KnowsOf (choices_of test.now) judge.old }
    ensures { IfOk result (IsFound test.now (IsWitness test.now (judged judge.old) has)) }
{
    numbers::numbering();
    states::observed_places();
    let question = Question::of(alloc, test)?;
    let mut walk = space.walk(alloc, 0, space.size());
    while let Some(number) = walk.next(alloc)? {
        if question.answer(alloc, walk.graph())? != has {
            continue;
        }
        if judge.passes(alloc, &mut walk, number)? {
            continue;
        }
        if judge.allows(alloc, walk.graph())? {
            return space.graph(alloc, number);
        }
    }
    Ok(None)
}

/// The first execution by number that the work's model allows and whose final state has the proposition of the test, or has it not; none where
/// there is none.
pub fn witness(alloc: Global, work: &Work, has: bool) -> Result<Option<Graph>, AllocError>
    ensures { let work = work.now in
        IfOk result (IsFound work.test (IsWitness work.test work.model.items has)) }
{
    prove!(work.size() <= u64::MAX);
    let space = space_of(alloc, work)?;
    let mut judge = Judge::by(alloc, work.model())?;
    find(alloc, work.test(), &space, &mut judge, has)
}

/// The first execution by number whose final state has the proposition of the test, or has it not, whether the model allows it or not; none where
/// there is none.
pub fn closest(alloc: Global, work: &Work, has: bool) -> Result<Option<Graph>, AllocError>
    ensures { let work = work.now in
        IfOk result (IsFound work.test (λ x. IsAnswer work.test x has)) }
{
    prove!(work.size() <= u64::MAX);
    let space = space_of(alloc, work)?;
    find(alloc, work.test(), &space, &mut Judge::All, has)
}
