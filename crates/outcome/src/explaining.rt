//! Why a verdict is what it is: an execution that shows it, or what forbids the one that would.

ghost use Rattle.std.specs.Prelude.{◌≡◌, [], ◌++◌, Option, None, Some, codes, IfOk, OnOk};
ghost use Rattle.std.specs.List.{zip};
ghost use Rattle.drawing.specs.Dots.{Dot};
ghost use Rattle.drawing.specs.Texts.{Text as drawing_text};
ghost use Rattle.slices.specs.Questions.{IsAnswer};
ghost use Rattle.witness.specs.Witnesses.{IsFirst, IsWitness};
ghost use Rattle.witness.specs.declared.reasons.Reason.{Reason};
ghost use Rattle.outcome.specs.Reasons as texts;
ghost use Rattle.outcome.specs.Reasons.{AreExplained, Explains, IsAllowed, IsDrawn, IsExplained, IsForbidden, IsLacking, TellsReason};

use crate::evidence::{chain_of, words_of};
use conditions::Kind;
use drawing::{Broken, Drawing, dot, text};
use events::Graph;
use slices::{Verdict, Work};
use std::alloc::{AllocError, Global};
use suite::Case;
use witness::{Reason, closest, reason, witness};

/// What answers the question why: text for a terminal, and a file for Graphviz.
pub(crate) struct Answer {
    pub text: Vec<u8>,
    pub dot: Vec<u8>,
}

impl Drop for Answer {
    fn drop(self) {
        let Answer { text: _, dot: _ } = self;
    }
}

/// An execution of a test, and the name of the model that it is judged under.
#[derive(Clone, Copy)]
pub(crate) struct Shown<'a> {
    pub work: &'a Work,
    pub graph: &'a Graph,
    pub model: &'a [u8],
}

/// Whether an execution with the proposition is looked for: of `exists` and `~exists` one with it, of `forall` one without it.
fn asks_with(kind: Kind) -> bool
    ensures { result ≡ texts.asks_with kind }
{
    match kind {
        Kind::Exists | Kind::NotExists => true,
        Kind::Forall => false,
    }
}

/// The heading of an execution that the model allows.
fn allowed_heading<'a>(has: bool) -> &'a [u8]
    ensures { result.now ≡ texts.allowed_heading has }
{
    if has {
        b"An execution that the model allows, with the proposition:\n"
    } else {
        b"An execution that the model allows, without the proposition:\n"
    }
}

/// The heading of one that it forbids.
fn forbidden_heading<'a>(has: bool) -> &'a [u8]
    ensures { result.now ≡ texts.forbidden_heading has }
{
    if has {
        b"No execution that the model allows has the proposition; the first of the others that has it:\n"
    } else {
        b"Each execution that the model allows has the proposition; the first of the others that has it not:\n"
    }
}

/// That no execution is as it is asked for.
fn lack<'a>(has: bool) -> &'a [u8]
    ensures { result.now ≡ texts.lack has }
{
    if has {
        b"No execution of the test has the proposition, whatever the model.\n\n"
    } else {
        b"Each execution of the test has the proposition, whatever the model.\n\n"
    }
}

/// A heading and an execution as text, with an empty line behind it, and the execution for Graphviz.
fn drawn(alloc: Global, heading: &[u8], drawing: &Drawing<'_>) -> Result<Answer, AllocError>
    ensures { IfOk result (λ a. (a.text.items ≡ heading.now ++ drawing_text drawing.now ++ codes "\n") × (a.dot.items ≡ Dot drawing.now)) }
{
    let mut whole = Vec::from_slice(alloc, heading)?;
    whole.append(&mut text(alloc, drawing)?)?;
    whole.push(b'\n')?;
    let dot = dot(alloc, drawing)?;
    Ok(Answer { text: whole, dot })
}

/// The same of an execution with the check that it breaks, or with nothing of the model.
fn drawn_with(
    alloc: Global,
    heading: &[u8],
    execution: &Shown<'_>,
    broken: Option<Broken<'_>>,
) -> Result<Answer, AllocError>
    ensures { (r : Option Reason) → TellsReason r broken.entry → IfOk result (λ a. IsDrawn execution.now.work.now execution.now.model.now heading.now execution.now.graph.now r a.text.items a.dot.items) }
{
    let test = execution.work.test();
    let drawing = Drawing {
        name: test.name(),
        locations: test.locations(),
        graph: execution.graph,
        model: Some(execution.model),
        broken,
    };
    drawn(alloc, heading, &drawing)
}

/// An execution with the check that it breaks, in words, and the evidence.
fn against(
    alloc: Global,
    heading: &[u8],
    execution: &Shown<'_>,
    found: &Reason,
) -> Result<Answer, AllocError>
    ensures { IfOk result (λ a. IsDrawn execution.now.work.now execution.now.model.now heading.now execution.now.graph.now (Some found.now) a.text.items a.dot.items) }
{
    let check = words_of(alloc, found)?;
    let chain = chain_of(alloc, execution, found)?;
    let broken = Broken {
        check: &check,
        chain: chain.as_ref(),
    };
    drawn_with(alloc, heading, execution, Some(broken))
}

/// An execution that the model forbids, with what speaks against it.
fn forbidden(alloc: Global, has: bool, execution: &Shown<'_>) -> Result<Answer, AllocError>
    requires { IsFirst execution.now.work.now.test (λ x. IsAnswer execution.now.work.now.test x has) execution.now.graph.now }
    ensures { IfOk result (λ a. IsForbidden execution.now.work.now has execution.now.model.now a.text.items a.dot.items) }
{
    let heading = forbidden_heading(has);
    match reason(alloc, execution.work.model(), execution.graph)? {
        Some(found) => against(alloc, heading, execution, &found),
        None => drawn_with(alloc, heading, execution, None),
    }
}

/// That there is no execution to draw.
fn nothing(alloc: Global, has: bool) -> Result<Answer, AllocError>
    ensures { IfOk result (λ a. (a.text.items ≡ texts.lack has) × (a.dot.items ≡ [])) }
{
    Ok(Answer {
        text: Vec::from_slice(alloc, lack(has))?,
        dot: Vec::new(alloc),
    })
}

/// Why no execution that the model allows is as it is asked for.
fn lacking(alloc: Global, work: &Work, model: &[u8], has: bool) -> Result<Answer, AllocError>
    ensures { IfOk result (λ a. IsLacking work.now has model.now a.text.items a.dot.items) }
{
    match closest(alloc, work, has)? {
        Some(graph) => {
            let graph = &graph;
            forbidden(alloc, has, &Shown { work, graph, model })
        }
        None => nothing(alloc, has),
    }
}

/// An execution that the model allows.
fn allowed(alloc: Global, has: bool, execution: &Shown<'_>) -> Result<Answer, AllocError>
    requires { IsFirst execution.now.work.now.test (IsWitness execution.now.work.now.test execution.now.work.now.model.items has) execution.now.graph.now }
    ensures { IfOk result (λ a. IsAllowed execution.now.work.now has execution.now.model.now a.text.items a.dot.items) }
{
    drawn_with(alloc, allowed_heading(has), execution, None)
}

/// Why a verdict on a work is what it is: the first execution by number that the model allows and that has the proposition, or has it not; else the first
/// that the model forbids, with the first check that it breaks.
fn explanation(alloc: Global, work: &Work, model: &[u8], has: bool) -> Result<Answer, AllocError>
    ensures { IfOk result (λ a. IsExplained work.now has model.now a.text.items a.dot.items) }
{
    match witness(alloc, work, has)? {
        Some(graph) => {
            let graph = &graph;
            allowed(alloc, has, &Shown { work, graph, model })
        }
        None => lacking(alloc, work, model, has),
    }
}

/// Adds why a verdict is what it is, under its own case.
fn push_reason(
    why: &mut Vec<u8>,
    dot: &mut Vec<u8>,
    alloc: Global,
    case: &Case<'_>,
    verdict: &Verdict,
) -> Result<(), AllocError>
    ensures { OnOk result (Explains why.old.items dot.old.items case.now verdict.now why.new.items dot.new.items) }
{
    let has = asks_with(verdict.finding().kind());
    let mut answer = explanation(alloc, verdict.work().work(), case.model.as_bytes(), has)?;
    why.append(&mut answer.text)?;
    dot.append(&mut answer.dot)?;
    Ok(())
}

/// Adds why each verdict is what it is.
pub(crate) fn push_reasons(
    why: &mut Vec<u8>,
    dot: &mut Vec<u8>,
    alloc: Global,
    cases: &[Case<'_>],
    verdicts: &[Verdict],
) -> Result<(), AllocError>
    ensures { OnOk result (AreExplained why.old.items dot.old.items (zip cases.now verdicts.now) why.new.items dot.new.items) }
{
    for (case, verdict) in cases.iter().zip(verdicts) {
        push_reason(why, dot, alloc, case, verdict)?;
    }
    Ok(())
}
