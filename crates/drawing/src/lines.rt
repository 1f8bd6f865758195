//! An execution as text.

ghost use Rattle.std.specs.Prelude.{◌≡◌, ◌++◌, IfOk, OnOk, flat_map, option_map, codes};
ghost use Rattle.drawing.specs.Texts as texts;

use crate::arrows::{Arrow, Relation};
use crate::bytes::{push_bytes, push_number};
use crate::drawing::{Broken, Chain, Drawing, Step};
use crate::group::Group;
use crate::scene::Scene;
use events::EventId;
use std::alloc::{AllocError, Global};
use wb_text::Name;

/// Adds the thread of an event.
fn push_thread(out: &mut Vec<u8>, event: EventId) -> Result<(), AllocError>
    ensures { OnOk result (out.new.items ≡ out.old.items ++ texts.thread_text event) }
{
    match event {
        EventId::Initial(_) => Ok(()),
        EventId::Own(thread, _) => {
            push_bytes(out, b"P")?;
            push_number(out, thread)?;
            push_bytes(out, b" ")
        }
    }
}

/// Adds the line of an event.
#[tactic(auto, unfolding(crate::specs::Texts::event_line))]
fn push_line(scene: &Scene<'_>, out: &mut Vec<u8>, event: EventId) -> Result<(), AllocError>
    ensures { OnOk result (out.new.items ≡ out.old.items ++ texts.event_line scene.now event) }
{
    scene.push_called(out, event)?;
    push_bytes(out, b": ")?;
    push_thread(out, event)?;
    scene.push_event(out, event)?;
    push_bytes(out, b"\n")
}

/// Adds a line for each event of a group.
fn push_lines(
    alloc: Global,
    scene: &Scene<'_>,
    out: &mut Vec<u8>,
    group: Group,
) -> Result<(), AllocError>
    ensures { OnOk result (out.new.items ≡ out.old.items ++ texts.event_lines scene.now group) }
{
    let members = scene.members(alloc, group)?;
    for event in &members {
        push_line(scene, out, *event)?;
    }
    Ok(())
}

fn relation_text(relation: Relation) -> &'static [u8]
    ensures { result.now ≡ texts.relation_text relation }
{
    match relation {
        Relation::Po => b"po",
        Relation::Rf => b"rf",
        Relation::Co => b"co",
        Relation::Fr => b"fr",
        Relation::Rmw => b"rmw",
    }
}

#[tactic(auto, unfolding(crate::specs::Texts::pair_text))]
fn push_pair(scene: &Scene<'_>, out: &mut Vec<u8>, arrow: Arrow) -> Result<(), AllocError>
    ensures { OnOk result (out.new.items ≡ out.old.items ++ texts.pair_text scene.now arrow) }
{
    push_bytes(out, b" ")?;
    scene.push_called(out, arrow.from)?;
    push_bytes(out, b"->")?;
    scene.push_called(out, arrow.to)
}

fn push_pairs(scene: &Scene<'_>, out: &mut Vec<u8>, arrows: &[Arrow]) -> Result<(), AllocError>
    ensures { OnOk result (out.new.items ≡ out.old.items ++ flat_map (texts.pair_text scene.now) arrows.now) }
{
    for arrow in arrows {
        push_pair(scene, out, *arrow)?;
    }
    Ok(())
}

/// Adds the line of a relation, if it has a pair.
fn push_relation(
    alloc: Global,
    scene: &Scene<'_>,
    out: &mut Vec<u8>,
    relation: Relation,
) -> Result<(), AllocError>
    ensures { OnOk result (out.new.items ≡ out.old.items ++ texts.relation_line scene.now relation) }
{
    let arrows = scene.arrows(alloc, relation)?;
    if arrows.is_empty() {
        return Ok(());
    }
    push_bytes(out, relation_text(relation))?;
    push_bytes(out, b":")?;
    push_pairs(scene, out, &arrows)?;
    push_bytes(out, b"\n")
}

/// Adds a name behind a comma.
fn push_other(out: &mut Vec<u8>, name: &Name) -> Result<(), AllocError>
    ensures { OnOk result (out.new.items ≡ out.old.items ++ (codes "," ++ name.now)) }
{
    push_bytes(out, b",")?;
    push_bytes(out, name.bytes())
}

/// Adds the names behind others.
fn push_others(out: &mut Vec<u8>, names: &[Name]) -> Result<(), AllocError>
    ensures { OnOk result (out.new.items ≡ out.old.items ++ flat_map (λ m. codes "," ++ m) names.now) }
{
    for name in names {
        push_other(out, name)?;
    }
    Ok(())
}

/// Adds names, parted by commas.
pub(crate) fn push_listed(out: &mut Vec<u8>, names: &[Name]) -> Result<(), AllocError>
    ensures { OnOk result (out.new.items ≡ out.old.items ++ texts.listed names.now) }
{
    match names.split_first() {
        Some((first, others)) => {
            push_bytes(out, first.bytes())?;
            push_others(out, others)
        }
        None => Ok(()),
    }
}

fn push_step(scene: &Scene<'_>, out: &mut Vec<u8>, step: &Step) -> Result<(), AllocError>
    ensures { OnOk result (out.new.items ≡ out.old.items ++ texts.step_text scene.now step.now) }
{
    push_bytes(out, b" -")?;
    push_listed(out, &step.labels)?;
    push_bytes(out, b"-> ")?;
    scene.push_name(out, step.to)
}

fn push_steps(scene: &Scene<'_>, out: &mut Vec<u8>, steps: &[Step]) -> Result<(), AllocError>
    ensures { OnOk result (out.new.items ≡ out.old.items ++ flat_map (texts.step_text scene.now) steps.now) }
{
    for step in steps {
        push_step(scene, out, step)?;
    }
    Ok(())
}

fn push_chain(scene: &Scene<'_>, out: &mut Vec<u8>, chain: &Chain) -> Result<(), AllocError>
    ensures { OnOk result (out.new.items ≡ out.old.items ++ texts.chain_text scene.now chain.now) }
{
    scene.push_name(out, chain.first)?;
    push_steps(scene, out, &chain.steps)
}

/// Adds the evidence behind the check, if there is any.
fn push_evidence(
    scene: &Scene<'_>,
    out: &mut Vec<u8>,
    chain: Option<&Chain>,
) -> Result<(), AllocError>
    ensures { OnOk result (out.new.items ≡ out.old.items ++ texts.evidence_text scene.now (option_map (λ c. c.now) chain.entry)) }
{
    match chain {
        Some(chain) => {
            push_bytes(out, b": ")?;
            push_chain(scene, out, chain)
        }
        None => Ok(()),
    }
}

/// Adds the line of the check that is broken.
#[tactic(auto, unfolding(crate::specs::Texts::broken_line))]
fn push_broken(scene: &Scene<'_>, out: &mut Vec<u8>, broken: &Broken<'_>) -> Result<(), AllocError>
    ensures { OnOk result (out.new.items ≡ out.old.items ++ texts.broken_line scene.now broken.now) }
{
    push_bytes(out, b"breaks ")?;
    push_bytes(out, broken.check)?;
    push_evidence(scene, out, broken.chain)?;
    push_bytes(out, b"\n")
}

/// Adds the title: the test, and the model if there is one.
#[tactic(auto, unfolding(crate::specs::Texts::title))]
pub(crate) fn push_title(out: &mut Vec<u8>, drawing: &Drawing<'_>) -> Result<(), AllocError>
    ensures { OnOk result (out.new.items ≡ out.old.items ++ texts.title drawing.now) }
{
    push_bytes(out, drawing.name.bytes())?;
    match drawing.model {
        Some(model) => {
            push_bytes(out, b" under ")?;
            push_bytes(out, model)
        }
        None => Ok(()),
    }
}

/// Adds the lines of the events, and of the relations that are listed.
#[tactic(auto, unfolding(crate::specs::Texts::execution_lines))]
fn push_execution(alloc: Global, scene: &Scene<'_>, out: &mut Vec<u8>) -> Result<(), AllocError>
    ensures { OnOk result (out.new.items ≡ out.old.items ++ texts.execution_lines scene.now) }
{
    push_lines(alloc, scene, out, Group::Threads)?;
    push_lines(alloc, scene, out, Group::InitialWrites)?;
    push_relation(alloc, scene, out, Relation::Rf)?;
    push_relation(alloc, scene, out, Relation::Co)?;
    push_relation(alloc, scene, out, Relation::Fr)?;
    push_relation(alloc, scene, out, Relation::Rmw)
}

/// Adds the whole text.
#[tactic(auto, unfolding(crate::specs::Texts::Text))]
fn push_text(alloc: Global, out: &mut Vec<u8>, drawing: &Drawing<'_>) -> Result<(), AllocError>
    ensures { OnOk result (out.new.items ≡ out.old.items ++ texts.Text drawing.now) }
{
    let scene = Scene::of(alloc, drawing.graph, drawing.locations)?;
    push_title(out, drawing)?;
    push_bytes(out, b"\n")?;
    push_execution(alloc, &scene, out)?;
    match &drawing.broken {
        Some(broken) => push_broken(&scene, out, broken),
        None => Ok(()),
    }
}

/// The drawing as text: a line for each event, a line for each relation that has a pair, and the check that is broken
/// with its evidence.
pub fn text(alloc: Global, drawing: &Drawing<'_>) -> Result<Vec<u8>, AllocError>
    ensures { IfOk result (λ v. v.items ≡ texts.Text drawing.now) }
{
    let mut out = Vec::new(alloc);
    push_text(alloc, &mut out, drawing)?;
    Ok(out)
}
