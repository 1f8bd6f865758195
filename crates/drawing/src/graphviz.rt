//! An execution as a file for Graphviz.

ghost use Rattle.std.specs.Prelude.{◌≡◌, ◌++◌, IfOk, OnOk, flat_map, option_map};
ghost use Rattle.listings.specs.Lists.{tabulate};
ghost use Rattle.drawing.specs.Dots as dots;

use crate::arrows::{Arrow, Relation};
use crate::bytes::{push_bytes, push_number};
use crate::drawing::{Broken, Chain, Drawing, Step};
use crate::group::Group;
use crate::lines::{push_listed, push_title};
use crate::quoting::push_quoted;
use crate::scene::Scene;
use events::EventId;
use std::alloc::{AllocError, Global};

/// Adds what the label of an event tells of it.
fn push_told(
    alloc: Global,
    scene: &Scene<'_>,
    out: &mut Vec<u8>,
    event: EventId,
) -> Result<(), AllocError>
    ensures { OnOk result (out.new.items ≡ out.old.items ++ dots.told scene.now event) }
{
    let mut text = Vec::new(alloc);
    scene.push_event(&mut text, event)?;
    push_quoted(out, &text)
}

/// Adds the line of an event.
#[tactic(auto, unfolding(crate::specs::Dots::node_line))]
fn push_node(
    alloc: Global,
    scene: &Scene<'_>,
    out: &mut Vec<u8>,
    event: EventId,
) -> Result<(), AllocError>
    ensures { OnOk result (out.new.items ≡ out.old.items ++ dots.node_line scene.now event) }
{
    push_bytes(out, b"    ")?;
    scene.push_called(out, event)?;
    push_bytes(out, b" [label=\"")?;
    scene.push_called(out, event)?;
    push_bytes(out, b": ")?;
    push_told(alloc, scene, out, event)?;
    push_bytes(out, b"\"]\n")
}

/// Adds a line for each event of a group.
fn push_nodes(
    alloc: Global,
    scene: &Scene<'_>,
    out: &mut Vec<u8>,
    group: Group,
) -> Result<(), AllocError>
    ensures { OnOk result (out.new.items ≡ out.old.items ++ dots.nodes scene.now group) }
{
    let members = scene.members(alloc, group)?;
    for event in &members {
        push_node(alloc, scene, out, *event)?;
    }
    Ok(())
}

/// Adds the row of initial writes.
#[tactic(auto, unfolding(crate::specs::Dots::initial_row))]
fn push_row(alloc: Global, scene: &Scene<'_>, out: &mut Vec<u8>) -> Result<(), AllocError>
    ensures { OnOk result (out.new.items ≡ out.old.items ++ dots.initial_row scene.now) }
{
    push_bytes(
        out,
        b"  {\n    rank=same\n    start [style=invis, width=0, label=\"\"]\n",
    )?;
    push_nodes(alloc, scene, out, Group::InitialWrites)?;
    push_bytes(out, b"  }\n")
}

/// Adds how the cluster of a thread begins.
fn push_cluster_head(out: &mut Vec<u8>, thread: usize) -> Result<(), AllocError>
    ensures { OnOk result (out.new.items ≡ out.old.items ++ dots.cluster_head thread) }
{
    push_bytes(out, b"  subgraph cluster_")?;
    push_number(out, thread)?;
    push_bytes(out, b" {\n    label=\"P")?;
    push_number(out, thread)?;
    push_bytes(out, b"\"\n")
}

/// Adds the cluster of a thread.
#[tactic(auto, unfolding(crate::specs::Dots::cluster))]
fn push_cluster(
    alloc: Global,
    scene: &Scene<'_>,
    out: &mut Vec<u8>,
    thread: usize,
) -> Result<(), AllocError>
    ensures { OnOk result (out.new.items ≡ out.old.items ++ dots.cluster scene.now thread) }
{
    push_cluster_head(out, thread)?;
    push_nodes(alloc, scene, out, Group::Thread(thread))?;
    push_bytes(out, b"  }\n")
}

/// Adds the clusters of so many threads.
fn push_clusters(
    alloc: Global,
    scene: &Scene<'_>,
    out: &mut Vec<u8>,
    threads: usize,
) -> Result<(), AllocError>
    ensures { OnOk result (out.new.items ≡ out.old.items ++ flat_map (dots.cluster scene.now) (tabulate threads (λ k. k))) }
{
    for thread in 0..threads {
        push_cluster(alloc, scene, out, thread)?;
    }
    Ok(())
}

#[tactic(auto, unfolding(crate::specs::Dots::below_line))]
fn push_below(scene: &Scene<'_>, out: &mut Vec<u8>, event: EventId) -> Result<(), AllocError>
    ensures { OnOk result (out.new.items ≡ out.old.items ++ dots.below_line scene.now event) }
{
    push_bytes(out, b"  start -> ")?;
    scene.push_called(out, event)?;
    push_bytes(out, b" [style=invis, weight=0]\n")
}

/// Adds the arrows that keep the threads below the initial writes.
fn push_all_below(alloc: Global, scene: &Scene<'_>, out: &mut Vec<u8>) -> Result<(), AllocError>
    ensures { OnOk result (out.new.items ≡ out.old.items ++ dots.below_lines scene.now) }
{
    let members = scene.members(alloc, Group::Firsts)?;
    for event in &members {
        push_below(scene, out, *event)?;
    }
    Ok(())
}

/// Adds all events.
#[tactic(auto, unfolding(crate::specs::Dots::events_lines))]
fn push_events(alloc: Global, scene: &Scene<'_>, out: &mut Vec<u8>) -> Result<(), AllocError>
    ensures { OnOk result (out.new.items ≡ out.old.items ++ dots.events_lines scene.now) }
{
    push_row(alloc, scene, out)?;
    push_clusters(alloc, scene, out, scene.graph().runs().len())?;
    push_all_below(alloc, scene, out)
}

fn leads_down(from: EventId, to: EventId) -> bool
    ensures { result ≡ dots.leads_down from to }
{
    match from {
        EventId::Initial(_) => true,
        EventId::Own(thread, place) => match to {
            EventId::Initial(_) => false,
            EventId::Own(other, later) => thread == other && place < later,
        },
    }
}

fn placing<'a>(down: bool) -> &'a [u8]
    ensures { result.now ≡ dots.placing down }
{
    if down { b"" } else { b", constraint=false" }
}

/// How the arrows of a relation look.
fn look(relation: Relation) -> &'static [u8]
    ensures { result.now ≡ dots.look relation }
{
    match relation {
        Relation::Po => b"label=\" po \", weight=10",
        Relation::Rf => b"label=\" rf \", color=\"red\", fontcolor=\"red\", style=dashed",
        Relation::Co => b"label=\" co \", color=\"blue\", fontcolor=\"blue\", style=dotted",
        Relation::Fr => {
            b"label=\" fr \", color=\"darkgreen\", fontcolor=\"darkgreen\", style=dashed, arrowhead=empty"
        }
        Relation::Rmw => b"label=\" rmw \", color=\"purple\", fontcolor=\"purple\", style=bold",
    }
}

/// Adds an arrow between the events with these numbers.
#[tactic(auto, unfolding(crate::specs::Dots::arrow_line))]
fn push_arrow(
    scene: &Scene<'_>,
    out: &mut Vec<u8>,
    shown: &[u8],
    from: usize,
    to: usize,
) -> Result<(), AllocError>
    ensures { OnOk result (out.new.items ≡ out.old.items ++ dots.arrow_line scene.now shown.now from to) }
{
    let down = leads_down(scene.event(from), scene.event(to));
    push_bytes(out, b"  ")?;
    scene.push_name(out, from)?;
    push_bytes(out, b" -> ")?;
    scene.push_name(out, to)?;
    push_bytes(out, b" [")?;
    push_bytes(out, shown)?;
    push_bytes(out, placing(down))?;
    push_bytes(out, b"]\n")
}

/// Whether one of the steps from this event on leads from the one event to the other.
fn is_step(first: usize, steps: &[Step], from: usize, to: usize) -> bool
    ensures { result ≡ dots.is_step first steps.now from to }
{
    let mut last = first;
    for step in steps {
        if last == from && step.to == to {
            return true;
        }
        last = step.to;
    }
    false
}

fn is_evidence(chain: Option<&Chain>, from: usize, to: usize) -> bool
    ensures { result ≡ dots.is_evidence (option_map (λ c. c.now) chain.entry) from to }
{
    match chain {
        Some(chain) => is_step(chain.first, &chain.steps, from, to),
        None => false,
    }
}

/// Adds an arrow of a relation, where no step of the evidence stands for it.
#[tactic(auto, unfolding(crate::specs::Dots::plain_line))]
fn push_plain(
    scene: &Scene<'_>,
    out: &mut Vec<u8>,
    chain: Option<&Chain>,
    relation: Relation,
    arrow: Arrow,
) -> Result<(), AllocError>
    ensures { OnOk result (out.new.items ≡ out.old.items ++ dots.plain_line scene.now (option_map (λ c. c.now) chain.entry) relation arrow) }
{
    let from = scene.number(arrow.from);
    let to = scene.number(arrow.to);
    if is_evidence(chain, from, to) {
        return Ok(());
    }
    push_arrow(scene, out, look(relation), from, to)
}

/// Adds the arrows of a relation.
fn push_relation(
    alloc: Global,
    scene: &Scene<'_>,
    out: &mut Vec<u8>,
    chain: Option<&Chain>,
    relation: Relation,
) -> Result<(), AllocError>
    ensures { OnOk result (out.new.items ≡ out.old.items ++ dots.plain_lines scene.now (option_map (λ c. c.now) chain.entry) relation) }
{
    let arrows = scene.arrows(alloc, relation)?;
    for arrow in &arrows {
        push_plain(scene, out, chain, relation, *arrow)?;
    }
    Ok(())
}

/// Adds that an event is drawn bold.
#[tactic(auto, unfolding(crate::specs::Dots::bold_line))]
fn push_bold(scene: &Scene<'_>, out: &mut Vec<u8>, number: usize) -> Result<(), AllocError>
    ensures { OnOk result (out.new.items ≡ out.old.items ++ dots.bold_line scene.now number) }
{
    push_bytes(out, b"  ")?;
    scene.push_name(out, number)?;
    push_bytes(out, b" [penwidth=3]\n")
}

/// How the arrow of a step looks.
fn step_look(alloc: Global, step: &Step) -> Result<Vec<u8>, AllocError>
    ensures { IfOk result (λ v. v.items ≡ dots.step_look step.now) }
{
    let mut labels = Vec::new(alloc);
    push_listed(&mut labels, &step.labels)?;
    let mut look = Vec::new(alloc);
    push_bytes(&mut look, b"label=\" ")?;
    push_quoted(&mut look, &labels)?;
    push_bytes(&mut look, b" \", penwidth=3")?;
    Ok(look)
}

/// Adds a step from this event, and the event that it leads to.
#[tactic(auto, unfolding(crate::specs::Dots::step_lines))]
fn push_step(
    alloc: Global,
    scene: &Scene<'_>,
    out: &mut Vec<u8>,
    last: usize,
    step: &Step,
) -> Result<(), AllocError>
    ensures { OnOk result (out.new.items ≡ out.old.items ++ dots.step_lines scene.now last step.now) }
{
    let look = step_look(alloc, step)?;
    push_bold(scene, out, step.to)?;
    push_arrow(scene, out, &look, last, step.to)
}

fn push_steps(
    alloc: Global,
    scene: &Scene<'_>,
    out: &mut Vec<u8>,
    first: usize,
    steps: &[Step],
) -> Result<(), AllocError>
    ensures { OnOk result (out.new.items ≡ out.old.items ++ dots.steps_lines scene.now first steps.now) }
{
    let mut last = first;
    for step in steps {
        push_step(alloc, scene, out, last, step)?;
        last = step.to;
    }
    Ok(())
}

/// Adds the evidence, if there is any.
fn push_evidence(
    alloc: Global,
    scene: &Scene<'_>,
    out: &mut Vec<u8>,
    chain: Option<&Chain>,
) -> Result<(), AllocError>
    ensures { OnOk result (out.new.items ≡ out.old.items ++ dots.evidence_lines scene.now (option_map (λ c. c.now) chain.entry)) }
{
    match chain {
        Some(chain) => {
            push_bold(scene, out, chain.first)?;
            push_steps(alloc, scene, out, chain.first, &chain.steps)
        }
        None => Ok(()),
    }
}

/// Adds all arrows.
#[tactic(auto, unfolding(crate::specs::Dots::arrows_lines))]
fn push_arrows(
    alloc: Global,
    scene: &Scene<'_>,
    out: &mut Vec<u8>,
    chain: Option<&Chain>,
) -> Result<(), AllocError>
    ensures { OnOk result (out.new.items ≡ out.old.items ++ dots.arrows_lines scene.now (option_map (λ c. c.now) chain.entry)) }
{
    push_relation(alloc, scene, out, chain, Relation::Po)?;
    push_relation(alloc, scene, out, chain, Relation::Rf)?;
    push_relation(alloc, scene, out, chain, Relation::Co)?;
    push_relation(alloc, scene, out, chain, Relation::Fr)?;
    push_relation(alloc, scene, out, chain, Relation::Rmw)?;
    push_evidence(alloc, scene, out, chain)
}

/// Adds a further line of the title: the check that is broken.
fn push_second(out: &mut Vec<u8>, broken: &Option<Broken<'_>>) -> Result<(), AllocError>
    ensures { OnOk result (out.new.items ≡ out.old.items ++ dots.second_line broken.now) }
{
    match broken {
        Some(broken) => {
            push_bytes(out, b"\\nbreaks ")?;
            push_quoted(out, broken.check)
        }
        None => Ok(()),
    }
}

/// Adds the line of the title.
#[tactic(auto, unfolding(crate::specs::Dots::title_line))]
fn push_heading(alloc: Global, out: &mut Vec<u8>, drawing: &Drawing<'_>) -> Result<(), AllocError>
    ensures { OnOk result (out.new.items ≡ out.old.items ++ dots.title_line drawing.now) }
{
    let mut title = Vec::new(alloc);
    push_title(&mut title, drawing)?;
    push_bytes(out, b"  label=\"")?;
    push_quoted(out, &title)?;
    push_second(out, &drawing.broken)?;
    push_bytes(out, b"\"\n")
}

fn chain_of<'a>(broken: &Option<Broken<'a>>) -> Option<&'a Chain>
    ensures { option_map (λ c. c.now) result ≡ dots.chain_of broken.now }
{
    match broken {
        Some(broken) => broken.chain,
        None => None,
    }
}

/// How the whole is laid out.
#[tactic(auto, unfolding(crate::specs::Dots::settings))]
fn settings() -> &'static [u8]
    ensures { result.now ≡ dots.settings }
{
    b"digraph {\n  labelloc=t\n  newrank=true\n  nodesep=1.0\n  ranksep=0.5\n  fontname=\"Helvetica\"\n  node [shape=box, fontname=\"Helvetica\"]\n  edge [fontname=\"Helvetica\"]\n"
}

/// Adds the whole file.
#[tactic(auto, unfolding(crate::specs::Dots::Dot))]
fn push_dot(alloc: Global, out: &mut Vec<u8>, drawing: &Drawing<'_>) -> Result<(), AllocError>
    ensures { OnOk result (out.new.items ≡ out.old.items ++ dots.Dot drawing.now) }
{
    let scene = Scene::of(alloc, drawing.graph, drawing.locations)?;
    push_bytes(out, settings())?;
    push_heading(alloc, out, drawing)?;
    push_events(alloc, &scene, out)?;
    push_arrows(alloc, &scene, out, chain_of(&drawing.broken))?;
    push_bytes(out, b"}\n")
}

/// The drawing as a file for Graphviz: a cluster for each thread, the initial writes in a row above them, the arrows of
/// the relations, and those of the evidence in bold.
pub fn dot(alloc: Global, drawing: &Drawing<'_>) -> Result<Vec<u8>, AllocError>
    ensures { IfOk result (λ v. v.items ≡ dots.Dot drawing.now) }
{
    let mut out = Vec::new(alloc);
    push_dot(alloc, &mut out, drawing)?;
    Ok(out)
}
