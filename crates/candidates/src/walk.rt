//! A walk over the executions of a space.

ghost use Rattle.std.specs.Prelude.{◌≡◌, ◌+◌, ◌-◌, ◌<◌, ◌≤◌, ℕ, List, [], length, max, min, true, Some, None, IfOk, IfSome, OnOk, OnErr, MatchOption};
ghost use Rattle.events.specs.Executions.{GraphValue, ThreadRun};
ghost use Rattle.candidates.specs.Executions.{block};
ghost use Rattle.candidates.specs.Alike.{AllWithin, AreAlike};
ghost use Rattle.events.specs.Cuts.{cut_down};
ghost use Rattle.events.specs.Opened.{opened};
ghost use Rattle.candidates.specs.Blocks.{AllExtend, AllHaveWrites};
ghost use Rattle.candidates.specs.Candidates.{Choices, candidate, graph_at, size_of, no_execution};
ghost use Rattle.candidates.specs.Depths.{cut_at, end_at, knows_places};
ghost use Rattle.candidates.specs.Levels.{ArePlaced};
ghost use Rattle.candidates.specs.Readings.{IsKnown, IsPage, IsSeen, MayBeStretch};
ghost use Rattle.candidates.specs.Walks.{IsAhead, IsBegun, IsFind, IsFound, IsHit, IsJustFound, IsMiss, IsNear, IsNumberOf, IsPausedIn, IsPlace, IsReached, IsScene, IsSection, IsVisit, IsWithin, HasNoSection, depths_around};

use crate::assembly::{assemble, assemble_in, no_parts, nothing, turned};
use crate::block::{Block, cut_to};
use crate::depths::Known;
use crate::open_orders::{Open, OpenOrders, open_at, open_orders};
use crate::page::{Ahead, Page, Scene, Stretch};
use crate::reading::{Hit, Look, look_at};
use crate::space::Space;
use crate::threads::go_to;
use events::Graph;
use std::alloc::{AllocError, Global};
use std::marker::Model;
use std::mem::{replace, swap};

/// A walk over the executions at some numbers of a space, in the order of their numbers.
pub struct Walk<'a> {
    space: &'a Space,
    next: u64,
    to: u64,
    scene: Scene,
}

// A function of its own: whoever holds one drops it by a call.
impl<'a> Drop for Walk<'a> {
    fn drop(self) {
        let Walk {
            space: _,
            next: _,
            to: _,
            scene: _,
        } = self;
    }
}

impl<'a> Model for Walk<'a> {
    ghost use Rattle.std.specs.Prelude.{◌≤◌};
    ghost use Rattle.candidates.specs.Candidates.{size_of};
    ghost use Rattle.candidates.specs.Walks.{IsScene, Walking};

    ghost Value = { Walking };

    ghost view = { λ w. record { space = w.space.now; next = w.next; to = w.to; shown = w.scene.graph } };

    ghost invariant = { λ w. record { order : w.next ≤ w.to; within : w.to ≤ size_of w.space.now; scene : IsScene w.space.now w.scene } };
}

/// A walk that is put aside, without its space: what it shows, and where it looks on. It may go on at any numbers of that space, and
/// begins at once where these lie near what it shows.
pub struct PausedWalk {
    pub(crate) scene: Scene,
}

// A function of its own: whoever holds one drops it by a call.
impl Drop for PausedWalk {
    fn drop(self) {
        let PausedWalk { scene: _ } = self;
    }
}

/// A stretch of no numbers.
fn no_stretch(alloc: Global) -> Stretch
    ensures size { result.size ≡ 0 }
    ensures depths { result.page.depths.items ≡ [] }
    ensures places { result.page.places.items ≡ [] }
{
    let page = Page {
        runs: Vec::new(alloc),
        places: Vec::new(alloc),
        reads: Vec::new(alloc),
        suitable: Vec::new(alloc),
        writes: Vec::new(alloc),
        ways: 1,
        orders: 1,
        depths: Vec::new(alloc),
    };
    Stretch {
        first: 0,
        size: 0,
        page,
    }
}

/// Where a walk looks on that has not begun.
fn nothing_ahead(alloc: Global) -> Ahead
    ensures size { result.stretch.size ≡ 0 }
    ensures levels { result.levels.items ≡ [] }
    ensures places { result.stretch.page.places.items ≡ [] }
{
    Ahead {
        levels: Vec::new(alloc),
        stretch: no_stretch(alloc),
    }
}

/// What a walk has at hand that has not begun.
fn no_scene(alloc: Global) -> Scene
    ensures size { result.stretch.size ≡ 0 }
    ensures depths { result.stretch.page.depths.items ≡ [] }
    ensures graph { result.graph ≡ no_execution }
    ensures ahead { result.ahead.stretch.size ≡ 0 }
    ensures number { result.room_number ≡ None }
    ensures levels { result.ahead.levels.items ≡ [] }
    ensures places { (result.stretch.page.places.items ≡ []) × (result.ahead.stretch.page.places.items ≡ []) × (result.places.items ≡ []) × (result.room_places.items ≡ []) }
{
    Scene {
        stretch: no_stretch(alloc),
        graph: nothing(alloc),
        places: Vec::new(alloc),
        hit: Hit { at: 0, until: 0 },
        ahead: nothing_ahead(alloc),
        room: no_parts(alloc),
        room_places: Vec::new(alloc),
        room_number: None,
    }
}

/// Whether a number is in a stretch.
fn contains(stretch: &Stretch, number: u64) -> bool
    ensures { result ≡ true → (stretch.now.first ≤ number) × (number < stretch.now.first + stretch.now.size) }
{
    number >= stretch.first && number - stretch.first < stretch.size
}

/// Goes to the stretch in which a number is, if it is not in the one at hand; or says up to which number no execution
/// stands.
fn reach(
    alloc: Global,
    space: &Space,
    ahead: &mut Ahead,
    number: u64,
) -> Result<Option<u64>, AllocError>
    requires ahead { IsAhead space.now ahead.old }
    requires number { number < size_of space.now }
    ensures reached { IfOk result (IsReached space.now number ahead.new.stretch) }
    ensures ahead { IsAhead space.now ahead.new }
{
    if contains(&ahead.stretch, number) {
        return Ok(None);
    }
    go_to(
        alloc,
        &space.threads(),
        &mut ahead.levels,
        &mut ahead.stretch,
        number,
    )
}

/// The first execution of a stretch from a number on. One of it may be known.
fn visit(space: &Space, stretch: &Stretch, known: Option<Hit>, number: u64) -> Look
    requires within { IsWithin space.now number stretch.now }
    requires known { IfSome known (IsKnown space.now.init stretch.now.page.runs.items) }
    ensures { IsVisit space.now number stretch.now result }
{
    match look_at(space.init(), &stretch.page, known, number - stretch.first) {
        Look::Found(hit) => Look::Found(hit),
        Look::Until(next) => Look::Until(stretch.first + next),
    }
}

/// The first execution from a number on, if it is in the stretch of the number.
fn look(alloc: Global, space: &Space, ahead: &mut Ahead, number: u64) -> Result<Look, AllocError>
    requires ahead { IsAhead space.now ahead.old }
    requires number { number < size_of space.now }
    ensures found { IfOk result (IsVisit space.now number ahead.new.stretch) }
    ensures ahead { IsAhead space.now ahead.new }
{
    match reach(alloc, space, ahead, number)? {
        Some(next) => Ok(Look::Until(next)),
        None => Ok(visit(space, &ahead.stretch, None, number)),
    }
}

/// The execution at a number, where the first from it on is found.
fn assemble_at(
    alloc: Global,
    space: &Space,
    stretch: &Stretch,
    hit: Hit,
    number: u64,
) -> Result<Option<Graph>, AllocError>
    requires found { IsFound space.now number stretch.now hit }
    ensures { IfOk result (λ g. g ≡ graph_at space.now number) }
{
    if number < stretch.first + hit.at {
        return Ok(None);
    }
    Ok(Some(assemble(alloc, space.init(), &stretch.page, hit.at)?))
}

/// The execution at a number.
pub(crate) fn find(alloc: Global, space: &Space, number: u64) -> Result<Option<Graph>, AllocError>
    requires { number < size_of space.now }
    ensures { IfOk result (λ g. g ≡ graph_at space.now number) }
{
    let mut ahead = nothing_ahead(alloc);
    match look(alloc, space, &mut ahead, number)? {
        Look::Found(hit) => assemble_at(alloc, space, &ahead.stretch, hit, number),
        Look::Until(_) => Ok(None),
    }
}

/// The first execution at the numbers from `from` to `to - 1`.
fn search(
    alloc: Global,
    space: &Space,
    ahead: &mut Ahead,
    from: u64,
    to: u64,
) -> Result<Option<Hit>, AllocError>
    requires ahead { IsAhead space.now ahead.old }
    requires to { to ≤ size_of space.now }
    ensures found { IfOk result (IsFind space.now ahead.new.stretch from to) }
    ensures ahead { IsAhead space.now ahead.new }
{
    let mut number = from;
    while number < to {
        match look(alloc, space, ahead, number)? {
            Look::Found(hit) => {
                if ahead.stretch.first + hit.at < to {
                    return Ok(Some(hit));
                }
                return Ok(None);
            }
            Look::Until(next) => number = next,
        }
    }
    Ok(None)
}

/// What is found among the executions with the runs of the one that is shown.
#[derive(Clone, Copy)]
pub(crate) enum Near {
    /// The first.
    Found(Hit),
    /// None stands before this number.
    Until(u64),
}

/// The first execution at the numbers from `from` to `to - 1` that are in the stretch of the one that is shown.
fn search_near(space: &Space, scene: &Scene, from: u64, to: u64) -> Near
    requires scene { IsScene space.now scene.now }
    requires to { to ≤ size_of space.now }
    ensures { IsNear space.now scene.now.stretch from to result }
{
    let mut number = from;
    while number < to {
        if !contains(&scene.stretch, number) {
            return Near::Until(number);
        }
        match visit(space, &scene.stretch, Some(scene.hit), number) {
            Look::Found(hit) => {
                if scene.stretch.first + hit.at < to {
                    return Near::Found(hit);
                }
                return Near::Until(to);
            }
            Look::Until(next) => number = next,
        }
    }
    Near::Until(number)
}

/// Turns the execution that is shown to another of its stretch.
fn turn(alloc: Global, init: &[u32], scene: &mut Scene, hit: Hit)
    requires page { IsPage (length init.now) scene.old.stretch.page }
    requires seen { IsSeen init.now scene.old.stretch.page scene.old.graph scene.old.hit.at }
    requires number { hit.at < block (length init.now) scene.old.stretch.page.runs.items }
    ensures stretch { scene.new.stretch ≡ scene.old.stretch }
    ensures ahead { scene.new.ahead ≡ scene.old.ahead }
    ensures runs { scene.new.graph.runs ≡ scene.old.graph.runs }
    ensures kept { (scene.new.places ≡ scene.old.places) × (scene.new.room ≡ scene.old.room) × (scene.new.room_places ≡ scene.old.room_places) × (scene.new.room_number ≡ scene.old.room_number) }
    ensures hit { scene.new.hit ≡ hit }
    ensures shown { scene.new.graph ≡ candidate init.now scene.old.stretch.page.runs.items hit.at }
{
    let graph = replace(&mut scene.graph, nothing(alloc));
    scene.graph = turned(alloc, &scene.stretch.page, graph, scene.hit.at, hit.at);
    scene.hit = hit;
}

/// The number of what is found in a stretch, if it has any numbers.
fn number_shown(stretch: &Stretch, hit: Hit) -> Option<u64>
    ensures { IfSome result (λ k. (1 ≤ stretch.now.size) × (k ≡ hit.at)) }
{
    if stretch.size == 0 {
        return None;
    }
    Some(hit.at)
}

/// Shows an execution of the stretch ahead, and looks on behind it.
#[inline(never)]
fn show(alloc: Global, init: &[u32], scene: &mut Scene, hit: Hit) -> Result<(), AllocError>
    requires page { IsPage (length init.now) scene.old.ahead.stretch.page }
    requires number { hit.at < block (length init.now) scene.old.ahead.stretch.page.runs.items }
    requires placed { (t : List (List ThreadRun)) × ArePlaced t scene.old.room.runs.items scene.old.room_places.items × ArePlaced t scene.old.ahead.stretch.page.runs.items scene.old.ahead.stretch.page.places.items }
    requires known { IsNumberOf (length init.now) scene.old }
    ensures number { OnOk result ((scene.new.room.rf.items ≡ scene.old.graph.rf) × (scene.new.room.co.items ≡ scene.old.graph.co) × IfSome scene.new.room_number (λ k. (1 ≤ scene.old.stretch.size) × (k ≡ scene.old.hit.at))) }
    ensures stretch { OnOk result (scene.new.stretch ≡ scene.old.ahead.stretch) }
    ensures ahead { OnOk result (scene.new.ahead.stretch ≡ scene.old.stretch) }
    ensures levels { scene.new.ahead.levels ≡ scene.old.ahead.levels }
    ensures hit { OnOk result (scene.new.hit ≡ hit) }
    ensures shown { OnOk result (scene.new.graph ≡ candidate init.now scene.old.ahead.stretch.page.runs.items hit.at) }
    ensures places { OnOk result (scene.new.places.items ≡ scene.old.ahead.stretch.page.places.items) }
    ensures room { OnOk result ((scene.new.room.runs.items ≡ scene.old.graph.runs) × (scene.new.room_places ≡ scene.old.places)) }
    ensures left { OnErr result ((scene.new.places ≡ scene.old.places) × (scene.new.room_places.items ≡ []) × (scene.new.room_number ≡ None)) }
    ensures same { OnErr result ((scene.new.stretch ≡ scene.old.stretch) × (scene.new.ahead ≡ scene.old.ahead) × (scene.new.graph ≡ scene.old.graph) × (scene.new.hit ≡ scene.old.hit)) }
{
    let room = replace(&mut scene.room, no_parts(alloc));
    let mut places = replace(&mut scene.room_places, Vec::new(alloc));
    let known = replace(&mut scene.room_number, None);
    let page = &scene.ahead.stretch.page;
    let graph = assemble_in(alloc, init, page, hit.at, room, &mut places, known)?;
    scene.room = replace(&mut scene.graph, graph).into_parts();
    scene.room_number = number_shown(&scene.stretch, scene.hit);
    scene.room_places = replace(&mut scene.places, places);
    swap(&mut scene.stretch, &mut scene.ahead.stretch);
    scene.hit = hit;
    Ok(())
}

/// A block around a number of a stretch: what is known of its executions, at which place of the stretch the number is, and
/// the number behind the block.
#[derive(Clone, Copy)]
struct Section {
    known: Known,
    place: u64,
    end: u64,
}

/// At which place of the stretch the number before this one is, if it is in it.
fn place_before(stretch: &Stretch, next: u64) -> Option<u64>
    ensures { MatchOption result ((depth : ℕ) → HasNoSection stretch.now next depth) (IsPlace stretch.now next) }
{
    if next <= stretch.first || next - stretch.first > stretch.size {
        return None;
    }
    Some(next - stretch.first - 1)
}

/// How many numbers there are from the one before `next` to `to - 1`.
fn count_from(next: u64, to: u64) -> u64
    requires some { 1 ≤ next }
    requires order { next ≤ to }
    ensures { next + result ≡ to + 1 }
{
    to - next + 1
}

/// The block of this depth around the number before `next`, if the stretch has both.
fn section_before(stretch: &Stretch, next: u64, depth: usize) -> Option<Section>
    requires { (s : Choices) × MayBeStretch s stretch.now }
    ensures section { (s : Choices) → MayBeStretch s stretch.now → IfSome result (IsSection s stretch.now next depth) }
    ensures none { MatchOption result (HasNoSection stretch.now next depth) (λ _. Unit {0}) }
{
    let place = place_before(stretch, next)?;
    let depth = stretch.page.depths.get(depth)?;
    let end = next - 1 + (depth.size - place % depth.size);
    Some(Section {
        known: depth.known,
        place,
        end,
    })
}

impl PausedWalk {
    /// One that has not begun, of any space.
    pub fn new(alloc: Global) -> Self
        ensures paused { (s : Choices) → IsPausedIn s result }
        ensures shown { result.scene.graph ≡ no_execution }
    {
        PausedWalk {
            scene: no_scene(alloc),
        }
    }

    /// What it shows, and where it looks on.
    fn into_scene(self) -> Scene
        ensures { result ≡ self.scene }
    {
        let PausedWalk { scene } = self;
        scene
    }
}

impl<'a> Walk<'a> {
    /// A walk over the numbers from `from` to `to - 1`, which goes on from where it was paused.
    pub(crate) fn resumed(space: &'a Space, paused: PausedWalk, from: u64, to: u64) -> Self
        requires order { from ≤ to }
        requires within { to ≤ size_of space.now }
        requires paused { IsPausedIn space.now paused }
        ensures { result ≡ record { space = space.entry.now; next = from; to = to; shown = paused.scene.graph } }
    {
        Walk {
            space,
            next: from,
            to,
            scene: paused.into_scene(),
        }
    }

    /// Puts the walk aside.
    pub fn pause(self) -> PausedWalk
        ensures { IsPausedIn self.entry.space result }
    {
        let Walk {
            space: _,
            next: _,
            to: _,
            scene,
        } = self;
        PausedWalk { scene }
    }

    /// Goes on to the next execution and gives its number, or to the end if there is none.
    pub fn next(&mut self, alloc: Global) -> Result<Option<u64>, AllocError>
        // The number is the least at which an execution stands that the walk has not passed, and the walk shows that execution.
        ensures found { IfOk result (λ found. MatchOption found (IsMiss self.old self.new) (IsHit self.old self.new)) }
        // A walk that finds no memory stays where it was.
        ensures same { OnErr result (self.new ≡ self.old) }
    {
        let from = match search_near(self.space, &self.scene, self.next, self.to) {
            Near::Found(hit) => {
                let number = self.scene.stretch.first + hit.at;
                turn(alloc, self.space.init(), &mut self.scene, hit);
                self.next = number + 1;
                return Ok(Some(number));
            }
            Near::Until(from) => from,
        };
        match search(alloc, self.space, &mut self.scene.ahead, from, self.to)? {
            Some(hit) => {
                let number = self.scene.ahead.stretch.first + hit.at;
                show(alloc, self.space.init(), &mut self.scene, hit)?;
                self.next = number + 1;
                Ok(Some(number))
            }
            None => {
                self.next = self.to;
                Ok(None)
            }
        }
    }

    /// The execution that the walk found last, or one of nothing where it has found none yet.
    pub fn graph(&self) -> &Graph
        ensures { result.now ≡ self.now.shown }
    {
        &self.scene.graph
    }

    /// How many depths of blocks there are around the execution found last: from the coarsest, the runs alone, inwards. None
    /// where none was found.
    pub fn depths(&self) -> usize
        ensures { result ≡ length (depths_around self.now) }
    {
        self.scene.stretch.page.depths.len()
    }

    /// Whether places of writes are known in the blocks of this depth around the execution found last, so that all sources are, too. At a
    /// depth that there is not, all is known.
    pub fn knows_places(&self, depth: usize) -> bool
        ensures { result ≡ knows_places (depths_around self.now) depth }
    {
        match self.scene.stretch.page.depths.get(depth) {
            Some(at) => at.known.has_places(),
            None => true,
        }
    }

    /// The number behind the block of this depth around the number found last. At a depth that there is not, the block is that
    /// number alone.
    pub fn end_of(&self, depth: usize) -> u64
        ensures behind { self.now.next ≤ result }
        ensures within { result ≤ size_of self.now.space }
        ensures end { IsJustFound self.now → result ≡ end_at self.now.space (depths_around self.now) depth (self.now.next - 1) }
    {
        match section_before(&self.scene.stretch, self.next, depth) {
            Some(section) => section.end,
            None => self.next,
        }
    }

    /// What is open of the orders from the execution found last on, within the walk's own numbers: so many executions one behind another
    /// differ in their orders alone. Nothing where none was found.
    pub fn open_orders(&self) -> Option<OpenOrders>
        ensures alike { (x : GraphValue) → graph_at self.now.space (self.now.next - 1) ≡ Some x → IfSome result (AreAlike self.now.space (self.now.next - 1)) }
        ensures within { IfSome result (λ o. self.now.next - 1 + o.size ≤ self.now.to) }
    {
        let stretch = &self.scene.stretch;
        let place = place_before(stretch, self.next)?;
        let locations = self.space.init().len();
        Some(open_orders(
            &stretch.page,
            locations,
            place,
            count_from(self.next, self.to),
        ))
    }

    /// The block of this depth whose first number is that of the execution found last, if it lies within the walk's own numbers and its executions
    /// differ in their orders alone; none where the walk has passed that execution, or there is no such depth.
    pub fn open_block(&self, depth: usize) -> Option<Open<'_>>
        ensures alike { IfSome result (λ o. AreAlike self.now.space (self.now.next - 1) o.orders) }
        // Each execution of the block is within the one that is shown, with the writes open that have no place in the cut.
        ensures inside { IfSome result (λ o. AllWithin self.now.space (self.now.next - 1) (self.now.next - 1 + o.orders.size) (opened self.now.shown o.cut)) }
        ensures within { IfSome result (λ o. self.now.next - 1 + o.orders.size ≤ self.now.to) }
        // What is open is what isn't known at this depth.
        ensures cut { IfSome result (λ o. cut_down self.now.shown o.cut ≡ cut_at self.now.shown (depths_around self.now) depth) }
        // There is one where such a block begins.
        ensures none { MatchOption result (IsJustFound self.now → ¬ IsBegun self.now depth) (λ _. Unit {0}) }
        // It ends where blocks of this depth do.
        ensures end { IfSome result (λ o. self.now.next - 1 + o.orders.size ≡ end_at self.now.space (depths_around self.now) depth (self.now.next - 1)) }
    {
        let stretch = &self.scene.stretch;
        let place = place_before(stretch, self.next)?;
        if place != self.scene.hit.at {
            return None;
        }
        let at = stretch.page.depths.get(depth)?;
        let locations = self.space.init().len();
        let orders = open_at(
            &stretch.page,
            locations,
            at,
            place,
            count_from(self.next, self.to),
        )?;
        let cut = cut_to(&stretch.page, locations, at.known);
        Some(Open { orders, cut })
    }

    /// The block of this depth around the execution found last; none where the walk has passed that, or there is no such depth.
    pub fn block(&self, depth: usize) -> Option<Block<'_>>
        // Each execution of the block goes on from what is known of the one that is shown.
        ensures extend { IfSome result (λ b. AllExtend self.now.space (self.now.next - 1) b.end (cut_down self.now.shown b.cut)) }
        // In its orders stand the writes that stand in those of the one that is shown.
        ensures writes { IfSome result (λ b. AllHaveWrites self.now.space (self.now.next - 1) b.end self.now.shown) }
        ensures within { IfSome result (λ b. (self.now.next ≤ b.end) × (b.end ≤ size_of self.now.space)) }
        // It ends where blocks of this depth do.
        ensures end { IfSome result (λ b. b.end ≡ end_at self.now.space (depths_around self.now) depth (self.now.next - 1)) }
        // What is known is what is known at this depth, and there is a block where there is such a depth.
        ensures cut { MatchOption result (IsJustFound self.now → length (depths_around self.now) ≤ depth) (λ b. cut_down self.now.shown b.cut ≡ cut_at self.now.shown (depths_around self.now) depth) }
    {
        let scene = &self.scene;
        let section = section_before(&scene.stretch, self.next, depth)?;
        if section.place != scene.hit.at {
            return None;
        }
        let locations = self.space.init().len();
        let cut = cut_to(&scene.stretch.page, locations, section.known);
        Some(Block {
            cut,
            end: section.end,
        })
    }

    /// Goes on behind the numbers before this one, without leaving the walk's own numbers.
    pub fn pass(&mut self, number: u64)
        ensures space { self.new.space ≡ self.old.space }
        ensures to { self.new.to ≡ self.old.to }
        ensures shown { self.new.shown ≡ self.old.shown }
        ensures next { self.new.next ≡ max self.old.next (min number self.old.to) }
    {
        self.next = self.next.max(number.min(self.to));
    }
}
