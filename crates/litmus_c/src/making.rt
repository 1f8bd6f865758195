//! From a test as it is written to the test that it means.

ghost use Rattle.std.specs.Prelude.{◌≡◌, ◌≤◌, ◌<◌, ◌+◌, ◌&&◌, ◌||◌, ◌∷◌, [], ℕ, List, map, length, not, reverse, sum_by, if◌then◌else◌, All, IfOk, IfErr, OnOk, true};
ghost use Rattle.conditions.specs.Equality.{same_place};
ghost use Rattle.indexmap.specs.IndexSet.{contains};
ghost use Rattle.std.specs.List.{flat_map, list_all};
ghost use Rattle.litmus_syntax.specs.Drafts.{listing_of, written_of};
ghost use Rattle.litmus_value.specs.Limits.{program_events};
ghost use Rattle.litmus_c.specs.declared.fault.TestFault.TheVariants.{TooManyEvents};
ghost use Rattle.litmus_c.specs.Rules.{lasting, place_locations, parameter_names, locations_of, place_registers, step_registers, steps_registers, registers_of, program_of, programs_of, litmus_of, entry_is_fair, program_keeps, places_are_there, names_hold, formula_is_fair, KeepsRules, Explains, ExplainsNames, ExplainsLocations, ExplainsValues};
ghost use Rattle.litmus_tree.specs.Names.{with_name, with_names};
ghost use Rattle.litmus_value.specs.Values.{values_among};
ghost use Rattle.litmus_tree.specs.Tree.{Word, declared_of, step_of, steps_of};
ghost use Rattle.litmus_c.specs.declared.rules.Rule.TheVariants.{Names, PlainAccess, AtomicAccess};

use crate::fault::TestFault;
use crate::rules::{
    Rule, after_threads, entry_is_fair, formula_is_fair, is_one_of, places_are_there, program_keeps,
};
use conditions::{Binding, Cond, Place};
use indexmap::IndexSet;
use litmus_syntax::{Body, Draft};
use litmus_tree::{Declarator, Parameter, Statement, Thread};
use litmus_value::{Test, ValuesFault, values_among};
use std::alloc::{AllocError, Global};
use wb_text::Name;

const MOST_THREADS: usize = 8;

const MOST_LOCATIONS: usize = 8;

const MOST_EVENTS: usize = 64;

/// Adds a location that isn't there yet, up to the most that a test has.
fn note_location(locations: &mut Vec<Name>, name: &Name) -> Result<(), TestFault>
    ensures done { OnOk result (locations.new.items ≡ with_name locations.old.items name.now) }
    ensures few { OnOk result (length locations.new.items ≤ 8) }
    ensures cause { IfErr result (λ e. ExplainsLocations (with_name locations.old.items name.now) e) }
{
    if !is_one_of(locations.as_slice(), name) {
        locations.push(name.copy()?)?;
    }
    if locations.len() > MOST_LOCATIONS {
        return Err(TestFault::TooManyLocations);
    }
    Ok(())
}

/// Adds the location of a place, if it is one.
fn note_place(locations: &mut Vec<Name>, place: &Place) -> Result<(), TestFault>
    requires { length locations.old.items ≤ 8 }
    ensures done { OnOk result (locations.new.items ≡ with_names locations.old.items (place_locations place.now)) }
    ensures few { OnOk result (length locations.new.items ≤ 8) }
    ensures cause { IfErr result (λ e. ExplainsLocations (with_names locations.old.items (place_locations place.now)) e) }
{
    match place {
        Place::Loc(name) => note_location(locations, name),
        Place::Reg(_, _) => Ok(()),
    }
}

/// The locations of the entries of the initial state.
fn entry_locations(alloc: Global, entries: &[Binding]) -> Result<Vec<Name>, TestFault>
    ensures done { IfOk result (λ v. v.items ≡ with_names [] (flat_map (λ b. place_locations b.place) entries.now)) }
    ensures few { IfOk result (λ v. length v.items ≤ 8) }
    ensures cause { IfErr result (λ e. ExplainsLocations (with_names [] (flat_map (λ b. place_locations b.place) entries.now)) e) }
{
    let mut locations = Vec::new(alloc);
    for entry in entries {
        note_place(&mut locations, &entry.place)?;
    }
    Ok(locations)
}

/// Adds the locations of the parameters.
fn note_parameters(locations: &mut Vec<Name>, parameters: &[Parameter]) -> Result<(), TestFault>
    requires { length locations.old.items ≤ 8 }
    ensures done { OnOk result (locations.new.items ≡ with_names locations.old.items (map (λ p. p.name) parameters.now)) }
    ensures few { OnOk result (length locations.new.items ≤ 8) }
    ensures cause { IfErr result (λ e. ExplainsLocations (with_names locations.old.items (map (λ p. p.name) parameters.now)) e) }
{
    for parameter in parameters {
        note_location(locations, &parameter.name)?;
    }
    Ok(())
}

/// The locations: those of the entries, and then the parameters of each thread.
fn find_locations(
    alloc: Global,
    entries: &[Binding],
    bodies: &[Body],
) -> Result<Vec<Name>, TestFault>
    ensures done { IfOk result (λ v. v.items ≡ with_names (with_names [] (flat_map (λ b. place_locations b.place) entries.now)) (flat_map parameter_names (map listing_of bodies.now))) }
    ensures few { IfOk result (λ v. length v.items ≤ 8) }
    ensures cause { IfErr result (λ e. ExplainsLocations (with_names (with_names [] (flat_map (λ b. place_locations b.place) entries.now)) (flat_map parameter_names (map listing_of bodies.now))) e) }
{
    let mut locations = entry_locations(alloc, entries)?;
    for body in bodies {
        note_parameters(&mut locations, body.parameters.as_slice())?;
    }
    Ok(locations)
}

/// Adds a register that isn't there yet.
fn note_name(registers: &mut IndexSet<Name>, name: &Name) -> Result<(), AllocError>
    ensures { OnOk result (registers.new.keys ≡ with_name registers.old.keys name.now) }
{
    registers.insert(name.copy()?)?;
    Ok(())
}

/// Adds the register of a place, if it is one of thread `number`.
fn note_register(
    registers: &mut IndexSet<Name>,
    number: usize,
    place: &Place,
) -> Result<(), AllocError>
    ensures { OnOk result (registers.new.keys ≡ with_names registers.old.keys (place_registers number place.now)) }
{
    match place {
        Place::Reg(owner, name) => {
            if *owner == number {
                note_name(registers, name)?;
            }
            Ok(())
        }
        Place::Loc(_) => Ok(()),
    }
}

/// The registers that the entries give thread `number`.
fn entry_registers(
    alloc: Global,
    number: usize,
    entries: &[Binding],
) -> Result<IndexSet<Name>, AllocError>
    ensures { IfOk result (λ s. s.keys ≡ with_names [] (flat_map (λ b. place_registers number b.place) entries.now)) }
{
    let mut registers = IndexSet::new(alloc);
    for entry in entries {
        note_register(&mut registers, number, &entry.place)?;
    }
    Ok(registers)
}

/// Adds the registers that are declared.
fn note_declarators(
    registers: &mut IndexSet<Name>,
    declarators: &[Declarator],
) -> Result<(), AllocError>
    ensures { OnOk result (registers.new.keys ≡ with_names registers.old.keys (map (λ d. d.register) (map declared_of declarators.now))) }
{
    for declarator in declarators {
        note_name(registers, &declarator.register)?;
    }
    Ok(())
}

/// Adds the registers that a statement declares or assigns.
#[cycle(noting)]
#[tactic(auto, using(crate::proofs::Names::names_append, litmus_tree::proofs::Steps::only_if, litmus_tree::proofs::Steps::if_and_else))]
fn note_statement(registers: &mut IndexSet<Name>, statement: &Statement) -> Result<(), AllocError>
    ensures { OnOk result (registers.new.keys ≡ with_names registers.old.keys (step_registers (step_of statement.now))) }
{
    match statement {
        Statement::Empty | Statement::Write(_, _) | Statement::Perform(_) => Ok(()),
        Statement::Block(statements) => note_statements(registers, statements.as_slice()),
        Statement::Declare(declarators) => note_declarators(registers, declarators.as_slice()),
        Statement::Assign(register, _) => note_name(registers, register),
        Statement::If(_, arm, None) => note_statement(registers, arm),
        Statement::If(_, arm, Some(other)) => {
            note_statement(registers, arm)?;
            note_statement(registers, other)
        }
    }
}

/// Adds the registers that statements declare or assign.
#[cycle(noting)]
fn note_statements(
    registers: &mut IndexSet<Name>,
    statements: &[Statement],
) -> Result<(), AllocError>
    ensures { OnOk result (registers.new.keys ≡ with_names registers.old.keys (steps_registers (steps_of statements.now))) }
{
    for statement in statements {
        note_statement(registers, statement)?;
    }
    Ok(())
}

/// The registers of thread `number`.
fn find_registers(
    alloc: Global,
    number: usize,
    entries: &[Binding],
    statements: &[Statement],
) -> Result<IndexSet<Name>, AllocError>
    ensures { IfOk result (λ s. s.keys ≡ registers_of number entries.now (steps_of statements.now)) }
{
    let mut registers = entry_registers(alloc, number, entries)?;
    note_statements(&mut registers, statements)?;
    Ok(registers)
}

/// Adds a place that an entry gives, and tells whether no later entry gives it.
fn note_given(given: &mut IndexSet<Place>, place: &Place) -> Result<bool, AllocError>
    ensures last { IfOk result (λ b. b ≡ not (contains same_place given.old place.now)) }
    ensures given { OnOk result ((p : Place) → contains same_place given.new p ≡ (same_place place.now p || contains same_place given.old p)) }
{
    Ok(given.insert(place.copy()?)?)
}

/// Keeps an entry in front of those that are kept in reverse, unless a later one gives its place.
fn keep_entry(
    given: &mut IndexSet<Place>,
    kept: &mut Vec<Binding>,
    entry: &Binding,
) -> Result<(), AllocError>
    ensures given { OnOk result ((p : Place) → contains same_place given.new p ≡ (same_place entry.now.place p || contains same_place given.old p)) }
    ensures kept { OnOk result (reverse kept.new.items ≡ (if contains same_place given.old entry.now.place then reverse kept.old.items else entry.now ∷ reverse kept.old.items)) }
{
    if note_given(given, &entry.place)? {
        kept.push(entry.copy()?)?;
    }
    Ok(())
}

/// The entries that hold: of two for one place the later.
fn find_lasting(alloc: Global, entries: &[Binding]) -> Result<Vec<Binding>, AllocError>
    ensures { IfOk result (λ v. v.items ≡ lasting entries.now) }
{
    let mut later = IndexSet::new(alloc);
    let mut kept = Vec::new(alloc);
    for entry in entries.iter().rev() {
        keep_entry(&mut later, &mut kept, entry)?;
    }
    kept.reverse();
    Ok(kept)
}

/// The thread with this number that a body makes, with its registers.
fn make_thread(
    alloc: Global,
    number: usize,
    entries: &[Binding],
    body: Body,
) -> Result<Thread, AllocError>
    ensures { IfOk result (λ t. t ≡ program_of number entries.now (listing_of body)) }
{
    let registers = find_registers(alloc, number, entries, body.statements.as_slice())?;
    Ok(Thread::new(body.parameters, body.statements, registers))
}

/// The threads, with their registers.
fn make_threads(
    alloc: Global,
    entries: &[Binding],
    bodies: Vec<Body>,
) -> Result<Vec<Thread>, AllocError>
    ensures { IfOk result (λ v. v.items ≡ programs_of 0 entries.now (map listing_of bodies.items)) }
{
    let mut threads = Vec::new(alloc);
    for body in bodies {
        threads.push(make_thread(alloc, threads.len(), entries, body)?)?;
    }
    Ok(threads)
}

fn entries_are_fair(entries: &[Binding], threads: &[Thread]) -> bool
    ensures { result ≡ list_all (λ b. entry_is_fair threads.now b.place) entries.now }
{
    entries
        .iter()
        .all(|entry| entry_is_fair(threads, &entry.place))
}

/// Whether all threads keep a rule.
fn programs_keep(rule: Rule, threads: &[Thread]) -> bool
    ensures { result ≡ list_all (program_keeps rule) threads.now }
{
    threads.iter().all(|thread| program_keeps(rule, thread))
}

/// Whether the names that are used are there.
fn names_hold(
    entries: &[Binding],
    threads: &[Thread],
    locations: &[Name],
    listed: &[Place],
    condition: &Cond,
) -> bool
    ensures { result ≡ names_hold entries.now threads.now locations.now listed.now condition.now.formula }
{
    entries_are_fair(entries, threads)
        && programs_keep(Rule::Names, threads)
        && places_are_there(threads, locations, listed)
        && formula_is_fair(threads, locations, condition.prop())
}

/// Refuses a name that isn't there, and then an access that its location doesn't take.
fn check_names(
    entries: &[Binding],
    threads: &[Thread],
    locations: &[Name],
    listed: &[Place],
    condition: &Cond,
) -> Result<(), TestFault>
    ensures names { OnOk result (names_hold entries.now threads.now locations.now listed.now condition.now.formula ≡ true) }
    ensures plain { OnOk result (list_all (program_keeps PlainAccess) threads.now ≡ true) }
    ensures atomic { OnOk result (list_all (program_keeps AtomicAccess) threads.now ≡ true) }
    ensures cause { IfErr result (λ e. ExplainsNames entries.now threads.now locations.now listed.now condition.now.formula e) }
{
    if !names_hold(entries, threads, locations, listed, condition) {
        return Err(TestFault::UnknownName);
    }
    if !programs_keep(Rule::PlainAccess, threads) {
        return Err(TestFault::PlainOnAtomic);
    }
    if !programs_keep(Rule::AtomicAccess, threads) {
        return Err(TestFault::AtomicOnPlain);
    }
    Ok(())
}

/// Refuses more values than a test has, and then a value that is too great for one.
fn check_values(alloc: Global, initial: &[Binding], threads: &[Thread]) -> Result<(), TestFault>
    ensures few { OnOk result (length (values_among initial.now threads.now) ≤ 16) }
    ensures small { OnOk result (All (λ v. v ≤ 2147483647) (values_among initial.now threads.now)) }
    ensures cause { IfErr result (λ e. ExplainsValues (values_among initial.now threads.now) e) }
{
    match values_among(alloc, initial, threads) {
        Ok(_) => Ok(()),
        Err(ValuesFault::TooMany) => Err(TestFault::TooManyValues),
        Err(ValuesFault::TooBig) => Err(TestFault::ValueTooBig),
        Err(ValuesFault::NoMemory) => Err(TestFault::NoMemory),
    }
}

/// Refuses more events than a test has, one initial write of each location among them.
fn check_events(locations: &[Name], threads: &[Thread]) -> Result<(), TestFault>
    requires { length locations.now ≤ 64 }
    ensures few { OnOk result (length locations.now + sum_by program_events threads.now ≤ 64) }
    ensures cause { IfErr result (λ e. (e ≡ TooManyEvents) × (64 < length locations.now + sum_by program_events threads.now)) }
{
    match after_threads(MOST_EVENTS - locations.len(), threads) {
        Some(_) => Ok(()),
        None => Err(TestFault::TooManyEvents),
    }
}

/// What is made of a test beside what stands in its text.
struct Parts {
    initial: Vec<Binding>,
    threads: Vec<Thread>,
    locations: Vec<Name>,
}

/// The parts of the test that a text spells, if it keeps the rules.
fn make_parts(
    alloc: Global,
    entries: &[Binding],
    bodies: Vec<Body>,
    listed: &[Place],
    condition: &Cond,
) -> Result<Parts, TestFault>
    ensures initial { IfOk result (λ p. p.initial.items ≡ lasting entries.now) }
    ensures threads { IfOk result (λ p. p.threads.items ≡ programs_of 0 entries.now (map listing_of bodies.items)) }
    ensures locations { (n : Word) → IfOk result (λ p. p.locations.items ≡ locations_of (record { name = n; entries = entries.now; threads = map listing_of bodies.items; listed = listed.now; condition = condition.now })) }
    ensures kept { (n : Word) → OnOk result (KeepsRules entries.now (litmus_of (record { name = n; entries = entries.now; threads = map listing_of bodies.items; listed = listed.now; condition = condition.now }))) }
    ensures cause { (n : Word) → IfErr result (λ e. Explains entries.now (litmus_of (record { name = n; entries = entries.now; threads = map listing_of bodies.items; listed = listed.now; condition = condition.now })) e) }
{
    if bodies.len() > MOST_THREADS {
        return Err(TestFault::TooManyThreads);
    }
    let locations = find_locations(alloc, entries, bodies.as_slice())?;
    let initial = find_lasting(alloc, entries)?;
    let threads = make_threads(alloc, entries, bodies)?;
    check_names(
        entries,
        threads.as_slice(),
        locations.as_slice(),
        listed,
        condition,
    )?;
    check_values(alloc, initial.as_slice(), threads.as_slice())?;
    check_events(locations.as_slice(), threads.as_slice())?;
    Ok(Parts {
        initial,
        threads,
        locations,
    })
}

/// The test that a text spells, if it keeps the rules.
pub fn make_test(alloc: Global, draft: Draft) -> Result<Test, TestFault>
    ensures made { IfOk result (λ t. t ≡ litmus_of (written_of draft)) }
    ensures kept { OnOk result (KeepsRules draft.entries.items (litmus_of (written_of draft))) }
    ensures cause { IfErr result (λ e. Explains draft.entries.items (litmus_of (written_of draft)) e) }
{
    let Draft {
        name,
        entries,
        bodies,
        listed,
        condition,
    } = draft;
    let Parts {
        initial,
        threads,
        locations,
    } = make_parts(
        alloc,
        entries.as_slice(),
        bodies,
        listed.as_slice(),
        &condition,
    )?;
    Ok(Test::new(alloc, name, initial, threads, condition, listed, locations)?)
}
