//! Which names relate two events of an execution.

ghost use Rattle.std.specs.Prelude.{◌≡◌, ◌≤◌, ◌++◌, length, map, take, IfOk, OnOk};
ghost use Rattle.listings.specs.Lists.{Lists};
ghost use Rattle.relations.specs.Tables.{cell};
ghost use Rattle.cat_tree.specs.Tree.{clause_of, defined_of};
ghost use Rattle.cat_model.specs.Named.{spelling_of};
ghost use Rattle.cat_model.specs.declared.named.Named.TheVariants as named;
ghost use Rattle.witness.specs.Labels.{AreInOrder, IsLabel, IsWritten, all_labelled, at_last, bound_by, defined_in, hidden_by, hidden_if, is_related, labelled, named_relations, names_in, rebound, without, words_of};

use cat_eval::{Entry, Outcome, Value, account_for, laws};
use cat_model::Model;
use cat_tree::{Definition, Item};
use events::{Graph, GraphView, RelName};
use relations::Rel;
use std::alloc::{AllocError, Global};
use wb_text::{Name, NameFault};

/// The named relations, in the order of labels.
const NAMED: [RelName; 19] = [
    RelName::Po,
    RelName::Rf,
    RelName::Co,
    RelName::Fr,
    RelName::Rmw,
    RelName::Data,
    RelName::Ctrl,
    RelName::Addr,
    RelName::PoLoc,
    RelName::Loc,
    RelName::Int,
    RelName::Ext,
    RelName::Rfi,
    RelName::Rfe,
    RelName::Coi,
    RelName::Coe,
    RelName::Fri,
    RelName::Fre,
    RelName::Id,
];

/// Two events by their numbers in the execution.
#[derive(Clone, Copy)]
struct Step {
    from: usize,
    to: usize,
}

/// How a relation is written.
#[tactic(auto, unfolding(cat_model::specs::Named::spelling_of))]
fn spelling(relation: RelName) -> &'static [u8]
    ensures { result.now ≡ spelling_of (named.Rel relation) }
{
    match relation {
        RelName::Po => b"po",
        RelName::Int => b"int",
        RelName::Ext => b"ext",
        RelName::Loc => b"loc",
        RelName::PoLoc => b"po-loc",
        RelName::Rf => b"rf",
        RelName::Co => b"co",
        RelName::Fr => b"fr",
        RelName::Rfi => b"rfi",
        RelName::Coi => b"coi",
        RelName::Fri => b"fri",
        RelName::Rfe => b"rfe",
        RelName::Coe => b"coe",
        RelName::Fre => b"fre",
        RelName::Rmw => b"rmw",
        RelName::Data => b"data",
        RelName::Ctrl => b"ctrl",
        RelName::Addr => b"addr",
        RelName::Id => b"id",
    }
}

/// The name of a relation.
fn word(alloc: Global, relation: RelName) -> Result<Name, AllocError>
    ensures { IfOk result (λ x. x ≡ spelling_of (named.Rel relation)) }
{
    match Name::new(alloc, spelling(relation)) {
        Ok(name) => Ok(name),
        Err(NameFault::NoMemory) => Err(AllocError),
        Err(NameFault::BadName) => unreachable!(),
    }
}

/// Takes a name away.
fn remove(names: &mut Vec<Name>, name: &Name)
    ensures { names.new.items ≡ without name.now names.old.items }
{
    names.retain(|other| other != name);
}

/// Binds a name anew, to what relates the events or doesn't.
fn bind(names: &mut Vec<Name>, name: &Name, related: bool) -> Result<(), AllocError>
    ensures { OnOk result (names.new.items ≡ rebound name.now related names.old.items) }
{
    remove(names, name);
    if related {
        names.push(name.copy()?)?;
    }
    Ok(())
}

/// Binds a name to a function, if there are parameters: it hides what the name stood for.
#[tactic(auto, using(crate::proofs::Related::none_hidden, crate::proofs::Related::one_hidden))]
fn hide(names: &mut Vec<Name>, definition: &Definition)
    ensures { names.new.items ≡ hidden_if definition.now.parameters.items definition.now.name names.old.items }
{
    if definition.parameters.is_empty() {
        return;
    }
    remove(names, &definition.name);
}

/// Binds the functions among definitions.
fn hide_all(names: &mut Vec<Name>, definitions: &[Definition])
    ensures { names.new.items ≡ hidden_by (map defined_of definitions.now) names.old.items }
{
    for definition in definitions {
        hide(names, definition);
    }
}

/// Binds the functions of an item.
fn hide_behind(names: &mut Vec<Name>, item: &Item)
    ensures { names.new.items ≡ hidden_by (defined_in (clause_of item.now)) names.old.items }
{
    match item {
        Item::Let(definitions) => hide_all(names, definitions),
        _ => {}
    }
}

impl Step {
    /// Whether a relation has the pair.
    #[tactic(auto, using(crate::proofs::Related::past_from, crate::proofs::Related::past_to, crate::proofs::Related::same_cell))]
    fn is_in(self, relation: &Rel) -> bool
        ensures { result ≡ cell relation.now.pairs self.from self.to }
    {
        if self.from >= relation.count() {
            return false;
        }
        if self.to >= relation.count() {
            return false;
        }
        relation.contains(self.from, self.to)
    }

    /// Whether a value is a relation that has the pair.
    fn is_related(self, value: &Value) -> bool
        ensures { result ≡ is_related self.from self.to value.now }
    {
        match value {
            Value::Events(_) => false,
            Value::Pairs(relation) => self.is_in(relation),
        }
    }

    /// The names of those of the relations that have the pair.
    fn relations(
        self,
        alloc: Global,
        view: &GraphView,
        relations: &[RelName],
    ) -> Result<Vec<Name>, AllocError>
        ensures exact { IfOk result (λ v. Lists (IsWritten view.now self.from self.to relations.now) v.items) }
        ensures ordered { IfOk result (λ v. AreInOrder v.items (at_last (words_of relations.now))) }
    {
        let mut names = Vec::new(alloc);
        for relation in relations {
            let word = word(alloc, *relation)?;
            let rel = view.rel(*relation);
            bind(&mut names, &word, self.is_in(&rel))?;
        }
        Ok(names)
    }

    /// Binds entries.
    fn bind_entries(self, names: &mut Vec<Name>, entries: &[Entry]) -> Result<(), AllocError>
        ensures { OnOk result (names.new.items ≡ bound_by self.from self.to entries.now names.old.items) }
    {
        for entry in entries {
            bind(names, &entry.name, self.is_related(&entry.value))?;
        }
        Ok(())
    }

    /// Binds what an item does, its values being these.
    fn bind_behind(
        self,
        names: &mut Vec<Name>,
        item: &Item,
        entries: &[Entry],
    ) -> Result<(), AllocError>
        ensures { OnOk result (names.new.items ≡ labelled self.from self.to (clause_of item.now) entries.now names.old.items) }
    {
        self.bind_entries(names, entries)?;
        hide_behind(names, item);
        Ok(())
    }

    /// Binds what items do that come to these outcomes.
    #[tactic(auto, using(crate::proofs::Labelled::next_item))]
    fn bind_all(
        self,
        names: &mut Vec<Name>,
        items: &[Item],
        outcomes: &[Outcome],
    ) -> Result<(), AllocError>
        requires { length items.now ≤ length outcomes.now }
        ensures { OnOk result (names.new.items ≡ all_labelled self.from self.to (map clause_of items.now) outcomes.now names.old.items) }
    {
        for (number, item) in items.iter().enumerate() {
            self.bind_behind(names, item, &outcomes[number].bound)?;
        }
        Ok(())
    }
}

/// The names that relate one event to another, behind the items before the item of this number: first those of named relations that no such item
/// binds anew, then those that the items bind, where each was bound last. An error comes only where memory is refused.
pub fn labels(
    alloc: Global,
    model: &Model,
    graph: &Graph,
    from: usize,
    to: usize,
    before: usize,
) -> Result<Vec<Name>, AllocError>
    ensures exact { IfOk result (λ v. Lists (IsLabel model.now.items before graph.now from to) v.items) }
    ensures ordered { IfOk result (λ v. AreInOrder v.items (at_last (words_of named_relations ++ names_in (take before model.now.items)))) }
{
    laws::one_value();
    laws::one_least();
    let view = GraphView::of(alloc, graph)?;
    let account = account_for(alloc, model, &view)?;
    let step = Step { from, to };
    let mut names = step.relations(alloc, &view, &NAMED)?;
    let count = before.min(model.items().len());
    step.bind_all(&mut names, &model.items()[..count], &account.outcomes)?;
    Ok(names)
}
