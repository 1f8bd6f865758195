//! Items and whole models.

ghost use Rattle.std.specs.Prelude.{◌≡◌, List, map, option_map, Option, IfOk};
ghost use Rattle.std.specs.List.{list_any};
ghost use Rattle.std.specs.Str.{bytes_eq};
ghost use Rattle.cat_tree.specs.Tree.{defined_of, bound_of, shown_of, check_of, clause_of, File};
ghost use Rattle.cat_syntax.specs.Reading.{Gives, alias_at, repeats as name_repeats, name_unless as name_at_unless, value_name_unless as value_name_at_unless, new_name_at, parameters_at, definition_at, binding_at, group_at, element_at, kind_at, check_with, check_at, quoted_at, separated, name_at, item_at, title_at, items_at, file_at, unless_end};
ghost use Rattle.cat_syntax.specs.Items.{is_among, names_defined, names_bound};
ghost use Rattle.cat_syntax.specs.declared.symbol.Terminal.TheVariants.{And, Comma};

use crate::reading::Reader;
use crate::reading::expressions::begins_call;
use crate::symbol::{Spelling, Symbol, Terminal};
use crate::syntax_fault::SyntaxFault;
use cat_tree::{Binding, CatFile, Check, CheckKind, Definition, Element, Item, Title};
use std::alloc::{AllocError, Global};
use wb_text::Name;

/// Whether a name is among those that a `let` binds.
fn is_defined(definitions: &[Definition], name: &Spelling) -> bool
    ensures { result ≡ list_any (λ d. bytes_eq d.name name.now) definitions.now }
{
    definitions
        .iter()
        .any(|definition| definition.name.bytes() == name.bytes())
}

/// Whether a name is among those that a `let rec` binds.
fn is_bound(bindings: &[Binding], name: &Spelling) -> bool
    ensures { result ≡ list_any (λ b. bytes_eq b.name name.now) bindings.now }
{
    bindings
        .iter()
        .any(|binding| binding.name.bytes() == name.bytes())
}

/// Whether a name is among these.
fn is_listed(names: &[Name], name: &Spelling) -> bool
    ensures { result ≡ is_among names.now name.now }
{
    names.iter().any(|listed| listed.bytes() == name.bytes())
}

/// A title of these bytes.
fn titled(alloc: Global, bytes: &[u8]) -> Result<Title, AllocError>
    ensures { IfOk result (λ t. t ≡ bytes.now) }
{
    Ok(Title::new(Vec::from_slice(alloc, bytes)?))
}

impl<'a> Reader<'a> {
    /// ["as" name]
    #[tactic(auto, unfolding(crate::specs::Reading::alias_at))]
    fn alias(&mut self) -> Result<Option<Name>, SyntaxFault>
        ensures { Gives (λ x. x) result self.new.rest.now (alias_at self.old.rest.now) }
    {
        if self.take(Terminal::As) {
            Ok(Some(self.name()?))
        } else {
            Ok(None)
        }
    }

    /// Whether the next symbol is a name that a `let` binds already.
    fn repeats_defined(&self, definitions: &[Definition]) -> bool
        ensures { result ≡ name_repeats (names_defined (map defined_of definitions.now)) self.now.rest.now }
    {
        match self.next_name() {
            Some(name) => is_defined(definitions, name),
            None => false,
        }
    }

    /// Whether the next symbol is a name that a `let rec` binds already.
    fn repeats_bound(&self, bindings: &[Binding]) -> bool
        ensures { result ≡ name_repeats (names_bound (map bound_of bindings.now)) self.now.rest.now }
    {
        match self.next_name() {
            Some(name) => is_bound(bindings, name),
            None => false,
        }
    }

    /// Whether the next symbol is a name that stands already.
    fn repeats_listed(&self, names: &[Name]) -> bool
        ensures { result ≡ name_repeats names.now self.now.rest.now }
    {
        match self.next_name() {
            Some(name) => is_listed(names, name),
            None => false,
        }
    }

    /// A name, where it doesn't stand already.
    #[tactic(auto, unfolding(crate::specs::Reading::name_unless))]
    fn name_unless(&mut self, repeated: bool) -> Result<Name, SyntaxFault>
        ensures { Gives (λ x. x) result self.new.rest.now (name_at_unless repeated self.old.rest.now) }
    {
        if repeated {
            return Err(SyntaxFault::BoundTwice);
        }
        self.name()
    }

    /// A name that stands for a value, where it doesn't stand already.
    #[tactic(auto, unfolding(crate::specs::Reading::value_name_unless, crate::specs::Reading::name_unless))]
    fn value_name_unless(&mut self, repeated: bool) -> Result<Name, SyntaxFault>
        ensures { Gives (λ x. x) result self.new.rest.now (value_name_at_unless repeated self.old.rest.now) }
    {
        if !repeated && begins_call(self.rest) {
            return Err(SyntaxFault::RecursiveFunction);
        }
        self.name_unless(repeated)
    }

    /// name {"," name}, no name twice
    #[tactic(auto, unfolding(crate::specs::Reading::separated), using(crate::proofs::Lists::new_names_more, crate::proofs::Lists::after_takes, crate::proofs::Lists::new_name_takes))]
    fn new_names(&mut self) -> Result<Vec<Name>, SyntaxFault>
        ensures { Gives (λ v. v.items) result self.new.rest.now (separated Comma new_name_at self.old.rest.now) }
    {
        let mut names = Vec::new(self.alloc);
        loop {
            let repeated = self.repeats_listed(&names);
            let next = self.name_unless(repeated)?;
            names.push(next)?;
            if !self.take(Terminal::Comma) {
                return Ok(names);
            }
        }
    }

    /// ["(" name {"," name} ")"], no name twice
    #[tactic(auto, unfolding(crate::specs::Reading::parameters_at))]
    fn parameters(&mut self) -> Result<Vec<Name>, SyntaxFault>
        ensures { Gives (λ v. v.items) result self.new.rest.now (parameters_at self.old.rest.now) }
    {
        if !self.take(Terminal::LeftParen) {
            return Ok(Vec::new(self.alloc));
        }
        let names = self.new_names()?;
        self.expect(Terminal::RightParen)?;
        Ok(names)
    }

    /// name parameters "=" expression, where the name is not bound
    #[tactic(auto, unfolding(crate::specs::Reading::definition_at))]
    fn definition(&mut self, defined: &[Definition]) -> Result<Definition, SyntaxFault>
        ensures { Gives defined_of result self.new.rest.now (definition_at (map defined_of defined.now) self.old.rest.now) }
    {
        let repeated = self.repeats_defined(defined);
        let name = self.name_unless(repeated)?;
        let parameters = self.parameters()?;
        self.expect(Terminal::Equals)?;
        let value = self.expression()?;
        Ok(Definition {
            name,
            parameters,
            value,
        })
    }

    /// definition {"and" definition}
    #[tactic(auto, unfolding(crate::specs::Reading::separated), using(crate::proofs::Lists::definitions_more, crate::proofs::Lists::defined_push, crate::proofs::Lists::after_takes, crate::proofs::Lists::definition_takes))]
    fn definitions(&mut self) -> Result<Vec<Definition>, SyntaxFault>
        ensures { Gives (λ v. map defined_of v.items) result self.new.rest.now (separated And definition_at self.old.rest.now) }
    {
        let mut definitions = Vec::new(self.alloc);
        loop {
            let next = self.definition(&definitions)?;
            definitions.push(next)?;
            if !self.take(Terminal::And) {
                return Ok(definitions);
            }
        }
    }

    /// name "=" expression, where the name is not bound
    #[tactic(auto, unfolding(crate::specs::Reading::binding_at))]
    fn binding(&mut self, bound: &[Binding]) -> Result<Binding, SyntaxFault>
        ensures { Gives bound_of result self.new.rest.now (binding_at (map bound_of bound.now) self.old.rest.now) }
    {
        let repeated = self.repeats_bound(bound);
        let name = self.value_name_unless(repeated)?;
        self.expect(Terminal::Equals)?;
        let value = self.expression()?;
        Ok(Binding { name, value })
    }

    /// binding {"and" binding}
    #[tactic(auto, unfolding(crate::specs::Reading::separated), using(crate::proofs::Lists::bindings_more, crate::proofs::Lists::bounds_push, crate::proofs::Lists::after_takes, crate::proofs::Lists::binding_takes))]
    fn bindings(&mut self) -> Result<Vec<Binding>, SyntaxFault>
        ensures { Gives (λ v. map bound_of v.items) result self.new.rest.now (separated And binding_at self.old.rest.now) }
    {
        let mut bindings = Vec::new(self.alloc);
        loop {
            let next = self.binding(&bindings)?;
            bindings.push(next)?;
            if !self.take(Terminal::And) {
                return Ok(bindings);
            }
        }
    }

    /// What stands behind `let`: definitions | "rec" bindings
    #[tactic(auto, unfolding(crate::specs::Reading::group_at))]
    fn group(&mut self) -> Result<Item, SyntaxFault>
        ensures { Gives clause_of result self.new.rest.now (group_at self.old.rest.now) }
    {
        if self.take(Terminal::Rec) {
            Ok(Item::LetRec(self.bindings()?))
        } else {
            Ok(Item::Let(self.definitions()?))
        }
    }

    /// expression ["as" name]
    #[tactic(auto, unfolding(crate::specs::Reading::element_at))]
    fn element(&mut self) -> Result<Element, SyntaxFault>
        ensures { Gives shown_of result self.new.rest.now (element_at self.old.rest.now) }
    {
        let expression = self.expression()?;
        let name = self.alias()?;
        Ok(Element { expression, name })
    }

    /// element {"," element}
    #[tactic(auto, unfolding(crate::specs::Reading::separated), using(crate::proofs::Lists::elements_more, crate::proofs::Lists::shown_push, crate::proofs::Lists::after_takes, crate::proofs::Lists::element_takes))]
    fn elements(&mut self) -> Result<Vec<Element>, SyntaxFault>
        ensures { Gives (λ v. map shown_of v.items) result self.new.rest.now (separated Comma (λ _. element_at) self.old.rest.now) }
    {
        let mut elements = Vec::new(self.alloc);
        loop {
            let next = self.element()?;
            elements.push(next)?;
            if !self.take(Terminal::Comma) {
                return Ok(elements);
            }
        }
    }

    /// name {"," name}
    #[tactic(auto, unfolding(crate::specs::Reading::separated), using(crate::proofs::Lists::names_more, crate::proofs::Lists::after_takes, crate::proofs::Lists::name_takes))]
    fn names(&mut self) -> Result<Vec<Name>, SyntaxFault>
        ensures { Gives (λ v. v.items) result self.new.rest.now (separated Comma (λ _. name_at) self.old.rest.now) }
    {
        let mut names = Vec::new(self.alloc);
        loop {
            let next = self.name()?;
            names.push(next)?;
            if !self.take(Terminal::Comma) {
                return Ok(names);
            }
        }
    }

    /// "acyclic" | "irreflexive" | "empty"
    #[tactic(auto, unfolding(crate::specs::Reading::kind_at))]
    fn check_kind(&mut self) -> Result<CheckKind, SyntaxFault>
        ensures { Gives (λ k. k) result self.new.rest.now (kind_at self.old.rest.now) }
    {
        let [first, rest @ ..] = self.rest else {
            return Err(SyntaxFault::Unexpected);
        };
        let kind = match first {
            Symbol::Fixed(Terminal::Acyclic) => CheckKind::Acyclic,
            Symbol::Fixed(Terminal::Irreflexive) => CheckKind::Irreflexive,
            Symbol::Fixed(Terminal::Empty) => CheckKind::Empty,
            _ => return Err(SyntaxFault::Unexpected),
        };
        self.rest = rest;
        Ok(kind)
    }

    /// ["flag"] ["~"] kind expression ["as" name]
    #[tactic(auto, unfolding(crate::specs::Reading::check_at, crate::specs::Reading::optional_at), using(crate::proofs::Lists::check_parts))]
    fn check(&mut self) -> Result<Check, SyntaxFault>
        ensures { Gives check_of result self.new.rest.now (check_at self.old.rest.now) }
    {
        let flag = self.take(Terminal::Flag);
        let negated = self.take(Terminal::Tilde);
        let kind = self.check_kind()?;
        let Element { expression, name } = self.element()?;
        Ok(Check {
            flag,
            negated,
            kind,
            expression,
            name,
        })
    }

    /// A quoted text that is a name.
    #[tactic(auto, unfolding(crate::specs::Reading::quoted_at))]
    fn quoted(&mut self) -> Result<Name, SyntaxFault>
        ensures { Gives (λ x. x) result self.new.rest.now (quoted_at self.old.rest.now) }
    {
        let [first, rest @ ..] = self.rest else {
            return Err(SyntaxFault::Unexpected);
        };
        match first {
            Symbol::Quoted(quotation) => match Spelling::new(quotation.bytes()) {
                Some(spelling) => {
                    let name = spelling.name(self.alloc)?;
                    self.rest = rest;
                    Ok(name)
                }
                None => Err(SyntaxFault::Unexpected),
            },
            _ => Err(SyntaxFault::Unexpected),
        }
    }

    #[tactic(auto, unfolding(crate::specs::Reading::item_at))]
    fn item(&mut self) -> Result<Item, SyntaxFault>
        ensures { Gives clause_of result self.new.rest.now (item_at self.old.rest.now) }
    {
        if self.take(Terminal::Let) {
            self.group()
        } else if self.take(Terminal::Include) {
            Ok(Item::Include(self.quoted()?))
        } else if self.take(Terminal::Show) {
            Ok(Item::Show(self.elements()?))
        } else if self.take(Terminal::Unshow) {
            Ok(Item::Unshow(self.names()?))
        } else {
            Ok(Item::Check(self.check()?))
        }
    }

    /// [name | quoted]
    #[tactic(auto, unfolding(crate::specs::Reading::title_at))]
    fn title(&mut self) -> Result<Option<Title>, SyntaxFault>
        ensures { Gives (λ t. t) result self.new.rest.now (title_at self.old.rest.now) }
    {
        let [first, rest @ ..] = self.rest else {
            return Ok(None);
        };
        match first {
            Symbol::Name(name) => {
                let title = titled(self.alloc, name.bytes())?;
                self.rest = rest;
                Ok(Some(title))
            }
            Symbol::Quoted(quotation) => {
                let title = titled(self.alloc, quotation.bytes())?;
                self.rest = rest;
                Ok(Some(title))
            }
            _ => Ok(None),
        }
    }

    /// {item}, up to the end
    #[tactic(auto, unfolding(crate::specs::Reading::items_at, crate::specs::Reading::unless_end), using(crate::proofs::Lists::items_more, crate::proofs::Lists::item_takes, crate::proofs::Lists::clauses_push))]
    fn items(&mut self) -> Result<Vec<Item>, SyntaxFault>
        ensures { Gives (λ v. map clause_of v.items) result self.new.rest.now (items_at self.old.rest.now) }
    {
        let mut items = Vec::new(self.alloc);
        while !self.rest.is_empty() {
            let item = self.item()?;
            items.push(item)?;
        }
        Ok(items)
    }

    /// file := [name | quoted] {item}
    #[tactic(auto, unfolding(crate::specs::Reading::file_at))]
    pub fn file(&mut self) -> Result<CatFile, SyntaxFault>
        ensures { Gives (λ f. f) result self.new.rest.now (file_at self.old.rest.now) }
    {
        let title = self.title()?;
        let items = self.items()?;
        Ok(CatFile::new(title, items))
    }
}
