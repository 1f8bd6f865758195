//! Recursive descent: a test as it is written, from its symbols.

mod calls;
mod expressions;
mod propositions;
mod statements;

ghost use Rattle.std.specs.Prelude.{◌≡◌, ◌≤◌, ◌∷◌, ◌++◌, [], ℕ, List, length, map, Option, Some, None, Ok, Err, IfOk, IfErr, MatchBool, MatchOption, MatchResult};
ghost use Rattle.std.proofs.Common.{suc};
ghost use Rattle.litmus_syntax.specs.Drafts.{Written, is_parameter, listing_of, written_of};
ghost use Rattle.litmus_syntax.specs.Grammar.{Spells};
ghost use Rattle.litmus_tree.specs.declared.tree.Parameter.{Parameter};
ghost use Rattle.litmus_syntax.specs.Reading.{Gives, after, expected, name_at, number_look, number_at, call_word, before_name, open_at, location_at, register_at, place_at, bound_at, behind_type, entry_at, ends_entry, entry_behind, entries_at, kind_at, behind_volatile, parameter_behind, parameters_at, parameters_closed, parameter_list_at, names_thread, thread_name_at, thread_at, threads_at, ends_place, place_behind, places_at, listed_at, word_at, language_at, end_at, initial_at, test_at};
ghost use Rattle.litmus_syntax.specs.Unspelled.{IsUnspelled};
ghost use Rattle.litmus_syntax.specs.declared.syntax_fault.SyntaxFault.TheVariants.{NoMemory};

use crate::atomics::Operation;
use crate::draft::{Body, Draft};
use crate::symbol::{Symbol, Terminal};
use crate::syntax_fault::SyntaxFault;
use conditions::{Binding, Place};
use indexmap::IndexSet;
use litmus_tree::{LocationKind, Parameter};
use std::alloc::{AllocError, Global};
use wb_text::Name;

/// How deep the parts of a test may nest.
const MOST_NESTED: u32 = 32;

/// The symbols that are not yet read.
#[derive(Drop)]
pub struct Reader<'a> {
    alloc: Global,
    rest: &'a [Symbol],
}

impl<'a> Reader<'a> {
    /// How many symbols are left.
    fn left(&self) -> usize
        ensures { result ≡ length self.now.rest.now }
    {
        self.rest.len()
    }

    /// The refusal of the next symbol, or of the end.
    fn stuck(&self) -> SyntaxFault
        ensures { result ≡ SyntaxFault.Syntax (length self.now.rest.now) }
    {
        SyntaxFault::Syntax(self.left())
    }

    /// What may nest in something that may nest `nesting` deep.
    fn deeper(&self, nesting: u32) -> Result<u32, SyntaxFault>
        ensures ok { IfOk result (λ n. nesting ≡ suc n) }
        ensures err { IfErr result (λ e. (nesting ≡ 0) × (e ≡ SyntaxFault.TooDeep)) }
    {
        nesting.checked_sub(1).ok_or(SyntaxFault::TooDeep)
    }

    /// Takes the next symbol, if it is this terminal.
    #[tactic(auto, unfolding(crate::specs::Reading::after))]
    fn take(&mut self, terminal: Terminal) -> bool
        ensures { MatchBool result (after terminal self.old.rest.now ≡ Some (tt, self.new.rest.now)) ((after terminal self.old.rest.now ≡ None) × (self.new.rest.now ≡ self.old.rest.now)) }
    {
        let Some((first, rest)) = self.rest.split_first() else {
            return false;
        };
        match first {
            Symbol::Fixed(found) if *found == terminal => {
                self.rest = rest;
                true
            }
            _ => false,
        }
    }

    #[tactic(auto, unfolding(crate::specs::Reading::expected))]
    fn expect(&mut self, terminal: Terminal) -> Result<(), SyntaxFault>
        ensures { Gives (λ _. tt) result self.new.rest.now (expected terminal self.old.rest.now) }
    {
        if self.take(terminal) {
            Ok(())
        } else {
            Err(self.stuck())
        }
    }

    /// The name that comes next.
    #[tactic(auto, unfolding(crate::specs::Reading::name_at))]
    fn name_ref(&mut self) -> Result<&'a Name, SyntaxFault>
        ensures { Gives (λ s. s.now) result self.new.rest.now (name_at self.old.rest.now) }
    {
        let Some((first, rest)) = self.rest.split_first() else {
            return Err(self.stuck());
        };
        match first {
            Symbol::Name(name) => {
                self.rest = rest;
                Ok(name)
            }
            _ => Err(self.stuck()),
        }
    }

    fn name(&mut self) -> Result<Name, SyntaxFault>
        ensures { Gives (λ n. n) result self.new.rest.now (name_at self.old.rest.now) }
    {
        Ok(self.name_ref()?.copy()?)
    }

    #[tactic(auto, unfolding(crate::specs::Reading::number_look))]
    fn take_number(&mut self) -> Option<u32>
        ensures { MatchOption result ((number_look self.old.rest.now ≡ None) × (self.new.rest.now ≡ self.old.rest.now)) (λ n. number_look self.old.rest.now ≡ Some (n, self.new.rest.now)) }
    {
        let (first, rest) = self.rest.split_first()?;
        match first {
            Symbol::Number(number) => {
                self.rest = rest;
                Some(*number)
            }
            _ => None,
        }
    }

    #[tactic(auto, unfolding(crate::specs::Reading::number_at))]
    fn number(&mut self) -> Result<u32, SyntaxFault>
        ensures { Gives (λ n. n) result self.new.rest.now (number_at self.old.rest.now) }
    {
        match self.take_number() {
            Some(number) => Ok(number),
            None => Err(self.stuck()),
        }
    }

    /// Takes the word of a call.
    #[tactic(auto, unfolding(crate::specs::Reading::call_word))]
    fn take_call(&mut self) -> Option<Operation>
        ensures { MatchOption result ((call_word self.old.rest.now ≡ None) × (self.new.rest.now ≡ self.old.rest.now)) (λ c. call_word self.old.rest.now ≡ Some (c, self.new.rest.now)) }
    {
        let (first, rest) = self.rest.split_first()?;
        match first {
            Symbol::Call(operation) => {
                self.rest = rest;
                Some(*operation)
            }
            _ => None,
        }
    }

    /// Whether a name comes next.
    #[tactic(auto, unfolding(crate::specs::Reading::before_name))]
    fn is_before_name(&self) -> bool
        ensures { MatchBool result (before_name self.now.rest.now ≡ Some (tt, self.now.rest.now)) (before_name self.now.rest.now ≡ None) }
    {
        matches!(self.rest, [Symbol::Name(_), ..])
    }

    /// An opening parenthesis. Answers how deep its inside may nest.
    #[tactic(auto, unfolding(crate::specs::Reading::open_at, crate::specs::Reading::opened))]
    fn open(&mut self, nesting: u32) -> Result<u32, SyntaxFault>
        ensures { Gives (λ n. n) result self.new.rest.now (open_at nesting self.old.rest.now) }
    {
        self.expect(Terminal::LeftParen)?;
        self.deeper(nesting)
    }

    /// location := name | "[" name "]"
    #[tactic(auto, unfolding(crate::specs::Reading::location_at))]
    fn location(&mut self) -> Result<Name, SyntaxFault>
        ensures { Gives (λ n. n) result self.new.rest.now (location_at self.old.rest.now) }
    {
        if !self.take(Terminal::LeftBracket) {
            return self.name();
        }
        let name = self.name()?;
        self.expect(Terminal::RightBracket).and(Ok(name))
    }

    /// The rest of a register: ":" name
    #[tactic(auto, unfolding(crate::specs::Reading::register_at))]
    fn register(&mut self, thread: u32) -> Result<Place, SyntaxFault>
        ensures { Gives (λ p. p) result self.new.rest.now (register_at thread self.old.rest.now) }
    {
        self.expect(Terminal::Colon)?;
        Ok(Place::Reg(thread as usize, self.name()?))
    }

    /// place := number ":" name | location
    #[tactic(auto, unfolding(crate::specs::Reading::place_at))]
    fn place(&mut self) -> Result<Place, SyntaxFault>
        ensures { Gives (λ p. p) result self.new.rest.now (place_at self.old.rest.now) }
    {
        match self.take_number() {
            Some(thread) => self.register(thread),
            None => Ok(Place::Loc(self.location()?)),
        }
    }

    /// The rest of an entry: ["=" number], which only a location may lack.
    #[tactic(auto, unfolding(crate::specs::Reading::bound_at, crate::specs::Reading::bare))]
    fn bound(&mut self, place: Place) -> Result<Binding, SyntaxFault>
        ensures { Gives (λ b. b) result self.new.rest.now (bound_at place self.old.rest.now) }
    {
        if self.take(Terminal::Assign) {
            let value = self.number()?;
            return Ok(Binding { place, value });
        }
        match &place {
            Place::Loc(_) => Ok(Binding { place, value: 0 }),
            Place::Reg(_, _) => Err(self.stuck()),
        }
    }

    #[tactic(auto, unfolding(crate::specs::Reading::behind_type))]
    fn skip_type(&mut self)
        ensures { self.new.rest.now ≡ behind_type self.old.rest.now }
    {
        if !self.take(Terminal::Int) {
            let _ = self.take(Terminal::AtomicInt);
        }
    }

    /// entry := [type] (location | place "=" number)
    #[tactic(auto, unfolding(crate::specs::Reading::entry_at))]
    fn entry(&mut self) -> Result<Binding, SyntaxFault>
        ensures { Gives (λ b. b) result self.new.rest.now (entry_at self.old.rest.now) }
    {
        self.skip_type();
        let place = self.place()?;
        self.bound(place)
    }

    #[tactic(auto, unfolding(crate::specs::Reading::ends_entry))]
    fn ends_entry(&self) -> bool
        ensures { result ≡ ends_entry self.now.rest.now }
    {
        matches!(
            self.rest,
            [
                Symbol::Fixed(Terminal::Semicolon | Terminal::RightBrace),
                ..
            ]
        )
    }

    /// Adds the next entry, if there is one.
    #[tactic(auto, unfolding(crate::specs::Reading::entry_behind))]
    fn entry_into(&mut self, entries: &mut Vec<Binding>) -> Result<(), SyntaxFault>
        ensures { Gives (λ _. entries.new.items) result self.new.rest.now (entry_behind entries.old.items self.old.rest.now) }
    {
        if !self.ends_entry() {
            let entry = self.entry()?;
            entries.push(entry)?;
        }
        Ok(())
    }

    /// entries := [entry] {";" [entry]}
    #[tactic(auto, unfolding(crate::specs::Reading::entries_at), using(crate::proofs::Levels::entries_turn, crate::proofs::Levels::entries_loop_takes))]
    fn entries(&mut self) -> Result<Vec<Binding>, SyntaxFault>
        ensures { Gives (λ v. v.items) result self.new.rest.now (entries_at self.old.rest.now) }
    {
        let mut entries = Vec::new(self.alloc);
        loop {
            self.entry_into(&mut entries)?;
            if !self.take(Terminal::Semicolon) {
                return Ok(entries);
            }
        }
    }

    /// The kind of the locations that a type gives: "atomic_int" | "int"
    #[tactic(auto, unfolding(crate::specs::Reading::kind_at))]
    fn kind(&mut self) -> Result<LocationKind, SyntaxFault>
        ensures { Gives (λ k. k) result self.new.rest.now (kind_at self.old.rest.now) }
    {
        if self.take(Terminal::AtomicInt) {
            return Ok(LocationKind::Atomic);
        }
        self.expect(Terminal::Int).and(Ok(LocationKind::Plain))
    }

    #[tactic(auto, unfolding(crate::specs::Reading::behind_volatile))]
    fn skip_volatile(&mut self)
        ensures { self.new.rest.now ≡ behind_volatile self.old.rest.now }
    {
        let _ = self.take(Terminal::Volatile);
    }

    /// parameter := ["volatile"] type "*" name, which is none of the earlier ones and becomes one of them
    #[tactic(auto, unfolding(crate::specs::Reading::parameter_behind), using(crate::proofs::ParameterNames::is_named))]
    fn parameter(&mut self, names: &mut IndexSet<Name>) -> Result<Parameter, SyntaxFault>
        ensures gives { (ps : List Parameter) → map (λ p. p.name) ps ≡ names.old.keys → Gives (λ p. p) result self.new.rest.now (parameter_behind ps self.old.rest.now) }
        ensures names { IfOk result (λ p. names.new.keys ≡ names.old.keys ++ p.name ∷ []) }
    {
        self.skip_volatile();
        let kind = self.kind()?;
        self.expect(Terminal::Star)?;
        let stuck = self.stuck();
        let name = self.name_ref()?;
        if !names.insert(name.copy()?)? {
            return Err(stuck);
        }
        Ok(Parameter {
            name: name.copy()?,
            kind,
        })
    }

    /// parameters := parameter {"," parameter}
    #[tactic(auto, unfolding(crate::specs::Reading::parameters_at, crate::specs::Reading::parameters_more))]
    fn parameters(&mut self) -> Result<Vec<Parameter>, SyntaxFault>
        ensures { Gives (λ v. v.items) result self.new.rest.now (parameters_at self.old.rest.now) }
    {
        let mut parameters = Vec::new(self.alloc);
        let mut names = IndexSet::new(self.alloc);
        loop {
            let parameter = self.parameter(&mut names)?;
            parameters.push(parameter)?;
            if !self.take(Terminal::Comma) {
                return Ok(parameters);
            }
        }
    }

    /// "(" [parameters] ")"
    #[tactic(auto, unfolding(crate::specs::Reading::parameter_list_at, crate::specs::Reading::parameters_closed))]
    fn parameter_list(&mut self, nesting: u32) -> Result<Vec<Parameter>, SyntaxFault>
        ensures { Gives (λ v. v.items) result self.new.rest.now (parameter_list_at nesting self.old.rest.now) }
    {
        self.open(nesting)?;
        if self.take(Terminal::RightParen) {
            return Ok(Vec::new(self.alloc));
        }
        let parameters = self.parameters()?;
        self.expect(Terminal::RightParen).and(Ok(parameters))
    }

    /// "P0" for thread 0, and so on
    #[tactic(auto, unfolding(crate::specs::Reading::thread_name_at))]
    fn thread_name(&mut self, number: usize) -> Result<(), SyntaxFault>
        ensures { Gives (λ _. tt) result self.new.rest.now (thread_name_at number self.old.rest.now) }
    {
        let stuck = self.stuck();
        let name = self.name_ref()?;
        if names_thread(self.alloc, name.bytes(), number)? {
            Ok(())
        } else {
            Err(stuck)
        }
    }

    /// thread := "P0" "(" [parameters] ")" "{" {statement} "}"
    #[tactic(auto, unfolding(crate::specs::Reading::thread_at))]
    fn thread(&mut self, nesting: u32, number: usize) -> Result<Body, SyntaxFault>
        ensures { Gives listing_of result self.new.rest.now (thread_at nesting number self.old.rest.now) }
    {
        self.thread_name(number)?;
        let parameters = self.parameter_list(nesting)?;
        self.expect(Terminal::LeftBrace)?;
        let statements = self.statements(nesting)?;
        Ok(Body {
            parameters,
            statements,
        })
    }

    /// thread {thread}
    #[tactic(auto, unfolding(crate::specs::Reading::threads_at, crate::specs::Reading::threads_more))]
    fn threads(&mut self, nesting: u32) -> Result<Vec<Body>, SyntaxFault>
        ensures { Gives (λ v. map listing_of v.items) result self.new.rest.now (threads_at nesting self.old.rest.now) }
    {
        let mut bodies = Vec::new(self.alloc);
        loop {
            let body = self.thread(nesting, bodies.len())?;
            bodies.push(body)?;
            if !self.is_before_name() {
                return Ok(bodies);
            }
        }
    }

    #[tactic(auto, unfolding(crate::specs::Reading::ends_place))]
    fn ends_place(&self) -> bool
        ensures { result ≡ ends_place self.now.rest.now }
    {
        matches!(
            self.rest,
            [
                Symbol::Fixed(Terminal::Semicolon | Terminal::RightBracket),
                ..
            ]
        )
    }

    /// Adds the next place, if there is one.
    #[tactic(auto, unfolding(crate::specs::Reading::place_behind))]
    fn place_into(&mut self, places: &mut Vec<Place>) -> Result<(), SyntaxFault>
        ensures { Gives (λ _. places.new.items) result self.new.rest.now (place_behind places.old.items self.old.rest.now) }
    {
        if !self.ends_place() {
            let place = self.place()?;
            places.push(place)?;
        }
        Ok(())
    }

    /// places := [place] {";" [place]}
    #[tactic(auto, unfolding(crate::specs::Reading::places_at), using(crate::proofs::Places::places_turn, crate::proofs::Places::places_loop_takes))]
    fn places(&mut self) -> Result<Vec<Place>, SyntaxFault>
        ensures { Gives (λ v. v.items) result self.new.rest.now (places_at self.old.rest.now) }
    {
        let mut places = Vec::new(self.alloc);
        loop {
            self.place_into(&mut places)?;
            if !self.take(Terminal::Semicolon) {
                return Ok(places);
            }
        }
    }

    /// listed := ["locations" "[" places "]"]
    #[tactic(auto, unfolding(crate::specs::Reading::listed_at, crate::specs::Reading::bracketed_at))]
    fn listed(&mut self) -> Result<Vec<Place>, SyntaxFault>
        ensures { Gives (λ v. v.items) result self.new.rest.now (listed_at self.old.rest.now) }
    {
        if !self.take(Terminal::Locations) {
            return Ok(Vec::new(self.alloc));
        }
        self.expect(Terminal::LeftBracket)?;
        let places = self.places()?;
        self.expect(Terminal::RightBracket).and(Ok(places))
    }

    /// A word of the head.
    #[tactic(auto, unfolding(crate::specs::Reading::word_at))]
    fn word(&mut self) -> Result<&'a Name, SyntaxFault>
        ensures { Gives (λ s. s.now) result self.new.rest.now (word_at self.old.rest.now) }
    {
        let Some((first, rest)) = self.rest.split_first() else {
            return Err(self.stuck());
        };
        match first {
            Symbol::Word(word) => {
                self.rest = rest;
                Ok(word)
            }
            _ => Err(self.stuck()),
        }
    }

    /// "C"
    #[tactic(auto, unfolding(crate::specs::Reading::language_at))]
    fn language(&mut self) -> Result<(), SyntaxFault>
        ensures { Gives (λ _. tt) result self.new.rest.now (language_at self.old.rest.now) }
    {
        let stuck = self.stuck();
        if self.word()?.bytes() == b"C".as_slice() {
            Ok(())
        } else {
            Err(stuck)
        }
    }

    #[tactic(auto, unfolding(crate::specs::Reading::end_at))]
    fn end(&mut self) -> Result<(), SyntaxFault>
        ensures { Gives (λ _. tt) result self.new.rest.now (end_at self.old.rest.now) }
    {
        match self.rest.split_first() {
            None => Ok(()),
            Some(_) => Err(self.stuck()),
        }
    }

    /// "{" entries "}"
    #[tactic(auto, unfolding(crate::specs::Reading::initial_at))]
    fn initial(&mut self) -> Result<Vec<Binding>, SyntaxFault>
        ensures { Gives (λ v. v.items) result self.new.rest.now (initial_at self.old.rest.now) }
    {
        self.expect(Terminal::LeftBrace)?;
        let entries = self.entries()?;
        self.expect(Terminal::RightBrace).and(Ok(entries))
    }

    /// test := "C" name "{" entries "}" thread {thread} listed condition
    #[tactic(auto, unfolding(crate::specs::Reading::test_at))]
    fn test(&mut self, nesting: u32) -> Result<Draft, SyntaxFault>
        ensures { Gives written_of result self.new.rest.now (test_at nesting self.old.rest.now) }
    {
        self.language()?;
        let name = self.word()?.copy()?;
        let entries = self.initial()?;
        let bodies = self.threads(nesting)?;
        let listed = self.listed()?;
        let condition = self.condition(nesting)?;
        self.end().and(Ok(Draft {
            name,
            entries,
            bodies,
            listed,
            condition,
        }))
    }
}

/// Whether this is the name of thread `number`.
fn names_thread(alloc: Global, name: &[u8], number: usize) -> Result<bool, AllocError>
    ensures { IfOk result (λ b. b ≡ names_thread name.now number) }
{
    let expected = format!(in alloc; "P{number}")?;
    Ok(name == expected.as_bytes())
}

/// The test that the symbols spell.
pub fn read_draft(alloc: Global, symbols: &[Symbol]) -> Result<Draft, SyntaxFault>
    ensures found { IfOk result (λ d. Spells symbols.now (written_of d)) }
    ensures only { (w : Written) → Spells symbols.now w → MatchResult result (λ d. written_of d ≡ w) (λ e. e ≡ NoMemory) }
    ensures cause { IfErr result (λ e. IsUnspelled symbols.now e) }
{
    let mut reader = Reader {
        alloc,
        rest: symbols,
    };
    reader.test(MOST_NESTED)
}
