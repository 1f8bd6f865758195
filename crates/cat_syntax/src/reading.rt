//! The reader: recursive descent over the symbols of a text.

ghost use Rattle.std.specs.Prelude.{◌≡◌, ◌<◌, ◌≤◌, ℕ, List, drop, length, Some, None, Ok, Err, IfOk, IfErr, MatchBool, MatchResult, option_map};
ghost use Rattle.cat_syntax.specs.Items.{IsFile};
ghost use Rattle.cat_syntax.specs.Reads.{Reads, IsRefused, Tells, IsUnexpected, left_out as word_left_out, offset_of as first_offset};
ghost use Rattle.cat_syntax.specs.Stops.{StopsAt, IsExcess};
ghost use Rattle.cat_syntax.specs.Nodes.{nodes};
ghost use Rattle.cat_tree.specs.Tree.{File};
ghost use Rattle.cat_syntax.specs.declared.fault.CatFault.TheVariants.{NoMemory};
ghost use Rattle.cat_syntax.specs.declared.syntax_fault.SyntaxFault.TheVariants.{NoMemory as NoSpace};
ghost use Rattle.cat_syntax.specs.Reading.{Gives, OrNoMemory, after, expected, name_at, next_name as name_ahead};

mod expressions;
mod items;

use crate::counting::excess;
use crate::fault::CatFault;
use crate::symbol::{Spelling, Symbol, Terminal, symbols};
use crate::syntax_fault::SyntaxFault;
use cat_tree::CatFile;
use std::alloc::Global;
use wb_text::{Dialect, Name, Token, tokens};

/// The symbols that are not yet read. At a fault, the first of them is the symbol that it is about.
#[derive(Drop)]
struct Reader<'a> {
    alloc: Global,
    rest: &'a [Symbol<'a>],
}

impl<'a> Reader<'a> {
    /// Whether this terminal comes next.
    #[tactic(auto, unfolding(crate::specs::Reading::after))]
    fn sees(&self, terminal: Terminal) -> bool
        ensures { MatchBool result (after terminal self.now.rest.now ≡ Some (tt, drop 1 self.now.rest.now)) (after terminal self.now.rest.now ≡ None) }
    {
        match self.rest {
            [first, ..] => match first {
                Symbol::Fixed(first) => *first == terminal,
                _ => false,
            },
            [] => false,
        }
    }

    /// Takes the next symbol, if it is this terminal.
    #[tactic(auto, unfolding(crate::specs::Reading::after))]
    fn take(&mut self, terminal: Terminal) -> bool
        ensures { MatchBool result (after terminal self.old.rest.now ≡ Some (tt, self.new.rest.now)) ((after terminal self.old.rest.now ≡ None) × (self.new.rest.now ≡ self.old.rest.now)) }
    {
        match self.rest {
            [first, rest @ ..] => match first {
                Symbol::Fixed(first) if *first == terminal => {
                    self.rest = rest;
                    true
                }
                _ => false,
            },
            [] => false,
        }
    }

    /// Takes this terminal.
    #[tactic(auto, unfolding(crate::specs::Reading::expected))]
    fn expect(&mut self, terminal: Terminal) -> Result<(), SyntaxFault>
        ensures { Gives (λ _. tt) result self.new.rest.now (expected terminal self.old.rest.now) }
    {
        if self.take(terminal) {
            Ok(())
        } else {
            Err(SyntaxFault::Unexpected)
        }
    }

    /// The name that comes next, if one does.
    #[tactic(auto, unfolding(crate::specs::Reading::next_name))]
    fn next_name(&self) -> Option<&Spelling<'a>>
        ensures { option_map (λ x. x.now) result ≡ name_ahead self.now.rest.now }
    {
        match self.rest {
            [first, ..] => match first {
                Symbol::Name(spelling) => Some(spelling),
                _ => None,
            },
            [] => None,
        }
    }

    /// Takes a name.
    #[tactic(auto, unfolding(crate::specs::Reading::name_at))]
    fn name(&mut self) -> Result<Name, SyntaxFault>
        ensures { Gives (λ x. x) result self.new.rest.now (name_at self.old.rest.now) }
    {
        match self.rest {
            [first, rest @ ..] => match first {
                Symbol::Name(spelling) => {
                    let name = spelling.name(self.alloc)?;
                    self.rest = rest;
                    Ok(name)
                }
                _ => Err(SyntaxFault::Unexpected),
            },
            [] => Err(SyntaxFault::Unexpected),
        }
    }
}

/// The offset of the first of these tokens, or the text's end.
fn offset_of(tokens: &[Token], end: usize) -> usize
    ensures { result ≡ first_offset tokens.now end }
{
    match tokens {
        [first, ..] => first.from,
        [] => end,
    }
}

/// The word that a 53 names, where a fault is about the first of these symbols and that is left out.
fn left_out<'a, 'b>(fault: SyntaxFault, rest: &'b [Symbol<'a>]) -> Option<&'b Spelling<'a>>
    ensures { option_map (λ x. x.now) result ≡ word_left_out fault rest.now }
{
    let [first, ..] = rest else {
        return None;
    };
    match fault {
        SyntaxFault::Unexpected => match first {
            Symbol::Unsupported(word) => Some(word),
            _ => None,
        },
        SyntaxFault::RecursiveFunction => match first {
            Symbol::Name(word) => Some(word),
            _ => None,
        },
        _ => None,
    }
}

/// The refusal of a text for a fault about the first of these symbols, which nothing takes, by its offset.
fn unexpected<'a>(alloc: Global, fault: SyntaxFault, rest: &[Symbol<'a>], offset: usize) -> CatFault
    ensures { IsUnexpected fault result rest.now offset }
{
    match left_out(fault, rest) {
        Some(word) => match word.name(alloc) {
            Ok(name) => CatFault::Unsupported(name),
            Err(_) => CatFault::NoMemory,
        },
        None => CatFault::Syntax(offset),
    }
}

/// The refusal of a text for a fault at one of its symbols.
#[tactic(auto, using(crate::proofs::Refusals::unexpected_told, crate::proofs::Refusals::function_told, crate::proofs::Refusals::twice_told, crate::proofs::Refusals::deep_told))]
fn refusal<'a>(
    alloc: Global,
    symbols: &[Symbol<'a>],
    tokens: &[Token],
    end: usize,
    fault: SyntaxFault,
    place: usize,
) -> CatFault
    requires within { place ≤ length symbols.now }
    requires one_each { length symbols.now ≡ length tokens.now }
    requires stops { OrNoMemory fault (StopsAt symbols.now fault place) }
    requires first { (n : ℕ) → IsExcess symbols.now n → place ≤ n }
    ensures reported { Tells result symbols.now tokens.now end }
    ensures memory { fault ≡ NoSpace → result ≡ NoMemory }
{
    match fault {
        SyntaxFault::Unexpected => {
            let offset = offset_of(&tokens[place..], end);
            unexpected(alloc, fault, &symbols[place..], offset)
        }
        SyntaxFault::RecursiveFunction => unexpected(
            alloc,
            fault,
            &symbols[place..],
            offset_of(&tokens[place..], end),
        ),
        SyntaxFault::BoundTwice => CatFault::Syntax(offset_of(&tokens[place..], end)),
        SyntaxFault::TooDeep => CatFault::TooDeep,
        SyntaxFault::NoMemory => CatFault::NoMemory,
    }
}

/// The refusal of symbols of which the one at `place` is the first of a node too many: a fault up to there comes first.
#[tactic(auto, using(crate::proofs::Refusals::among, crate::proofs::Refusals::large_read, crate::proofs::Refusals::large_behind, crate::proofs::Refusals::shown_of))]
fn refusal_up_to<'a>(
    alloc: Global,
    symbols: &'a [Symbol<'a>],
    tokens: &[Token],
    end: usize,
    place: usize,
) -> CatFault
    requires within { place ≤ length symbols.now }
    requires one_each { length symbols.now ≡ length tokens.now }
    requires many { 4096 < length tokens.now }
    requires excess { IsExcess symbols.now place }
    ensures { Tells result symbols.now tokens.now end }
{
    // The node's symbol, and what a reader looks at behind it.
    let shown = symbols.len().min(place + 3);
    let mut reader = Reader {
        alloc,
        rest: &symbols[..shown],
    };
    let fault = match reader.file() {
        Ok(_) => return CatFault::TooLarge,
        Err(fault) => fault,
    };
    if fault == SyntaxFault::NoMemory {
        return CatFault::NoMemory;
    }
    let stopped = shown.saturating_sub(reader.rest.len());
    if stopped > place {
        return CatFault::TooLarge;
    }
    refusal(alloc, symbols, tokens, end, fault, stopped)
}

/// The model that these symbols are.
#[tactic(auto, using(crate::proofs::Refusals::stopped_at))]
fn read_symbols<'a>(
    alloc: Global,
    symbols: &'a [Symbol<'a>],
    tokens: &[Token],
    end: usize,
) -> Result<CatFile, CatFault>
    requires { length symbols.now ≡ length tokens.now }
    ensures found { IfOk result (λ f. IsFile symbols.now f × (nodes f ≤ 4096)) }
    ensures only { (f : File) → IsFile symbols.now f → nodes f ≤ 4096 → MatchResult result (λ g. g ≡ f) (λ e. e ≡ NoMemory) }
    ensures reported { IfErr result (λ e. Tells e symbols.now tokens.now end) }
{
    if let Some(place) = excess(symbols) {
        return Err(refusal_up_to(alloc, symbols, tokens, end, place));
    }
    let mut reader = Reader {
        alloc,
        rest: symbols,
    };
    match reader.file() {
        Ok(file) => Ok(file),
        Err(fault) => {
            let place = symbols.len().saturating_sub(reader.rest.len());
            Err(refusal(alloc, symbols, tokens, end, fault, place))
        }
    }
}

/// Reads a text as a model.
///
/// Refuses with `Text`, and then with the first fault from the left; at one token with `Syntax` or `Unsupported` before
/// `TooDeep`, and that before `TooLarge`.
///
/// It recurses where parentheses, brackets and signs before an expression nest, at most 64 deep, and along no chain. The deepest text
/// takes less than 320 KiB of stack.
#[tactic(auto, using(crate::proofs::Tokens::symbols_length))]
pub fn read_cat(alloc: Global, text: &[u8]) -> Result<CatFile, CatFault>
    // What is read is a model that the text spells.
    ensures found { IfOk result (λ f. Reads text.now f) }
    // A model that the text spells is read, as the one that it is, unless memory runs out.
    ensures only { (f : File) → Reads text.now f → MatchResult result (λ g. g ≡ f) (λ e. e ≡ NoMemory) }
    // Each refusal comes only where its cause stands.
    ensures cause { IfErr result (λ e. IsRefused text.now e) }
{
    let tokens = tokens(alloc, text, Dialect::Cat)?;
    let symbols = symbols(alloc, text, &tokens)?;
    read_symbols(alloc, &symbols, &tokens, text.len())
}
