//! Counting nodes, symbol by symbol, before anything is read.

ghost use Rattle.std.specs.Prelude.{◌≡◌, ◌≤◌, ◌<◌, MatchOption, IfSome, length};
ghost use Rattle.std.proofs.Common.{suc};
ghost use Rattle.cat_syntax.specs.Counting.{is_check_word as word_is, is_node as node_is, cost as cost_of, announces_node, context_after, depth_after, weight};
ghost use Rattle.cat_syntax.specs.Stops.{IsExcess};
ghost use Rattle.cat_syntax.specs.declared.counting.Context.TheVariants.{Naming};

use crate::symbol::{Symbol, Terminal};

/// The most nodes of a model.
const MOST_NODES: usize = 4096;

/// What stands before a symbol, as far as it tells whether the symbol is a node.
#[derive(Clone, Copy)]
pub enum Context {
    Plain,
    /// The beginning, or `as`: a name here is no node.
    Naming,
    /// `flag`, which is the check's node.
    Flag,
    /// `~`: before a check's word, which then is none.
    Tilde,
    /// `unshow` and its names: here the word and the commas are the nodes.
    Unshow,
}

fn is_check_word(terminal: Terminal) -> bool
    ensures { result ≡ word_is terminal }
{
    matches!(
        terminal,
        Terminal::Acyclic | Terminal::Irreflexive | Terminal::Empty
    )
}

/// Whether a terminal is a node where nothing before it says otherwise.
fn is_node(terminal: Terminal) -> bool
    ensures { result ≡ node_is terminal }
{
    !matches!(
        terminal,
        Terminal::Let
            | Terminal::Rec
            | Terminal::And
            | Terminal::As
            | Terminal::LeftParen
            | Terminal::RightParen
            | Terminal::RightBracket
            | Terminal::RightBrace
            | Terminal::Equals
    )
}

/// How many nodes a symbol is, where so many parentheses are open: a comma between parameters or arguments is none.
#[tactic(auto, unfolding(crate::specs::Counting::cost))]
fn cost(context: Context, depth: usize, symbol: &Symbol) -> usize
    ensures value { result ≡ cost_of context depth symbol.now }
    ensures small { result ≤ 1 }
{
    let counts = match symbol {
        Symbol::Name(_) => !matches!(context, Context::Naming | Context::Unshow),
        Symbol::Fixed(Terminal::Tilde) => !matches!(context, Context::Flag),
        Symbol::Fixed(Terminal::Comma) => depth == 0,
        Symbol::Fixed(terminal) if is_check_word(*terminal) => {
            !matches!(context, Context::Flag | Context::Tilde)
        }
        Symbol::Fixed(terminal) => is_node(*terminal),
        _ => false,
    };
    usize::from(counts)
}

/// What stands before the symbol that comes next.
#[tactic(auto, unfolding(crate::specs::Counting::context_after))]
fn following(context: Context, symbol: &Symbol) -> Context
    ensures { result ≡ context_after context symbol.now }
{
    match symbol {
        Symbol::Fixed(Terminal::As) => Context::Naming,
        Symbol::Fixed(Terminal::Flag) => Context::Flag,
        Symbol::Fixed(Terminal::Tilde) => Context::Tilde,
        Symbol::Fixed(Terminal::Unshow) => Context::Unshow,
        Symbol::Fixed(Terminal::Comma) | Symbol::Name(_) if matches!(context, Context::Unshow) => {
            Context::Unshow
        }
        _ => Context::Plain,
    }
}

/// How many parentheses are open behind a symbol.
#[tactic(auto, unfolding(crate::specs::Counting::depth_after))]
fn depth_behind(depth: usize, symbol: &Symbol) -> usize
    requires { depth < 18446744073709551615 }
    ensures value { result ≡ depth_after depth symbol.now }
    ensures most { result ≤ suc depth }
{
    match symbol {
        Symbol::Fixed(Terminal::LeftParen) => depth + 1,
        Symbol::Fixed(Terminal::RightParen) => depth.saturating_sub(1),
        _ => depth,
    }
}

/// Whether a symbol is the node of what stands behind it.
fn announces(symbol: &Symbol) -> bool
    ensures { result ≡ announces_node symbol.now }
{
    matches!(
        symbol,
        Symbol::Fixed(Terminal::Show | Terminal::Unshow | Terminal::Comma)
    )
}

/// The place of the first token of the node that is one too many, if there is one.
#[tactic(auto, unfolding(crate::specs::Counting::weight), using(crate::proofs::Weights::weight_next))]
pub fn excess(symbols: &[Symbol]) -> Option<usize>
    ensures long { IfSome result (λ _. 4096 < length symbols.now) }
    ensures place { IfSome result (λ n. (n ≤ length symbols.now) × IsExcess symbols.now n) }
    ensures weight { MatchOption result (weight Naming 0 symbols.now ≤ 4096) (λ _. 4096 < weight Naming 0 symbols.now) }
{
    let mut context = Context::Naming;
    let mut depth = 0;
    let mut nodes = 0;
    for (i, symbol) in symbols.iter().enumerate() {
        nodes += cost(context, depth, symbol);
        if nodes > MOST_NODES {
            return Some(if announces(symbol) { i + 1 } else { i });
        }
        context = following(context, symbol);
        depth = depth_behind(depth, symbol);
    }
    None
}
