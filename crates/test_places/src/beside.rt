//! What a symbol tells of those beside it.

ghost use Rattle.std.specs.Prelude.{◌≡◌};
ghost use Rattle.test_places.specs.Marks as spec;

use litmus_syntax::{Operation, Symbol, Terminal};
use litmus_tree::LocationKind;

/// What a symbol tells of the role of a name or a number beside it.
#[derive(Clone, Copy, PartialEq, Eq)]
pub enum Beside {
    /// `int` or `atomic_int`, with how a pointer to it lets its location be accessed.
    Typed(LocationKind),
    Star,
    Open,
    Close,
    Comma,
    Colon,
    Assign,
    Call(Operation),
    Number(u32),
    Name,
    /// What stands first behind the threads: `locations`, `exists`, `forall`, `~` or `not`.
    Asks,
    Other,
}

fn beside_terminal(terminal: Terminal) -> Beside
    ensures { result ≡ spec.beside_terminal terminal }
{
    match terminal {
        Terminal::Int => Beside::Typed(LocationKind::Plain),
        Terminal::AtomicInt => Beside::Typed(LocationKind::Atomic),
        Terminal::Star => Beside::Star,
        Terminal::LeftParen => Beside::Open,
        Terminal::RightParen => Beside::Close,
        Terminal::Comma => Beside::Comma,
        Terminal::Colon => Beside::Colon,
        Terminal::Assign => Beside::Assign,
        Terminal::Locations
        | Terminal::Exists
        | Terminal::Forall
        | Terminal::Tilde
        | Terminal::Not => Beside::Asks,
        _ => Beside::Other,
    }
}

/// What a symbol tells.
pub fn told_by(symbol: &Symbol) -> Beside
    ensures { result ≡ spec.beside symbol.now }
{
    match symbol {
        Symbol::Fixed(terminal) => beside_terminal(*terminal),
        Symbol::Call(operation) => Beside::Call(*operation),
        Symbol::Name(_) => Beside::Name,
        Symbol::Number(number) => Beside::Number(*number),
        Symbol::Word(_) | Symbol::Foreign(_) | Symbol::Other => Beside::Other,
    }
}
