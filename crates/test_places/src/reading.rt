//! Where reading from the left stops.

ghost use Rattle.std.specs.Prelude.{◌≡◌, ◌≢◌, ◌≤◌, ℕ, IfOk, OnOk, MatchOption, length, take, true, false};
ghost use Rattle.litmus_c.specs.Reads.{StopsAt};
ghost use Rattle.litmus_syntax.specs.Unspelled.{IsUnspelled};
ghost use Rattle.litmus_syntax.specs.declared.syntax_fault.SyntaxFault.TheVariants.{BadOrder, TooDeep, NoMemory};
ghost use Rattle.test_places.specs.Fronts.{IsStop, IsFirstFront};

use litmus_syntax::{Symbol, SyntaxFault, read_draft};
use std::alloc::{AllocError, Global};

/// Whether a fault is the symbols' own.
pub fn in_memory(fault: SyntaxFault) -> Result<(), AllocError>
    ensures { OnOk result (fault ≢ NoMemory) }
{
    match fault {
        SyntaxFault::NoMemory => Err(AllocError),
        _ => Ok(()),
    }
}

/// Whether this fault is what reading the first symbols comes to, so many of them.
fn front_has(
    alloc: Global,
    symbols: &[Symbol],
    end: usize,
    fault: SyntaxFault,
) -> Result<bool, AllocError>
    requires within { end ≤ length symbols.now }
    requires stop { IsStop fault }
    ensures yes { IfOk result (λ b. b ≡ true → IsUnspelled (take end symbols.now) fault) }
    ensures no { IfOk result (λ b. b ≡ false → ¬ IsUnspelled (take end symbols.now) fault) }
{
    match read_draft(alloc, &symbols[..end]) {
        Ok(_draft) => return Ok(false),
        Err(found) => {
            in_memory(found)?;
            return Ok(found == fault);
        }
    }
}

/// How many symbols there are up to the first at which reading from the left comes to this fault.
pub fn first_front(
    alloc: Global,
    symbols: &[Symbol],
    fault: SyntaxFault,
) -> Result<Option<usize>, AllocError>
    requires { IsStop fault }
    ensures { IfOk result (λ o. MatchOption o ((n : ℕ) → n ≤ length symbols.now → ¬ IsUnspelled (take n symbols.now) fault) (IsFirstFront symbols.now fault)) }
{
    for end in 0..symbols.len() + 1 {
        if front_has(alloc, symbols, end, fault)? {
            return Ok(Some(end));
        }
    }
    Ok(None)
}

/// The place of the symbol at which reading stopped, if that is the fault.
fn stopped(symbols: &[Symbol], fault: SyntaxFault) -> Result<Option<usize>, AllocError>
    requires { IsUnspelled symbols.now fault }
    ensures { IfOk result (λ o. MatchOption o ((k : ℕ) → ¬ StopsAt symbols.now k) (StopsAt symbols.now)) }
{
    match fault {
        SyntaxFault::Syntax(left) => Ok(Some(symbols.len() - left)),
        SyntaxFault::BadOrder => Ok(None),
        SyntaxFault::TooDeep => Ok(None),
        SyntaxFault::NoMemory => Err(AllocError),
    }
}

/// The place of the symbol that the grammar doesn't take, where that is why there is no test.
pub fn stop(alloc: Global, symbols: &[Symbol]) -> Result<Option<usize>, AllocError>
    ensures { IfOk result (λ o. MatchOption o ((k : ℕ) → ¬ StopsAt symbols.now k) (StopsAt symbols.now)) }
{
    match read_draft(alloc, symbols) {
        Ok(_draft) => return Ok(None),
        Err(found) => return stopped(symbols, found),
    }
}
