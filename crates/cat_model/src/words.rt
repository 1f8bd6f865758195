//! Names that are written in this crate.

ghost use Rattle.std.specs.Prelude.{◌≡◌, IfOk};

use std::alloc::{AllocError, Global};
use wb_text::{Name, NameFault};

/// A name of these bytes, which are one.
pub fn word(alloc: Global, bytes: &[u8]) -> Result<Name, AllocError>
    ensures { IfOk result (λ x. x ≡ bytes.now) }
{
    match Name::new(alloc, bytes) {
        Ok(name) => Ok(name),
        Err(NameFault::BadName | NameFault::NoMemory) => Err(AllocError),
    }
}
