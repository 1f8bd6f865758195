//! Names made of bytes.

use crate::rows::again;
use std::alloc::{AllocError, Global};
use wb_text::{Name, NameFault};

/// The name of these bytes, which are those of a name. It is made again where memory was wanting.
pub fn name(alloc: Global, bytes: &[u8]) -> Result<Name, AllocError> {
    match again!(NameFault::NoMemory, Name::new(alloc, bytes)) {
        Ok(name) => Ok(name),
        Err(_) => Err(AllocError),
    }
}
