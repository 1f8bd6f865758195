//! Which texts a model is made of.

ghost use Rattle.std.specs.Prelude.{◌≡◌, ◌∷◌, ◌++◌, IfOk, OnOk};
ghost use Rattle.std.specs.List.{flat_map};
ghost use Rattle.suite.specs.Digests.{digest_text, digests_text};

use crate::loading::CatText;
use crate::text::push_parts;
use sha2::{Digest, Sha256};
use std::alloc::{AllocError, Global};

/// The texts' names, each with the first eight bytes of its SHA-256 as hexadecimal digits, and commas between.
pub fn digests_of(alloc: Global, texts: &[CatText<'_>]) -> Result<Vec<u8>, AllocError>
    ensures { IfOk result (λ v. v.items ≡ digests_text texts.now) }
{
    let mut text = Vec::new(alloc);
    if let Some((first, rest)) = texts.split_first() {
        push_digest(&mut text, alloc, first)?;
        push_others(&mut text, alloc, rest)?;
    }
    Ok(text)
}

/// Adds the digests of texts, a comma before each.
fn push_others(text: &mut Vec<u8>, alloc: Global, others: &[CatText<'_>]) -> Result<(), AllocError>
    ensures { OnOk result (text.new.items ≡ text.old.items ++ flat_map (λ t. 44 ∷ digest_text t) others.now) }
{
    for other in others {
        text.push(b',')?;
        push_digest(text, alloc, other)?;
    }
    Ok(())
}

/// Adds a text's name and the first eight bytes of its SHA-256.
fn push_digest(text: &mut Vec<u8>, alloc: Global, source: &CatText<'_>) -> Result<(), AllocError>
    ensures { OnOk result (text.new.items ≡ text.old.items ++ digest_text source.now) }
{
    let digest = Sha256::digest(source.text);
    let digits = hex::encode(alloc, &digest[..8])?;
    push_parts(text, &[source.name.bytes(), b"=", digits.as_bytes()])
}
