//! Which use of its name a 66 is told at.

ghost use Rattle.std.specs.Prelude.{◌≡◌, ◌≤◌, ◌++◌, [], ◌∷◌, All, IfOk, MatchOption, length, map, drop, option_map, true, false};
ghost use Rattle.cat_model.specs.Faults.{IsCause};
ghost use Rattle.cat_model.specs.declared.fault.ModelFault.{ModelFault as Fault};
ghost use Rattle.cat_places.specs.Blame.{alone, items_put as all_put, main};
ghost use Rattle.cat_places.specs.Denied as spec;
ghost use Rattle.cat_tree.specs.Tree.{bound_of, clause_of};
ghost use Rattle.wb_text.specs.Tokens.{IsWithin};

use crate::blame::{is_model, items_put};
use crate::item::{token_at, uses};
use crate::text::file_of;
use crate::walk::Visit;
use cat_syntax::{CatFile, Item};
use cat_tree::Binding;
use std::alloc::{AllocError, Global};
use wb_text::Token;

/// The uses of the names of bindings.
fn uses_of_all(
    alloc: Global,
    text: &[u8],
    own: &[Token],
    bindings: &[Binding],
) -> Result<Vec<Token>, AllocError>
    requires { All (IsWithin (length text.now)) own.now }
    ensures all { IfOk result (λ v. v.items ≡ spec.uses_of_all text.now own.now (map bound_of bindings.now)) }
    ensures within { IfOk result (λ v. All (IsWithin (length text.now)) v.items) }
{
    let mut all = Vec::new(alloc);
    for binding in bindings {
        let mut more = uses(alloc, text, own, binding.name.bytes())?;
        all.append(&mut more)?;
    }
    Ok(all)
}

/// The uses of the names that an item binds as a group.
pub fn uses_of_group(
    alloc: Global,
    text: &[u8],
    own: &[Token],
    item: Option<&Item>,
) -> Result<Vec<Token>, AllocError>
    requires { All (IsWithin (length text.now)) own.now }
    ensures all { IfOk result (λ v. v.items ≡ spec.uses_of_group text.now own.now (option_map (λ i. clause_of i.now) item.entry)) }
    ensures within { IfOk result (λ v. All (IsWithin (length text.now)) v.items) }
{
    match item {
        Some(item) => match item {
            Item::LetRec(bindings) => uses_of_all(alloc, text, own, bindings),
            _ => Ok(Vec::new(alloc)),
        },
        None => Ok(Vec::new(alloc)),
    }
}

/// What is left of a text from a place on.
fn behind(text: &[u8], from: usize) -> &[u8]
    requires { from ≤ length text.now }
    ensures { result.now ≡ drop from text.now }
{
    &text[from..]
}

/// A text with `0` in the place of a token.
fn blanked(alloc: Global, text: &[u8], token: &Token) -> Result<Vec<u8>, AllocError>
    requires { IsWithin (length text.now) token.now }
    ensures made { IfOk result (λ v. v.items ≡ spec.blanked text.now token.now) }
    ensures same { IfOk result (λ v. length v.items ≡ length text.now) }
{
    let mut changed = Vec::from_slice(alloc, &text[..token.from])?;
    changed.push(b'0')?;
    changed.resize(token.to, b' ')?;
    let rest = behind(text, token.to);
    changed.extend_from_slice(rest)?;
    Ok(changed)
}

/// The same, unless the token is the one that is kept.
fn blanked_but(
    alloc: Global,
    text: &[u8],
    token: &Token,
    kept: &Token,
) -> Result<Vec<u8>, AllocError>
    requires { IsWithin (length text.now) token.now }
    ensures made { IfOk result (λ v. v.items ≡ spec.blanked_but kept.now text.now token.now) }
    ensures same { IfOk result (λ v. length v.items ≡ length text.now) }
{
    if token.from == kept.from {
        return Vec::from_slice(alloc, text);
    }
    blanked(alloc, text, token)
}

/// A text with `0` in the place of all these tokens but one.
fn with_only(
    alloc: Global,
    text: &[u8],
    uses: &[Token],
    kept: &Token,
) -> Result<Vec<u8>, AllocError>
    requires { All (IsWithin (length text.now)) uses.now }
    ensures { IfOk result (λ v. v.items ≡ spec.with_only text.now uses.now kept.now) }
{
    let mut changed = Vec::from_slice(alloc, text)?;
    for token in uses {
        changed = blanked_but(alloc, &changed, token, kept)?;
    }
    Ok(changed)
}

/// The item of a group: its number in its text, the visits before it, and where the group's names are used.
#[derive(Clone, Copy)]
pub struct Group<'a> {
    pub files: &'a [CatFile],
    pub before: &'a [Visit],
    pub text: &'a [u8],
    pub item: usize,
    pub uses: &'a [Token],
}

impl Group<'_> {
    /// Whether no rule is broken with this item in the place of the group.
    fn is_model_with(&self, alloc: Global, item: &Item) -> Result<bool, AllocError>
        ensures yes { IfOk result (λ b. b ≡ true → (e : Fault) → ¬ IsCause e (alone (all_put self.now.files.now self.now.before.now ++ clause_of item.now ∷ [])) main) }
        ensures no { IfOk result (λ b. b ≡ false → (e : Fault) × IsCause e (alone (all_put self.now.files.now self.now.before.now ++ clause_of item.now ∷ [])) main) }
    {
        let mut items = items_put(alloc, self.files, self.before)?;
        items.push(item.copy()?)?;
        is_model(alloc, items)
    }

    /// The same, of the item as another text has it, if that has one.
    fn is_model_as(&self, alloc: Global, text: &[u8]) -> Result<bool, AllocError>
        ensures yes { IfOk result (λ b. b ≡ true → ¬ spec.IsRefused self.now.files.now self.now.before.now self.now.item text.now) }
        ensures no { IfOk result (λ b. b ≡ false → spec.IsRefused self.now.files.now self.now.before.now self.now.item text.now) }
    {
        match file_of(alloc, text)? {
            Some(file) => match file.items().get(self.item) {
                Some(item) => self.is_model_with(alloc, item),
                None => Ok(true),
            },
            None => Ok(true),
        }
    }

    /// Whether a use may stand where it stands.
    fn is_allowed(&self, alloc: Global, token: &Token) -> Result<bool, AllocError>
        requires { All (IsWithin (length self.now.text.now)) self.now.uses.now }
        ensures yes { IfOk result (λ b. b ≡ true → ¬ spec.IsDenied self.now.files.now self.now.before.now self.now.item self.now.text.now self.now.uses.now token.now) }
        ensures no { IfOk result (λ b. b ≡ false → spec.IsDenied self.now.files.now self.now.before.now self.now.item self.now.text.now self.now.uses.now token.now) }
    {
        let text = with_only(alloc, self.text, self.uses, token)?;
        self.is_model_as(alloc, &text)
    }

    /// The number of the first of these uses that may not stand where it stands.
    fn first_denied(&self, alloc: Global, uses: &[Token]) -> Result<Option<usize>, AllocError>
        requires { All (IsWithin (length self.now.text.now)) self.now.uses.now }
        ensures { IfOk result (λ o. MatchOption o (spec.NoneDenied self.now.files.now self.now.before.now self.now.item self.now.text.now self.now.uses.now uses.now) (spec.IsFirstDenied self.now.files.now self.now.before.now self.now.item self.now.text.now self.now.uses.now uses.now)) }
    {
        for (number, token) in uses.iter().enumerate() {
            if !self.is_allowed(alloc, token)? {
                return Ok(Some(number));
            }
        }
        Ok(None)
    }

    /// The first of these uses that may not stand where it stands; where each may, the first of all.
    pub fn told(&self, alloc: Global, uses: &[Token]) -> Result<Option<Token>, AllocError>
        requires { All (IsWithin (length self.now.text.now)) self.now.uses.now }
        ensures { IfOk result (spec.IsToldUse self.now.files.now self.now.before.now self.now.item self.now.text.now self.now.uses.now uses.now) }
    {
        match self.first_denied(alloc, uses)? {
            Some(number) => return Ok(token_at(uses, number)),
            None => return Ok(token_at(uses, 0)),
        }
    }
}
