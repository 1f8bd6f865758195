//! The place of a fault of a model.

ghost use Rattle.std.specs.Prelude.{◌≡◌, ◌<◌, ◌≤◌, All, List, IfOk, IfSome, MatchOption, length, slice_get, take};
ghost use Rattle.wb_text.specs.Tokens.{IsWithin};
ghost use Rattle.cat_syntax.specs.Reads.{Reads};
ghost use Rattle.cat_tree.specs.Tree.{File};
ghost use Rattle.cat_places.specs.Own.{uses as all_uses};
ghost use Rattle.cat_places.specs.Places as spec;
ghost use Rattle.cat_places.specs.Walks.{visits as all_visits};

use crate::blame::{blamed, item_of};
use crate::denied::{Group, uses_of_group};
use crate::item::{bound_at, token_at, tokens_of_item, uses};
use crate::source::Source;
use crate::text::{file_of, has_memory};
use crate::walk::{Visit, Walk};
use cat_model::{Files, ModelFault};
use cat_syntax::CatFile;
use std::alloc::{AllocError, Global};
use wb_text::{Dialect, TextFault, Token, tokens};

/// Where a fault of a model stands: the number of its file, and the bytes before it there. The first file is the root. None where the files don't have
/// the fault, or memory ran out.
pub fn place_of(
    alloc: Global,
    sources: &[Source],
    fault: &ModelFault,
) -> Result<Option<(usize, usize)>, AllocError>
    ensures place { IfOk result (spec.IsModelPlace sources.now fault.now) }
    ensures within { IfOk result (λ o. IfSome o (λ p. p.0 < length sources.now)) }
{
    let Some(files) = read_all(alloc, sources)? else {
        return Ok(None);
    };
    let visits = visits_of(alloc, sources, &files)?;
    let Some(number) = blamed(alloc, &files, &visits, fault)? else {
        return Ok(None);
    };
    let Some(visit) = visits.get(number) else {
        return Ok(None);
    };
    let Some(source) = sources.get(visit.source) else {
        return Ok(None);
    };
    let before = visits_before(&visits, number);
    let blame = Blame {
        files: &files,
        before,
        visit: *visit,
        text: &source.text,
    };
    match blame.token(alloc, fault)? {
        Some(token) => Ok(Some((visit.source, token.from))),
        None => Ok(None),
    }
}

/// The files that the sources read as, in their order, if each reads as one.
fn read_all(alloc: Global, sources: &[Source]) -> Result<Option<Vec<CatFile>>, AllocError>
    ensures { IfOk result (λ o. MatchOption o ((fs : List File) → ¬ spec.AreRead sources.now fs) (λ gs. (fs : List File) → spec.AreRead sources.now fs → fs ≡ gs.items)) }
{
    let mut files = Vec::new(alloc);
    for source in sources {
        match file_of(alloc, &source.text)? {
            Some(file) => files.push(file)?,
            None => return Ok(None),
        }
    }
    Ok(Some(files))
}

/// The items of the first source and of what it includes, up to the first that is one too many.
fn visits_of(alloc: Global, sources: &[Source], files: &[CatFile]) -> Result<Vec<Visit>, AllocError>
    ensures { IfOk result (λ v. v.items ≡ all_visits sources.now files.now) }
{
    let built_in = Files::new(alloc)?;
    let mut visits = Vec::new(alloc);
    let walk = Walk {
        alloc,
        sources,
        files,
        built_in: &built_in,
    };
    walk.whole(&mut visits)?;
    Ok(visits)
}

/// The first of the visits.
fn visits_before(visits: &[Visit], number: usize) -> &[Visit]
    requires { number ≤ length visits.now }
    ensures { result.now ≡ take number visits.now }
{
    &visits[..number]
}

/// The item that is to blame, where it is visited: the visits before it, and its text.
#[derive(Clone, Copy)]
struct Blame<'a> {
    files: &'a [CatFile],
    before: &'a [Visit],
    visit: Visit,
    text: &'a [u8],
}

impl Blame<'_> {
    /// The token at which a fault stands in the item.
    fn token(&self, alloc: Global, fault: &ModelFault) -> Result<Option<Token>, AllocError>
        ensures { IfOk result (λ o. (f : File) → Reads self.now.text.now f → spec.IsToldAt self.now.files.now self.now.before.now self.now.visit self.now.text.now fault.now o) }
    {
        match tokens(alloc, self.text, Dialect::Cat) {
            Ok(tokens) => {
                let own = tokens_of_item(alloc, self.text, &tokens, self.visit.item)?;
                return self.token_of(alloc, own, fault);
            }
            Err(found) => {
                has_memory(found)?;
                return Ok(None);
            }
        }
    }

    /// The same, of the item's tokens.
    fn token_of(
        &self,
        alloc: Global,
        own: &[Token],
        fault: &ModelFault,
    ) -> Result<Option<Token>, AllocError>
        requires { All (IsWithin (length self.now.text.now)) own.now }
        ensures { IfOk result (spec.IsTold self.now.files.now self.now.before.now self.now.visit self.now.text.now own.now fault.now) }
    {
        match fault {
            ModelFault::NoInclude(_) | ModelFault::IncludeCycle(_) => Ok(token_at(own, 1)),
            ModelFault::FlagWithoutName | ModelFault::ModelTooLarge => Ok(token_at(own, 0)),
            ModelFault::WrongSort(name) | ModelFault::CallsTooLarge(name) => {
                Ok(bound_at(self.text, own, name.bytes()))
            }
            ModelFault::Unbound(name) => first_use(alloc, self.text, own, name.bytes()),
            ModelFault::NotMonotone(name) => self.denied(alloc, own, name.bytes()),
            ModelFault::NoCat(_) | ModelFault::NoMemory => Ok(None),
        }
    }

    /// The first use of a name of the item's group that stands where it may not be.
    fn denied(&self, alloc: Global, own: &[Token], name: &[u8]) -> Result<Option<Token>, AllocError>
        requires { All (IsWithin (length self.now.text.now)) own.now }
        ensures { IfOk result (spec.IsToldName self.now.files.now self.now.before.now self.now.visit self.now.text.now own.now name.now) }
    {
        let found = uses(alloc, self.text, own, name)?;
        let item = item_of(self.files, &self.visit);
        let all = uses_of_group(alloc, self.text, own, item)?;
        let group = Group {
            files: self.files,
            before: self.before,
            text: self.text,
            item: self.visit.item,
            uses: &all,
        };
        group.told(alloc, &found)
    }
}

/// The first token at which an item uses a name.
fn first_use(
    alloc: Global,
    text: &[u8],
    own: &[Token],
    name: &[u8],
) -> Result<Option<Token>, AllocError>
    requires { All (IsWithin (length text.now)) own.now }
    ensures { IfOk result (λ o. o ≡ slice_get (all_uses text.now name.now own.now) 0) }
{
    let uses = uses(alloc, text, own, name)?;
    Ok(token_at(&uses, 0))
}
