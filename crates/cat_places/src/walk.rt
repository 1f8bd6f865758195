//! The items of a model in reading order, with includes in place.

ghost use Rattle.std.specs.Prelude.{◌≡◌, ◌≤◌, ◌++◌, [], OnOk, length, map, is_some};
ghost use Rattle.cat_tree.specs.Tree.{clause_of};
ghost use Rattle.cat_model.specs.Files.{built_in as is_built_in};
ghost use Rattle.cat_places.specs.Walks as spec;

use crate::source::Source;
use cat_model::Files;
use cat_syntax::{CatFile, Item};
use std::alloc::{AllocError, Global};
use wb_text::Name;

/// The most files on a path.
const MOST_FILES: usize = 16;

/// The most items of a model, each include counted as one more.
pub const MOST_ITEMS: usize = 4_096;

/// Where reading goes on at an item.
#[derive(Clone, Copy, PartialEq, Eq)]
pub enum Turn {
    /// The item is no include.
    Own,
    /// It includes a file that is there beforehand.
    BuiltIn,
    /// It includes the source of this number.
    Into(usize),
    /// It includes what is not there.
    Missing,
    /// It includes a file that is on the path already.
    Cycle,
    /// It includes one file too many on a path.
    TooDeep,
}

/// An item that reading comes to: the number of its file, and its number there.
#[derive(Clone, Copy)]
pub struct Visit {
    pub source: usize,
    pub item: usize,
    pub turn: Turn,
}

/// The number of the first source of a name.
fn number_of(sources: &[Source], name: &Name) -> Option<usize>
    ensures { result ≡ spec.number_of sources.now name.now }
{
    sources.iter().position(|source| source.name == *name)
}

/// The items of a source.
pub fn items_of<'a>(files: &'a [CatFile], source: usize) -> &'a [Item]
    ensures { map clause_of result.now ≡ spec.items_of files.now source }
{
    match files.get(source) {
        Some(file) => file.items(),
        None => &[],
    }
}

/// Whether a source is on a path.
fn is_on(path: &[usize], source: usize) -> bool
    ensures { result ≡ spec.is_on path.now source }
{
    path.iter().any(|on| *on == source)
}

/// The sources of a model, and what they read as.
#[derive(Clone, Copy)]
pub struct Walk<'a> {
    pub alloc: Global,
    pub sources: &'a [Source],
    pub files: &'a [CatFile],
    /// The files that are there beforehand.
    pub built_in: &'a Files,
}

impl<'a> Walk<'a> {
    /// Whether a file of this name is there beforehand.
    fn is_built_in(&self, name: &Name) -> bool
        requires { self.now.built_in.now ≡ [] }
        ensures { result ≡ is_some (is_built_in name.now) }
    {
        self.built_in.get(name).is_some()
    }

    /// Where reading goes on at an include of a source, which the path has led to.
    fn turn_into(&self, path: &[usize], source: usize) -> Turn
        ensures { result ≡ spec.turn_into path.now source }
    {
        if is_on(path, source) {
            return Turn::Cycle;
        }
        if path.len() >= MOST_FILES {
            return Turn::TooDeep;
        }
        Turn::Into(source)
    }

    /// The same at an include of a name that no source has.
    fn turn_beside(&self, path: &[usize], name: &Name) -> Turn
        requires { self.now.built_in.now ≡ [] }
        ensures { result ≡ spec.turn_beside path.now name.now }
    {
        if !self.is_built_in(name) {
            return Turn::Missing;
        }
        if path.len() >= MOST_FILES {
            return Turn::TooDeep;
        }
        Turn::BuiltIn
    }

    /// Where reading goes on at an item.
    fn turn(&self, path: &[usize], item: &Item) -> Turn
        requires { self.now.built_in.now ≡ [] }
        ensures { result ≡ spec.turn self.now.sources.now path.now (clause_of item.now) }
    {
        match item {
            Item::Include(name) => match number_of(self.sources, name) {
                Some(source) => self.turn_into(path, source),
                None => self.turn_beside(path, name),
            },
            _ => Turn::Own,
        }
    }

    /// Adds the items of a file, and of those that it includes, until there are 4,097.
    #[cycle(visits)]
    fn visit(
        &self,
        depth: usize,
        path: &[usize],
        source: usize,
        visits: &mut Vec<Visit>,
    ) -> Result<(), AllocError>
        requires built_in { self.now.built_in.now ≡ [] }
        requires few { length visits.old.items ≤ 4097 }
        ensures { OnOk result (visits.new.items ≡ spec.cut (visits.old.items ++ spec.visits_of self.now.sources.now self.now.files.now depth path.now source)) }
    {
        let items = items_of(self.files, source);
        for (number, item) in items.iter().enumerate() {
            if visits.len() > MOST_ITEMS {
                return Ok(());
            }
            let turn = self.turn(path, item);
            visits.push(Visit {
                source,
                item: number,
                turn,
            })?;
            self.enter(depth, path, turn, visits)?;
        }
        Ok(())
    }

    /// Adds what an include brings.
    #[cycle(visits)]
    fn enter(
        &self,
        depth: usize,
        path: &[usize],
        turn: Turn,
        visits: &mut Vec<Visit>,
    ) -> Result<(), AllocError>
        requires built_in { self.now.built_in.now ≡ [] }
        requires few { length visits.old.items ≤ 4097 }
        ensures { OnOk result (visits.new.items ≡ spec.cut (visits.old.items ++ spec.brought self.now.sources.now self.now.files.now depth path.now turn)) }
    {
        match turn {
            Turn::Into(source) => {
                if depth == 0 {
                    return Ok(());
                }
                let mut longer = Vec::from_slice(self.alloc, path)?;
                longer.push(source)?;
                self.visit(depth - 1, &longer, source, visits)
            }
            _ => Ok(()),
        }
    }

    /// The items of the first source and of what it includes, until there are 4,097.
    pub fn whole(&self, visits: &mut Vec<Visit>) -> Result<(), AllocError>
        requires built_in { self.now.built_in.now ≡ [] }
        requires none { visits.old.items ≡ [] }
        ensures { OnOk result (visits.new.items ≡ spec.visits self.now.sources.now self.now.files.now) }
    {
        self.visit(MOST_FILES - 1, &[0], 0, visits)
    }
}
