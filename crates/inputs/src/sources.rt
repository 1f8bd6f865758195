//! The files of a model, with those that they include.

use crate::included::Included;
use crate::text::{is_there, joined, sibling, text_of};
use crate::trouble::{Trouble, told, unreadable};
use cat_model::Files as CatFiles;
use fault_messages::Source;
use outcome::Status;
use std::alloc::{AllocError, Global};
use std::io;
use std::rt::Files;
use wb_text::Name;

/// The most files of a model that are read.
const MOST_FILES: usize = 4_096;

/// The files of a model, of which the first is its root, and the folders in which those that they include are looked for.
pub(crate) struct Sources<'a> {
    pub(crate) files: Vec<Source>,
    pub(crate) folders: &'a [&'a str],
}

impl<'a> Drop for Sources<'a> {
    fn drop(self) {
        let Sources {
            files: _,
            folders: _,
        } = self;
    }
}

impl<'a> Sources<'a> {
    /// Adds the file of a word, if it isn't a built-in one, with all that it includes, and what that includes, each once.
    pub(crate) fn gather<R: Files + Eprint + AllocGlobal>(
        &mut self,
        rt: &R,
        word: &str,
        root: &Name,
    ) -> Result<(), Trouble> {
        self.add_root(rt, word, root)?;
        for place in 0..MOST_FILES {
            if place >= self.files.len() {
                break;
            }
            self.include_all(rt, place)?;
        }
        Ok(())
    }

    /// Adds the file of a word, if it isn't a built-in one.
    fn add_root<R: Files + Eprint + AllocGlobal>(
        &mut self,
        rt: &R,
        word: &str,
        root: &Name,
    ) -> Result<(), Trouble> {
        match text_of(rt, word) {
            Ok(text) => self.add(rt.alloc(), root, word, text),
            Err(error) => {
                if error.kind() == io::ErrorKind::NotFound && is_built_in(rt.alloc(), word, root)? {
                    return Ok(());
                }
                Err(unreadable(rt, word, &error))
            }
        }
    }

    /// Adds a file.
    fn add(
        &mut self,
        alloc: Global,
        name: &Name,
        path: &str,
        text: Vec<u8>,
    ) -> Result<(), Trouble> {
        let name = name.copy()?;
        let path = String::from_str(alloc, path)?;
        self.files.push(Source { name, path, text })?;
        Ok(())
    }

    /// Adds the files that the file at a place includes.
    fn include_all<R: Files + Eprint + AllocGlobal>(
        &mut self,
        rt: &R,
        place: usize,
    ) -> Result<(), Trouble> {
        let Some(source) = self.files.get(place) else {
            return Ok(());
        };
        let all = Included::all(rt.alloc(), &source.text)?;
        for included in &all {
            self.include(rt, place, *included)?;
        }
        Ok(())
    }

    /// Adds the file of a name that the file at this place includes, if it lies somewhere.
    fn include<R: Files + Eprint + AllocGlobal>(
        &mut self,
        rt: &R,
        place: usize,
        included: Included,
    ) -> Result<(), Trouble> {
        let Some(source) = self.files.get(place) else {
            return Ok(());
        };
        let written = included.written(&source.text);
        if written.is_empty() {
            return Ok(());
        }
        let path = find(rt, self.folders, source.path.as_str(), written)?;
        if !is_there(rt, path.as_str()) {
            return Ok(());
        }
        match self.name(rt.alloc(), place, included)? {
            Some(name) => self.add_once(rt, &name, path.as_str()),
            None => Ok(()),
        }
    }

    /// The name under which a file is kept that the file at this place includes. It is put in the place of the one that is written there.
    fn name(
        &mut self,
        alloc: Global,
        place: usize,
        included: Included,
    ) -> Result<Option<Name>, AllocError> {
        match self.files.get_mut(place) {
            Some(source) => included.replace(alloc, &mut source.text),
            None => Ok(None),
        }
    }

    /// Adds a file, if it isn't there yet. One name can't stand for two files.
    fn add_once<R: Files + Eprint + AllocGlobal>(
        &mut self,
        rt: &R,
        name: &Name,
        path: &str,
    ) -> Result<(), Trouble> {
        for known in &self.files {
            if known.name == *name {
                return see_same(rt, known.path.as_str(), path);
            }
        }
        match text_of(rt, path) {
            Ok(text) => self.add(rt.alloc(), name, path, text),
            Err(error) => Err(unreadable(rt, path, &error)),
        }
    }
}

/// Where the file of a name lies that a file includes: beside that, or in one of the folders. If nothing is there, it lies nowhere.
fn find<R: Files + AllocGlobal>(
    rt: &R,
    folders: &[&str],
    file: &str,
    name: &str,
) -> Result<String, AllocError> {
    let mut path = sibling(rt.alloc(), file, name)?;
    for folder in folders {
        if is_there(rt, path.as_str()) {
            break;
        }
        path = joined(rt.alloc(), folder, name)?;
    }
    Ok(path)
}

/// Sees that a name that stands for the first of two files isn't included for another. Of one file there may be several paths, and two files with one text are as one.
fn see_same<R: Files + Eprint + AllocGlobal>(
    rt: &R,
    first: &str,
    path: &str,
) -> Result<(), Trouble> {
    if first == path {
        return Ok(());
    }
    match have_same_text(rt, first, path) {
        Ok(true) => return Ok(()),
        Ok(false) => {}
        Err(error) => return Err(unreadable(rt, path, &error)),
    }
    let printed = eprintln!(rt;
        "{path}: its name is included for {first}, too; give one of the two files another name"
    );
    Err(told(Status::Refused, printed))
}

/// Whether two files have the same text.
fn have_same_text<R: Files + AllocGlobal>(rt: &R, first: &str, second: &str) -> io::Result<bool> {
    Ok(text_of(rt, first)?.as_slice() == text_of(rt, second)?.as_slice())
}

/// Whether a word, whose file would have this name, is that of a built-in file.
fn is_built_in(alloc: Global, word: &str, name: &Name) -> Result<bool, AllocError> {
    if word.contains('/') {
        return Ok(false);
    }
    Ok(CatFiles::new(alloc)?.get(name).is_some())
}
