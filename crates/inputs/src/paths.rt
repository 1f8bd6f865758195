//! Which tests are judged: files, folders, lists, and standard input.

use crate::tests::Tests;
use crate::text::{is_there, sibling};
use std::alloc::{AllocError, Global};
use std::fmt::Display;
use std::rt::Files;
use std::{fs, io, mem};

/// The most folders that are gone through.
const MOST_FOLDERS: usize = 1_000_000;

/// The tests that words name, and what is told of the paths that couldn't be read on the way.
pub struct Paths {
    pub tests: Tests,
    /// Each ends in a line feed.
    pub unread: Vec<String>,
    /// The folders that are still to be gone through.
    folders: Vec<String>,
    /// The tests that were found in folders.
    found: Vec<String>,
}

impl Drop for Paths {
    fn drop(self) {
        let Paths {
            tests: _,
            unread: _,
            folders: _,
            found: _,
        } = self;
    }
}

/// Adds a path to a list.
fn push_path(list: &mut Vec<String>, path: &str) -> Result<(), AllocError> {
    let path = String::from_str(*list.allocator(), path)?;
    list.push(path)?;
    Ok(())
}

/// Whether something is a folder, as far as that can be told.
fn is_folder(about: io::Result<fs::Metadata>) -> bool {
    matches!(about, Ok(about) if about.is_dir())
}

impl Paths {
    /// None yet.
    pub fn new(alloc: Global) -> Self {
        Paths {
            tests: Tests::new(alloc),
            unread: Vec::new(alloc),
            folders: Vec::new(alloc),
            found: Vec::new(alloc),
        }
    }

    /// Adds the tests that the words name, in the order of the words; those of a folder by their paths.
    pub fn find<R: Files + AllocGlobal + Clone + Drop>(
        &mut self,
        rt: &R,
        words: &[&str],
    ) -> Result<(), AllocError> {
        for word in words {
            match word.strip_prefix('@') {
                Some(list) => self.add_list(rt, list)?,
                None => self.add_path(rt, word)?,
            }
        }
        Ok(())
    }

    /// Adds a test. A line can't tell one whose path would end the line or the field.
    fn add_test(&mut self, path: &str) -> Result<(), AllocError> {
        if !self.tests.add(path)? {
            self.add_unread(path, "its path has a tab or a line feed")?;
        }
        Ok(())
    }

    /// Adds what is told of a path that can't be read.
    fn add_unread<D: Display + Drop>(&mut self, path: &str, why: D) -> Result<(), AllocError> {
        let message = format!(in *self.unread.allocator(); "{path}: {why}\n")?;
        self.unread.push(message)?;
        Ok(())
    }

    /// Adds a file, or the tests of a folder.
    fn add_path<R: Files + AllocGlobal + Clone + Drop>(
        &mut self,
        rt: &R,
        path: &str,
    ) -> Result<(), AllocError> {
        if path != "-" && is_folder(fs::metadata(rt, path)) {
            return self.add_folder(rt, path);
        }
        self.add_test(path)
    }

    /// Adds the paths of a list, one a line. Empty lines, and those that begin with `#`, are left out.
    fn add_list<R: Files + AllocGlobal + Clone + Drop>(
        &mut self,
        rt: &R,
        list: &str,
    ) -> Result<(), AllocError> {
        let text = match fs::read_to_string(rt, list) {
            Ok(text) => text,
            Err(error) => return self.add_unread(list, error),
        };
        for line in text.as_str().lines() {
            let path = line.trim();
            if !path.is_empty() && !path.starts_with('#') {
                self.add_listed(rt, list, path)?;
            }
        }
        Ok(())
    }

    /// Adds a path of a list. Where nothing is there, it is looked for beside the list.
    fn add_listed<R: Files + AllocGlobal + Clone + Drop>(
        &mut self,
        rt: &R,
        list: &str,
        path: &str,
    ) -> Result<(), AllocError> {
        let beside = sibling(rt.alloc(), list, path)?;
        let beside = beside.as_str();
        let is_beside = !is_there(rt, path) && is_there(rt, beside);
        self.add_path(rt, if is_beside { beside } else { path })
    }

    /// Adds all `*.litmus` files in a folder and below, by their paths.
    fn add_folder<R: Files + AllocGlobal + Clone + Drop>(
        &mut self,
        rt: &R,
        folder: &str,
    ) -> Result<(), AllocError> {
        let before = self.unread.len();
        self.go_below(rt, folder)?;
        if self.found.is_empty() && self.unread.len() == before {
            return self.add_unread(folder, "no *.litmus file is in it or below");
        }
        let found = mem::replace(&mut self.found, Vec::new(rt.alloc()));
        for path in &found {
            self.add_test(path.as_str())?;
        }
        Ok(())
    }

    /// Goes through a folder and those below, and sorts the tests that are found by their paths.
    fn go_below<R: Files + AllocGlobal + Clone + Drop>(
        &mut self,
        rt: &R,
        folder: &str,
    ) -> Result<(), AllocError> {
        let top = match folder.trim_end_matches('/') {
            "" => "/",
            top => top,
        };
        self.folders.clear();
        push_path(&mut self.folders, top)?;
        for _ in 0..MOST_FOLDERS {
            let Some(next) = self.folders.pop() else {
                break;
            };
            self.go_through(rt, next.as_str())?;
        }
        self.found.sort()
    }

    /// Adds what an entry of a folder is, if it is a folder or a test.
    fn add_entry<R: Files>(&mut self, entry: &fs::DirEntry<R>) -> Result<(), AllocError> {
        let path = entry.path();
        if is_folder(entry.metadata()) {
            return push_path(&mut self.folders, path.as_str());
        }
        if path.as_str().ends_with(".litmus") {
            return push_path(&mut self.found, path.as_str());
        }
        Ok(())
    }

    /// Goes through one folder.
    fn go_through<R: Files + AllocGlobal + Clone + Drop>(
        &mut self,
        rt: &R,
        folder: &str,
    ) -> Result<(), AllocError> {
        let entries = match fs::read_dir(rt, folder) {
            Ok(entries) => entries,
            Err(error) => return self.add_unread(folder, error),
        };
        for entry in entries {
            match entry {
                Ok(entry) => self.add_entry(&entry)?,
                Err(error) => self.add_unread(folder, error)?,
            }
        }
        Ok(())
    }
}
