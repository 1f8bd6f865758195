//! Models, with the files that they include.

ghost use Rattle.std.specs.Prelude.{◌≡◌, ◌++◌, ◌∷◌, ◌<◌, ◌≤◌, [], IfOk, OnErr, OnOk, get_or, map, vec_len};
ghost use Rattle.std.specs.Str.{IsUtf8};
ghost use Rattle.std.specs.Vec.{vec_capacity};
ghost use Rattle.inputs.specs.Loaded.{AreCases, AreLoaded, IsCase, IsLoaded, IsOneMore};

use crate::sources::Sources;
use crate::tests::is_plain;
use crate::trouble::{Trouble, told};
use cat_model::Model;
use fault_messages::{Source, cat_trouble, model_fault};
use outcome::Status;
use std::alloc::{AllocError, Global};
use std::rt::Files;
use suite::{Case, CatText, ModelTrouble, digests_of, load_model};
use wb_text::{Name, NameFault};

/// The models of a run, in the order in which they were added. Contracts see the words that named them, and the digests of the
/// texts that each is made of.
pub struct Models {
    models: Vec<Model>,
    names: Vec<Vec<u8>>,
    digests: Vec<Vec<u8>>,
}

impl Drop for Models {
    fn drop(self) {
        let Models {
            models: _,
            names: _,
            digests: _,
        } = self;
    }
}

impl std::marker::Model for Models {
    ghost use Rattle.std.specs.Prelude.{map};
    ghost use Rattle.inputs.specs.Loaded.{AreLoaded, Labels};

    ghost Value = { Labels };

    ghost view = { λ m. record { names = map (λ n. n.items) m.names.items; digests = map (λ d. d.items) m.digests.items } };

    ghost invariant = { λ m. AreLoaded m.models.items (map (λ n. n.items) m.names.items) (map (λ d. d.items) m.digests.items) };
}

impl Models {
    /// None yet.
    #[tactic(auto, using(crate::proofs::Kept::none_loaded))]
    pub fn new(alloc: Global) -> Self
        ensures { result ≡ record { names = []; digests = [] } }
    {
        Models {
            models: Vec::new(alloc),
            names: Vec::new(alloc),
            digests: Vec::new(alloc),
        }
    }

    /// The models: that at each place is the one that the texts with the digests at that place give.
    pub fn models(&self) -> &[Model]
        ensures { AreLoaded result.now self.now.names self.now.digests }
    {
        &self.models
    }

    /// The words that named them.
    pub fn names(&self) -> &[Vec<u8>]
        ensures { map (λ n. n.items) result.now ≡ self.now.names }
    {
        &self.names
    }

    /// A test under the model at a place.
    pub fn case<'a>(&'a self, path: &'a str, place: usize) -> Case<'a>
        ensures { IsCase path.now (get_or self.now.names place []) (get_or self.now.digests place []) result }
    {
        Case {
            path,
            model: text_at(&self.names, place),
            digests: text_at(&self.digests, place),
        }
    }

    /// A test under each of the models, in their order.
    pub fn cases<'a>(&'a self, alloc: Global, path: &'a str) -> Result<Vec<Case<'a>>, AllocError>
        ensures { IfOk result (λ cases. AreCases path.now self.now.names self.now.digests cases.items) }
    {
        let mut cases = Vec::new(alloc);
        for place in 0..self.models.len() {
            cases.push(self.case(path, place))?;
        }
        Ok(cases)
    }

    /// Adds the model that a word names: that of a file, or a built-in one. What is wrong with it is told on standard error.
    pub fn add<R: Files + Eprint + AllocGlobal>(
        &mut self,
        rt: &R,
        word: &str,
        folders: &[&str],
    ) -> Result<(), Trouble>
        ensures added { OnOk result (IsOneMore word.now self.old self.new) }
        ensures same { OnErr result (self.new ≡ self.old) }
    {
        if !is_plain(word.as_bytes()) {
            return Err(no_path(rt, word));
        }
        let root = root_name(rt.alloc(), word)?;
        let mut sources = Sources {
            files: Vec::new(rt.alloc()),
            folders,
        };
        sources.gather(rt, word, &root)?;
        match self.load(rt.alloc(), word, &root, &sources.files) {
            Ok(()) => Ok(()),
            Err(trouble) => Err(tell(rt, word, &sources.files, &trouble)),
        }
    }

    /// Adds the model of the files, of which the first is its root, or the built-in one of this name where there are none.
    fn load(
        &mut self,
        alloc: Global,
        word: &str,
        root: &Name,
        files: &[Source],
    ) -> Result<(), ModelTrouble>
        ensures added { OnOk result (IsOneMore word.now self.old self.new) }
        ensures same { OnErr result (self.new ≡ self.old) }
    {
        let texts = texts_of(alloc, files)?;
        let model = load_model(alloc, root, &texts)?;
        let digests = digests_of(alloc, &texts)?;
        let name = Vec::from_slice(alloc, word.as_bytes())?;
        self.keep(model, name, digests)?;
        Ok(())
    }

    /// Keeps a model that was loaded, its name and its digests.
    fn keep(&mut self, model: Model, name: Vec<u8>, digests: Vec<u8>) -> Result<(), AllocError>
        requires { IsLoaded model digests.items }
        ensures ok { OnOk result (self.new ≡ record { names = self.old.names ++ name.items ∷ []; digests = self.old.digests ++ digests.items ∷ [] }) }
        ensures same { OnErr result (self.new ≡ self.old) }
    {
        self.models.reserve(1)?;
        self.names.reserve(1)?;
        self.digests.reserve(1)?;
        put(&mut self.models, model);
        put(&mut self.names, name);
        put(&mut self.digests, digests);
        Ok(())
    }
}

/// Adds a value for which there is room.
fn put<T: Drop>(list: &mut Vec<T>, value: T)
    requires { vec_len list.old < vec_capacity list.old }
    ensures { list.new.items ≡ list.old.items ++ value ∷ [] }
{
    match list.push(value) {
        Ok(()) => {}
        Err(_) => unreachable!(),
    }
}

/// The text at a place. Where there is none, or it isn't UTF-8, it is empty.
fn text_at(texts: &[Vec<u8>], place: usize) -> &str
    ensures { IsUtf8 (get_or (map (λ t. t.items) texts.now) place []) → result.now ≡ get_or (map (λ t. t.items) texts.now) place [] }
{
    match texts.get(place) {
        Some(text) => std::str::from_utf8(text).unwrap_or(""),
        None => "",
    }
}

/// The name of a model's root: that of its file, where it can be a name.
fn root_name(alloc: Global, path: &str) -> Result<Name, AllocError> {
    let name = match path.rsplit_once('/') {
        Some((_, name)) => name,
        None => path,
    };
    match Name::new(alloc, name.as_bytes()) {
        Ok(name) => Ok(name),
        Err(NameFault::NoMemory) => Err(AllocError),
        Err(NameFault::BadName) => main_name(alloc),
    }
}

/// The name of a root whose file's can be none.
fn main_name(alloc: Global) -> Result<Name, AllocError> {
    match Name::new(alloc, b"main.cat") {
        Ok(name) => Ok(name),
        Err(NameFault::NoMemory) => Err(AllocError),
        Err(NameFault::BadName) => unreachable!(),
    }
}

/// Tells on standard error that a line can't tell a model by this path.
fn no_path<R: Eprint>(rt: &R, path: &str) -> Trouble {
    told(
        Status::Failed,
        eprintln!(rt; "{path}: its path has a tab or a line feed"),
    )
}

/// The texts of the files.
fn texts_of(alloc: Global, files: &[Source]) -> Result<Vec<CatText<'_>>, AllocError> {
    let mut texts = Vec::new(alloc);
    for file in files {
        texts.push(CatText {
            name: &file.name,
            text: &file.text,
        })?;
    }
    Ok(texts)
}

/// Tells on standard error what is wrong with the files of a model.
fn tell<R: Eprint + AllocGlobal>(
    rt: &R,
    word: &str,
    files: &[Source],
    trouble: &ModelTrouble,
) -> Trouble {
    let alloc = rt.alloc();
    let message = match trouble {
        ModelTrouble::Text(place, fault) => match files.get(*place) {
            Some(file) => cat_trouble(alloc, file, fault),
            None => Ok(String::new(alloc)),
        },
        ModelTrouble::Twice(place) => match files.get(*place) {
            Some(file) => named_twice(alloc, file.path.as_str()),
            None => Ok(String::new(alloc)),
        },
        ModelTrouble::Model(fault) => model_fault(alloc, word, files, fault),
        ModelTrouble::NoMemory => Err(AllocError),
    };
    match message {
        Ok(message) => told(Status::Refused, rt.eprint(message.as_str())),
        Err(_) => Trouble::NoMemory,
    }
}

/// What is told of a file that has the name of an earlier one.
fn named_twice(alloc: Global, path: &str) -> Result<String, AllocError> {
    format!(in alloc; "{path}: its name is that of another file of the model\n")
}
