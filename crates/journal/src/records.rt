//! Commands, replies and the entries of the journal.

ghost use Rattle.std.specs.Prelude.{◌≡◌, true, IfOk};
ghost use Rattle.std.specs.Arc.{arc_value};
ghost use Rattle.journal.specs.Lines.{answers, seen, returned};

use crate::listing::Listing;
use candidates::SpaceFault;
use cat_model::ModelFault;
use cat_syntax::CatFault;
use litmus_c::TestFault;
use slices::{Piece, PieceResult, VerdictRef, WorkRef};
use std::alloc::{AllocError, Global};
use std::marker::Model;
use std::sync::Arc;
use wb_text::Name;

/// A text that is kept more than once. Contracts see its bytes.
pub struct Text {
    bytes: Arc<Vec<u8>>,
}

// A function of its own: whoever holds one drops it by a call.
impl Drop for Text {
    fn drop(self) {
        let Text { bytes: _ } = self;
    }
}

impl Model for Text {
    ghost use Rattle.std.specs.Prelude.{List, ℕ};
    ghost use Rattle.std.specs.Arc.{arc_value};

    ghost Value = { List ℕ };

    ghost view = { λ t. (arc_value t.bytes).items };
}

/// What a session asks of the book.
#[derive(PartialEq, Eq)]
pub enum Command {
    PutCat(Name, Text),
    PutTest(Text),
    DropCat(Name),
    DropTest(Name),
    Ask(Name, Name),
    Poll(u32),
    Forget(u32),
    Release(u32),
    List,
    Claim,
    Return(PieceResult),
    GiveBack(u32),
    Close,
}

// A function of its own: whoever holds one drops it by a call.
impl Drop for Command {
    fn drop(self) {
        match self {
            Command::PutCat(_, _) => {}
            Command::PutTest(_) => {}
            Command::DropCat(_) => {}
            Command::DropTest(_) => {}
            Command::Ask(_, _) => {}
            Command::Poll(_) => {}
            Command::Forget(_) => {}
            Command::Release(_) => {}
            Command::List => {}
            Command::Claim => {}
            Command::Return(_) => {}
            Command::GiveBack(_) => {}
            Command::Close => {}
        }
    }
}

/// A result as the journal shows it.
#[derive(PartialEq, Eq)]
pub struct Returned {
    pub claim: u32,
    pub slice: u16,
    pub from: u64,
    pub to: u64,
    pub work: WorkRef,
}

// A function of its own: whoever holds one drops it by a call.
impl Drop for Returned {
    fn drop(self) {
        let Returned {
            claim: _,
            slice: _,
            from: _,
            to: _,
            work: _,
        } = self;
    }
}

/// A command as the journal shows it.
#[derive(PartialEq, Eq)]
pub enum Said {
    PutCat(Name, Text),
    PutTest(Text),
    DropCat(Name),
    DropTest(Name),
    Ask(Name, Name),
    Poll(u32),
    Forget(u32),
    Release(u32),
    List,
    Claim,
    Return(Returned),
    GiveBack(u32),
    Close,
}

// A function of its own: whoever holds one drops it by a call.
impl Drop for Said {
    fn drop(self) {
        match self {
            Said::PutCat(_, _) => {}
            Said::PutTest(_) => {}
            Said::DropCat(_) => {}
            Said::DropTest(_) => {}
            Said::Ask(_, _) => {}
            Said::Poll(_) => {}
            Said::Forget(_) => {}
            Said::Release(_) => {}
            Said::List => {}
            Said::Claim => {}
            Said::Return(_) => {}
            Said::GiveBack(_) => {}
            Said::Close => {}
        }
    }
}

/// What a name is of.
#[derive(Clone, Copy, Drop, PartialEq, Eq)]
pub enum SourceKind {
    Test,
    Cat,
}

/// A name whose version is no longer a job's, with its version now.
#[derive(Drop, PartialEq, Eq)]
pub struct Replacement {
    pub kind: SourceKind,
    pub name: Name,
    pub version: u32,
}

/// A refusal that the journal records. The numbers are those of the printed refusals.
#[derive(PartialEq, Eq)]
pub enum Refusal {
    /// 71
    Closed,
    /// 72: the text is no test.
    ReadingTest(TestFault),
    /// 72: the text is no cat file.
    ReadingCat(CatFault),
    /// 73
    NoTest(Name),
    /// 74: the name leads to no model.
    Model(ModelFault),
    /// 75
    Space(SpaceFault),
    /// 76: 256 jobs are held.
    JobsFull,
    /// 77
    NoJob(u32),
    /// 78
    NoClaim(u32),
    /// 79
    Replaced(Replacement),
    /// 80: the result is not of the slice, range and work of its claim.
    Stranger(u32),
    /// 81
    VersionsSpent(Name),
    /// 82
    ClaimsSpent,
}

// A function of its own: whoever holds one drops it by a call.
impl Drop for Refusal {
    fn drop(self) {
        match self {
            Refusal::Closed => {}
            Refusal::ReadingTest(_) => {}
            Refusal::ReadingCat(_) => {}
            Refusal::NoTest(_) => {}
            Refusal::Model(_) => {}
            Refusal::Space(_) => {}
            Refusal::JobsFull => {}
            Refusal::NoJob(_) => {}
            Refusal::NoClaim(_) => {}
            Refusal::Replaced(_) => {}
            Refusal::Stranger(_) => {}
            Refusal::VersionsSpent(_) => {}
            Refusal::ClaimsSpent => {}
        }
    }
}

/// What the book replies.
#[derive(PartialEq, Eq)]
pub enum Reply {
    Version(Name, u32),
    Job(u32),
    Pending(usize, usize),
    Verdict(VerdictRef),
    Piece(Piece),
    Nothing,
    Taken(usize, usize),
    /// How many claims were ended.
    Freed(usize),
    Listed(Listing),
    Done,
    Refused(Refusal),
}

// A function of its own: whoever holds one drops it by a call.
impl Drop for Reply {
    fn drop(self) {
        match self {
            Reply::Version(_, _) => {}
            Reply::Job(_) => {}
            Reply::Pending(_, _) => {}
            Reply::Verdict(_) => {}
            Reply::Piece(_) => {}
            Reply::Nothing => {}
            Reply::Taken(_, _) => {}
            Reply::Freed(_) => {}
            Reply::Listed(_) => {}
            Reply::Done => {}
            Reply::Refused(_) => {}
        }
    }
}

/// An entry of the journal. Its reply is of a kind that its command can have.
pub struct Entry {
    place: u32,
    seat: u8,
    said: Said,
    reply: Reply,
}

// A function of its own: whoever holds one drops it by a call.
impl Drop for Entry {
    fn drop(self) {
        let Entry {
            place: _,
            seat: _,
            said: _,
            reply: _,
        } = self;
    }
}

impl Model for Entry {
    ghost use Rattle.std.specs.Prelude.{◌≡◌, true};
    ghost use Rattle.journal.specs.LineCodes.{coded_line};
    ghost use Rattle.journal.specs.Lines.{Line, answers};

    ghost Value = { Line };

    ghost coded = { coded_line };

    ghost view = { λ e. record { place = e.place; seat = e.seat; said = e.said; reply = e.reply } };

    ghost invariant = { λ e. answers e.said e.reply ≡ true };
}

impl Text {
    /// Keeps a text.
    pub fn new(alloc: Global, bytes: Vec<u8>) -> Result<Self, AllocError>
        ensures { IfOk result (λ t. t ≡ bytes.items) }
    {
        Ok(Text {
            bytes: Arc::new(alloc, bytes)?,
        })
    }

    /// The bytes.
    pub fn bytes(&self) -> &[u8]
        ensures { result.now ≡ self.now }
    {
        self.bytes.as_slice()
    }

    /// The same text, kept once more.
    pub fn share(&self) -> Result<Self, AllocError>
        ensures { IfOk result (λ t. t ≡ self.now) }
    {
        Ok(Text {
            bytes: Arc::try_clone(&self.bytes)?,
        })
    }
}

impl Command {
    /// The command as the journal shows it.
    pub fn seen(&self) -> Result<Said, AllocError>
        ensures { IfOk result (λ s. s ≡ seen self.now) }
    {
        Ok(match self {
            Command::PutCat(name, text) => Said::PutCat(name.copy()?, text.share()?),
            Command::PutTest(text) => Said::PutTest(text.share()?),
            Command::Ask(test, cat) => Said::Ask(test.copy()?, cat.copy()?),
            Command::DropCat(name) => Said::DropCat(name.copy()?),
            Command::DropTest(name) => Said::DropTest(name.copy()?),
            Command::Poll(job) => Said::Poll(*job),
            Command::Forget(job) => Said::Forget(*job),
            Command::Release(job) => Said::Release(*job),
            Command::List => Said::List,
            Command::Claim => Said::Claim,
            Command::Return(part) => Said::Return(Returned::of(part)?),
            Command::GiveBack(claim) => Said::GiveBack(*claim),
            Command::Close => Said::Close,
        })
    }
}

impl Said {
    /// The same command. Its texts and works are kept once more.
    pub fn copy(&self) -> Result<Self, AllocError>
        ensures { IfOk result (λ s. s ≡ self.now) }
    {
        Ok(match self {
            Said::PutCat(name, text) => Said::PutCat(name.copy()?, text.share()?),
            Said::PutTest(text) => Said::PutTest(text.share()?),
            Said::Ask(test, cat) => Said::Ask(test.copy()?, cat.copy()?),
            Said::DropCat(name) => Said::DropCat(name.copy()?),
            Said::DropTest(name) => Said::DropTest(name.copy()?),
            Said::Poll(job) => Said::Poll(*job),
            Said::Forget(job) => Said::Forget(*job),
            Said::Release(job) => Said::Release(*job),
            Said::List => Said::List,
            Said::Claim => Said::Claim,
            Said::Return(returned) => Said::Return(returned.copy()?),
            Said::GiveBack(claim) => Said::GiveBack(*claim),
            Said::Close => Said::Close,
        })
    }
}

impl Returned {
    /// The same result as shown. Its work is kept once more.
    pub fn copy(&self) -> Result<Self, AllocError>
        ensures { IfOk result (λ r. r ≡ self.now) }
    {
        Ok(Returned {
            claim: self.claim,
            slice: self.slice,
            from: self.from,
            to: self.to,
            work: self.work.share()?,
        })
    }

    /// What the journal shows of a result.
    fn of(part: &PieceResult) -> Result<Self, AllocError>
        ensures { IfOk result (λ r. r ≡ returned part.now) }
    {
        let piece = part.piece();
        Ok(Returned {
            claim: piece.claim(),
            slice: piece.slice(),
            from: piece.from(),
            to: piece.to(),
            work: piece.work().share()?,
        })
    }
}

impl Entry {
    /// The entry with these fields.
    pub fn new(place: u32, seat: u8, said: Said, reply: Reply) -> Self
        requires { answers said reply ≡ true }
        ensures { result ≡ record { place = place; seat = seat; said = said; reply = reply } }
    {
        Entry {
            place,
            seat,
            said,
            reply,
        }
    }

    /// Its place in the journal, from 0.
    pub fn place(&self) -> u32
        ensures { result ≡ self.now.place }
    {
        self.place
    }

    /// The seat of the session that called.
    pub fn seat(&self) -> u8
        ensures { result ≡ self.now.seat }
    {
        self.seat
    }

    /// The command as it was seen.
    pub fn said(&self) -> &Said
        ensures { result.now ≡ self.now.said }
    {
        &self.said
    }

    /// The reply, of a kind that the command can have.
    pub fn reply(&self) -> &Reply
        ensures reply { result.now ≡ self.now.reply }
        ensures kind { answers self.now.said self.now.reply ≡ true }
    {
        &self.reply
    }
}
