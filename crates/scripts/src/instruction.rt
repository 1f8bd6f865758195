//! What the lines of a script ask.

ghost use Rattle.std.specs.Prelude.{◌≡◌, ◌≢◌, ◌<◌, ◌^◌, ◌+◌, ◌∷◌, ◌++◌, ℕ, List, Err, All, IfOk, IfErr, MatchOption, codes, decimal};
ghost use Rattle.wb_text.specs.Names.{IsName};
ghost use Rattle.scripts.specs.Spelled.{Spells, Says, Requests, HasNumber, IsNumbered, IsSoundHead, IsSound, SpellsNone};
ghost use Rattle.scripts.specs.declared.instruction.Head.{Head as HeadOf};
ghost use Rattle.scripts.specs.declared.instruction.Request.{Request as RequestOf};

use itoa::Buffer;
use journal::Text;
use memchr::memchr;
use std::alloc::Global;
use wb_text::{Name, NameFault};

/// What a session of a script asks.
#[derive(Drop)]
pub enum Request {
    PutCat(Name, Text),
    PutTest(Text),
    DropCat(Name),
    DropTest(Name),
    Ask(Name, Name),
    Poll(u32),
    Forget(u32),
    Release(u32),
    List,
    Claim,
    /// To evaluate the piece of this claim and to return the result.
    Return(u32),
    /// To give back this claim.
    GiveBack(u32),
    Close,
}

/// An instruction of a script.
#[derive(Drop)]
pub enum Instruction {
    /// What the session at a seat asks.
    Call(u8, Request),
    /// To claim pieces and to return their results, until none is free.
    Work,
}

/// What a line says: a request, or one whose text follows.
#[derive(Drop)]
pub enum Head {
    Cat(Name),
    Test,
    Whole(Request),
}

/// Why a line says nothing.
#[derive(Clone, Copy, Debug, Drop, PartialEq, Eq)]
pub enum LineFault {
    Bad,
    NoMemory,
}

/// The seat and the head that a line spells.
pub fn read_head(alloc: Global, line: &[u8]) -> Result<(u8, Head), LineFault>
    ensures seat { IfOk result (λ r. r.0 < 8) }
    ensures spelled { IfOk result (λ r. Spells line.now r.0 r.1) }
    ensures sound { IfOk result (λ r. IsSoundHead r.1) }
    // It spells none only if there is none.
    ensures bad { result ≡ Err LineFault.Bad → SpellsNone line.now }
{
    let (seat, rest) = read_seat(line)?;
    let head = match split_word(rest) {
        (word, None) => read_word(word)?,
        (word, Some(rest)) => read_words(alloc, word, rest)?,
    };
    Ok((seat, head))
}

/// A seat, 0 to 7, and what stands behind it and a space.
fn read_seat(line: &[u8]) -> Result<(u8, &[u8]), LineFault>
    ensures seat { IfOk result (λ r. r.0 < 8) }
    ensures rest { IfOk result (λ r. line.now ≡ (48 + r.0) ∷ 32 ∷ r.1.now) }
    ensures bad { IfErr result (λ _. (seat : ℕ) (rest : List ℕ) → seat < 8 → line.now ≢ (48 + seat) ∷ 32 ∷ rest) }
{
    if line.len() < 2 {
        return Err(LineFault::Bad);
    }
    let digit = line[0];
    if digit < b'0' || digit > b'7' || line[1] != b' ' {
        return Err(LineFault::Bad);
    }
    Ok((digit - b'0', &line[2..]))
}

/// A head of one word.
fn read_word(word: &[u8]) -> Result<Head, LineFault>
    ensures said { IfOk result (Says word.now) }
    ensures sound { IfOk result IsSoundHead }
    ensures bad { IfErr result (λ _. (head : HeadOf) → All (λ byte. byte ≢ 32) word.now → ¬ Says word.now head) }
{
    if word == b"test".as_slice() {
        Ok(Head::Test)
    } else if word == b"claim".as_slice() {
        Ok(Head::Whole(Request::Claim))
    } else if word == b"list".as_slice() {
        Ok(Head::Whole(Request::List))
    } else if word == b"close".as_slice() {
        Ok(Head::Whole(Request::Close))
    } else {
        Err(LineFault::Bad)
    }
}

/// A head of a word and what stands behind it and a space.
fn read_words(alloc: Global, word: &[u8], rest: &[u8]) -> Result<Head, LineFault>
    ensures said { IfOk result (Says (word.now ++ (codes " " ++ rest.now))) }
    ensures sound { IfOk result IsSoundHead }
    ensures bad { result ≡ Err LineFault.Bad → (head : HeadOf) → IsSoundHead head → All (λ byte. byte ≢ 32) word.now
        → ¬ Says (word.now ++ (codes " " ++ rest.now)) head }
{
    if word == b"cat".as_slice() {
        Ok(Head::Cat(read_name(alloc, rest)?))
    } else if word == b"ask".as_slice() {
        Ok(Head::Whole(read_ask(alloc, rest)?))
    } else if word == b"dropcat".as_slice() {
        Ok(Head::Whole(Request::DropCat(read_name(alloc, rest)?)))
    } else if word == b"droptest".as_slice() {
        Ok(Head::Whole(Request::DropTest(read_name(alloc, rest)?)))
    } else {
        Ok(Head::Whole(read_numbered(word, rest)?))
    }
}

/// A request of a word and a number.
fn read_numbered(word: &[u8], rest: &[u8]) -> Result<Request, LineFault>
    ensures said { IfOk result (Requests (word.now ++ (codes " " ++ rest.now))) }
    ensures sound { IfOk result IsSound }
    ensures bad { IfErr result (λ _. (request : RequestOf) → HasNumber request → IsSound request → All (λ byte. byte ≢ 32) word.now
        → ¬ Requests (word.now ++ (codes " " ++ rest.now)) request) }
{
    let number = read_number(rest)?;
    match numbered(word, number) {
        Some(request) => Ok(request),
        None => Err(LineFault::Bad),
    }
}

/// The request of a word, with this number.
fn numbered(word: &[u8], number: u32) -> Option<Request>
    ensures { MatchOption result ((other : ℕ) (request : RequestOf) → ¬ IsNumbered word.now other request) (IsNumbered word.now number) }
{
    if word == b"poll".as_slice() {
        Some(Request::Poll(number))
    } else if word == b"return".as_slice() {
        Some(Request::Return(number))
    } else if word == b"back".as_slice() {
        Some(Request::GiveBack(number))
    } else if word == b"release".as_slice() {
        Some(Request::Release(number))
    } else if word == b"forget".as_slice() {
        Some(Request::Forget(number))
    } else {
        None
    }
}

/// Two names with a space between.
fn read_ask(alloc: Global, rest: &[u8]) -> Result<Request, LineFault>
    ensures asked { IfOk result (Requests (codes "ask " ++ rest.now)) }
    ensures sound { IfOk result IsSound }
    ensures bad { result ≡ Err LineFault.Bad → (test : List ℕ) (cat : List ℕ) → IsName test → IsName cat
        → rest.now ≢ test ++ (codes " " ++ cat) }
{
    match split_word(rest) {
        (_, None) => Err(LineFault::Bad),
        (test, Some(cat)) => Ok(Request::Ask(read_name(alloc, test)?, read_name(alloc, cat)?)),
    }
}

fn read_name(alloc: Global, bytes: &[u8]) -> Result<Name, LineFault>
    ensures name { IfOk result (λ name. name ≡ bytes.now) }
    ensures sound { IfOk result IsName }
    ensures bad { result ≡ Err LineFault.Bad → ¬ IsName bytes.now }
{
    match Name::new(alloc, bytes) {
        Ok(name) => Ok(name),
        Err(NameFault::BadName) => Err(LineFault::Bad),
        Err(NameFault::NoMemory) => Err(LineFault::NoMemory),
    }
}

/// A number below 2^32 as it is printed: in decimal, with no leading zero.
fn read_number(bytes: &[u8]) -> Result<u32, LineFault>
    ensures printed { IfOk result (λ number. bytes.now ≡ decimal number) }
    ensures bad { IfErr result (λ _. (number : ℕ) → number < 2 ^ 32 → bytes.now ≢ decimal number) }
{
    let Ok(text) = str::from_utf8(bytes) else {
        return Err(LineFault::Bad);
    };
    let Ok(number) = text.parse::<u32>() else {
        return Err(LineFault::Bad);
    };
    let mut buffer = Buffer::new();
    if buffer.format(number).as_bytes() == bytes {
        Ok(number)
    } else {
        Err(LineFault::Bad)
    }
}

/// The first word of a line, and what stands behind it and a space.
fn split_word(line: &[u8]) -> (&[u8], Option<&[u8]>)
    ensures parts { MatchOption result.1 (line.now ≡ result.0.now) (λ rest. line.now ≡ result.0.now ++ (codes " " ++ rest.now)) }
    ensures word { All (λ byte. byte ≢ 32) result.0.now }
{
    match memchr(b' ', line) {
        Some(place) => (&line[..place], Some(&line[place + 1..])),
        None => (line, None),
    }
}
