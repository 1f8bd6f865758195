//! Tests of what no clause says, and of each call once.

use crate::names::name;
use crate::rows::{all_answered, expanded, expect};
use std::alloc::{AllocError, Global};
use wb_text::{Dialect, Name, NameFault, TextFault, Token, are_same, decimal, tokens};

/// The bytes of the text of a row, in which `ÿ` stands for the byte 255.
fn bytes_of(alloc: Global, text: &str) -> Result<Vec<u8>, AllocError> {
    let whole = expanded(alloc, text)?;
    let mut bytes = Vec::new(alloc);
    for (place, part) in whole.as_str().split('ÿ').enumerate() {
        if place > 0 {
            bytes.push(255)?;
        }
        bytes.extend_from_slice(part.as_bytes())?;
    }
    Ok(bytes)
}

/// The tokens as a row has them: of each its kind, where it starts, and where it ends.
fn shown(alloc: Global, tokens: &[Token]) -> Result<String, AllocError> {
    let mut text = String::from_str(alloc, "tokens")?;
    for token in tokens {
        write!(text, " {:?} {} {}", token.kind, token.from, token.to)?;
    }
    Ok(text)
}

/// What is told of the text of a dialect: its tokens, or a fault.
fn told(alloc: Global, dialect: Dialect, text: &str) -> Result<String, AllocError> {
    let bytes = bytes_of(alloc, text)?;
    match tokens(alloc, &bytes, dialect) {
        Ok(found) => shown(alloc, &found),
        Err(TextFault::NoMemory) => Err(AllocError),
        Err(fault) => format!(in alloc; "{fault:?}"),
    }
}

/// What is told of the text of a cat model.
fn cat_told(alloc: Global, text: &str) -> Result<String, AllocError> {
    told(alloc, Dialect::Cat, text)
}

/// What is told of the text of a litmus test.
pub fn litmus_told(alloc: Global, text: &str) -> Result<String, AllocError> {
    told(alloc, Dialect::Litmus, text)
}

const LITMUS: &str = "# heads

 ==> tokens

 (* no run *) // here
 ==> tokens

C SB ==> tokens Word 0 1 Word 2 4

C SB
{} ==> tokens Word 0 1 Word 2 4 Sign 5 6 Sign 6 7

C SB{} ==> tokens Word 0 1 Word 2 6

(*a*)C(*b*)/*c*/ \x01 { ==> tokens Word 5 16 Word 17 18 Sign 19 20

C (*b*)/*c*/ SB{ { ==> tokens Word 0 1 Word 13 16 Sign 17 18

# one word

C
SB { ==> tokens Word 0 1 Sign 5 6

C (*
*) SB { ==> tokens Word 0 1 Sign 11 12

C // SB
SB { ==> tokens Word 0 1 Sign 11 12

C \t\r(* *) ==> tokens Word 0 1

C
\"{\" { ==> tokens Word 0 1 Sign 6 7

# information

C T (*{(*{*){*) \"{(*\" /*{*/ //{\"(*
 ÿ } ; & { ==> tokens Word 0 1 Word 2 3 Sign 44 45

C T (* {  ==> OpenComment

C T /*/ {  ==> OpenComment

C T \" {  ==> OpenString

# bodies

C T {a_1 12ab \"(*\" === ==> tokens Word 0 1 Word 2 3 Sign 4 5 Name 5 8 Number 9 11 Name 11 13 Quoted 14 18 Sign 19 21 Sign 21 22

C T {=>!=!&&||/\\\\/(*)*)(x: ==> tokens Word 0 1 Word 2 3 Sign 4 5 Sign 5 7 Sign 7 9 Sign 9 10 Sign 10 12 Sign 12 14 Sign 14 16 Sign 16 18 Sign 23 24 Name 24 25 Sign 25 26

C T {}[]);,*~/*{*///} ==> tokens Word 0 1 Word 2 3 Sign 4 5 Sign 5 6 Sign 6 7 Sign 7 8 Sign 8 9 Sign 9 10 Sign 10 11 Sign 11 12 Sign 12 13

# faults

C T {ÿ ==> NotAscii

Cé T { ==> NotAscii

C Tÿ { ==> NotAscii

C T {# ==> BadByte

C T {\x01 ==> BadByte

C T {& ==> BadByte

C T { /* * ==> OpenComment";

const CAT: &str = "# tokens and names
let a = r* ==> tokens Name 0 3 Name 4 5 Sign 6 7 Name 8 9 Sign 9 10
(* (* *) ==> OpenComment
# models
po-loc rf^-1;a.b++ 0(*)*)| ==> tokens Name 0 6 Name 7 9 Sign 9 12 Sign 12 13 Name 13 16 Sign 16 18 Number 19 20 Sign 25 26
\"x\"()[]{},=|;\\&*~+? ==> tokens Quoted 0 3 Sign 3 4 Sign 4 5 Sign 5 6 Sign 6 7 Sign 7 8 Sign 8 9 Sign 9 10 Sign 10 11 Sign 11 12 Sign 12 13 Sign 13 14 Sign 14 15 Sign 15 16 Sign 16 17 Sign 17 18 Sign 18 19
a /* b */ ==> BadByte
a ^- 1 ==> BadByte
# faults
\"aÿb\" ==> NotAscii
(*ÿ*) ==> tokens
(* (* *)  ==> OpenComment
(*)ÿ ==> OpenComment
\"ÿ ==> OpenString
2147483647 ==> tokens Number 0 10
0002147483647 ==> tokens Number 0 13
2147483648 ==> NumberTooBig
99999999999999999999999999 # ==> NumberTooBig
# ÿ ==> BadByte
# the longest text, and one too long
@ @65536@ ==> tokens
@ @65536@# ==> TooLong";

/// What is told of a name: whether it has these bytes, and its copy is equal to it.
fn name_shown(alloc: Global, name: &Name, bytes: &[u8]) -> Result<String, AllocError> {
    let copy = name.copy()?;
    let is_copied = name.bytes() == bytes && copy.bytes() == bytes && *name == copy;
    String::from_str(alloc, if is_copied { "a name" } else { "another name" })
}

/// What is told of the bytes of a text: that they are a name, which has them and whose copy is equal to it, or a fault.
pub fn name_told(alloc: Global, text: &str) -> Result<String, AllocError> {
    let bytes = bytes_of(alloc, text)?;
    match Name::new(alloc, &bytes) {
        Ok(name) => name_shown(alloc, &name, &bytes),
        Err(NameFault::NoMemory) => Err(AllocError),
        Err(fault) => format!(in alloc; "{fault:?}"),
    }
}

const NAMES: &str = "@a@64@ ==> a name
 ==> BadName
@a@65@ ==> BadName
a b ==> BadName
a.cat ==> a name
a\x7f ==> BadName
ÿ ==> BadName
x ==> a name";

/// What number digits tell, or that they tell none.
fn number_told(alloc: Global, digits: &str) -> Result<String, AllocError> {
    match decimal(digits.as_bytes()) {
        Some(number) => format!(in alloc; "{number}"),
        None => String::from_str(alloc, "none"),
    }
}

const NUMBERS: &str = "0 ==> 0
007 ==> 7
2147483647 ==> 2147483647
2147483648 ==> none
 ==> none
1a ==> none";

/// Two names, with the sign of their order between them.
fn order_shown(alloc: Global, first: &Name, second: &Name) -> Result<String, AllocError> {
    let sign = if *first == *second {
        '='
    } else if *first < *second {
        '<'
    } else {
        '>'
    };
    format!(in alloc; "{first} {sign} {second}")
}

/// What order two names are in.
fn order_told(alloc: Global, words: &str) -> Result<String, AllocError> {
    let (first, second) = words.split_once(' ').unwrap_or((words, ""));
    let first = name(alloc, first.as_bytes())?;
    let second = name(alloc, second.as_bytes())?;
    order_shown(alloc, &first, &second)
}

const ORDERS: &str = "x y!~ ==> x < y!~";

/// Are only lists of one length, with the same values, the same?
fn lists_compare() -> bool {
    let list = "ab".as_bytes();
    are_same(list, "ab".as_bytes())
        && !are_same(list, "ac".as_bytes())
        && !are_same(list, "bb".as_bytes())
        && !are_same(list, "a".as_bytes())
        && !are_same(list, "abb".as_bytes())
}

#[test]
fn tokens_names_and_numbers(rt: HostRuntime) {
    let alloc = rt.alloc();
    all_answered(&rt, alloc, "tokens of litmus tests", LITMUS, litmus_told);
    all_answered(&rt, alloc, "tokens of models", CAT, cat_told);
    all_answered(&rt, alloc, "names", NAMES, name_told);
    all_answered(&rt, alloc, "numbers", NUMBERS, number_told);
    all_answered(&rt, alloc, "orders of names", ORDERS, order_told);
    expect(&rt, "lists", lists_compare());
}
