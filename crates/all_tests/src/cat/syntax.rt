//! What texts are read as, and equality and copies of what is read.

use crate::cat::loading::{read, spelled};
use crate::cat::texts::RC11;
use crate::rows::{again, all_answered, all_hold, expanded, expect};
use cat_syntax::{
    CatFault, CatFile, Definition, Expression, Infix, Item, Leaf, Node, Sign, read_cat,
};
use std::alloc::{AllocError, Global};

/// What is written before the operand of a sign, and behind it.
fn around(sign: Sign) -> (&'static str, &'static str) {
    match sign {
        Sign::Complement => ("~(", ")"),
        Sign::Domain => ("domain(", ")"),
        Sign::Range => ("range(", ")"),
        Sign::Identity => ("id(", ")"),
        Sign::Plus => ("(", ")+"),
        Sign::Star => ("(", ")*"),
        Sign::Optional => ("(", ")?"),
        Sign::Inverse => ("(", ")^-1"),
    }
}

/// What is written between two operands.
fn between(operator: Infix) -> &'static str {
    match operator {
        Infix::Union => "|",
        Infix::Sequence => ";",
        Infix::Difference => "-",
        Infix::Intersection => "&",
        Infix::Product => "x",
    }
}

fn show_leaf(alloc: Global, leaf: &Leaf) -> Result<String, AllocError> {
    match leaf {
        Leaf::Name(name) => format!(in alloc; "{name}"),
        Leaf::EmptyRelation => format!(in alloc; "0"),
        Leaf::EmptySet => format!(in alloc; "{{}}"),
        Leaf::Universe => format!(in alloc; "_"),
    }
}

/// Takes the text of the latest operand.
fn latest(alloc: Global, texts: &mut Vec<String>) -> String {
    match texts.pop() {
        Some(text) => text,
        None => String::new(alloc),
    }
}

/// Takes the texts of the latest operands, so many, with commas between them.
fn latest_joined(
    alloc: Global,
    texts: &mut Vec<String>,
    count: usize,
) -> Result<String, AllocError> {
    let mut joined = latest(alloc, texts);
    for _ in 1..count {
        let before = latest(alloc, texts);
        joined = format!(in alloc; "{},{}", before, joined)?;
    }
    Ok(joined)
}

/// The text of a node, with parentheses round it, where the latest texts are those of its operands.
fn show_node(alloc: Global, node: &Node, texts: &mut Vec<String>) -> Result<String, AllocError> {
    match node {
        Node::Leaf(leaf) => show_leaf(alloc, leaf),
        Node::Sign(sign) => {
            let operand = latest(alloc, texts);
            let (before, behind) = around(*sign);
            format!(in alloc; "{before}{operand}{behind}")
        }
        Node::Infix(operator) => {
            let right = latest(alloc, texts);
            let left = latest(alloc, texts);
            format!(in alloc; "({}{}{})", left, between(*operator), right)
        }
        Node::Call(name, count) => {
            let arguments = latest_joined(alloc, texts, *count)?;
            format!(in alloc; "{}({})", name, arguments)
        }
    }
}

/// Adds an expression to a text, with parentheses round each part.
fn show(alloc: Global, text: &mut String, expression: &Expression) -> Result<(), AllocError> {
    let mut texts = Vec::new(alloc);
    for node in &expression.nodes {
        let shown = show_node(alloc, node, &mut texts)?;
        texts.push(shown)?;
    }
    text.push_str(latest(alloc, &mut texts).as_str())
}

/// Adds what a name is bound to: its parameters, each with a dot behind it, and its expression.
fn show_definition(
    alloc: Global,
    text: &mut String,
    definition: &Definition,
) -> Result<(), AllocError> {
    for parameter in &definition.parameters {
        write!(text, "{parameter}.")?;
    }
    show(alloc, text, &definition.value)
}

/// What a file's first item binds first, if that is `let r = ..`.
fn first_shown(alloc: Global, file: &CatFile) -> Result<String, AllocError> {
    let mut text = String::new(alloc);
    match file.items().first() {
        Some(Item::Let(definitions)) => match definitions.first() {
            Some(definition) => show_definition(alloc, &mut text, definition)?,
            None => text.push_str("no binding")?,
        },
        _ => text.push_str("a tree")?,
    }
    Ok(text)
}

/// What the text of a row is read as: what a first item `let r = ..` binds, else `a tree`, or the fault.
pub fn read_as(alloc: Global, text: &str) -> Result<String, AllocError> {
    let text = expanded(alloc, text)?;
    match read_cat(alloc, text.as_bytes()) {
        Ok(file) => first_shown(alloc, &file),
        Err(CatFault::NoMemory) => Err(AllocError),
        Err(fault) => format!(in alloc; "{fault}"),
    }
}

const READ: &str = "# operators and levels
let r = a \\ b \\ c ==> ((a-b)-c)
let r = a ; b ; c ==> (a;(b;c))
let r = a | b ; c | d ==> (a|((b;c)|d))
let r = a | b ; c \\ d & e * f ==> (a|(b;(c-(d&(exf)))))
let r = W * R * F ==> ((WxR)xF)
let r = ~a* ; b+?^-1 ==> (~((a)*);(((b)+)?)^-1)
let r = a* * b ==> ((a)*xb)
let r = a* ~empty 0 ==> (a)*
let r = a * ~b ==> (ax~(b))
let r = domain(a) | range(b) | [{}] | 0 | _ ==> (domain(a)|(range(b)|(id({})|(0|_))))
# faults
let r = a and r = b ==> 52 Syntax 14
let r = a) ==> 52 Syntax 9
let r = ==> 52 Syntax 7
let _ = a ==> 52 Syntax 4
let r = 1 ==> 52 Syntax 8
let r = a and r (x) = b ==> 52 Syntax 14
let r = a ++ b ==> 53 Unsupported ++
let r = if a ==> 53 Unsupported if
include \"a b\" ==> 52 Syntax 8
(* (* *) ==> 51 Text 3 OpenComment
# hostile input row 4
empty @(@64@0@)@64@ ==> a tree
empty @(@65@0 ==> 54 TooDeep
empty rf@ | rf@2047@ ==> a tree
empty rf@ | rf@2048@) ==> 55 TooLarge
empty rf@ | rf@2046@ | ) ==> 52 Syntax 10241
empty rf@ | rf@2047@ show ) ==> 52 Syntax 10249";

/// Whether a text is a tree or a fault of a text.
fn is_answered(alloc: Global, text: &[u8]) -> Result<bool, AllocError> {
    match read_cat(alloc, text) {
        Ok(_) => Ok(true),
        Err(fault) => Ok(format!(in alloc; "{fault}")?.as_str().starts_with("5")),
    }
}

/// Whether each prefix of a text is a tree or a fault of a text.
fn all_prefixes_are_answered(alloc: Global, text: &[u8]) -> Result<bool, AllocError> {
    for end in 0..text.len() {
        if !is_answered(alloc, &text[..end])? {
            return Ok(false);
        }
    }
    Ok(true)
}

/// Whether a file is equal to its copy, and to another file or not.
fn is_copied_as(file: &CatFile, other: &CatFile, equal: bool) -> Result<bool, AllocError> {
    let copy = again!(_, file.copy())?;
    Ok(copy == *file && (copy == *other) == equal && (*file == *other) == equal)
}

/// Whether two texts are models that are equal, or another to each other, and the first is equal to its copy.
pub fn compare(alloc: Global, texts: &str, equal: bool) -> Result<bool, AllocError> {
    let Some((text, other)) = texts.split_once(" <> ") else {
        return Ok(false);
    };
    let file = spelled(alloc, text)?;
    let other = spelled(alloc, other)?;
    is_copied_as(&file, &other, equal)
}

fn compares(alloc: Global, texts: &str, words: &str) -> Result<bool, AllocError> {
    compare(alloc, texts, words == "equal")
}

const EQUALITY: &str = "T flag ~empty r as none <> \"T\" flag ~ empty (r) as none ==> equal
let a = r ; s | t <> let a = (r ; s) | t ==> equal
T flag ~empty r as none <> flag ~empty r as none ==> another
T flag ~empty r as none <> U flag ~empty r as none ==> another
T flag ~empty r as none <> T ~empty r as none ==> another
T flag ~empty r as none <> T flag empty r as none ==> another
T flag ~empty r as none <> T flag ~acyclic r as none ==> another
T flag ~empty r as none <> T flag ~empty s as none ==> another
T flag ~empty r as none <> T flag ~empty r as some ==> another
T flag ~empty r as none <> T flag ~empty r ==> another
T flag ~empty r as none <> T flag ~empty r as none empty r ==> another
T flag ~empty r as none <> T ==> another
let a = r ; s | t <> let a = r ; (s | t) ==> another
let a = r <> let rec a = r ==> another
let a = r and b = s <> let b = s and a = r ==> another
show a as b <> show a ==> another
unshow a, b <> unshow a ==> another
include \"a\" <> include \"b\" ==> another
let f(x) = x <> let f (x) = (x) ==> equal
let f(x) = x <> let f(y) = y ==> another
let f(x) = x <> let g(x) = x ==> another
let f(x) = x <> let f = x ==> another
let f(x, y) = x <> let f(y, x) = x ==> another
let f(x, y) = x <> let f(x) = x ==> another
let r = f(a, b) <> let r = f (a, (b)) ==> equal
let r = f(a, b) <> let r = f(b, a) ==> another
let r = f(a, b) <> let r = f(a) ==> another
let r = f(a) <> let r = g(a) ==> another
let r = f(a) <> let r = f ==> another
let r = f(g(a), b) <> let r = f(g(a, b)) ==> another";

#[test]
fn reading_and_equality(rt: HostRuntime) {
    let alloc = rt.alloc();
    all_answered(&rt, alloc, "reading", READ, read_as);
    all_hold(&rt, alloc, "equal and unequal models", EQUALITY, compares);
    let prefixes = all_prefixes_are_answered(alloc, RC11.as_bytes());
    expect(&rt, "hostile input row 1", prefixes.unwrap_or(false));
    expect(&rt, "a text that is a model", read(alloc, RC11).is_ok());
}

/// Whether the copies of these items are equal to them.
fn are_copied(items: &[Item]) -> Result<bool, AllocError> {
    for item in items {
        if again!(_, item.copy())? != *item {
            return Ok(false);
        }
    }
    Ok(true)
}

/// Whether a file has so many items and this title, and the copies of each item and of the file are equal to them, and the file's to
/// what is read again.
fn has_copies(file: &CatFile, other: &CatFile, words: &str) -> Result<bool, AllocError> {
    let (count, title) = words.split_once(' ').unwrap_or((words, ""));
    let is_titled = match file.title() {
        Some(name) => name.bytes() == title.as_bytes(),
        None => false,
    };
    Ok(
        is_titled
            && count.parse::<usize>().ok() == Some(file.items().len())
            && are_copied(file.items())?
            && is_copied_as(file, other, true)?,
    )
}

/// Whether that holds of a text.
pub fn is_copied(alloc: Global, text: &str, words: &str) -> Result<bool, AllocError> {
    let file = read(alloc, text)?;
    let other = read(alloc, text)?;
    has_copies(&file, &other, words)
}
