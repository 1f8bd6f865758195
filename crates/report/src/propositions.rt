//! The texts of propositions, written along the chains that they lie in.

ghost use Rattle.std.specs.Prelude.{◌≡◌, ◌≤◌, ◌++◌, map, take, length};
ghost use Rattle.conditions.specs.Conditions.{atomic, growth_of, formula_of};
ghost use Rattle.report.specs.Chains as chains;
ghost use Rattle.report.specs.Texts as texts;
ghost use Rattle.report.specs.Writing.{Writes};
ghost use Rattle.report.specs.declared.propositions.Root.TheVariants.{Simple};

use crate::parts::{write_bytes, write_parts};
use conditions::{Atom, Connective, Link, Place, Prop};
use itoa::Buffer;
use wb_text::{Failed, Sink};

/// What stands at the root of a formula.
#[derive(Clone, Copy, Debug, PartialEq, Eq)]
pub enum Root {
    /// An atom or a negation.
    Simple,
    Joined(Connective),
}

impl Root {
    fn is_simple(self) -> bool
        ensures { result ≡ chains.is_simple self }
    {
        match self {
            Root::Simple => true,
            Root::Joined(_) => false,
        }
    }

    /// Whether it is this connective.
    fn is_of(self, connective: Connective) -> bool
        ensures { result ≡ chains.is_of connective self }
    {
        match self {
            Root::Simple => false,
            Root::Joined(other) => connective == other,
        }
    }
}

/// Whether a connective's left operand with this root stands bare.
fn is_bare_left(connective: Connective, root: Root) -> bool
    ensures { result ≡ chains.is_bare_left connective root }
{
    match connective {
        Connective::And | Connective::Or => root.is_simple() || root.is_of(connective),
        Connective::Implies => root.is_simple(),
    }
}

/// Whether a connective's right operand with this root stands bare.
fn is_bare_right(connective: Connective, root: Root) -> bool
    ensures { result ≡ chains.is_bare_right connective root }
{
    match connective {
        Connective::And | Connective::Or => root.is_simple(),
        Connective::Implies => root.is_simple() || root.is_of(connective),
    }
}

fn sign(connective: Connective) -> &'static [u8]
    ensures { result.now ≡ chains.sign connective }
{
    match connective {
        Connective::And => b" /\\ ",
        Connective::Or => b" \\/ ",
        Connective::Implies => b" => ",
    }
}

fn opening(bare: bool) -> &'static [u8]
    ensures { result.now ≡ texts.opening bare }
{
    if bare { b"" } else { b"(" }
}

fn closing(bare: bool) -> &'static [u8]
    ensures { result.now ≡ texts.closing bare }
{
    if bare { b"" } else { b")" }
}

fn denial(bare: bool) -> &'static [u8]
    ensures { result.now ≡ chains.denial bare }
{
    if bare { b"~" } else { b"~(" }
}

/// The root of the formula that a link makes.
fn root_by(link: &Link) -> Root
    ensures { result ≡ chains.root_by (growth_of link.now) }
{
    match link {
        Link::Not => Root::Simple,
        Link::Join(connective, _) => Root::Joined(*connective),
    }
}

/// What a link puts in front of all that stands before it, with this root.
fn front(link: &Link, root: Root) -> &'static [u8]
    ensures { result.now ≡ chains.front (growth_of link.now) root }
{
    match link {
        Link::Not => denial(root.is_simple()),
        Link::Join(connective, _) => opening(is_bare_left(*connective, root)),
    }
}

/// The root of the formula before the link at this index.
#[tactic(auto, using(crate::proofs::Printing::root_at))]
fn root_before(links: &Vec<Link>, index: usize) -> Root
    requires within { index ≤ length links.now.items }
    ensures { result ≡ chains.root_after Simple (map growth_of (take index links.now.items)) }
{
    if index == 0 {
        return Root::Simple;
    }
    root_by(&links[index - 1])
}

#[tactic(auto, using(crate::proofs::Printing::root_of_all))]
fn root_of(prop: &Prop) -> Root
    ensures { result ≡ chains.root (formula_of prop.now) }
{
    root_before(&prop.rest, prop.rest.len())
}

/// Writes a place and its value.
pub(crate) fn write_atom<W: Sink>(place: &Place, value: u32, writer: &mut W) -> Result<(), Failed>
    ensures { Writes W.held W.has_failed writer.old writer.new result
        (texts.atom_text place.now value) }
{
    let mut number = Buffer::new();
    let value = number.format(value).as_bytes();
    match place {
        Place::Reg(thread, name) => {
            let mut number = Buffer::new();
            let thread = number.format(*thread).as_bytes();
            write_parts(&[thread, b":", name.bytes(), b"=", value], writer)
        }
        Place::Loc(name) => write_parts(&[b"[", name.bytes(), b"]=", value], writer),
    }
}

fn write_first<W: Sink>(atom: &Atom, writer: &mut W) -> Result<(), Failed>
    ensures { Writes W.held W.has_failed writer.old writer.new result
        (texts.formula_text (atomic atom.now)) }
{
    match atom {
        Atom::True => write_bytes(b"true", writer),
        Atom::False => write_bytes(b"false", writer),
        Atom::Equals(place, value) => write_atom(place, *value, writer),
    }
}

/// Writes what the links put in front, the last link's first.
fn write_fronts<W: Sink>(links: &Vec<Link>, writer: &mut W) -> Result<(), Failed>
    ensures { Writes W.held W.has_failed writer.old writer.new result
        (chains.fronts Simple (map growth_of links.now.items)) }
{
    let mut left = links.len();
    while left > 0 {
        left -= 1;
        write_bytes(front(&links[left], root_before(links, left)), writer)?;
    }
    Ok(())
}

/// Writes the text. Recursion goes into right operands alone.
#[cycle(propositions)]
pub(crate) fn write_prop<W: Sink>(prop: &Prop, writer: &mut W) -> Result<(), Failed>
    ensures { Writes W.held W.has_failed writer.old writer.new result
        (texts.formula_text (formula_of prop.now)) }
{
    write_fronts(&prop.rest, writer)?;
    write_first(&prop.first, writer)?;
    write_backs(&prop.rest, writer)
}

/// Writes what the links put behind, the first link's first.
#[cycle(propositions)]
fn write_backs<W: Sink>(links: &Vec<Link>, writer: &mut W) -> Result<(), Failed>
    ensures { Writes W.held W.has_failed writer.old writer.new result
        (chains.backs Simple (map growth_of links.now.items)) }
{
    let mut root = Root::Simple;
    for link in links {
        write_back(link, root, writer)?;
        root = root_by(link);
    }
    Ok(())
}

/// Writes what a link puts behind all that stands before it, with this root.
#[cycle(propositions)]
#[tactic(auto, using(conditions::specs::Chains::join_is))]
fn write_back<W: Sink>(link: &Link, root: Root, writer: &mut W) -> Result<(), Failed>
    ensures { Writes W.held W.has_failed writer.old writer.new result
        (chains.back (growth_of link.now) root) }
{
    match link {
        Link::Not => write_bytes(closing(root.is_simple()), writer),
        Link::Join(connective, operand) => write_joined(*connective, operand, root, writer),
    }
}

/// Writes what ends a connective's left operand with this root.
fn write_closing<W: Sink>(connective: Connective, root: Root, writer: &mut W) -> Result<(), Failed>
    ensures { Writes W.held W.has_failed writer.old writer.new result
        (texts.closing (chains.is_bare_left connective root)) }
{
    write_bytes(closing(is_bare_left(connective, root)), writer)
}

/// Writes a connective and its right operand, behind a left operand with this root.
#[cycle(propositions)]
fn write_joined<W: Sink>(
    connective: Connective,
    operand: &Prop,
    root: Root,
    writer: &mut W,
) -> Result<(), Failed>
    ensures { Writes W.held W.has_failed writer.old writer.new result
        (chains.joined connective (formula_of operand.now) root) }
{
    write_closing(connective, root, writer)?;
    write_bytes(sign(connective), writer)?;
    write_operand(operand, is_bare_right(connective, root_of(operand)), writer)
}

/// Writes a proposition, in parentheses unless it stands bare.
#[cycle(propositions)]
fn write_operand<W: Sink>(prop: &Prop, bare: bool, writer: &mut W) -> Result<(), Failed>
    ensures { Writes W.held W.has_failed writer.old writer.new result
        (texts.operand bare (texts.formula_text (formula_of prop.now))) }
{
    write_bytes(opening(bare), writer)?;
    write_prop(prop, writer)?;
    write_bytes(closing(bare), writer)
}
