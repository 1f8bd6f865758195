//! Equality of what contracts see by a view of their own: two are equal exactly where their values are. The rest derives it.

ghost use Rattle.std.specs.Prelude.{◌≡◌, ◌↔◌, IsTrue};
ghost use Rattle.std.specs.Str.{bytes_eq};
ghost use Rattle.journal.specs.LineCodes.{coded_line};
ghost use Rattle.journal.specs.ListCodes.{coded_catalogue};
ghost use Rattle.slices.specs.Same.{same, same_equivalence, same_partial_equivalence};

use crate::listing::{JobRow, Listing, Loaded};
use crate::records::{Entry, Reply, Said, Text};

impl PartialEq for Text {
    ghost use Rattle.std.proofs.Common.{rules};
    ghost use Rattle.std.specs.Cmp.Rules.{comparing};

    ghost eq = { bytes_eq };

    ghost laws = { Prim.search (comparing, rules) };

    fn eq(&self, other: &Text) -> bool
        ensures value { result ≡ bytes_eq self.now other.now }
        ensures exact { IsTrue result ↔ (self.now ≡ other.now) }
    {
        self.bytes() == other.bytes()
    }
}

impl Eq for Text {
    ghost use Rattle.std.proofs.Common.{rules};
    ghost use Rattle.std.specs.Cmp.Rules.{comparing};

    ghost laws = { Prim.search (comparing, rules) };
}

impl PartialEq for Listing {
    ghost eq = { same coded_catalogue };

    ghost laws = { same_partial_equivalence coded_catalogue };

    fn eq(&self, other: &Listing) -> bool
        ensures value { result ≡ same coded_catalogue self.now other.now }
        ensures exact { IsTrue result ↔ (self.now ≡ other.now) }
    {
        self.has_parts_of(other)
    }
}

impl Eq for Listing {
    ghost laws = { same_equivalence coded_catalogue };
}

impl Listing {
    fn has_parts_of(&self, other: &Listing) -> bool
        ensures { IsTrue result ↔ (self.now ≡ other.now) }
    {
        are_same_names(self.tests(), other.tests())
            && are_same_names(self.cats(), other.cats())
            && are_same_jobs(self.jobs(), other.jobs())
    }
}

impl PartialEq for Entry {
    ghost eq = { same coded_line };

    ghost laws = { same_partial_equivalence coded_line };

    fn eq(&self, other: &Entry) -> bool
        ensures value { result ≡ same coded_line self.now other.now }
        ensures exact { IsTrue result ↔ (self.now ≡ other.now) }
    {
        self.has_parts_of(other)
    }
}

impl Eq for Entry {
    ghost laws = { same_equivalence coded_line };
}

impl Entry {
    fn has_parts_of(&self, other: &Entry) -> bool
        ensures { IsTrue result ↔ (self.now ≡ other.now) }
    {
        self.place() == other.place()
            && self.seat() == other.seat()
            && is_same_command(self.said(), other.said())
            && is_same_reply(self.reply(), other.reply())
    }
}

// What `==` tells of each part, in functions of their own: the prover puts no more than one together.
fn are_same_names(one: &[Loaded], other: &[Loaded]) -> bool
    ensures { IsTrue result ↔ (one.now ≡ other.now) }
{
    one == other
}

fn are_same_jobs(one: &[JobRow], other: &[JobRow]) -> bool
    ensures { IsTrue result ↔ (one.now ≡ other.now) }
{
    one == other
}

#[tactic(auto, using(crate::proofs::Exact::said_exact))]
fn is_same_command(one: &Said, other: &Said) -> bool
    ensures { IsTrue result ↔ (one.now ≡ other.now) }
{
    one == other
}

#[tactic(auto, using(crate::proofs::Exact::reply_exact))]
fn is_same_reply(one: &Reply, other: &Reply) -> bool
    ensures { IsTrue result ↔ (one.now ≡ other.now) }
{
    one == other
}
