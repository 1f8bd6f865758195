//! Equality of works, pieces, results and verdicts: two are equal exactly where their values are.

ghost use Rattle.std.specs.Prelude.{◌≡◌, ◌↔◌, IsTrue};
ghost use Rattle.slices.specs.Codes.{coded_work, coded_finding, coded_piece, coded_piece_result, coded_verdict};
ghost use Rattle.slices.specs.Same.{same, same_finding, same_equivalence, same_partial_equivalence};

use crate::finding::{Finding, FindingRef};
use crate::piece::{Piece, PieceResult};
use crate::verdict::{Verdict, VerdictRef};
use crate::work::{Work, WorkRef};

impl PartialEq for Work {
    ghost eq = { same coded_work };

    ghost laws = { same_partial_equivalence coded_work };

    fn eq(&self, other: &Work) -> bool
        ensures value { result ≡ same coded_work self.now other.now }
        ensures exact { IsTrue result ↔ (self.now ≡ other.now) }
    {
        self.is_same(other)
    }
}

impl Eq for Work {
    ghost laws = { same_equivalence coded_work };
}

impl PartialEq for WorkRef {
    ghost eq = { same coded_work };

    ghost laws = { same_partial_equivalence coded_work };

    fn eq(&self, other: &WorkRef) -> bool
        ensures value { result ≡ same coded_work self.now other.now }
        ensures exact { IsTrue result ↔ (self.now ≡ other.now) }
    {
        self.same(other)
    }
}

impl Eq for WorkRef {
    ghost laws = { same_equivalence coded_work };
}

impl PartialEq for Finding {
    ghost eq = { same coded_finding };

    ghost laws = { same_partial_equivalence coded_finding };

    fn eq(&self, other: &Finding) -> bool
        ensures value { result ≡ same coded_finding self.now other.now }
        ensures exact { IsTrue result ↔ (self.now ≡ other.now) }
    {
        self.is_same(other)
    }
}

impl Eq for Finding {
    ghost laws = { same_equivalence coded_finding };
}

impl PartialEq for FindingRef {
    ghost eq = { same coded_finding };

    ghost laws = { same_partial_equivalence coded_finding };

    fn eq(&self, other: &FindingRef) -> bool
        ensures value { result ≡ same coded_finding self.now other.now }
        ensures exact { IsTrue result ↔ (self.now ≡ other.now) }
    {
        self.is_same(other)
    }
}

impl Eq for FindingRef {
    ghost laws = { same_equivalence coded_finding };
}

impl PartialEq for Piece {
    ghost eq = { same coded_piece };

    ghost laws = { same_partial_equivalence coded_piece };

    fn eq(&self, other: &Piece) -> bool
        ensures value { result ≡ same coded_piece self.now other.now }
        ensures exact { IsTrue result ↔ (self.now ≡ other.now) }
    {
        self.is_same(other)
    }
}

impl Eq for Piece {
    ghost laws = { same_equivalence coded_piece };
}

impl PartialEq for PieceResult {
    ghost eq = { same coded_piece_result };

    ghost laws = { same_partial_equivalence coded_piece_result };

    fn eq(&self, other: &PieceResult) -> bool
        ensures value { result ≡ same coded_piece_result self.now other.now }
        ensures exact { IsTrue result ↔ (self.now ≡ other.now) }
    {
        self.is_same(other)
    }
}

impl Eq for PieceResult {
    ghost laws = { same_equivalence coded_piece_result };
}

impl PartialEq for Verdict {
    ghost eq = { same coded_verdict };

    ghost laws = { same_partial_equivalence coded_verdict };

    fn eq(&self, other: &Verdict) -> bool
        ensures value { result ≡ same coded_verdict self.now other.now }
        ensures exact { IsTrue result ↔ (self.now ≡ other.now) }
    {
        self.is_same(other)
    }
}

impl Eq for Verdict {
    ghost laws = { same_equivalence coded_verdict };
}

impl PartialEq for VerdictRef {
    ghost eq = { same coded_verdict };

    ghost laws = { same_partial_equivalence coded_verdict };

    fn eq(&self, other: &VerdictRef) -> bool
        ensures value { result ≡ same coded_verdict self.now other.now }
        ensures exact { IsTrue result ↔ (self.now ≡ other.now) }
    {
        self.is_same(other)
    }
}

impl Eq for VerdictRef {
    ghost laws = { same_equivalence coded_verdict };
}

impl Finding {
    /// Whether the values are equal.
    #[tactic(auto, using(crate::specs::Same::finding_exact))]
    pub(crate) fn is_same(&self, other: &Finding) -> bool
        ensures { IsTrue result ↔ (self.now ≡ other.now) }
    {
        self.has_parts_of(other)
    }

    fn has_parts_of(&self, other: &Finding) -> bool
        ensures { result ≡ same_finding self.now other.now }
    {
        self.name() == other.name()
            && self.kind() == other.kind()
            && self.prop() == other.prop()
            && self.places() == other.places()
            && self.positive() == other.positive()
            && self.negative() == other.negative()
            && self.states() == other.states()
            && self.flags() == other.flags()
    }
}

impl FindingRef {
    /// Whether the values are equal.
    pub(crate) fn is_same(&self, other: &FindingRef) -> bool
        ensures { IsTrue result ↔ (self.now ≡ other.now) }
    {
        self.finding().is_same(other.finding())
    }
}

impl VerdictRef {
    /// Whether the values are equal.
    pub(crate) fn is_same(&self, other: &VerdictRef) -> bool
        ensures { IsTrue result ↔ (self.now ≡ other.now) }
    {
        self.verdict().is_same(other.verdict())
    }
}

impl Piece {
    /// Whether the values are equal.
    pub(crate) fn is_same(&self, other: &Piece) -> bool
        ensures { IsTrue result ↔ (self.now ≡ other.now) }
    {
        self.claim() == other.claim()
            && self.job() == other.job()
            && self.slice() == other.slice()
            && self.from() == other.from()
            && self.to() == other.to()
            && self.work().same(other.work())
    }
}

impl PieceResult {
    /// Whether the values are equal.
    pub(crate) fn is_same(&self, other: &PieceResult) -> bool
        ensures { IsTrue result ↔ (self.now ≡ other.now) }
    {
        self.piece().is_same(other.piece()) && self.found().is_same(other.found())
    }
}

impl Verdict {
    /// Whether the values are equal.
    pub(crate) fn is_same(&self, other: &Verdict) -> bool
        ensures { IsTrue result ↔ (self.now ≡ other.now) }
    {
        self.work().same(other.work())
            && self.version() == other.version()
            && self.finding().is_same(other.finding())
    }
}
