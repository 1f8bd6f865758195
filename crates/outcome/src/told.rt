//! What is told of one test.

ghost use Rattle.std.specs.Prelude.{◌≡◌, ◌++◌, [], map, length, false, IfOk, OnOk, string_bytes};
ghost use Rattle.std.specs.List.{zip};
ghost use Rattle.outcome.specs.Forms.{differ, lines_text};
ghost use Rattle.outcome.specs.Reasons.{AreExplained};
ghost use Rattle.outcome.specs.Refusals as refusals;
ghost use Rattle.outcome.specs.Rows.{texts_of, verdict_rows, if_kept};

use crate::explaining::push_reasons;
use crate::form::{Tested, Wanted};
use crate::refusal::{label_of, message_of, push_refused, push_refused_lines};
use crate::verdicts::{cells_for, push_lines, push_rows};
use slices::Verdict;
use std::alloc::{AllocError, Global};
use suite::{Row, TestTrouble, are_alike};

/// What is told of one test.
pub struct Told {
    /// What is printed.
    pub lines: Vec<u8>,
    /// Why the verdicts are what they are, as text.
    pub why: Vec<u8>,
    /// The same for Graphviz.
    pub dot: Vec<u8>,
    /// What is compared or stored.
    pub rows: Vec<Row>,
    /// What is told on standard error, or nothing.
    pub message: String,
    /// Whether the models tell different words or flags.
    pub differs: bool,
}

// A function of its own: whoever holds one drops it by a call.
impl Drop for Told {
    fn drop(self) {
        let Told {
            lines: _,
            why: _,
            dot: _,
            rows: _,
            message: _,
            differs: _,
        } = self;
    }
}

impl Told {
    /// Nothing.
    pub fn new(alloc: Global) -> Self
        ensures lines { result.lines.items ≡ [] }
        ensures why { result.why.items ≡ [] }
        ensures dot { result.dot.items ≡ [] }
        ensures rows { result.rows.items ≡ [] }
        ensures message { string_bytes result.message ≡ [] }
        ensures differs { result.differs ≡ false }
    {
        Told {
            lines: Vec::new(alloc),
            why: Vec::new(alloc),
            dot: Vec::new(alloc),
            rows: Vec::new(alloc),
            message: String::new(alloc),
            differs: false,
        }
    }

    /// Adds what is told of a test that was judged: one verdict for each of its cases, in their order.
    pub fn tell(
        &mut self,
        alloc: Global,
        wanted: &Wanted<'_>,
        test: &Tested<'_>,
        verdicts: &[Verdict],
    ) -> Result<(), AllocError>
        ensures lines { OnOk result (self.new.lines.items ≡ self.old.lines.items ++ lines_text wanted.now test.now verdicts.now) }
        ensures rows { OnOk result (map texts_of self.new.rows.items ≡ map texts_of self.old.rows.items ++ if_kept wanted.now.keeps_rows (verdict_rows test.now.cases.now verdicts.now)) }
        ensures differs { OnOk result (self.new.differs ≡ differ verdicts.now) }
        ensures message { self.new.message ≡ self.old.message }
        ensures why { self.new.why ≡ self.old.why }
        ensures dot { self.new.dot ≡ self.old.dot }
    {
        let cells = cells_for(alloc, verdicts)?;
        self.differs = !are_alike(&cells);
        push_lines(&mut self.lines, alloc, wanted, test, &cells, verdicts)?;
        if wanted.keeps_rows {
            return push_rows(&mut self.rows, alloc, test.cases, verdicts);
        }
        Ok(())
    }

    /// Adds why each verdict is what it is, under its own case. Which names the arrows of the evidence have is left open: `witness::labels` gives them, and
    /// those that tell nothing more are left out.
    pub fn explain(
        &mut self,
        alloc: Global,
        test: &Tested<'_>,
        verdicts: &[Verdict],
    ) -> Result<(), AllocError>
        ensures why { OnOk result (AreExplained self.old.why.items self.old.dot.items (zip test.now.cases.now verdicts.now) self.new.why.items self.new.dot.items) }
        ensures lines { self.new.lines ≡ self.old.lines }
        ensures rows { self.new.rows ≡ self.old.rows }
        ensures message { self.new.message ≡ self.old.message }
        ensures differs { self.new.differs ≡ self.old.differs }
    {
        push_reasons(&mut self.why, &mut self.dot, alloc, test.cases, verdicts)
    }

    /// Adds what is told of a test that is refused, under each of its cases.
    pub fn refuse(
        &mut self,
        alloc: Global,
        wanted: &Wanted<'_>,
        test: &Tested<'_>,
        trouble: &TestTrouble,
    ) -> Result<(), AllocError>
        ensures lines { OnOk result (self.new.lines.items ≡ self.old.lines.items ++ refusals.refusals_text wanted.now test.now trouble.now) }
        ensures rows { OnOk result (map texts_of self.new.rows.items ≡ map texts_of self.old.rows.items ++ if_kept wanted.now.keeps_rows (refusals.refused_rows test.now trouble.now)) }
        ensures message { OnOk result (refusals.Tells test.now.path.now test.now.text.now trouble.now (string_bytes self.new.message)) }
        ensures differs { self.new.differs ≡ self.old.differs }
        ensures why { self.new.why ≡ self.old.why }
        ensures dot { self.new.dot ≡ self.old.dot }
    {
        self.message = message_of(alloc, test.path, test.text, trouble)?;
        push_refused_lines(&mut self.lines, alloc, wanted, test, trouble)?;
        if wanted.keeps_rows {
            return push_refused(&mut self.rows, alloc, label_of(trouble), test.cases);
        }
        Ok(())
    }
}
