//! What the work of a worker comes to, in other words. The functions do nothing: their contracts are the laws.

ghost use Rattle.std.specs.Prelude.{◌≡◌, List};
ghost use Rattle.journal.specs.Lines.{Line};
ghost use Rattle.sessions.specs.declared.passes.Counts.{Counts};
ghost use Rattle.workers.specs.declared.working.Form.{Form};
ghost use Rattle.workers.specs.Trace.{Stage, IsWorkFrom, returns};
ghost use Rattle.workers.specs.Words.{EachFollowed, BackIsLast, EndsIn};

/// Each claim that was given is followed by one return of its piece, or by one give-back of it.
pub fn each_followed()
    ensures { (form : Form) (counts : Counts) (added : List Line) → IsWorkFrom form Stage.Free counts added → EachFollowed counts.refused added }
{}

/// A give-back is the last receipt.
pub fn back_is_last()
    ensures { (form : Form) (counts : Counts) (added : List Line) → IsWorkFrom form Stage.Free counts added → BackIsLast added }
{}

/// Where the count of refusals is 0, there is a last receipt, which ended the worker, and each evaluation was returned.
pub fn where_none_refused()
    ensures { (form : Form) (counts : Counts) (added : List Line) → IsWorkFrom form Stage.Free counts added → counts.refused ≡ 0 → EndsIn form added × (counts.evaluated ≡ returns added) }
{}
