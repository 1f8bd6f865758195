//! Laws of the grammar. They have no effect.

ghost use Rattle.std.specs.Prelude.{◌≡◌, ◌+◌, ℕ, List, take};
ghost use Rattle.cat_syntax.specs.Items.{IsFile};
ghost use Rattle.cat_syntax.specs.Reads.{Reads};
ghost use Rattle.cat_syntax.specs.Stops.{StopsAt};
ghost use Rattle.cat_tree.specs.Tree.{File};
ghost use Rattle.cat_syntax.specs.declared.syntax_fault.SyntaxFault.{SyntaxFault};
ghost use Rattle.cat_syntax.specs.declared.symbol.Symbol.{Symbol};

use wb_text::laws::one_token_list;

/// Reading stops at one place, for one cause, and no model begins with the symbols up to there and the two behind.
#[tactic(auto, using(crate::proofs::Places::one_stop, crate::proofs::Places::none_begins))]
pub fn first_fault()
    ensures one { (ss : List Symbol) (c d : SyntaxFault) (m n : ℕ) → StopsAt ss c m → StopsAt ss d n → (c ≡ d) × (m ≡ n) }
    ensures none { (ss us : List Symbol) (c : SyntaxFault) (place : ℕ) (f : File) → StopsAt ss c place → take (place + 3) us ≡ take (place + 3) ss → ¬ IsFile us f }
{}

/// No symbols are two models.
#[tactic(auto, using(crate::proofs::ItemsComplete::one_reading))]
pub fn one_reading()
    ensures { (ss : List Symbol) (f g : File) → IsFile ss f → IsFile ss g → f ≡ g }
{}

/// No text spells two models.
pub fn one_tree()
    ensures { (text : List ℕ) (f g : File) → Reads text f → Reads text g → f ≡ g }
{
    one_token_list();
}
