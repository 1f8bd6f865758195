//! What holds of the tests of texts.

ghost use Rattle.std.specs.Prelude.{◌≡◌, ◌≢◌, ◌≤◌, ℕ, List, length};
ghost use Rattle.litmus_c.specs.Reads.{BreaksRule, IsRefused, Reads};
ghost use Rattle.litmus_c.specs.declared.fault.TestFault.{TestFault};
ghost use Rattle.litmus_c.specs.declared.fault.TestFault.TheVariants.{NoMemory};
ghost use Rattle.litmus_tree.specs.Tree.{Litmus};

use wb_text::laws::{one_fault, one_token_list};

/// A text spells at most one test.
pub fn one_test()
    ensures { (text : List ℕ) (s t : Litmus) → Reads text s → Reads text t → s ≡ t }
{
    one_token_list();
}

/// A test that is written in a text is refused for one rule or limit at most: of those that it breaks the first of 19, 20, 14, 15, 16, 22, 23, 21.
pub fn first_refusal()
    ensures { (text : List ℕ) (e f : TestFault) → e ≢ NoMemory → f ≢ NoMemory → BreaksRule text e → BreaksRule text f → e ≡ f }
{
    one_token_list();
}

/// A text that isn't too long is refused for one reason at most: the first fault of its tokens; else, at 12, 13, 17 and 18, what reading from the
/// left first comes to; else the first rule or limit that the written test breaks.
pub fn one_refusal()
    ensures { (text : List ℕ) (e f : TestFault) → length text ≤ 65536 → e ≢ NoMemory → f ≢ NoMemory → IsRefused text e → IsRefused text f → e ≡ f }
{
    one_token_list();
    one_fault();
}
