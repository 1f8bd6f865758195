//! What holds of token lists and of faults.

ghost use Rattle.std.specs.Prelude.{◌≡◌, ◌≢◌, ◌≤◌, ℕ, List, length};
ghost use Rattle.wb_text.specs.declared.fault.TextFault.{TextFault};
ghost use Rattle.wb_text.specs.declared.fault.TextFault.TheVariants.{NoMemory};
ghost use Rattle.wb_text.specs.declared.token.Dialect.{Dialect};
ghost use Rattle.wb_text.specs.declared.token.Token.{Token};
ghost use Rattle.wb_text.specs.Faults.{HasCause};
ghost use Rattle.wb_text.specs.Tokens.{IsTokenList};

/// A text has at most one token list.
pub fn one_token_list()
    ensures { (dialect : Dialect) (text : List ℕ) (ts us : List Token) → IsTokenList dialect text ts → IsTokenList dialect text us → ts ≡ us }
{}

/// A text that isn't too long meets one fault at most, which so is the first from the left, and none if it has a token list.
pub fn one_fault()
    ensures one { (dialect : Dialect) (text : List ℕ) (f g : TextFault) → length text ≤ 65536 → f ≢ NoMemory → g ≢ NoMemory → HasCause dialect text f → HasCause dialect text g → f ≡ g }
    ensures none { (dialect : Dialect) (text : List ℕ) (f : TextFault) (ts : List Token) → length text ≤ 65536 → f ≢ NoMemory → HasCause dialect text f → ¬ IsTokenList dialect text ts }
{}
