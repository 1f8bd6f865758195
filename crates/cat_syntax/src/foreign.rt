//! Words and signs of herd7's language that this one leaves out.

ghost use Rattle.std.specs.Prelude.{◌≡◌};
ghost use Rattle.cat_syntax.specs.Symbols.{foreign_spelling, is_left_out as leaves_out};

/// A word or a sign that is left out.
#[derive(Clone, Copy)]
pub enum Foreign {
    With,
    From,
    Procedure,
    Call,
    Match,
    Enum,
    If,
    Then,
    Else,
    End,
    Fun,
    In,
    Forall,
    Do,
    Try,
    Begin,
    Instructions,
    Default,
    UndefinedUnless,
    PlusPlus,
}

const FOREIGNS: [Foreign; 20] = [
    Foreign::With,
    Foreign::From,
    Foreign::Procedure,
    Foreign::Call,
    Foreign::Match,
    Foreign::Enum,
    Foreign::If,
    Foreign::Then,
    Foreign::Else,
    Foreign::End,
    Foreign::Fun,
    Foreign::In,
    Foreign::Forall,
    Foreign::Do,
    Foreign::Try,
    Foreign::Begin,
    Foreign::Instructions,
    Foreign::Default,
    Foreign::UndefinedUnless,
    Foreign::PlusPlus,
];

impl Foreign {
    /// How it is written.
    #[tactic(auto, unfolding(crate::specs::Symbols::foreign_spelling))]
    fn spelling(self) -> &'static [u8]
        ensures { result.now ≡ foreign_spelling self }
    {
        match self {
            Foreign::With => b"with",
            Foreign::From => b"from",
            Foreign::Procedure => b"procedure",
            Foreign::Call => b"call",
            Foreign::Match => b"match",
            Foreign::Enum => b"enum",
            Foreign::If => b"if",
            Foreign::Then => b"then",
            Foreign::Else => b"else",
            Foreign::End => b"end",
            Foreign::Fun => b"fun",
            Foreign::In => b"in",
            Foreign::Forall => b"forall",
            Foreign::Do => b"do",
            Foreign::Try => b"try",
            Foreign::Begin => b"begin",
            Foreign::Instructions => b"instructions",
            Foreign::Default => b"default",
            Foreign::UndefinedUnless => b"undefined_unless",
            Foreign::PlusPlus => b"++",
        }
    }
}

/// Whether a word or a sign is left out.
#[tactic(auto, unfolding(crate::specs::Symbols::is_left_out))]
pub fn is_left_out(bytes: &[u8]) -> bool
    ensures { result ≡ leaves_out bytes.now }
{
    FOREIGNS.iter().any(|word| word.spelling() == bytes)
}
