//! Classes of bytes, and runs of one class.

ghost use Rattle.std.specs.Prelude.{◌≡◌};
ghost use Rattle.std.specs.List.{prefix_len};
ghost use Rattle.wb_text.specs.Bytes.{begins_blank, is_blank, is_digit, is_name_start, is_of};

use crate::token::Dialect;

/// What the bytes of a run have in common.
#[derive(Clone, Copy)]
pub enum Class {
    /// No blank.
    Word,
    /// A decimal digit.
    Digit,
    /// What a name goes on with.
    Name(Dialect),
}

impl Class {
    fn has(self, byte: u8) -> bool
        ensures { result ≡ is_of self byte }
    {
        match self {
            Class::Word => !is_blank(byte),
            Class::Digit => is_digit(byte),
            Class::Name(Dialect::Litmus) => byte.is_ascii_alphanumeric() || byte == b'_',
            Class::Name(Dialect::Cat) => {
                byte.is_ascii_alphanumeric() || byte == b'_' || byte == b'.' || byte == b'-'
            }
        }
    }
}

/// A space, a tab, a carriage return or a line feed.
pub fn is_blank(byte: u8) -> bool
    ensures { result ≡ is_blank byte }
{
    byte == b' ' || byte == b'\t' || byte == b'\r' || byte == b'\n'
}

/// Whether a text begins with a blank.
pub fn begins_blank(text: &[u8]) -> bool
    ensures { result ≡ begins_blank text.now }
{
    match text {
        [byte, ..] => is_blank(*byte),
        [] => false,
    }
}

/// A decimal digit.
pub fn is_digit(byte: u8) -> bool
    ensures { result ≡ is_digit byte }
{
    byte.is_ascii_digit()
}

/// What a name begins with.
pub fn is_name_start(byte: u8) -> bool
    ensures { result ≡ is_name_start byte }
{
    byte.is_ascii_alphabetic() || byte == b'_'
}

/// How many bytes at the front of a text are of a class.
pub fn run_len(text: &[u8], class: Class) -> usize
    ensures { result ≡ prefix_len (is_of class) text.now }
{
    for (i, byte) in text.iter().enumerate() {
        if !class.has(*byte) {
            return i;
        }
    }
    text.len()
}
