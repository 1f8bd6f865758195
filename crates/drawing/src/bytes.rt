//! Bytes behind bytes.

ghost use Rattle.std.specs.Prelude.{◌≡◌, ◌++◌, ◌%◌, ◌+◌, OnOk, decimal};
ghost use Rattle.drawing.specs.Naming.{letter, letters};

use itoa::Buffer;
use std::alloc::AllocError;

/// Adds the bytes. On an error nothing is added.
pub(crate) fn push_bytes(out: &mut Vec<u8>, bytes: &[u8]) -> Result<(), AllocError>
    ensures { OnOk result (out.new.items ≡ out.old.items ++ bytes.now) }
{
    out.extend_from_slice(bytes)
}

/// Adds the number in decimal digits. On an error nothing is added.
pub(crate) fn push_number(out: &mut Vec<u8>, number: usize) -> Result<(), AllocError>
    ensures { OnOk result (out.new.items ≡ out.old.items ++ decimal number) }
{
    let mut digits = Buffer::new();
    push_bytes(out, digits.format(number).as_bytes())
}

/// The letter with this number, where `a` has the number 0 and follows `z`.
fn letter(number: usize) -> u8
    ensures { result ≡ letter number }
{
    b'a' + (number % 26) as u8
}

/// Adds the letters with this number: `a`, `b`, .. `z`, and then `aa`, `ab`, ..
pub(crate) fn push_letters(out: &mut Vec<u8>, number: usize) -> Result<(), AllocError>
    ensures { OnOk result (out.new.items ≡ out.old.items ++ letters number) }
{
    let round = number / 26;
    if round == 0 {
        return push_bytes(out, &[letter(number)]);
    }
    push_bytes(out, &[letter(round - 1), letter(number)])
}
