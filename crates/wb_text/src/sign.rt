//! Punctuation signs and operators.

ghost use Rattle.std.specs.Prelude.{◌≡◌, ◌<◌, ◌≤◌, ℕ, length, map, take};
ghost use Rattle.std.specs.List.{Contains};
ghost use Rattle.wb_text.specs.Signs.{signs};

use crate::token::Dialect;

const LITMUS_SIGNS: [&[u8]; 20] = [
    b"{", b"}", b"(", b")", b"[", b"]", b";", b":", b",", b"=", b"*", b"~", b"!", b"==", b"!=",
    b"&&", b"||", b"/\\", b"\\/", b"=>",
];

const CAT_SIGNS: [&[u8]; 18] = [
    b"(", b")", b"[", b"]", b"{", b"}", b",", b"=", b"|", b";", b"\\", b"&", b"*", b"~", b"+",
    b"?", b"^-1", b"++",
];

fn signs(dialect: Dialect) -> &'static [&'static [u8]]
    ensures { map (λ s. s.now) result.now ≡ signs dialect }
{
    match dialect {
        Dialect::Litmus => LITMUS_SIGNS.as_slice(),
        Dialect::Cat => CAT_SIGNS.as_slice(),
    }
}

/// How long the longest sign is that a text begins with. 0: there is none.
pub fn sign_len(text: &[u8], dialect: Dialect) -> usize
    ensures within { result ≤ length text.now }
    ensures sign { 0 < result → Contains (signs dialect) (take result text.now) }
    ensures longest { (m : ℕ) → m ≤ length text.now → Contains (signs dialect) (take m text.now) → m ≤ result }
{
    let mut longest = 0usize;
    for sign in signs(dialect) {
        if text.starts_with(*sign) {
            longest = longest.max(sign.len());
        }
    }
    longest
}
