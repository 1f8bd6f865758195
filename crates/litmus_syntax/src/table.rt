//! Tables of words.

ghost use Rattle.std.specs.Prelude.{◌≡◌, map};
ghost use Rattle.litmus_syntax.specs.Symbols.{looked_up};

/// What stands beside the first row that spells these bytes.
pub fn looked_up<T: Copy>(rows: &[(&[u8], T)], bytes: &[u8]) -> Option<T>
    ensures { result ≡ looked_up (map (λ r. (r.0.now, r.1)) rows.now) bytes.now }
{
    for row in rows {
        if bytes == row.0 {
            return Some(row.1);
        }
    }
    None
}
