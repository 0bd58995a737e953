//! Comments.

ghost use Rattle.std.specs.Prelude.{◌≡◌, option_map};
ghost use Rattle.cif_grammar.specs.Readers.{closing};

/// What stands behind a comment, given what stands behind its `(`.
pub(crate) fn after_comment(bytes: &[u8]) -> Option<&[u8]>
    ensures { option_map (λ x. x.now) result ≡ closing 0 bytes.now }
{
    let mut depth = 0usize;
    for (place, byte) in bytes.iter().enumerate() {
        if *byte == b'(' {
            depth += 1;
        } else if *byte == b')' {
            if depth == 0 {
                return Some(&bytes[place + 1..]);
            }
            depth -= 1;
        }
    }
    None
}
