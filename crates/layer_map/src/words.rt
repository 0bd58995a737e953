//! Lines of a text, and words of a line.

ghost use Rattle.std.specs.Prelude.{◌≡◌, ◌==◌, ◌<◌, ◌≤◌, true, false, length, position, option_map, IfSome, take, ◌-◌};
ghost use Rattle.std.specs.List.{prefix_len};
ghost use Rattle.layer_map.specs.Lines.{lines_of};
ghost use Rattle.layer_map.specs.Words.{is_blank as is_blank_lem, is_sign as is_sign_lem, is_plain as is_plain_lem, words_of};
ghost use Rattle.layer_map.specs.Readers.{behind as behind_lem, first_of, without_cr};

/// The line without a CR at its end.
fn without_return(line: &[u8]) -> &[u8]
    ensures { result.now ≡ without_cr line.now }
{
    let Some((last, front)) = line.split_last() else {
        return line;
    };
    if *last == b'\r' { front } else { line }
}

/// The place of the first LF.
fn line_end(bytes: &[u8]) -> Option<usize>
    ensures { result ≡ position (λ b. b == 10) bytes.now }
{
    bytes.iter().position(|byte| *byte == b'\n')
}

/// The first line, and the bytes behind it; none where there are no bytes.
pub(crate) fn next_line(bytes: &[u8]) -> Option<(&[u8], &[u8])>
    ensures line { option_map (λ x. (x.0.now, lines_of x.1.now)) result ≡ first_of (lines_of bytes.now) }
    ensures shorter { IfSome result (λ x. length x.1.now < length bytes.now) }
{
    if bytes.is_empty() {
        return None;
    }
    match line_end(bytes) {
        None => Some((bytes, &bytes[bytes.len()..])),
        Some(end) => Some((without_return(&bytes[..end]), &bytes[end + 1..])),
    }
}

fn is_blank(byte: u8) -> bool
    ensures { result ≡ is_blank_lem byte }
{
    byte == b' ' || byte == b'\t'
}

fn is_sign(byte: u8) -> bool
    ensures { result ≡ is_sign_lem byte }
{
    matches!(byte, b'+' | b'*' | b'!' | b'(' | b')' | b':')
}

fn is_plain(signs: bool, byte: u8) -> bool
    ensures { result ≡ is_plain_lem signs byte }
{
    !(is_blank(byte) || (signs && is_sign(byte)))
}

/// How many blanks stand first.
fn blanks(bytes: &[u8]) -> usize
    ensures value { result ≡ prefix_len is_blank_lem bytes.now }
    ensures within { result ≤ length bytes.now }
{
    bytes.iter().take_while(|byte| is_blank(**byte)).count()
}

/// How many bytes stand first that make one word.
fn plain_bytes(signs: bool, bytes: &[u8]) -> usize
    ensures value { result ≡ prefix_len (is_plain_lem signs) bytes.now }
    ensures within { result ≤ length bytes.now }
{
    bytes
        .iter()
        .take_while(|byte| is_plain(signs, **byte))
        .count()
}

/// The first word and the bytes behind it, where a line is cut with signs or at its blanks alone.
pub(crate) fn cut(signs: bool, bytes: &[u8]) -> Option<(&[u8], &[u8])>
    ensures word { option_map (λ x. (x.0.now, words_of signs x.1.now)) result ≡ first_of (words_of signs bytes.now) }
    ensures shorter { IfSome result (λ x. length x.1.now < length bytes.now) }
{
    let rest = &bytes[blanks(bytes)..];
    if rest.is_empty() {
        return None;
    }
    let len = plain_bytes(signs, rest).max(1);
    Some((&rest[..len], &rest[len..]))
}

/// The first word and the bytes behind it, where each sign is a word by itself.
pub(crate) fn next_word(bytes: &[u8]) -> Option<(&[u8], &[u8])>
    ensures word { option_map (λ x. (x.0.now, words_of true x.1.now)) result ≡ first_of (words_of true bytes.now) }
    ensures shorter { IfSome result (λ x. length x.1.now < length bytes.now) }
{
    cut(true, bytes)
}

/// The first word and the bytes behind it, where words are cut at blanks alone.
pub(crate) fn next_name(bytes: &[u8]) -> Option<(&[u8], &[u8])>
    ensures word { option_map (λ x. (x.0.now, words_of false x.1.now)) result ≡ first_of (words_of false bytes.now) }
    ensures shorter { IfSome result (λ x. length x.1.now < length bytes.now) }
{
    cut(false, bytes)
}

/// What stands behind this word.
pub(crate) fn behind<'a>(word: &[u8], bytes: &'a [u8]) -> Option<&'a [u8]>
    ensures words { option_map (λ x. words_of true x.now) result ≡ behind_lem word.now (words_of true bytes.now) }
    ensures shorter { IfSome result (λ x. length x.now < length bytes.now) }
{
    let (first, rest) = next_word(bytes)?;
    if first == word { Some(rest) } else { None }
}
