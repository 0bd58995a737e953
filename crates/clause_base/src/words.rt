//! The words of a formula's text.

ghost use Rattle.std.specs.Prelude.{◌≡◌, ℕ, ◌+◌, ◌<◌, ◌≤◌, Bool, [], ◌∷◌, ◌++◌, length, option_map, IfSome, IfNone};
ghost use Rattle.std.specs.List.{position_or_len};
ghost use Rattle.clause_base.specs.TextWords.{is_white as is_white_lem, is_line_feed, is_comment as is_comment_lem, parts_of, words_of};
ghost use Rattle.clause_base.specs.Readers.{word_of, first_of, cut_at, left_in_line, left_in_lines, left, size_left};

use crate::parts::Part;

/// What is left of a text: of a line, and of the lines behind it.
#[derive(Drop)]
pub(crate) struct Words<'a> {
    line: Option<Part<'a>>,
    lines: Option<Part<'a>>,
    /// The text's length.
    pub(crate) end: usize,
}

impl<'a> Words<'a> {
    /// The words of a text.
    pub(crate) fn new(text: &'a [u8]) -> Words<'a>
        ensures words { left result ≡ words_of text.now }
        ensures end { result.end ≡ length text.now }
    {
        Words {
            line: None,
            lines: Some(Part { at: 0, text }),
            end: text.len(),
        }
    }

    /// The next word.
    pub(crate) fn next(&mut self) -> Option<Part<'a>>
        ensures end { self.new.end ≡ self.old.end }
        ensures word { IfSome result (λ part. left self.old ≡ word_of part ∷ left self.new) }
        ensures none { IfNone result (left self.old ≡ []) }
    {
        loop {
            if let Some((word, rest)) = next_in_line(self.line) {
                self.line = rest;
                return Some(word);
            }
            let (line, rest) = next_line(self.lines)?;
            self.line = line;
            self.lines = rest;
        }
    }
}

/// Whether the byte is a space, tab, CR or LF.
fn is_white(byte: u8) -> bool
    ensures { result ≡ is_white_lem byte }
{
    matches!(byte, b' ' | b'\t' | b'\r' | b'\n')
}

/// How many bytes stand before the first white.
fn word_len(text: &[u8]) -> usize
    ensures value { result ≡ position_or_len is_white_lem text.now }
    ensures within { result ≤ length text.now }
{
    text.iter().take_while(|byte| !is_white(**byte)).count()
}

/// How many bytes stand before the first LF.
fn line_len(text: &[u8]) -> usize
    ensures value { result ≡ position_or_len is_line_feed text.now }
    ensures within { result ≤ length text.now }
{
    text.iter().take_while(|byte| **byte != b'\n').count()
}

/// Whether the line begins with `c`.
fn is_comment(line: &[u8]) -> bool
    ensures { result ≡ is_comment_lem line.now }
{
    match line.first() {
        Some(byte) => *byte == b'c',
        None => false,
    }
}

/// The first bytes of a part, as many as `len`, and what stands behind the byte that follows them.
fn cut(part: Part<'_>, len: usize) -> (Part<'_>, Option<Part<'_>>)
    requires { len ≤ length part.text.now }
    ensures parts { (cuts : ℕ → Bool) → len ≡ position_or_len cuts part.entry.text.now → parts_of cuts (word_of part.entry) ≡ word_of result.0 ∷ cut_at cuts result.1 }
    ensures smaller { size_left result.1 ≤ length part.entry.text.now }
{
    if len == part.text.len() {
        return (part, None);
    }
    let first = Part {
        at: part.at,
        text: &part.text[..len],
    };
    let behind = Part {
        at: part.at + len + 1,
        text: &part.text[len + 1..],
    };
    (first, Some(behind))
}

/// The next word of a line, and what is left of the line behind it.
fn next_in_line(line: Option<Part<'_>>) -> Option<(Part<'_>, Option<Part<'_>>)>
    ensures { option_map (λ x. (word_of x.0, left_in_line x.1)) result ≡ first_of (left_in_line line.entry) }
{
    let mut rest = line;
    while let Some(part) = rest {
        let (word, behind) = cut(part, word_len(part.text));
        if !word.text.is_empty() {
            return Some((word, behind));
        }
        rest = behind;
    }
    None
}

/// The next line, unless it is a comment, and the lines behind it.
fn next_line(lines: Option<Part<'_>>) -> Option<(Option<Part<'_>>, Option<Part<'_>>)>
    ensures words { IfSome result (λ x. left_in_lines lines.entry ≡ left_in_line x.0 ++ left_in_lines x.1) }
    ensures smaller { IfSome result (λ x. size_left x.1 < size_left lines.entry) }
    ensures none { IfNone result (left_in_lines lines.entry ≡ []) }
{
    let part = lines?;
    let (line, behind) = cut(part, line_len(part.text));
    if is_comment(line.text) {
        return Some((None, behind));
    }
    Some((Some(line), behind))
}
