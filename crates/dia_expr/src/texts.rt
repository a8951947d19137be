//! What is made of texts.
ghost use Rattle.std.specs.Prelude.{◌≡◌, ◌≤◌, ◌<◌, ◌∷◌, [], IfSome, IfNone, take, drop, length, slice_index_or};
ghost use Rattle.row_defs.specs.Texts.{is_blank, words_in_text, number_spelled};
ghost use Rattle.row_defs.specs.Values.{part_of};
ghost use Rattle.dia_expr.specs.Exprs.{part_in};
ghost use Rattle.dia_expr.specs.Digits.{with_digit};
ghost use Rattle.dia_expr.specs.Runs.{AreNoBlanks, EndsWord};

use crate::expr::Part;

fn is_blank(b: u8) -> bool
    ensures { result ≡ is_blank b }
{
    matches!(b, b' ' | b'\t' | b'\r')
}

/// The text from its first word on.
fn skip_blanks(text: &[u8]) -> &[u8]
    ensures words { words_in_text result.now ≡ words_in_text text.now }
    ensures begins { AreNoBlanks (take 1 result.now) }
    ensures len { length result.now ≤ length text.now }
{
    let mut rest = text;
    while let Some((b, more)) = rest.split_first() {
        if !is_blank(*b) {
            return rest;
        }
        rest = more;
    }
    rest
}

/// How many bytes at the beginning are of one word.
fn run_len(text: &[u8]) -> usize
    ensures len { result ≤ length text.now }
    ensures run { AreNoBlanks (take result text.now) }
    ensures end { EndsWord (drop result text.now) }
{
    for n in 0..text.len() {
        if is_blank(text[n]) {
            return n;
        }
    }
    text.len()
}

/// The first word, and what stands behind it; None where no word is left.
pub fn split_word(text: &[u8]) -> Option<(&[u8], &[u8])>
    ensures none { IfNone result (words_in_text text.now ≡ []) }
    ensures word { IfSome result (λ split. words_in_text text.now ≡ split.0.now ∷ words_in_text split.1.now) }
    ensures shorter { IfSome result (λ split. length split.1.now < length text.now) }
    ensures short { IfSome result (λ split. length split.0.now ≤ length text.now) }
{
    let rest = skip_blanks(text);
    if rest.is_empty() {
        return None;
    }
    let n = run_len(rest);
    Some(rest.split_at(n))
}

/// The word with this number, counted from 0; empty where there is none.
fn nth_word(text: &[u8], n: u64) -> &[u8]
    ensures word { result.now ≡ slice_index_or (words_in_text text.now) n [] }
    ensures short { length result.now ≤ length text.now }
{
    let mut rest = text;
    let mut before = n;
    while let Some((word, more)) = split_word(rest) {
        if before == 0 {
            return word;
        }
        before -= 1;
        rest = more;
    }
    &[]
}

/// A part of a text.
pub(crate) fn part_of(op: Part, n: u64, text: &[u8]) -> &[u8]
    ensures value { result.now ≡ part_of (part_in op) n text.now }
    ensures short { length result.now ≤ length text.now }
{
    match op {
        Part::Head if n < text.len() as u64 => text.split_at(n as usize).0,
        Part::Head => text,
        Part::Tail if n < text.len() as u64 => text.split_at(n as usize).1,
        Part::Tail => &[],
        Part::Word => nth_word(text, n),
    }
}

/// The number whose digits are those of `n` and then this one, where it is below 2^64.
fn with_digit(n: u64, b: u8) -> Option<u64>
    ensures { result ≡ with_digit n b }
{
    if !b.is_ascii_digit() {
        return None;
    }
    n.checked_mul(10)?.checked_add(u64::from(b - b'0'))
}

/// The number that a text spells: 1 to 20 decimal digits below 2^64.
pub fn number_spelled(text: &[u8]) -> Option<u64>
    ensures { result ≡ number_spelled text.now }
{
    if text.is_empty() || text.len() > 20 {
        return None;
    }
    let mut n = 0;
    for b in text {
        n = with_digit(n, *b)?;
    }
    Some(n)
}
