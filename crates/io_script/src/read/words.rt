//! Cutting bytes at a separator, and a line into its words.
ghost use Rattle.std.specs.Prelude.{◌≡◌, ◌∷◌, [], ◌==◌, ◌<◌, ◌≤◌, ◌+◌, length, MatchOption};
ghost use Rattle.std.specs.List.{position_or_len};
ghost use Rattle.io_script.specs.GrammarWords.{pieces, words, is_bad_byte, is_kept, has_bad_byte, head, tail, one_if_any, fields_of};
ghost use Rattle.io_script.specs.Seen.{seen};

use memchr::memchr;

/// The place of the first `separator`, or the length where there is none.
fn first_at(bytes: &[u8], separator: u8) -> usize
    ensures place { result ≡ position_or_len (λ b. b == separator) bytes.now }
    ensures within { result ≤ length bytes.now }
{
    match memchr(separator, bytes) {
        Some(at) => at,
        None => bytes.len(),
    }
}

/// The bytes before the first `separator`, and those after it. `None` comes where there is none.
pub fn cut(bytes: &[u8], separator: u8) -> Option<(&[u8], &[u8])>
    ensures pieces { MatchOption result (pieces separator bytes.now ≡ bytes.now ∷ [])
        (λ r. pieces separator bytes.now ≡ r.0.now ∷ pieces separator r.1.now) }
    ensures shorter { MatchOption result (length bytes.now ≡ length bytes.now) (λ r. length r.1.now < length bytes.now) }
{
    let at = first_at(bytes, separator);
    if at == bytes.len() {
        return None;
    }
    Some((&bytes[..at], &bytes[at + 1..]))
}

/// The first word of a line, and what stands after it. `None` comes where the line has no word.
fn next_word(line: &[u8]) -> Option<(&[u8], &[u8])>
    ensures words { MatchOption result (words line.now ≡ []) (λ r. words line.now ≡ r.0.now ∷ words r.1.now) }
    ensures bytes { MatchOption result (words line.now ≡ []) (λ r. one_if_any r.0.now ≡ 1) }
    ensures shorter { MatchOption result (length line.now ≡ length line.now) (λ r. length r.1.now < length line.now) }
{
    let mut left = line;
    while let Some((word, after)) = cut(left, b' ') {
        if !word.is_empty() {
            return Some((word, after));
        }
        left = after;
    }
    if left.is_empty() {
        return None;
    }
    Some((left, &left[left.len()..]))
}

/// The first word of a line, or no bytes where it has none, and what stands after it.
fn first_word(line: &[u8]) -> (&[u8], &[u8])
    ensures word { result.0.now ≡ head (words line.now) }
    ensures after { words result.1.now ≡ tail (words line.now) }
    ensures shorter { length result.1.now ≤ length line.now }
    ensures count { length (words line.now) ≡ one_if_any result.0.now + length (words result.1.now) }
{
    match next_word(line) {
        None => (&line[line.len()..], &line[line.len()..]),
        Some((word, after)) => (word, after),
    }
}

/// How many words a line has.
fn count_words(line: &[u8]) -> usize
    ensures count { result ≡ length (words line.now) }
    ensures few { result ≤ length line.now }
{
    let mut left = line;
    let mut count: usize = 0;
    while let Some((_, after)) = next_word(left) {
        count += 1;
        left = after;
    }
    count
}

/// 1 for a word, and 0 for the empty place of one that is missing.
fn one_if_any(word: &[u8]) -> usize
    ensures value { result ≡ one_if_any word.now }
    ensures small { result ≤ 1 }
{
    usize::from(!word.is_empty())
}

/// The words of a line: how many, and the first six. Where it has fewer, there are no bytes in the
/// place of the others.
#[derive(Clone, Copy)]
pub struct Words<'a> {
    pub count: usize,
    pub first: &'a [u8],
    pub second: &'a [u8],
    pub third: &'a [u8],
    pub fourth: &'a [u8],
    pub fifth: &'a [u8],
    pub sixth: &'a [u8],
}

/// The words of a line.
pub fn words_of(line: &[u8]) -> Words<'_>
    ensures { seen result ≡ fields_of (words line.now) }
{
    let (first, left) = first_word(line);
    let (second, left) = first_word(left);
    let (third, left) = first_word(left);
    let (fourth, left) = first_word(left);
    let (fifth, left) = first_word(left);
    let (sixth, left) = first_word(left);
    let count = one_if_any(first)
        + one_if_any(second)
        + one_if_any(third)
        + one_if_any(fourth)
        + one_if_any(fifth)
        + one_if_any(sixth)
        + count_words(left);
    Words {
        count,
        first,
        second,
        third,
        fourth,
        fifth,
        sixth,
    }
}

/// A line is kept unless it has no word, or its first begins with `#`.
pub fn is_kept_line(line: &[u8]) -> bool
    ensures { result ≡ is_kept (words line.now) }
{
    match next_word(line) {
        None => false,
        Some((word, _)) => !word.starts_with(b"#"),
    }
}

/// A byte that may stand in no kept line.
fn is_unprintable(b: u8) -> bool
    ensures { result ≡ is_bad_byte b }
{
    (b < 0x20) | (b > 0x7e)
}

/// Whether a line has a byte that may stand in no kept line.
pub fn has_unprintable(line: &[u8]) -> bool
    ensures { result ≡ has_bad_byte line.now }
{
    // A look that never stops early goes over many bytes at a time.
    let mut found = false;
    for b in line {
        found |= is_unprintable(*b);
    }
    found
}
