//! Numbers, names and bytes as words.
ghost use Rattle.std.specs.Prelude.{◌≡◌, ◌≤◌, IfSome};
ghost use Rattle.std.specs.List.{list_all};
ghost use Rattle.io_script.specs.GrammarNumbers.{number_of, number_in, value_of, with_digit, is_name, is_name_byte};

/// The number that a word of 1 to 20 decimal digits says, where it is below 2^64.
pub fn number(word: &[u8]) -> Option<u64>
    ensures { result ≡ number_of word.now }
{
    if word.is_empty() || word.len() > 20 {
        return None;
    }
    let mut value: u64 = 0;
    for b in word {
        value = longer(value, *b)?;
    }
    Some(value)
}

/// The number that goes on with one more digit, where it stays below 2^64.
fn longer(value: u64, b: u8) -> Option<u64>
    ensures { result ≡ with_digit value b }
{
    if !b.is_ascii_digit() {
        return None;
    }
    let tens = value.checked_mul(10)?;
    tens.checked_add(u64::from(b - b'0'))
}

/// What a word says as a number, and 0 where it says none.
pub fn value(word: &[u8]) -> u64
    ensures { result ≡ value_of word.now }
{
    number(word).unwrap_or(0)
}

/// The number of a word, where it lies in a range.
pub fn ranged(low: u64, high: u64, word: &[u8]) -> Option<u64>
    ensures number { result ≡ number_in low high word.now }
    ensures low { IfSome result (λ n. low ≤ n) }
    ensures high { IfSome result (λ n. n ≤ high) }
    ensures value { IfSome result (λ n. value_of word.now ≡ n) }
{
    let n = number(word)?;
    if n < low || n > high {
        return None;
    }
    Some(n)
}

/// A small letter, a digit or a low line.
fn may_be_in_name(b: u8) -> bool
    ensures { result ≡ is_name_byte b }
{
    matches!(b, b'a'..=b'z' | b'0'..=b'9' | b'_')
}

/// Whether all bytes of a word may be in a name.
fn is_of_name_bytes(word: &[u8]) -> bool
    ensures { result ≡ list_all is_name_byte word.now }
{
    word.iter().all(|b| may_be_in_name(*b))
}

/// Whether a word is a name: 1 to 16 small letters, digits or low lines.
pub fn is_a_name(word: &[u8]) -> bool
    ensures { result ≡ is_name word.now }
{
    if word.is_empty() || word.len() > 16 {
        return false;
    }
    is_of_name_bytes(word)
}
