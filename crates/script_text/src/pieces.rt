// Pieces of a line, and numbers in it.
ghost use Rattle.std.specs.Prelude.{◌≡◌, ◌<◌, ◌≤◌, ◌+◌, ◌^◌, ◌∷◌, length, true, IfSome, option_copied};
ghost use Rattle.seg_words.specs.Types.{list_all};
ghost use Rattle.std.specs.Str.Lines.{lines, strip_carriage_return};
ghost use Rattle.script_text.specs.Pieces.{cut, is_word, last_word, is_text_byte, is_digit, is_number, value_within, number_of, ordinal_of};

/// The bytes before the first `at`, and those after it.
#[tactic(auto, using(crate::proofs::Cuts::cut_before, crate::proofs::Cuts::cut_after, crate::proofs::Cuts::cut_none))]
pub fn cut(bytes: &[u8], at: u8) -> (&[u8], Option<&[u8]>)
    ensures before { result.0.now ≡ (cut at bytes.now).0 }
    ensures after { option_copied result.1 ≡ (cut at bytes.now).1 }
{
    for (i, byte) in bytes.iter().enumerate() {
        if *byte == at {
            return (&bytes[..i], Some(&bytes[i + 1..]));
        }
    }
    (bytes, None)
}

/// A line that an LF ends: a CR before the LF is no part of it.
fn without_return(line: &[u8]) -> &[u8]
    ensures { result.now ≡ strip_carriage_return line.now }
{
    match line {
        [front @ .., b'\r'] => front,
        _ => line,
    }
}

/// The first line, and the text after it.
#[tactic(auto, using(crate::proofs::Cuts::lines_at, crate::proofs::Cuts::lines_end, crate::proofs::Cuts::rest_shorter))]
pub fn first_line(text: &[u8]) -> (&[u8], &[u8])
    requires { 0 < length text.now }
    ensures lines { lines text.now ≡ result.0.now ∷ lines result.1.now }
    ensures shorter { length result.1.now < length text.now }
{
    let (line, after) = cut(text, b'\n');
    match after {
        Some(rest) => (without_return(line), rest),
        None => (line, &text[text.len()..]),
    }
}

/// Whether no space stands in the bytes.
pub fn is_word(bytes: &[u8]) -> bool
    ensures { result ≡ is_word bytes.now }
{
    let (_, after) = cut(bytes, b' ');
    after.is_none()
}

/// The last word of a line, where it is that.
pub fn last_word(after: Option<&[u8]>) -> Option<&[u8]>
    ensures { option_copied result ≡ last_word (option_copied after.entry) }
{
    match after {
        Some(word) => { if is_word(word) { Some(word) } else { None } }
        None => None,
    }
}

fn is_text_byte(byte: u8) -> bool
    ensures { result ≡ is_text_byte byte }
{
    byte >= 0x20 && byte != 0x7F
}

/// Whether each byte is from 0x20 to 0xFF without 0x7F.
pub fn are_text_bytes(bytes: &[u8]) -> bool
    ensures { result ≡ list_all is_text_byte bytes.now }
{
    bytes.iter().all(|b| is_text_byte(*b))
}

fn is_digit(byte: u8) -> bool
    ensures { result ≡ is_digit byte }
{
    byte.is_ascii_digit()
}

fn are_digits(bytes: &[u8]) -> bool
    ensures { result ≡ list_all is_digit bytes.now }
{
    bytes.iter().all(|b| is_digit(*b))
}

/// Whether the bytes are decimal digits without a leading zero.
pub fn is_number(bytes: &[u8]) -> bool
    ensures { result ≡ is_number bytes.now }
{
    if bytes.is_empty() {
        return false;
    }
    if bytes.len() > 1 && bytes[0] == b'0' {
        return false;
    }
    are_digits(bytes)
}

/// The number that digits spell, where it is at most `most`.
#[tactic(auto, using(crate::proofs::Numbers::value_more, crate::proofs::Numbers::value_above, crate::proofs::Numbers::digit_at))]
fn value_within(digits: &[u8], most: u64) -> Option<u64>
    requires digits { list_all is_digit digits.now ≡ true }
    requires most { most < 2 ^ 60 }
    ensures { result ≡ value_within most digits.now }
{
    let mut value = 0;
    for byte in digits {
        value = value * 10 + u64::from(*byte - b'0');
        if value > most {
            return None;
        }
    }
    Some(value)
}

/// The number from 0 to `most` that the bytes spell, in decimal without a sign or a leading zero.
#[tactic(auto, unfolding(crate::specs::Pieces::number_of))]
pub fn number(bytes: &[u8], most: u64) -> Option<u64>
    requires { most < 2 ^ 60 }
    ensures found { result ≡ number_of most bytes.now }
    ensures range { IfSome result (λ n. n ≤ most) }
{
    if !is_number(bytes) {
        return None;
    }
    value_within(bytes, most)
}

/// The same, from 1 on.
pub fn ordinal(bytes: &[u8], most: u64) -> Option<u64>
    requires { most < 2 ^ 60 }
    ensures found { result ≡ ordinal_of most bytes.now }
    ensures range { IfSome result (λ n. n ≤ most) }
{
    match number(bytes, most) {
        Some(0) => None,
        found => found,
    }
}
