// Numbers from text: decimal numbers, and bytes as pairs of hex digits.
ghost use Rattle.std.specs.Prelude.{◌≡◌};
ghost use Rattle.console_lines.specs.Digits.{NumberIs, digit_in, is_number};
ghost use Rattle.console_lines.specs.Hex.{HexPut, is_hex, is_pairs};

// The value of a digit below the base, up to 16. Letters are lower case.
#[tactic(auto, unfolding(crate::specs::Digits::digit_of))]
fn digit(glyph: u8, base: u8) -> Option<u8>
    ensures { result ≡ digit_in base glyph }
{
    let value = match glyph {
        b'0'..=b'9' => glyph - b'0',
        b'a'..=b'f' => glyph - b'a' + 10,
        _ => return None,
    };
    (value < base).then_some(value)
}

const MOST_DIGITS: usize = 10;

// A decimal number of one to ten digits, at most `most`.
pub fn decimal(text: &[u8], most: u64) -> Option<u64>
    ensures { NumberIs text.now most result }
{
    if text.is_empty() || MOST_DIGITS < text.len() {
        return None;
    }
    let mut value: u64 = 0;
    for glyph in text {
        let digit = digit(*glyph, 10)?;
        value = value * 10 + u64::from(digit);
    }
    (value <= most).then_some(value)
}

// Is the text pairs of hex digits, one or more?
fn is_pairs(text: &[u8]) -> bool
    ensures { result ≡ is_pairs text.now }
{
    let digits = text.iter().all(|glyph| digit(*glyph, 16).is_some());
    (0 < text.len()) & (text.len() % 2 == 0) & digits
}

// Is the text such pairs, a byte each, or `-` for no bytes?
pub fn is_hex(text: &[u8]) -> bool
    ensures { result ≡ is_hex text.now }
{
    text == b"-".as_slice() || is_pairs(text)
}

// The bytes that such a text spells, as many as `out` has room for; gives how many.
pub fn hex(text: &[u8], out: &mut [u8]) -> usize
    ensures { HexPut text.now out.new result }
{
    let count = out.len().min(text.len() / 2);
    for i in 0..count {
        let high = digit(text[2 * i], 16).unwrap_or(0);
        let low = digit(text[2 * i + 1], 16).unwrap_or(0);
        out[i] = high * 16 + low;
    }
    count
}

pub fn is_decimal(text: &[u8], most: u64) -> bool
    ensures { result ≡ is_number text.now most }
{
    decimal(text, most).is_some()
}
