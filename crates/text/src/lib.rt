// Text, put into a lent buffer. Each `put` lets its text go into the buffer from a place on, as far as the buffer goes, and
// answers the place behind it: on a buffer of no use it so tells how much room the text wants.
#![tactic(auto)]

ghost use Rattle.std.specs.Prelude.{◌<◌, ◌≡◌, ◌++◌, ◌∷◌, []};
ghost use Rattle.text.specs.Text.{Puts};
ghost use Rattle.text.specs.Numbers.{decimal, row, hex_digit, hex_pair, hex_text};
ghost use Rattle.text.specs.Lists.{number_list, comma_if, dash_unless};

pub fn put_byte(out: &mut [u8], at: usize, b: u8) -> usize
    ensures { Puts (b ∷ []) at out.old result out.new }
{
    if at < out.len() {
        out[at] = b;
    }
    at.saturating_add(1)
}

pub fn put_text(out: &mut [u8], at: usize, text: &[u8]) -> usize
    ensures { Puts text.now at out.old result out.new }
{
    let mut next = at;
    for b in text {
        next = put_byte(out, next, *b);
    }
    next
}

// ---- numbers

// The digits of the tenth, then the last one.
pub fn put_decimal(out: &mut [u8], at: usize, x: usize) -> usize
    ensures { Puts (decimal x) at out.old result out.new }
{
    if x < 10 {
        return put_byte(out, at, b'0' + x as u8);
    }
    let next = put_decimal(out, at, x / 10);
    put_byte(out, next, b'0' + (x % 10) as u8)
}

// A number and the byte behind it.
pub fn put_number(out: &mut [u8], at: usize, x: usize, end: u8) -> usize
    ensures { Puts (decimal x ++ (end ∷ [])) at out.old result out.new }
{
    let next = put_decimal(out, at, x);
    put_byte(out, next, end)
}

// Numbers, a blank in front of each.
pub fn put_row(out: &mut [u8], at: usize, values: &[usize]) -> usize
    ensures { Puts (row values.now) at out.old result out.new }
{
    let mut next = at;
    for value in values {
        let blank = put_byte(out, next, b' ');
        next = put_decimal(out, blank, *value);
    }
    next
}

// ---- bytes in hex

#[tactic(auto, unfolding(crate::specs::Numbers::hex_digit))]
fn hex_digit(value: u8) -> u8
    requires { value < 16 }
    ensures { result ≡ hex_digit value }
{
    if value < 10 {
        return b'0' + value;
    }
    b'a' - 10 + value
}

fn put_pair(out: &mut [u8], at: usize, value: u8) -> usize
    ensures { Puts (hex_pair value) at out.old result out.new }
{
    let next = put_byte(out, at, hex_digit(value / 16));
    put_byte(out, next, hex_digit(value % 16))
}

// Pairs of hex digits; `-` where there are no bytes.
pub fn put_hex(out: &mut [u8], at: usize, bytes: &[u8]) -> usize
    ensures { Puts (hex_text bytes.now) at out.old result out.new }
{
    let mut next = at;
    for b in bytes {
        next = put_pair(out, next, *b);
    }
    put_dash(out, next, 0 < bytes.len())
}

// ---- lists: `some` says whether an entry stands in front

// The comma in front of an entry.
pub fn put_comma(out: &mut [u8], at: usize, some: bool) -> usize
    ensures { Puts (comma_if some) at out.old result out.new }
{
    if some {
        return put_byte(out, at, b',');
    }
    at
}

// The dash of a list that has ended with no entry.
pub fn put_dash(out: &mut [u8], at: usize, some: bool) -> usize
    ensures { Puts (dash_unless some) at out.old result out.new }
{
    if some {
        return at;
    }
    put_byte(out, at, b'-')
}

// Numbers with commas between them; `-` where there are none.
pub fn put_list(out: &mut [u8], at: usize, numbers: &[u32]) -> usize
    ensures { Puts (number_list numbers.now) at out.old result out.new }
{
    let mut next = at;
    for (i, number) in numbers.iter().enumerate() {
        let behind = put_comma(out, next, 0 < i);
        next = put_decimal(out, behind, *number as usize);
    }
    put_dash(out, next, 0 < numbers.len())
}
