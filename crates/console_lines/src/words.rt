// The words of a line, from 0, with one blank between them, and the numbers that they spell; 0 where a word spells no such
// number, which who calls has ruled out.
ghost use Rattle.std.specs.Prelude.{◌≡◌};
ghost use Rattle.console_lines.specs.Marked.{PartsCounted};
ghost use Rattle.console_lines.specs.Words.{WordIs, word_at};

use crate::{numbers, parts};

pub fn count(line: &[u8]) -> usize
    ensures { PartsCounted 32 line.now result }
{
    parts::count(line, b' ')
}

pub fn word(line: &[u8], k: usize) -> &[u8]
    ensures { result.now ≡ word_at line.now k }
{
    parts::part(line, b' ', k)
}

// The number that word k is, at most `most`.
fn number(line: &[u8], k: usize, most: u64) -> u64
    ensures { WordIs line.now k most result }
{
    numbers::decimal(word(line, k), most).unwrap_or(0)
}

// A number of 16 bits.
pub fn short(line: &[u8], k: usize) -> u16
    ensures { WordIs line.now k 65535 result }
{
    number(line, k, 65_535) as u16
}

// A number of 32 bits.
pub fn long(line: &[u8], k: usize) -> u32
    ensures { WordIs line.now k 4294967295 result }
{
    number(line, k, 4_294_967_295) as u32
}

// The length of what is lent.
pub fn room(line: &[u8], k: usize) -> usize
    ensures { WordIs line.now k 65536 result }
{
    number(line, k, 65_536) as usize
}
