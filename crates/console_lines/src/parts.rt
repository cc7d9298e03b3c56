// A text in parts that a mark stands between: the words of a line, the entries of a list, the numbers of an entry. A text
// with no mark is one part, and a part may be empty.
ghost use Rattle.std.specs.Prelude.{◌≡◌};
ghost use Rattle.console_lines.specs.Marked.{PartsCounted, part_at};

// How many parts the text has.
pub fn count(text: &[u8], mark: u8) -> usize
    ensures { PartsCounted mark text.now result }
{
    text.split(|glyph| *glyph == mark).count()
}

// Part k, from 0; nothing where there are fewer.
pub fn part(text: &[u8], mark: u8, k: usize) -> &[u8]
    ensures { result.now ≡ part_at mark text.now k }
{
    text.split(|glyph| *glyph == mark).nth(k).unwrap_or(&[])
}
