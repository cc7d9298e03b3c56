// Lines from a reader, by way of a lent buffer. A line that fills the buffer has no end in it: it is too long, and its
// bytes are dropped up to its end. The last line need not end in a line feed.
ghost use Rattle.std.specs.Prelude.{◌≡◌, ◌≤◌, IfOk, IfSome, OnErr, length};

use std::io;
use std::io::Read;

// What the buffer holds: a line from `from` to `end`, and what is read in and not yet taken, up to `to`. While a line is
// sought, no line feed stands before `end`.
#[derive(Clone, Copy)]
pub struct Lines {
    pub from: usize,
    pub end: usize,
    pub to: usize,
    // bytes of this line were dropped
    pub too_long: bool,
    // the input has ended
    pub at_end: bool,
    ghost starts: { from ≤ end },
    ghost ends: { end ≤ to },
}

// Before the first line.
pub fn start() -> Lines
    ensures { result.to ≡ 0 }
{
    Lines {
        from: 0,
        end: 0,
        to: 0,
        too_long: false,
        at_end: false,
    }
}

// The line that is sought moves to the front of the buffer.
fn to_front(input: &mut [u8], mut lines: Lines) -> Lines
    requires { lines.to ≤ length input.old }
    ensures { result.to ≤ length input.new }
{
    let from = lines.from;
    // one that stands there stays: a long line comes in many reads, and each would copy all that is held
    if from == 0 {
        return lines;
    }
    input.copy_within(from..lines.to, 0);
    lines.from = 0;
    lines.end -= from;
    lines.to -= from;
    lines
}

// A line that fills the buffer is dropped, and known to be too long.
fn with_room(mut lines: Lines, room: usize) -> Lines
    requires { lines.to ≤ room }
    ensures { result.to ≤ room }
{
    if lines.to == room {
        lines.from = 0;
        lines.end = 0;
        lines.to = 0;
        lines.too_long = true;
    }
    lines
}

// Reads on, behind what is held.
fn read_on<R: Read>(reader: &mut R, input: &mut [u8], mut lines: Lines) -> io::Result<Lines>
    requires { lines.to ≤ length input.old }
    ensures held { IfOk result (λ read. read.to ≤ length input.new) }
    ensures err { OnErr result (length input.new ≡ length input.old) }
{
    let count = streams::read_behind(reader, input, lines.to)?;
    lines.to += count;
    lines.at_end = count == 0;
    Ok(lines)
}

// More of the line that is sought.
fn more<R: Read>(reader: &mut R, input: &mut [u8], lines: Lines) -> io::Result<Lines>
    requires { lines.to ≤ length input.old }
    ensures held { IfOk result (λ read. read.to ≤ length input.new) }
    ensures err { OnErr result (length input.new ≡ length input.old) }
{
    let moved = to_front(input, lines);
    let roomy = with_room(moved, input.len());
    read_on(reader, input, roomy)
}

// Seeks the end of the line among what is held: its line feed, or the end of what is held.
fn seek(input: &[u8], mut lines: Lines) -> Lines
    requires { lines.to ≤ length input.now }
    ensures { result.to ≡ lines.to }
{
    let held = &input[lines.end..lines.to];
    lines.end += held.iter().take_while(|glyph| **glyph != b'\n').count();
    lines
}

// Behind a line and its line feed.
fn behind(mut lines: Lines) -> Lines
    ensures { result.to ≡ lines.to }
{
    if lines.end < lines.to {
        lines.end += 1;
    }
    lines.from = lines.end;
    lines.too_long = false;
    lines
}

// What stands at the end of the input: a last line, or nothing.
fn last(lines: Lines) -> Option<Lines>
    ensures { IfSome result (λ line. line.to ≡ lines.to) }
{
    (lines.from < lines.to || lines.too_long).then_some(lines)
}

// The next line, or that none is left. A proved loop has to end, and nothing says that the input does: so its turns are counted, up to
// a number that no input uses up. An error is the reader's own: the bytes of the buffer are not told then.
pub fn next_line<R: Read>(
    reader: &mut R,
    input: &mut [u8],
    before: Lines,
) -> io::Result<Option<Lines>>
    requires { before.to ≤ length input.old }
    ensures held { IfOk result (λ next. IfSome next (λ line. line.to ≤ length input.new)) }
    ensures err { OnErr result (length input.new ≡ length input.old) }
{
    let mut lines = behind(before);
    for _ in 0..u64::MAX {
        lines = seek(input, lines);
        if lines.end < lines.to {
            return Ok(Some(lines));
        }
        if lines.at_end {
            return Ok(last(lines));
        }
        lines = more(reader, input, lines)?;
    }
    Ok(None)
}
