// What the console answers: a line, put into the front of a lent text, and sent. A put answers where the line ends. A line begins with a
// number, that of the refusal or 0, so a put takes the number: callers have it of any answer (`order::number_in`).
#![tactic(auto)]

ghost use Rattle.std.specs.Prelude.{ℕ, ◌<◌, ◌≤◌, List, IsOk, OnOk, OnErr, length, take};
ghost use Rattle.std.specs.Io.KnownBytes.{Appends, Keeps};
ghost use Rattle.text.specs.Text.{Puts};
ghost use Rattle.console_answers.specs.Answers.{refusal_line, head_of, values_line, PutsFrom, lent_line, bytes_line, numbers_line};

use std::io;
use std::io::Write;

// The refusal number alone.
pub fn put_refusal(out: &mut [u8], refusal: u8) -> usize
    ensures { Puts (refusal_line refusal) 0 out.old result out.new }
{
    text::put_number(out, 0, usize::from(refusal), b'\n')
}

fn put_head(out: &mut [u8], refusal: u8, values: &[usize]) -> usize
    ensures { Puts (head_of refusal values.now) 0 out.old result out.new }
{
    let next = text::put_decimal(out, 0, usize::from(refusal));
    text::put_row(out, next, values)
}

// The refusal number and some values.
pub fn put_values(out: &mut [u8], refusal: u8, values: &[usize]) -> usize
    ensures { Puts (values_line refusal values.now) 0 out.old result out.new }
{
    let next = put_head(out, refusal, values);
    text::put_byte(out, next, b'\n')
}

// The same, and what is lent, which is put behind a blank.
fn put_lent<F: FnOnce(&mut [u8], usize) -> usize>(
    out: &mut [u8],
    refusal: u8,
    values: &[usize],
    put: F,
) -> usize
    requires { F.IsAlwaysCallable put }
    ensures { (lent : List ℕ) → PutsFrom (F.post put) lent → Puts (lent_line refusal values.now lent) 0 out.old result out.new }
{
    let next = put_head(out, refusal, values);
    let blank = text::put_byte(out, next, b' ');
    let end = put(out, blank);
    text::put_byte(out, end, b'\n')
}

// Bytes that were lent.
#[tactic(auto, unfolding(crate::specs::Answers::bytes_line))]
pub fn put_bytes(out: &mut [u8], refusal: u8, values: &[usize], bytes: &[u8]) -> usize
    ensures { Puts (bytes_line refusal values.now bytes.now) 0 out.old result out.new }
{
    put_lent(
        out,
        refusal,
        values,
        |out, at| text::put_hex(out, at, bytes),
    )
}

// Numbers that were lent.
#[tactic(auto, unfolding(crate::specs::Answers::numbers_line))]
pub fn put_numbers(out: &mut [u8], refusal: u8, values: &[usize], numbers: &[u32]) -> usize
    ensures { Puts (numbers_line refusal values.now numbers.now) 0 out.old result out.new }
{
    put_lent(
        out,
        refusal,
        values,
        |out, at| text::put_list(out, at, numbers),
    )
}

// Sends the line that ends there. No answer is longer than the text that the console lends. An error is the writer's own, or that
// it takes no more, and what stands before some place of the line was sent then.
pub fn send<W: Write>(writer: &mut W, text: &[u8], end: usize) -> io::Result<()>
    ensures sent { end ≤ length text.now → OnOk result (Appends (W.contents writer.old) (W.contents writer.new) (take end text.now)) }
    ensures kept { length text.now < end → IsOk result × Keeps (W.contents writer.old) (W.contents writer.new) }
    ensures err { OnErr result ((n : ℕ) × (n ≤ end) × Appends (W.contents writer.old) (W.contents writer.new) (take n (take end text.now))) }
{
    if end <= text.len() {
        streams::write_whole(writer, &text[..end])?;
    }
    Ok(())
}
