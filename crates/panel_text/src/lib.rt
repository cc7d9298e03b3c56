// The text that the panel program writes: a design's feed sheet, row by row, or why the design is refused. Each `put` lets its text go
// into a lent buffer as those of `text` do, and answers the place behind it.
#![tactic(auto)]

ghost use Rattle.std.specs.Prelude.{◌≡◌, ◌≤◌};
ghost use Rattle.order.specs.Order.{number_of};
ghost use Rattle.text.specs.Text.{Puts};
ghost use Rattle.listing_text.specs.Listing.{Lists};
ghost use Rattle.panel_text.specs.Panel.{two_line, end_of, places_text, sheet_text, refused_text, panel_of};

use designs::Fault;
use listing_text::TooShort;
use panels::Panel;

// A word, two numbers and the line feed, in front of the buffer.
fn put_two(out: &mut [u8], word: &[u8], a: usize, b: usize) -> usize
    ensures { Puts (two_line word.now a b) 0 out.old result out.new }
{
    let first = text::put_text(out, 0, word);
    let second = text::put_number(out, first, a, b' ');
    text::put_number(out, second, b, b'\n')
}

// The byte behind place i of the sheet.
#[tactic(auto, unfolding(crate::specs::Panel::end_of))]
fn end_of(width: usize, i: usize) -> u8
    requires { 1 ≤ width }
    ensures { result ≡ end_of width i }
{
    if i % width == width - 1 {
        return b'\n';
    }
    b' '
}

fn put_places(out: &mut [u8], at: usize, sheet: &[u8], width: usize) -> usize
    requires { 1 ≤ width }
    ensures { Puts (places_text width 0 sheet.now) at out.old result out.new }
{
    let mut next = at;
    for (i, place) in sheet.iter().enumerate() {
        let end = end_of(width, i);
        next = text::put_number(out, next, usize::from(*place), end);
    }
    next
}

fn put_sheet(out: &mut [u8], panel: Panel, sheet: &[u8]) -> usize
    requires { 1 ≤ panel.width }
    ensures { Puts (sheet_text panel.width panel.depth sheet.now) 0 out.old result out.new }
{
    let width = usize::from(panel.width);
    let next = put_two(out, b"panel ", width, usize::from(panel.depth));
    put_places(out, next, sheet, width)
}

fn put_fault(out: &mut [u8], fault: Fault) -> usize
    ensures { Puts (refused_text (number_of fault.refusal) fault.offset) 0 out.old result out.new }
{
    let number = usize::from(fault.refusal.number());
    put_two(out, b"refused ", number, fault.offset)
}

// The text of a design, where there is room for it; else `out` stays, and the answer says how much is wanted.
pub fn panel(design: &[u8], out: &mut [u8]) -> Result<usize, TooShort>
    ensures { Lists (panel_of design.now) out.old result out.new }
{
    let mut sheet = [0u8; 2368];
    match panels::read(design, &mut sheet) {
        Ok(panel) => {
            let filled = &sheet[..panel.filled];
            listing_text::put_if_room(out, |out| put_sheet(out, panel, filled))
        }
        Err(fault) => listing_text::put_if_room(out, |out| put_fault(out, fault)),
    }
}
