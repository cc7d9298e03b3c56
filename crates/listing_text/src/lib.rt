// The text that the listing program writes. Each `put` lets its text go into a lent buffer as those of `text` do, and answers the
// place behind it: on a buffer of no use it so tells how much room the text wants.
#![tactic(auto)]

ghost use Rattle.std.specs.Prelude.{◌≡◌, ℕ, ◌/◌, ◌^◌, ◌<◌, List, length};
ghost use Rattle.order.specs.Order.{number_of};
ghost use Rattle.text.specs.Text.{Puts};
ghost use Rattle.listing_text.specs.Lines.{three, refused_line, name_of, network_line, report_lines, rest_line};
ghost use Rattle.listing_text.specs.Listing.{accepted_text, listing_of, PutsEach, Lists};

use outcome::{Accepted, Stopped};

// Why a call gives no text, the document's 17: the room is smaller than the text wants.
#[derive(Clone, Copy, Debug, PartialEq, Eq)]
pub struct TooShort {
    pub wanted: usize,
}

// Has a text put into `out`, where there is room for it; else `out` stays, and the answer says how much is wanted. The text is put for
// its length first.
pub fn put_if_room<F: Fn(&mut [u8]) -> usize>(out: &mut [u8], put: F) -> Result<usize, TooShort>
    requires { F.IsAlwaysCallable put }
    ensures { (text : List ℕ) → length text < 2 ^ 64 → PutsEach (F.post put) text → Lists text out.old result out.new }
{
    let mut scrap = [0u8; 1];
    let wanted = put(&mut scrap);
    if out.len() < wanted {
        return Err(TooShort { wanted });
    }
    put(out);
    Ok(wanted)
}

fn put_three(out: &mut [u8], at: usize, a: usize, b: usize, c: usize) -> usize
    ensures { Puts (three a b c) at out.old result out.new }
{
    let second = text::put_number(out, at, a, b' ');
    let third = text::put_number(out, second, b, b' ');
    text::put_number(out, third, c, b'\n')
}

pub fn put_refused(out: &mut [u8], number: usize, index: usize, offset: usize) -> usize
    ensures { Puts (refused_line number index offset) 0 out.old result out.new }
{
    let next = text::put_text(out, 0, b"refused ");
    put_three(out, next, number, index, offset)
}

// The same of a schedule that was stopped.
pub fn put_stopped(out: &mut [u8], stopped: Stopped) -> usize
    ensures { Puts (refused_line (number_of stopped.refusal) stopped.record stopped.offset) 0 out.old result out.new }
{
    let number = usize::from(stopped.refusal.number());
    put_refused(out, number, stopped.record, stopped.offset)
}

fn put_name(out: &mut [u8], at: usize, construction: u16) -> usize
    ensures { Puts (name_of construction) at out.old result out.new }
{
    if construction == 1 {
        return text::put_text(out, at, b"bitonic\n");
    }
    text::put_text(out, at, b"periodic\n")
}

pub fn put_network(out: &mut [u8], width: usize, construction: u16) -> usize
    ensures { Puts (network_line width construction) 0 out.old result out.new }
{
    let first = text::put_text(out, 0, b"network ");
    let second = text::put_number(out, first, width, b' ');
    put_name(out, second, construction)
}

// A line for each report of 12 bytes.
fn put_lines(out: &mut [u8], at: usize, reports: &[u8]) -> usize
    ensures { Puts (report_lines (length reports.now / 12) reports.now 0) at out.old result out.new }
{
    let mut next = at;
    for report in reports.chunks_exact(12) {
        let token = usize::from(records::field_of_two(report, 4));
        let exit = usize::from(records::field_of_two(report, 6));
        let number = records::field_of_four(report, 8) as usize;
        next = put_three(out, next, token, exit, number);
    }
    next
}

pub fn put_rest(out: &mut [u8], at: usize, entries: usize) -> usize
    ensures { Puts (rest_line entries) at out.old result out.new }
{
    let next = text::put_text(out, at, b"rest ");
    text::put_number(out, next, entries, b'\n')
}

fn put_accepted(out: &mut [u8], accepted: Accepted, reports: &[u8]) -> usize
    ensures { Puts (accepted_text accepted.width accepted.construction accepted.entries (length reports.now) reports.now) 0 out.old result out.new }
{
    let first = put_network(out, usize::from(accepted.width), accepted.construction);
    let second = put_lines(out, first, reports);
    put_rest(out, second, accepted.entries as usize)
}

// The listing of a schedule, where there is room for it; else `out` stays, and the answer says how much is wanted.
pub fn listing(bytes: &[u8], out: &mut [u8]) -> Result<usize, TooShort>
    ensures { Lists (listing_of bytes.now) out.old result out.new }
{
    let mut reports = [0u8; outcome::MAX_BYTES];
    match schedule::run(bytes, &mut reports) {
        Ok(accepted) => {
            let filled = &reports[..accepted.bytes];
            put_if_room(out, |out| put_accepted(out, accepted, filled))
        }
        Err(stopped) => put_if_room(out, |out| put_stopped(out, stopped)),
    }
}
