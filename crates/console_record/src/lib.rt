// A record as text, put into a lent text: `W C ENTERED COUNTS TOGGLES PLACES` of a run record, and with the depth in place of the
// construction that of a run over a feed sheet; that of a small cabinet goes on with its dials. Of its lists, only what differs from an
// opening.
#![tactic(auto)]

ghost use Rattle.std.specs.Prelude.{◌≡◌, ℕ, Bool, List};
ghost use Rattle.text.specs.Text.{Puts};
ghost use Rattle.text.specs.Lists.{listed, indexed};
ghost use Rattle.console_record.specs.Record.{has_dealt, count_entry, is_down, toggle_entry, is_placed, place_entry, count_list, toggle_list, place_list, board_text, record_text, record_line};

use board::{Board, Place};

// ---- a list

// A list of a record: what it has for each exit, cell or token, and the entries that are shown.
pub trait Listing {
    type Member;

    ghost shown: { Self.Member → Bool };

    ghost entry: { ℕ → Self.Member → List ℕ };

    // Does it differ from that of an opening?
    fn is_shown(member: &Self::Member) -> bool
        ensures { result ≡ shown member.now };

    // Its entry, with its index in front.
    fn put(out: &mut [u8], at: usize, index: usize, member: &Self::Member) -> usize
        ensures { Puts (entry index member.now) at out.old result out.new };
}

// `i=n`: exit i has dealt n numbers
struct Counts;

impl Listing for Counts {
    type Member = u32;

    ghost shown = { has_dealt };

    ghost entry = { count_entry };

    fn is_shown(dealt: &u32) -> bool {
        *dealt != 0
    }

    fn put(out: &mut [u8], at: usize, exit: usize, dealt: &u32) -> usize {
        let first = text::put_number(out, at, exit, b'=');
        text::put_decimal(out, first, *dealt as usize)
    }
}

// `i`: toggle i is down
struct Toggles;

impl Listing for Toggles {
    type Member = bool;

    ghost shown = { is_down };

    ghost entry = { toggle_entry };

    fn is_shown(down: &bool) -> bool {
        *down
    }

    fn put(out: &mut [u8], at: usize, cell: usize, _down: &bool) -> usize {
        text::put_decimal(out, at, cell)
    }
}

// `t=INSIDE/LEVEL/WIRE`: where token t is
struct Places;

impl Listing for Places {
    type Member = Place;

    ghost shown = { is_placed };

    ghost entry = { place_entry };

    fn is_shown(place: &Place) -> bool {
        place.inside || place.level != 0 || place.wire != 0
    }

    fn put(out: &mut [u8], at: usize, token: usize, place: &Place) -> usize {
        let first = text::put_number(out, at, token, b'=');
        let second = text::put_number(out, first, usize::from(place.inside), b'/');
        let third = text::put_number(out, second, usize::from(place.level), b'/');
        text::put_decimal(out, third, usize::from(place.wire))
    }
}

// The entries that are shown, with commas between them; `-` where there are none.
pub fn put_list<L: Listing>(out: &mut [u8], at: usize, members: &[L::Member]) -> usize
    ensures { Puts (listed (indexed L.shown L.entry 0 members.now)) at out.old result out.new }
{
    let mut next = at;
    let mut some = false;
    for (index, member) in members.iter().enumerate() {
        if L::is_shown(member) {
            let first = text::put_comma(out, next, some);
            next = L::put(out, first, index, member);
            some = true;
        }
    }
    text::put_dash(out, next, some)
}

// ---- the record

// `COUNTS TOGGLES PLACES`
fn put_board(out: &mut [u8], at: usize, board: Board) -> usize
    ensures { Puts (board_text board) at out.old result out.new }
{
    let first = put_list::<Counts>(out, at, &board.counts);
    let second = text::put_byte(out, first, b' ');
    let third = put_list::<Toggles>(out, second, &board.toggles);
    let fourth = text::put_byte(out, third, b' ');
    put_list::<Places>(out, fourth, &board.places)
}

// A record of this width and construction or depth, at the front.
pub fn put_parts(out: &mut [u8], width: u16, kind: u16, board: Board) -> usize
    ensures { Puts (record_text width kind board) 0 out.old result out.new }
{
    let values = [kind as usize, board.entered as usize];
    let first = text::put_decimal(out, 0, width as usize);
    let second = text::put_row(out, first, &values);
    let third = text::put_byte(out, second, b' ');
    put_board(out, third, board)
}

// Its line.
pub fn put_record(out: &mut [u8], width: u16, kind: u16, board: Board) -> usize
    ensures { Puts (record_line width kind board) 0 out.old result out.new }
{
    let end = put_parts(out, width, kind, board);
    text::put_byte(out, end, b'\n')
}
