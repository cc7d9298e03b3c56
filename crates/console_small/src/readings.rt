// The dials of a small cabinet as text, `i=NOW/LAST/SUM,..`: those that differ from an opening's.
ghost use Rattle.text.specs.Text.{Puts};
ghost use Rattle.console_small.specs.Record.{has_read, dial_entry};

use console_record::Listing;
use dials::Dial;

// `i=NOW/LAST/SUM`: the dial of exit i, its last reading and the sum of its yields
pub struct Dials;

impl Listing for Dials {
    type Member = Dial;

    ghost shown = { has_read };

    ghost entry = { dial_entry };

    fn is_shown(dial: &Dial) -> bool {
        *dial != Dial::open()
    }

    fn put(out: &mut [u8], at: usize, exit: usize, dial: &Dial) -> usize {
        let first = text::put_number(out, at, exit, b'=');
        let second = text::put_number(out, first, usize::from(dial.now), b'/');
        let third = text::put_number(out, second, usize::from(dial.last), b'/');
        text::put_decimal(out, third, dial.sum as usize)
    }
}
