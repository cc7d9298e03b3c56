// What the lists of a line on the small cabinet name: its dials, `i=NOW/LAST/SUM,..`, and sums of yields, `i=n,..`. Who calls has seen
// that the text is such a list (`console_lists::is_list`).
ghost use Rattle.std.specs.Prelude.{◌≡◌, ℕ, List};
ghost use Rattle.console_small.specs.Named.{dial_in, sum_in, stored, named};

use board::EXITS;
use console_lines::{numbers, parts};
use dials::Dial;

// What an entry spells behind `=`.
pub trait FromText: Copy {
    ghost value: { List ℕ → Self };

    fn from_text(text: &[u8]) -> Self
        ensures { result ≡ value text.now };
}

// `NOW/LAST/SUM`
impl FromText for Dial {
    ghost value = { dial_in };

    #[tactic(auto, unfolding(crate::specs::Named::dial_in))]
    fn from_text(text: &[u8]) -> Dial {
        let now = numbers::decimal(parts::part(text, b'/', 0), 65_535).unwrap_or(0);
        let last = numbers::decimal(parts::part(text, b'/', 1), 65_535).unwrap_or(0);
        let sum = numbers::decimal(parts::part(text, b'/', 2), 4_294_967_295).unwrap_or(0);
        Dial {
            now: now as u16,
            last: last as u16,
            sum: sum as u32,
        }
    }
}

// The sum of an exit's yields.
impl FromText for u32 {
    ghost value = { sum_in };

    fn from_text(text: &[u8]) -> u32 {
        numbers::decimal(text, 4_294_967_295).unwrap_or(0) as u32
    }
}

// With an entry; without a change where it names no exit.
fn stored<T: FromText>(mut values: [T; EXITS], entry: &[u8]) -> [T; EXITS]
    ensures { result ≡ stored T.value values entry.now }
{
    if let Some(exit) = console_lists::index(parts::part(entry, b'=', 0), 0, EXITS) {
        values[exit] = T::from_text(parts::part(entry, b'=', 1));
    }
    values
}

// All that a list names; an exit that is not named has what is given as blank.
pub fn named<T: FromText>(text: &[u8], blank: T) -> [T; EXITS]
    ensures { result ≡ named T.value blank text.now }
{
    let mut values = [blank; EXITS];
    for k in 0..parts::count(text, b',') {
        values = stored(values, parts::part(text, b',', k));
    }
    values
}
