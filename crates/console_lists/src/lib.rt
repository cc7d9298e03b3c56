// The lists of a record, from text: entries with commas between them, their indexes within the record and strictly rising; `-` is
// no entry.
#![tactic(auto)]

ghost use Rattle.std.specs.Prelude.{◌≡◌, is_some, IfSome};
ghost use Rattle.std.specs.Bool.{then_some};
ghost use Rattle.console_lines.specs.Marked.{parts_of, part_at};
ghost use Rattle.console_lines.specs.Words.{long_at};
ghost use Rattle.console_lists.specs.Entries.{entries_of, index_in, is_index, is_keyed, is_count, is_toggle, are_three, is_seat, is_place, is_reading, is_dial, is_entry, next_of, IndexIs, Three};
ghost use Rattle.console_lists.specs.Lists.{are_entries, is_list};

use board::{Board, CELLS, EXITS, Place, TOKENS};
use console_lines::{numbers, parts, words};

// What a list has entries of: the counts of exits, toggles that are down and places of tokens, which name a board; or dials.
#[derive(Clone, Copy)]
pub enum Entries {
    Counts,
    Toggles,
    Places,
    Dials,
}

// A letter names a list: c, t, d or, any other, that of places.
impl From<u8> for Entries {
    ghost from_gives = { λ list kind. kind ≡ entries_of list };

    fn from(list: u8) -> Entries {
        match list {
            b'c' => Entries::Counts,
            b't' => Entries::Toggles,
            b'd' => Entries::Dials,
            _ => Entries::Places,
        }
    }
}

// ---- an entry; each gives the least index of the entry behind it

// The index that a text spells, from `least` on and below the size.
#[tactic(auto, unfolding(crate::specs::Entries::is_index))]
pub fn index(text: &[u8], least: usize, size: usize) -> Option<usize>
    ensures { IndexIs (is_index text.now least size) (index_in text.now) size result }
{
    let at = numbers::decimal(text, 65_535)? as usize;
    ((least <= at) & (at < size)).then_some(at)
}

// The index in front of `=`, where one other part is behind it.
#[tactic(auto, unfolding(crate::specs::Entries::is_keyed))]
fn key(entry: &[u8], least: usize, size: usize) -> Option<usize>
    ensures { IndexIs (is_keyed entry.now least size) (index_in (part_at 61 entry.now 0)) size result }
{
    if parts::count(entry, b'=') != 2 {
        return None;
    }
    index(parts::part(entry, b'=', 0), least, size)
}

// `i=n`
fn count(entry: &[u8], least: usize, counts: &mut [u32; EXITS]) -> Option<usize>
    ensures { result ≡ then_some (is_count entry.now least) (next_of entry.now) }
{
    let at = key(entry, least, EXITS)?;
    let dealt = numbers::decimal(parts::part(entry, b'=', 1), 4_294_967_295)?;
    counts[at] = dealt as u32;
    Some(at + 1)
}

// `i`
fn toggle(entry: &[u8], least: usize, toggles: &mut [bool; CELLS]) -> Option<usize>
    ensures { result ≡ then_some (is_toggle entry.now least) (next_of entry.now) }
{
    let at = index(entry, least, CELLS)?;
    toggles[at] = true;
    Some(at + 1)
}

// Three numbers with `/` between them, each with its most.
#[tactic(auto, unfolding(crate::specs::Entries::are_three))]
fn three(text: &[u8], a: u64, b: u64, c: u64) -> Option<(u64, u64, u64)>
    ensures is_one { is_some result ≡ are_three a b c text.now }
    ensures within { IfSome result (Three a b c) }
{
    if parts::count(text, b'/') != 3 {
        return None;
    }
    let first = numbers::decimal(parts::part(text, b'/', 0), a)?;
    let second = numbers::decimal(parts::part(text, b'/', 1), b)?;
    let third = numbers::decimal(parts::part(text, b'/', 2), c)?;
    Some((first, second, third))
}

// The place that a text spells as `INSIDE/LEVEL/WIRE`.
fn seat(text: &[u8]) -> Option<Place>
    ensures { is_some result ≡ is_seat text.now }
{
    let (inside, level, wire) = three(text, 1, 65_535, 65_535)?;
    Some(Place {
        inside: inside == 1,
        level: level as u16,
        wire: wire as u16,
    })
}

// `t=INSIDE/LEVEL/WIRE`
fn place(entry: &[u8], least: usize, places: &mut [Place; TOKENS]) -> Option<usize>
    ensures { result ≡ then_some (is_place entry.now least) (next_of entry.now) }
{
    let at = key(entry, least, TOKENS)?;
    places[at] = seat(parts::part(entry, b'=', 1))?;
    Some(at + 1)
}

// `i=NOW/LAST/SUM`: judged alone, for a board has no dials.
fn dial(entry: &[u8], least: usize) -> Option<usize>
    ensures { result ≡ then_some (is_dial entry.now least) (next_of entry.now) }
{
    let at = key(entry, least, EXITS)?;
    three(parts::part(entry, b'=', 1), 65_535, 65_535, 4_294_967_295)?;
    Some(at + 1)
}

// An entry is stored in the board.
fn entry(kind: Entries, text: &[u8], least: usize, board: &mut Board) -> Option<usize>
    ensures next { result ≡ then_some (is_entry kind text.now least) (next_of text.now) }
    ensures entered { board.new.entered ≡ board.old.entered }
{
    match kind {
        Entries::Counts => count(text, least, &mut board.counts),
        Entries::Toggles => toggle(text, least, &mut board.toggles),
        Entries::Places => place(text, least, &mut board.places),
        Entries::Dials => dial(text, least),
    }
}

// ---- a list

// Reads entries with commas between them into the board; says whether all were entries.
fn read_entries(kind: Entries, text: &[u8], board: &mut Board) -> bool
    ensures is_one { result ≡ are_entries kind (parts_of 44 text.now) 0 }
    ensures entered { board.new.entered ≡ board.old.entered }
{
    let mut least = 0;
    for part in text.split(|glyph| *glyph == b',') {
        let Some(next) = entry(kind, part, least, board) else {
            return false;
        };
        least = next;
    }
    true
}

// Reads a list into the board; says whether it was one.
pub fn read(kind: Entries, text: &[u8], board: &mut Board) -> bool
    ensures is_one { result ≡ is_list kind text.now }
    ensures entered { board.new.entered ≡ board.old.entered }
{
    text == b"-".as_slice() || read_entries(kind, text, board)
}

// Is the text a list that this letter names?
pub fn is_list(list: u8, text: &[u8]) -> bool
    ensures { result ≡ is_list (entries_of list) text.now }
{
    read(Entries::from(list), text, &mut board::fresh())
}

// The board that `set W C ENTERED COUNTS TOGGLES PLACES` names, whether it is sound or not.
pub fn board_in(line: &[u8]) -> Board
    ensures { result.entered ≡ long_at line.now 3 }
{
    let mut board = board::fresh();
    board.entered = words::long(line, 3);
    read(Entries::Counts, words::word(line, 4), &mut board);
    read(Entries::Toggles, words::word(line, 5), &mut board);
    read(Entries::Places, words::word(line, 6), &mut board);
    board
}
