// The moving part of any layered network as it stands, by value: toggles, exit counts, token places and entered; and whether it is
// sound. Width and depth come from the caller; nothing here knows a construction.
#![tactic(auto)]

ghost use Rattle.std.specs.Prelude.{◌≡◌, not, ◌+◌, ◌*◌, ◌/◌, ◌<◌, ◌≤◌, drop};
ghost use Rattle.board.specs.Board.{free_place, fresh_board};
ghost use Rattle.board.specs.Sound.{all, sum_of, place_ok, is_zero, itself, inside_one, adds_up, sound_board};

// ---- limits

// Entries in one run.
pub const MAX_ENTERED: u32 = 1_000_000;

// Tokens are numbered from 0 to this.
pub const MAX_TOKEN: u16 = 255;

pub const TOKENS: usize = MAX_TOKEN as usize + 1;

// Exits of the widest network, and cells of the largest.
pub const EXITS: usize = 64;

pub const CELLS: usize = 1152;

// ---- the record

// Where a token is; while it is free, level 0 and wire 0.
#[derive(Clone, Copy, Debug, PartialEq, Eq)]
pub struct Place {
    pub inside: bool,
    pub level: u16,
    pub wire: u16,
}

// The toggle of cell c in layer L stands at L · (w/2) + c; false is up.
#[derive(Clone, Copy)]
pub struct Board {
    pub entered: u32,
    pub counts: [u32; EXITS],
    pub toggles: [bool; CELLS],
    pub places: [Place; TOKENS],
}

pub fn free_place() -> Place
    ensures { result ≡ free_place }
{
    Place {
        inside: false,
        level: 0,
        wire: 0,
    }
}

// As it opens.
#[tactic(auto, unfolding(crate::specs::Board::fresh_board))]
pub fn fresh() -> Board
    ensures { result ≡ fresh_board }
{
    Board {
        entered: 0,
        counts: [0; EXITS],
        toggles: [false; CELLS],
        places: [free_place(); TOKENS],
    }
}

// ---- soundness

fn place_ok(width: u16, depth: u16, p: Place) -> bool
    ensures { result ≡ place_ok width depth p }
{
    if p.inside {
        return (p.level <= depth) & (p.wire < width);
    }
    (p.level == 0) & (p.wire == 0)
}

// The loops over places, and over counts, end at none that fails: `all`, which does, is slower where none fails.
fn places_ok(places: &[Place; TOKENS], width: u16, depth: u16) -> bool
    ensures { result ≡ all (place_ok width depth) places.now }
{
    let mut ok = true;
    for p in places {
        ok &= place_ok(width, depth, *p);
    }
    ok
}

// What lies beyond a place: nothing where there is no such place.
fn beyond<T>(xs: &[T], from: usize) -> &[T]
    ensures { result.now ≡ drop from xs.now }
{
    xs.get(from..).unwrap_or(&[])
}

fn counts_zero(counts: &[u32; EXITS], from: usize) -> bool
    ensures { result ≡ all is_zero (drop from counts.now) }
{
    let mut ok = true;
    for c in beyond(counts, from) {
        ok &= *c == 0;
    }
    ok
}

fn toggles_up(toggles: &[bool; CELLS], from: usize) -> bool
    ensures { result ≡ all not (drop from toggles.now) }
{
    !beyond(toggles, from).contains(&true)
}

fn cells(width: u16, depth: u16) -> usize
    ensures { result ≡ depth * (width / 2) }
{
    usize::from(depth) * usize::from(width / 2)
}

// The numbers dealt at all exits, in 64 bits: 64 counts of 32 bits do not wrap.
fn dealt_sum(counts: &[u32; EXITS]) -> u64
    ensures { (result ≡ sum_of itself counts.now) × (result < 64 * 4294967296) }
{
    counts.iter().map(|c| u64::from(*c)).sum()
}

// A loop over all: `filter` and `count` are slower.
pub fn inside_sum(places: &[Place; TOKENS]) -> u32
    ensures { (result ≡ sum_of inside_one places.now) × (result ≤ 256) }
{
    let mut sum = 0;
    for p in places {
        sum += u32::from(p.inside);
    }
    sum
}

#[tactic(auto, unfolding(crate::specs::Sound::adds_up, crate::specs::Sound::dealt_sum, crate::specs::Sound::inside_sum))]
fn adds_up(board: &Board) -> bool
    ensures { result ≡ adds_up board.now }
{
    let sum = dealt_sum(&board.counts) + u64::from(inside_sum(&board.places));
    sum == u64::from(board.entered)
}

// Is the board sound for a network of this width and depth?
#[tactic(auto, unfolding(crate::specs::Sound::sound_board, crate::specs::Sound::few_entered, crate::specs::Sound::places_ok, crate::specs::Sound::counts_beyond, crate::specs::Sound::toggles_beyond))]
pub fn is_sound(board: &Board, width: u16, depth: u16) -> bool
    ensures { result ≡ sound_board width depth board.now }
{
    let placed = places_ok(&board.places, width, depth);
    let zero = counts_zero(&board.counts, usize::from(width));
    let up = toggles_up(&board.toggles, cells(width, depth));
    let even = adds_up(board);
    (board.entered <= MAX_ENTERED) & placed & zero & up & even
}
