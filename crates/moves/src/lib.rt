// What moves on a board, by value: a token enters, passes a cell, is dealt its number at an exit. Width, the place that a wire feeds
// and the exit come from the caller; nothing here knows a construction. Who calls has judged the board sound: no call here refuses
// by 9, and a `requires` asks no more than that the token is one, and that sums fit.
#![tactic(auto)]

ghost use Rattle.std.specs.Prelude.{◌≡◌, true, false, not, [], ◌∷◌, ◌+◌, ◌*◌, ◌/◌, ◌<◌, ◌≤◌, eqb, leb, ltb, get_or, set};
ghost use Rattle.order.specs.Order.{◌⟶◌, first_of, refused_by};
ghost use Rattle.board.specs.Board.{max_entered, free_place, place_at, count_at, cell_at};
ghost use Rattle.moves.specs.Enter.{entering, enter_with, boarded};
ghost use Rattle.moves.specs.Turn.{outlet_of, passing, number_at, dealing, moved};

use board::{Board, CELLS, EXITS, MAX_ENTERED, MAX_TOKEN, Place, TOKENS};
use order::{After, Refusal};

// What a turn that is carried out answers. A pass: the new level and wire, and the cell that was passed, by its layer, which is the
// level before the turn, its number in the layer and the outlet, 0 the top and 1 the bottom.
#[derive(Clone, Copy)]
pub enum Turn {
    Passed {
        level: u16,
        wire: u16,
        layer: u16,
        cell: u8,
        outlet: u8,
    },
    Dealt {
        exit: u16,
        number: u32,
    },
}

// What a turn gives that is carried out: its answer, and the board after it.
#[derive(Clone, Copy)]
pub struct Moved {
    pub turn: Turn,
    pub board: Board,
}

// ---- reads and stores: past the end the default is read, and nothing is stored

// The place of a token; a number that is no token reads as a free one.
pub fn place_at(places: &[Place; TOKENS], token: u16) -> Place
    ensures { result ≡ get_or places.now token free_place }
{
    places
        .get(usize::from(token))
        .copied()
        .unwrap_or(board::free_place())
}

pub fn count_at(counts: &[u32; EXITS], exit: u16) -> u32
    ensures { result ≡ get_or counts.now exit 0 }
{
    counts.get(usize::from(exit)).copied().unwrap_or(0)
}

pub fn put_count(counts: &mut [u32; EXITS], exit: u16, count: u32)
    ensures { counts.new ≡ set counts.old exit count }
{
    let at = usize::from(exit);
    if at < EXITS {
        counts[at] = count;
    }
}

pub fn toggle_at(toggles: &[bool; CELLS], cell: usize) -> bool
    ensures { result ≡ get_or toggles.now cell false }
{
    toggles.get(cell).copied().unwrap_or(false)
}

pub fn put_toggle(toggles: &mut [bool; CELLS], cell: usize, down: bool)
    ensures { toggles.new ≡ set toggles.old cell down }
{
    if cell < CELLS {
        toggles[cell] = down;
    }
}

// ---- entering

// May a token at this place enter? Refused by 4, 5, 6, 7.
#[tactic(auto, unfolding(order::specs::Order::first_of))]
pub fn check_enter(
    entered: u32,
    width: u16,
    from: Place,
    token: u16,
    wire: u16,
) -> Result<(), Refusal>
    ensures { refused_by result ≡ first_of ((ltb 255 token ⟶ 4) ∷ (leb width wire ⟶ 5) ∷ (from.inside ⟶ 6) ∷ (eqb entered max_entered ⟶ 7) ∷ []) }
{
    if MAX_TOKEN < token {
        return Err(Refusal::NoToken);
    }
    if width <= wire {
        return Err(Refusal::NoWire);
    }
    if from.inside {
        return Err(Refusal::AlreadyInside);
    }
    if entered == MAX_ENTERED {
        return Err(Refusal::RunFull);
    }
    Ok(())
}

#[tactic(auto, unfolding(crate::specs::Enter::entering))]
fn put_in(mut board: Board, token: u16, wire: u16) -> Board
    requires { (token < 256) × (board.entered < max_entered) }
    ensures { result ≡ entering board token wire }
{
    board.places[usize::from(token)] = Place {
        inside: true,
        level: 0,
        wire,
    };
    board.entered += 1;
    board
}

// A token enters a sound board.
#[tactic(auto, using(order::proofs::Numbers::number_some), unfolding(crate::specs::Enter::enter_with, crate::specs::Enter::enter_no, board::specs::Board::place_at, order::specs::Order::first_of))]
pub fn enter(board: Board, width: u16, token: u16, wire: u16) -> After<Board, ()>
    requires { board.entered ≤ max_entered }
    ensures { boarded result ≡ enter_with true width board token wire }
{
    let from = place_at(&board.places, token);
    match check_enter(board.entered, width, from, token, wire) {
        Ok(()) => After {
            state: put_in(board, token, wire),
            answer: Ok(()),
        },
        Err(refusal) => After {
            state: board,
            answer: Err(refusal),
        },
    }
}

// ---- turns

// May a token at this place turn? Refused by 4, 8.
#[tactic(auto, unfolding(order::specs::Order::first_of))]
pub fn check_turn(token: u16, from: Place) -> Result<(), Refusal>
    ensures { refused_by result ≡ first_of ((ltb 255 token ⟶ 4) ∷ (not from.inside ⟶ 8) ∷ []) }
{
    if token > MAX_TOKEN {
        return Err(Refusal::NoToken);
    }
    if !from.inside {
        return Err(Refusal::NotInside);
    }
    Ok(())
}

pub fn cell_at(width: u16, level: u16, cell: u8) -> usize
    ensures { result ≡ cell_at width level cell }
{
    usize::from(level) * usize::from(width / 2) + usize::from(cell)
}

// The outlet that a toggle shows: top where it is up, bottom where it is down.
pub fn shown(down: bool) -> u8
    ensures { result ≡ outlet_of down }
{
    u8::from(down)
}

// The wire of a cell's outlet.
pub fn wire_of(cell: u8, outlet: u8) -> u16
    ensures { result ≡ 2 * cell + outlet }
{
    2 * u16::from(cell) + u16::from(outlet)
}

// A token inside passes the cell that its wire feeds.
#[tactic(auto, unfolding(crate::specs::Turn::passing, board::specs::Board::place_at, board::specs::Board::down_at))]
pub fn pass(mut board: Board, width: u16, token: u16, feeds: u8) -> Moved
    requires { (token < 256) × ((place_at board token).level < 65535) }
    ensures { moved result ≡ passing width board token feeds }
{
    let layer = place_at(&board.places, token).level;
    let cell = feeds / 2;
    let toggle = cell_at(width, layer, cell);
    let down = toggle_at(&board.toggles, toggle);
    let outlet = shown(down);
    let wire = wire_of(cell, outlet);
    let level = layer + 1;
    put_toggle(&mut board.toggles, toggle, !down);
    board.places[usize::from(token)] = Place {
        inside: true,
        level,
        wire,
    };
    Moved {
        turn: Turn::Passed {
            level,
            wire,
            layer,
            cell,
            outlet,
        },
        board,
    }
}

// The number that an exit deals.
pub fn number_at(width: u16, exit: u16, count: u32) -> u32
    requires { (width ≤ 64) × (count ≤ max_entered) }
    ensures { result ≡ number_at width exit count }
{
    u32::from(exit) + u32::from(width) * count
}

// A token inside is dealt its number at an exit, and is free.
#[tactic(auto, unfolding(crate::specs::Turn::dealing, board::specs::Board::count_at))]
pub fn deal(mut board: Board, width: u16, token: u16, exit: u16) -> Moved
    requires { (token < 256) × ((width ≤ 64) × (count_at board exit ≤ max_entered)) }
    ensures { moved result ≡ dealing width board token exit }
{
    let count = count_at(&board.counts, exit);
    let number = number_at(width, exit, count);
    put_count(&mut board.counts, exit, count + 1);
    board.places[usize::from(token)] = board::free_place();
    Moved {
        turn: Turn::Dealt { exit, number },
        board,
    }
}
