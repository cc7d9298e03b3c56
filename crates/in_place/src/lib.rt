// The calls on a run that is known to be sound, in place: a run is wired up as it opens, and then each call moves it where it stands.
// Beside it are its depth, how many tokens are inside, and a table of the places that the wires feed, so that a turn reads one byte
// of it. No call refuses by 9.
#![tactic(auto)]

ghost use Rattle.std.specs.Prelude.{◌≡◌, ◌<◌, ◌≤◌, true, ℕ, [], get_or};
ghost use Rattle.network.specs.Widths.{depth_of};
ghost use Rattle.network.specs.Rows.{row_array, place_of};
ghost use Rattle.board.specs.Board.{max_entered, place_at, count_at};
ghost use Rattle.board.specs.Sound.{inside_sum};
ghost use Rattle.moves.specs.Enter.{entering};
ghost use Rattle.moves.specs.Turn.{passing, dealing, moved};
ghost use Rattle.run.specs.Run.{opened, entered, turned, fresh, open_of, sound, depth_in, enter_of, turn_of};
ghost use Rattle.in_place.specs.Held.{Wired, Steady, after};

use board::{Board, Place};
use moves::Turn;
use order::Refusal;
use run::Run;

// The layers of the deepest build; the table has a row for each.
const LAYERS: usize = 36;

// A run wired up; `within` counts the tokens inside.
#[derive(Clone, Copy)]
pub struct WiredRun {
    pub run: Run,
    pub within: u32,
    depth: u16,
    table: [[u8; network::ROW]; LAYERS],
    ghost counted: { within ≡ inside_sum run.board },
    ghost deep: { depth ≡ depth_in run },
    ghost wired: { Wired run table },
    ghost steady: { Steady run },
}

// Puts the row of each layer into the table.
fn wire_up(table: &mut [[u8; network::ROW]; LAYERS], width: u16, construction: u16)
    ensures { (L : ℕ) → L < depth_of width construction → get_or table.new L [] ≡ row_array width construction L }
{
    for layer in 0..network::depth_of(width, construction) {
        table[usize::from(layer)] = network::row(width, construction, layer);
    }
}

// The place of a token; a number that is no token reads as a free one.
#[tactic(auto, using(board::proofs::Lists::read_out), unfolding(board::specs::Board::place_at))]
fn place_at(board: &Board, token: u16) -> Place
    ensures { result ≡ place_at board.now token }
{
    match board.places.get(usize::from(token)) {
        Some(place) => *place,
        None => board::free_place(),
    }
}

// A token is put on a wire of level 0.
#[tactic(auto, unfolding(moves::specs::Enter::entering))]
fn put_in(board: &mut Board, token: u16, wire: u16)
    requires { (token < 256) × (board.old.entered < max_entered) }
    ensures { board.new ≡ entering board.old token wire }
{
    board.places[usize::from(token)] = Place {
        inside: true,
        level: 0,
        wire,
    };
    board.entered += 1;
}

// A token inside passes the cell that its wire feeds.
#[tactic(auto, unfolding(moves::specs::Turn::passing, board::specs::Board::place_at, board::specs::Board::down_at))]
fn pass(board: &mut Board, width: u16, token: u16, feeds: u8) -> Turn
    requires { (token < 256) × ((place_at board.old token).level < 65535) }
    ensures { moved (record { turn = result; board = board.new }) ≡ passing width board.old token feeds }
{
    let layer = place_at(board, token).level;
    let cell = feeds / 2;
    let toggle = moves::cell_at(width, layer, cell);
    let down = moves::toggle_at(&board.toggles, toggle);
    let outlet = moves::shown(down);
    let level = layer + 1;
    let wire = moves::wire_of(cell, outlet);
    moves::put_toggle(&mut board.toggles, toggle, !down);
    let there = Place {
        inside: true,
        level,
        wire,
    };
    board.places[usize::from(token)] = there;
    Turn::Passed {
        level,
        wire,
        layer,
        cell,
        outlet,
    }
}

// A token inside is dealt its number at an exit, and is free.
#[tactic(auto, unfolding(moves::specs::Turn::dealing, board::specs::Board::count_at))]
fn deal(board: &mut Board, width: u16, token: u16, exit: u16) -> Turn
    requires { (token < 256) × ((width ≤ 64) × (count_at board.old exit ≤ max_entered)) }
    ensures { moved (record { turn = result; board = board.new }) ≡ dealing width board.old token exit }
{
    let count = moves::count_at(&board.counts, exit);
    let number = moves::number_at(width, exit, count);
    moves::put_count(&mut board.counts, exit, count + 1);
    board.places[usize::from(token)] = board::free_place();
    Turn::Dealt { exit, number }
}

impl WiredRun {
    // No run yet: that of a refused opening stands in.
    #[tactic(auto, unfolding(run::specs::Run::fresh))]
    pub fn unopened() -> WiredRun
        ensures { result.run ≡ fresh 0 0 }
    {
        WiredRun {
            run: Run {
                width: 0,
                construction: 0,
                board: board::fresh(),
            },
            within: 0,
            depth: 0,
            table: [[0; network::ROW]; LAYERS],
        }
    }

    // A run opens, whatever stood here; refused by 1 and 2.
    pub fn open(&mut self, width: u16, construction: u16) -> Result<(), Refusal>
        ensures { opened (after self.new.run result) ≡ open_of width construction }
    {
        let opened = Run::open(width, construction);
        self.run = opened.state;
        self.within = 0;
        self.depth = network::depth_of(self.run.width, self.run.construction);
        wire_up(&mut self.table, self.run.width, self.run.construction);
        opened.answer
    }

    // A token enters on a wire of level 0; refused by 4, 5, 6, 7.
    #[tactic(auto, using(order::proofs::Numbers::number_some, crate::proofs::Steps::can_enter, crate::proofs::Steps::few, crate::proofs::Steps::few_inside), unfolding(run::specs::Run::enter_of, moves::specs::Enter::enter_with, moves::specs::Enter::enter_no, moves::specs::Enter::entering, board::specs::Board::place_at, order::specs::Order::first_of))]
    pub fn enter(&mut self, token: u16, wire: u16) -> Result<(), Refusal>
        ensures { sound self.old.run ≡ true → entered (after self.new.run result) ≡ enter_of self.old.run token wire }
    {
        let from = place_at(&self.run.board, token);
        moves::check_enter(self.run.board.entered, self.run.width, from, token, wire)?;
        put_in(&mut self.run.board, token, wire);
        self.within += 1;
        Ok(())
    }

    // The place that a token's wire feeds, below the depth.
    fn feeds_at(&self, place: Place) -> u8
        requires { (place.level < depth_in self.now.run) × (place.wire < self.now.run.width) }
        ensures { result ≡ place_of self.now.run.width self.now.run.construction place.level place.wire }
    {
        self.table[usize::from(place.level)][usize::from(place.wire)]
    }

    // A token inside passes its next cell, or is dealt a number at its exit; refused by 4, 8.
    #[tactic(auto, using(order::proofs::Numbers::number_some, crate::proofs::Steps::can_turn), unfolding(run::specs::Run::turn_of, run::specs::Run::feeds_of, run::specs::Run::depth_in, moves::specs::Turn::turn_with, moves::specs::Turn::turn_no, board::specs::Board::place_at, order::specs::Order::first_of))]
    pub fn turn(&mut self, token: u16) -> Result<Turn, Refusal>
        ensures { sound self.old.run ≡ true → turned (after self.new.run result) ≡ turn_of self.old.run token }
    {
        let place = place_at(&self.run.board, token);
        moves::check_turn(token, place)?;
        let width = self.run.width;
        if place.level < self.depth {
            let feeds = self.feeds_at(place);
            return Ok(pass(&mut self.run.board, width, token, feeds));
        }
        self.within -= 1;
        Ok(deal(&mut self.run.board, width, token, place.wire))
    }
}
