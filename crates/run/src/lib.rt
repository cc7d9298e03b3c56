// A run of a build, by value: opened, entered and turned. Every call answers every argument; a refused call gives the record
// back as it was.
#![tactic(auto)]

ghost use Rattle.std.specs.Prelude.{◌≡◌, true};
ghost use Rattle.run.specs.Limits.{LimitsAre};
ghost use Rattle.run.specs.Run.{opened, entered, turned, fresh, open_of, sound, enter_of, turn_of};

use board::Board;
use moves::Turn;
use order::{After, Refusal};

#[derive(Clone, Copy)]
pub struct Run {
    pub width: u16,
    pub construction: u16,
    pub board: Board,
}

// The constants of a run, as a value that a contract can speak of.
#[derive(Clone, Copy)]
struct Limits {
    width: u16,
    entered: u32,
    bitonic: u16,
    periodic: u16,
}

// Nothing calls it: its contract holds the constants to the definitions.
fn constants() -> Limits
    ensures { LimitsAre result }
{
    Limits {
        width: Run::MAX_WIDTH,
        entered: Run::MAX_ENTERED,
        bitonic: Run::BITONIC,
        periodic: Run::PERIODIC,
    }
}

#[tactic(auto, unfolding(crate::specs::Run::fresh))]
fn made(width: u16, construction: u16) -> Run
    ensures { result ≡ fresh width construction }
{
    Run {
        width,
        construction,
        board: board::fresh(),
    }
}

impl Run {
    pub const MAX_WIDTH: u16 = network::MAX_WIDTH;

    pub const MAX_ENTERED: u32 = board::MAX_ENTERED;

    pub const BITONIC: u16 = network::BITONIC;

    pub const PERIODIC: u16 = network::PERIODIC;

    // A run with nothing entered; refused by 1 and 2, with a record of width 0 and construction 0, which is not sound.
    #[tactic(auto, using(order::proofs::Numbers::number_some), unfolding(crate::specs::Run::open_of))]
    pub fn open(width: u16, construction: u16) -> After<Run, ()>
        ensures { opened result ≡ open_of width construction }
    {
        match network::check_open(width, construction) {
            Ok(()) => After {
                state: made(width, construction),
                answer: Ok(()),
            },
            Err(refusal) => After {
                state: made(0, 0),
                answer: Err(refusal),
            },
        }
    }

    #[tactic(auto, unfolding(crate::specs::Run::sound, crate::specs::Run::depth_in))]
    pub fn is_sound(self) -> bool
        ensures { result ≡ sound self }
    {
        let allowed = network::width_ok(self.width);
        let known = network::construction_ok(self.construction);
        let depth = network::depth_of(self.width, self.construction);
        let good = board::is_sound(&self.board, self.width, depth);
        allowed & known & good
    }

    // A token enters on a wire of level 0; refused by 9, 4, 5, 6, 7.
    #[tactic(auto, unfolding(crate::specs::Run::enter_of, moves::specs::Enter::enter_with, moves::specs::Enter::enter_no, order::specs::Order::first_of))]
    pub fn enter(self, token: u16, wire: u16) -> After<Run, ()>
        ensures { entered result ≡ enter_of self token wire }
    {
        if self.is_sound() {
            return self.enter_sound(token, wire);
        }
        After {
            state: self,
            answer: Err(Refusal::NotSound),
        }
    }

    // A token inside passes its next cell, or is dealt a number at its exit; refused by 9, 4, 8.
    #[tactic(auto, unfolding(crate::specs::Run::turn_of, moves::specs::Turn::turn_with, moves::specs::Turn::turn_no, order::specs::Order::first_of))]
    pub fn turn(self, token: u16) -> After<Run, Turn>
        ensures { turned result ≡ turn_of self token }
    {
        if self.is_sound() {
            return self.turn_sound(token);
        }
        After {
            state: self,
            answer: Err(Refusal::NotSound),
        }
    }

    // The same of a run that is known to be sound, for a caller that judged it once: every call keeps it so.
    #[tactic(auto, unfolding(crate::specs::Run::enter_of))]
    pub fn enter_sound(self, token: u16, wire: u16) -> After<Run, ()>
        requires { sound self ≡ true }
        ensures { entered result ≡ enter_of self token wire }
    {
        let entered = moves::enter(self.board, self.width, token, wire);
        After {
            state: Run {
                board: entered.state,
                ..self
            },
            answer: entered.answer,
        }
    }

    #[tactic(auto, using(order::proofs::Numbers::number_some), unfolding(crate::specs::Run::turn_of, crate::specs::Run::feeds_of, crate::specs::Run::depth_in, moves::specs::Turn::turn_with, moves::specs::Turn::turn_no, board::specs::Board::place_at, order::specs::Order::first_of))]
    pub fn turn_sound(self, token: u16) -> After<Run, Turn>
        requires { sound self ≡ true }
        ensures { turned result ≡ turn_of self token }
    {
        let place = moves::place_at(&self.board.places, token);
        if let Err(refusal) = moves::check_turn(token, place) {
            return After {
                state: self,
                answer: Err(refusal),
            };
        }
        let depth = network::depth_of(self.width, self.construction);
        let moved = if place.level < depth {
            let feeds = network::place_of(self.width, self.construction, place.level, place.wire);
            moves::pass(self.board, self.width, token, feeds as u8)
        } else {
            moves::deal(self.board, self.width, token, place.wire)
        };
        After {
            state: Run {
                board: moved.board,
                ..self
            },
            answer: Ok(moved.turn),
        }
    }
}
