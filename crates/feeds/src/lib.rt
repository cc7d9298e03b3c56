// Runs over a feed sheet, by value: opened, entered and turned. The sheet is lent to each call and only read; a call that its sheet
// or its own order refuses gives the record back as it was. Every call answers every argument.
#![tactic(auto)]

ghost use Rattle.std.specs.Prelude.{◌≡◌};
ghost use Rattle.order.specs.Order.{refused_by};
ghost use Rattle.feeds.specs.Feeds.{feed_opened, feed_entered, feed_turned, fresh_feed, feed_open_of, feed_sound, judged_no, feed_enter_of, feed_turn_of};

use board::Board;
use moves::Turn;
use order::{After, Refusal};

#[derive(Clone, Copy)]
pub struct FeedRun {
    pub width: u16,
    pub depth: u16,
    pub board: Board,
}

#[tactic(auto, unfolding(crate::specs::Feeds::fresh_feed))]
fn made(width: u16, depth: u16) -> FeedRun
    ensures { result ≡ fresh_feed width depth }
{
    FeedRun {
        width,
        depth,
        board: board::fresh(),
    }
}

impl FeedRun {
    // A run with nothing entered; refused by 22, 20, 3, 21 of the sheet, with a record of width 0 and depth 0, which is not sound.
    #[tactic(auto, using(order::proofs::Numbers::number_some), unfolding(crate::specs::Feeds::feed_open_of))]
    pub fn open(width: u16, depth: u16, sheet: &[u8]) -> After<FeedRun, ()>
        ensures { feed_opened result ≡ feed_open_of width depth sheet.now }
    {
        match feed_sheet::check(sheet, width, depth) {
            Ok(()) => After {
                state: made(width, depth),
                answer: Ok(()),
            },
            Err(refusal) => After {
                state: made(0, 0),
                answer: Err(refusal),
            },
        }
    }

    #[tactic(auto, unfolding(crate::specs::Feeds::feed_sound))]
    pub fn is_sound(self) -> bool
        ensures { result ≡ feed_sound self }
    {
        let within = feed_sheet::in_limits(usize::from(self.width), usize::from(self.depth));
        let odd = feed_sheet::is_unpaired(self.width, self.depth);
        let good = board::is_sound(&self.board, self.width, self.depth);
        within & !odd & good
    }

    // May a call be made with this sheet? Refused by 22, 20, 3, 21 of the sheet, then 9.
    #[tactic(auto, using(order::proofs::Numbers::number_some))]
    fn check(self, sheet: &[u8]) -> Result<(), Refusal>
        ensures { refused_by result ≡ judged_no self sheet.now }
    {
        feed_sheet::check(sheet, self.width, self.depth)?;
        if !self.is_sound() {
            return Err(Refusal::NotSound);
        }
        Ok(())
    }

    // A token enters on a wire of level 0; refused by 22, 20, 3, 21 of the sheet, then 9, 4, 5, 6, 7.
    #[tactic(auto, using(order::proofs::Numbers::number_some), unfolding(crate::specs::Feeds::feed_enter_of, moves::specs::Enter::enter_with, moves::specs::Enter::enter_no, order::specs::Order::first_of))]
    pub fn enter(self, token: u16, wire: u16, sheet: &[u8]) -> After<FeedRun, ()>
        ensures { feed_entered result ≡ feed_enter_of sheet.now self token wire }
    {
        if let Err(refusal) = self.check(sheet) {
            return After {
                state: self,
                answer: Err(refusal),
            };
        }
        let entered = moves::enter(self.board, self.width, token, wire);
        After {
            state: FeedRun {
                board: entered.state,
                ..self
            },
            answer: entered.answer,
        }
    }

    // A token inside passes its next cell, or is dealt a number at the exit that the exit row names for its wire; refused by 22, 20,
    // 3, 21 of the sheet, then 9, 4, 8.
    #[tactic(auto, using(order::proofs::Numbers::number_some), unfolding(crate::specs::Feeds::feed_turn_of, crate::specs::Feeds::feeds_of, crate::specs::Feeds::exit_of, moves::specs::Turn::turn_with, moves::specs::Turn::turn_no, board::specs::Board::place_at, order::specs::Order::first_of))]
    pub fn turn(self, token: u16, sheet: &[u8]) -> After<FeedRun, Turn>
        ensures { feed_turned result ≡ feed_turn_of sheet.now self token }
    {
        if let Err(refused) = self.check(sheet) {
            return After {
                state: self,
                answer: Err(refused),
            };
        }
        let place = moves::place_at(&self.board.places, token);
        if let Err(refusal) = moves::check_turn(token, place) {
            return After {
                state: self,
                answer: Err(refusal),
            };
        }
        let moved = if place.level < self.depth {
            let feeds = feed_sheet::fed_at(sheet, self.width, place.level, place.wire);
            moves::pass(self.board, self.width, token, feeds)
        } else {
            let exit = feed_sheet::fed_at(sheet, self.width, self.depth, place.wire);
            moves::deal(self.board, self.width, token, u16::from(exit))
        };
        After {
            state: FeedRun {
                board: moved.board,
                ..self
            },
            answer: Ok(moved.turn),
        }
    }
}
