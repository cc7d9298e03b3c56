// The small cabinet, by value: a run, and a dial at each exit. Opened, entered, turned and polled. Every call answers every
// argument; a refused call gives the record back as it was.
#![tactic(auto)]

ghost use Rattle.std.specs.Prelude.{◌≡◌};
ghost use Rattle.order.specs.Order.{refused_by};
ghost use Rattle.moves.specs.Answer.{answered, values_of};
ghost use Rattle.small.specs.Small.{opened, entered, turned, polled, advanced_at, open_small, enter_small, dials_after, turn_small, poll_no, poll_small};

use board::EXITS;
use dials::Dial;
use moves::Turn;
use order::{After, Refusal};
use run::Run;

#[derive(Clone, Copy)]
pub struct Cabinet {
    pub run: Run,
    pub dials: [Dial; EXITS],
}

// A number was dealt at an exit; one that is none has no dial.
fn advance_at(mut dials: [Dial; EXITS], exit: u16) -> [Dial; EXITS]
    ensures { result ≡ advanced_at dials exit }
{
    let at = usize::from(exit);
    if at < EXITS {
        dials[at] = dials[at].advance();
    }
    dials
}

// The dials after a turn: that of an exit where a number was dealt goes on.
#[tactic(auto, unfolding(crate::specs::Small::dials_after, moves::specs::Answer::values_of))]
fn dials_after(dials: [Dial; EXITS], answer: Result<Turn, Refusal>) -> [Dial; EXITS]
    ensures { result ≡ dials_after dials (values_of (answered answer)) }
{
    match answer {
        Ok(Turn::Dealt { exit, number: _ }) => advance_at(dials, exit),
        _ => dials,
    }
}

impl Cabinet {
    // Nothing entered, and every dial and last reading 0; refused by 1 and 2.
    #[tactic(auto, unfolding(crate::specs::Small::open_small))]
    pub fn open(width: u16, construction: u16) -> After<Cabinet, ()>
        ensures { opened result ≡ open_small width construction }
    {
        let opened = Run::open(width, construction);
        After {
            state: Cabinet {
                run: opened.state,
                dials: [Dial::open(); EXITS],
            },
            answer: opened.answer,
        }
    }

    // A token enters on a wire of level 0; refused by 9, 4, 5, 6, 7.
    #[tactic(auto, unfolding(crate::specs::Small::enter_small))]
    pub fn enter(self, token: u16, wire: u16) -> After<Cabinet, ()>
        ensures { entered result ≡ enter_small self token wire }
    {
        let entered = self.run.enter(token, wire);
        After {
            state: Cabinet {
                run: entered.state,
                ..self
            },
            answer: entered.answer,
        }
    }

    // A token inside passes its next cell, or is dealt a number at its exit, whose dial goes on; refused by 9, 4, 8.
    #[tactic(auto, unfolding(crate::specs::Small::turn_small))]
    pub fn turn(self, token: u16) -> After<Cabinet, Turn>
        ensures { turned result ≡ turn_small self token }
    {
        let turned = self.run.turn(token);
        After {
            state: Cabinet {
                run: turned.state,
                dials: dials_after(self.dials, turned.answer),
            },
            answer: turned.answer,
        }
    }

    // Why an exit cannot be polled: 9, 5.
    #[tactic(auto, unfolding(crate::specs::Small::poll_no, order::specs::Order::first_of))]
    fn check_poll(self, exit: u16) -> Result<(), Refusal>
        ensures { refused_by result ≡ poll_no self exit }
    {
        if !self.run.is_sound() {
            return Err(Refusal::NotSound);
        }
        if self.run.width <= exit {
            return Err(Refusal::NoWire);
        }
        Ok(())
    }

    // The numbers dealt at an exit since it was last polled; refused by 9, 5.
    #[tactic(auto, using(crate::proofs::Small::has_dial, order::proofs::Numbers::number_some), unfolding(crate::specs::Small::poll_small, dials::specs::Dials::poll_of))]
    pub fn poll(self, exit: u16) -> After<Cabinet, u16>
        ensures { polled result ≡ poll_small self exit }
    {
        if let Err(refusal) = self.check_poll(exit) {
            return After {
                state: self,
                answer: Err(refusal),
            };
        }
        let at = usize::from(exit);
        let mut dials = self.dials;
        let polled = dials[at].poll();
        dials[at] = polled.dial;
        After {
            state: Cabinet { dials, ..self },
            answer: Ok(polled.yielded),
        }
    }
}
