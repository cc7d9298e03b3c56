// A dial of 16 bits at an exit of the small cabinet, which goes round from 65,535 to 0, with its last reading and the sum of its
// yields, which goes round at 2^32; and the desk's working out of the highest number dealt, from the sums of all exits.
#![tactic(auto)]

ghost use Rattle.std.specs.Prelude.{◌≡◌, ◌<◌, ◌≤◌};
ghost use Rattle.dials.specs.Dials.{open_dial, advance_of, poll_of};
ghost use Rattle.dials.specs.Highest.{top_by, past_at, past_below, highest_of};

use board::EXITS;
use order::Refusal;

#[derive(Clone, Copy, Debug, PartialEq, Eq)]
pub struct Dial {
    pub now: u16,
    pub last: u16,
    pub sum: u32,
}

// What a poll gives: its yield, and the dial after it.
#[derive(Clone, Copy)]
pub struct Polled {
    pub yielded: u16,
    pub dial: Dial,
}

impl Dial {
    // As it opens.
    pub fn open() -> Dial
        ensures { result ≡ open_dial }
    {
        Dial {
            now: 0,
            last: 0,
            sum: 0,
        }
    }

    // A number is dealt at the dial's exit.
    #[tactic(auto, unfolding(crate::specs::Dials::advance_of))]
    pub fn advance(self) -> Dial
        ensures { result ≡ advance_of self }
    {
        Dial {
            now: self.now.wrapping_add(1),
            ..self
        }
    }

    // The numbers dealt since the last poll.
    #[tactic(auto, unfolding(crate::specs::Dials::poll_of, crate::specs::Dials::yield_of))]
    pub fn poll(self) -> Polled
        ensures { result ≡ poll_of self }
    {
        let yielded = self.now.wrapping_sub(self.last);
        let dial = Dial {
            last: self.now,
            sum: self.sum.wrapping_add(u32::from(yielded)),
            ..self
        };
        Polled { yielded, dial }
    }
}

// One more than the highest number that an exit has dealt, and 0 where it has dealt none: below 64 · 2^32.
#[tactic(auto, unfolding(crate::specs::Highest::past_at))]
fn past_at(width: u16, exit: u16, sum: u32) -> u64
    requires { (width ≤ 64) × (exit < width) }
    ensures { result ≡ past_at width exit sum }
{
    if sum == 0 {
        return 0;
    }
    u64::from(exit) + u64::from(width) * u64::from(sum - 1) + 1
}

#[tactic(auto, using(crate::proofs::Past::past_more), unfolding(crate::specs::Highest::past_below))]
fn past_all(width: u16, sums: [u32; EXITS]) -> u64
    requires { width ≤ 64 }
    ensures { result ≡ past_below width sums width }
{
    let mut past: u64 = 0;
    for exit in 0..width {
        past = past.max(past_at(width, exit, sums[exit as usize]));
    }
    past
}

// The highest number dealt, from the sums of the yields of all exits below the width, or none where nothing was dealt; refused by 1.
#[tactic(auto, using(network::proofs::Widths::width_small, crate::proofs::Past::highest_refused, crate::proofs::Past::highest_told))]
pub fn highest(width: u16, sums: [u32; EXITS]) -> Result<Option<u64>, Refusal>
    ensures { top_by result ≡ highest_of width sums }
{
    if !network::width_ok(width) {
        return Err(Refusal::Width);
    }
    Ok(past_all(width, sums).checked_sub(1))
}
