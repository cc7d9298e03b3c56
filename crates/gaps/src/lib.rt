// The gap list of a run: the missing numbers below entered, which is at most 1,000,000 where the record is sound. The list's
// length is worked out from the shares of the exits, so that a slice that is too short is refused before anything is written; the
// list is then written in one walk over the numbers.
#![tactic(auto)]

ghost use Rattle.std.specs.Prelude.{◌≡◌, ◌-◌, ◌≤◌, ◌<◌, length};
ghost use Rattle.order.specs.Order.{over};
ghost use Rattle.board.specs.Board.{max_entered};
ghost use Rattle.rest.specs.Share.{share};
ghost use Rattle.run.specs.Run.{sound};
ghost use Rattle.gaps.specs.Gaps.{gaps_below, GapsIs};
ghost use Rattle.gaps.specs.Counts.{of_counts, CanWalk, FillIs};

use board::EXITS;
use order::Refusal;
use run::Run;

// How many numbers an exit with this count is short of its share of the numbers below n.
#[tactic(auto, unfolding(rest::specs::Share::share))]
fn short_of(w: u32, n: u32, exit: u32, count: u32) -> u32
    requires { (0 < w) × (w ≤ 64) × (n ≤ max_entered) }
    ensures { result ≡ share n exit w - count }
{
    let due = (n.saturating_sub(exit) + (w - 1)) / w;
    due.saturating_sub(count)
}

// How many numbers below n are missing.
fn missing_below(w: u32, counts: &[u32; EXITS], n: u32) -> u32
    requires { CanWalk w counts.now × (n ≤ max_entered) }
    ensures { result ≡ length (gaps_below w (of_counts counts.now) n) }
{
    let mut total = 0;
    for i in 0..w {
        total += short_of(w, n, i, counts[i as usize]);
    }
    total
}

// The missing numbers below n, rising, in front of what is lent.
fn write_missing(w: u32, counts: &[u32; EXITS], n: u32, out: &mut [u32])
    requires { CanWalk w counts.now × (n ≤ max_entered) × (length (gaps_below w (of_counts counts.now) n) ≤ length out.old) }
    ensures { out.new ≡ over (gaps_below w (of_counts counts.now) n) out.old }
{
    let mut at = 0;
    for v in 0..n {
        let exit = (v % w) as usize;
        if counts[exit] <= v / w {
            out[at] = v;
            at += 1;
        }
    }
}

// The missing numbers below n, in front of what is lent: 17 where there is no room for them. Who calls has judged the record sound.
#[tactic(auto, unfolding(crate::specs::Counts::room_no, order::specs::Order::first_of))]
pub fn fill(w: usize, counts: &[u32; EXITS], n: usize, out: &mut [u32]) -> Result<usize, Refusal>
    requires { CanWalk w counts.now × (n ≤ max_entered) }
    ensures { FillIs (gaps_below w (of_counts counts.now) n) out.old out.new result }
{
    // Both are small, and 32 bits divide faster.
    let (width, below) = (w as u32, n as u32);
    let filled = missing_below(width, counts, below) as usize;
    if out.len() < filled {
        return Err(Refusal::NoRoom);
    }
    write_missing(width, counts, below, out);
    Ok(filled)
}

// The gap list of a run, in front of what is lent: 9, 17.
pub fn gap_list(run: Run, out: &mut [u32]) -> Result<usize, Refusal>
    ensures { GapsIs (sound run) run.width run.board out.old out.new result }
{
    if !run.is_sound() {
        return Err(Refusal::NotSound);
    }
    let w = usize::from(run.width);
    let n = run.board.entered as usize;
    fill(w, &run.board.counts, n, out)
}
