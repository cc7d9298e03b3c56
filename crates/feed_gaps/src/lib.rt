// The gap list of a run over a feed sheet: the missing numbers below entered. It is lent no sheet.
#![tactic(auto)]

ghost use Rattle.gaps.specs.Gaps.{GapsIs};
ghost use Rattle.feeds.specs.Feeds.{feed_sound};

use feeds::FeedRun;
use order::Refusal;

// The gap list, in front of what is lent: 9, 17.
// Beside `gaps::gap_list`, from which it differs in whose soundness is judged: one generic function would want a trait of its own.
pub fn gap_list(run: FeedRun, out: &mut [u32]) -> Result<usize, Refusal>
    ensures { GapsIs (feed_sound run) run.width run.board out.old out.new result }
{
    if !run.is_sound() {
        return Err(Refusal::NotSound);
    }
    let w = usize::from(run.width);
    let n = run.board.entered as usize;
    gaps::fill(w, &run.board.counts, n, out)
}
