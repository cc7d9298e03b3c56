// The console's calls on the run over a feed sheet that it holds, and on that sheet, which it lends to them. A line is the call that
// it is handed to; its answer is put into the front of a lent text. A call that changes the run gives the run after it.
#![tactic(auto)]

ghost use Rattle.text.specs.Text.{Puts};
ghost use Rattle.feeds.specs.Feeds.{feed_sound};
ghost use Rattle.console_record.specs.Record.{record_line};
ghost use Rattle.console_run.specs.Calls.{Answers, SetIs, GapsAnswered};
ghost use Rattle.console_feed.specs.Calls.{FeedPut, after_open, open_line, after_enter, enter_line, after_turn, turn_line};

use console_lines::{numbers, words};
use console_run::Answered;
use feeds::FeedRun;

// `feed HEX`: the sheet that is lent from now on, good or not. How many bytes it has, and where the answer ends.
#[tactic(auto, unfolding(text::specs::Text::letters))]
pub fn feed(line: &[u8], text: &mut [u8], sheet: &mut [u8]) -> Answered<usize>
    ensures { FeedPut line.now sheet.new result.state text.old result.end text.new }
{
    let state = numbers::hex(words::word(line, 1), sheet);
    let end = text::put_number(text, 0, state, b'\n');
    Answered { state, end }
}

// `fopen W D`
pub fn open(line: &[u8], text: &mut [u8], sheet: &[u8]) -> Answered<FeedRun>
    ensures { Answers (after_open line.now sheet.now) result.state (open_line line.now sheet.now) text.old result.end text.new }
{
    let opened = FeedRun::open(words::short(line, 1), words::short(line, 2), sheet);
    console_run::held(text, opened)
}

// `fset W D ENTERED COUNTS TOGGLES PLACES`: any record, sound or not.
pub fn set(line: &[u8], text: &mut [u8]) -> Answered<FeedRun>
    ensures { SetIs line.now result.state.width result.state.depth result.state.board.entered (feed_sound result.state) text.old result.end text.new }
{
    let state = FeedRun {
        width: words::short(line, 1),
        depth: words::short(line, 2),
        board: console_lists::board_in(line),
    };
    let end = console_run::put_sound(text, state.is_sound());
    Answered { state, end }
}

// `fenter T V`
pub fn enter(line: &[u8], text: &mut [u8], run: FeedRun, sheet: &[u8]) -> Answered<FeedRun>
    ensures { Answers (after_enter line.now run sheet.now) result.state (enter_line line.now run sheet.now) text.old result.end text.new }
{
    let entered = run.enter(words::short(line, 1), words::short(line, 2), sheet);
    console_run::held(text, entered)
}

// `fturn T`
pub fn turn(line: &[u8], text: &mut [u8], run: FeedRun, sheet: &[u8]) -> Answered<FeedRun>
    ensures { Answers (after_turn line.now run sheet.now) result.state (turn_line line.now run sheet.now) text.old result.end text.new }
{
    console_run::moved(text, run.turn(words::short(line, 1), sheet))
}

// `fgaps ROOM`
pub fn gaps(line: &[u8], text: &mut [u8], run: FeedRun) -> usize
    ensures { GapsAnswered line.now (feed_sound run) run.width run.board text.old result text.new }
{
    console_run::filled(line, text, |lent| feed_gaps::gap_list(run, lent))
}

// `frecord`
pub fn record(text: &mut [u8], run: FeedRun) -> usize
    ensures { Puts (record_line run.width run.depth run.board) 0 text.old result text.new }
{
    console_record::put_record(text, run.width, run.depth, run.board)
}
