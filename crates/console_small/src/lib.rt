// The console's calls on the small cabinet that it holds, and the highest number dealt. A line is the call that it is handed to; its
// answer is put into the front of a lent text. A call that changes the cabinet gives the cabinet after it.
#![tactic(auto)]

ghost use Rattle.text.specs.Text.{Puts};
ghost use Rattle.dials.specs.Highest.{top_by};
ghost use Rattle.console_run.specs.Calls.{Answers};
ghost use Rattle.console_small.specs.Record.{small_line};
ghost use Rattle.console_small.specs.Calls.{SmallSetIs, after_open, open_line, after_enter, enter_line, after_turn, turn_line, after_poll, poll_line, top_line, highest_line};

mod lists;
mod readings;

use console_lines::words;
use console_run::Answered;
use dials::Dial;
use order::Refusal;
use readings::Dials;
use small::Cabinet;

// `dopen W C`
pub fn open(line: &[u8], text: &mut [u8]) -> Answered<Cabinet>
    ensures { Answers (after_open line.now) result.state (open_line line.now) text.old result.end text.new }
{
    let opened = Cabinet::open(words::short(line, 1), words::short(line, 2));
    console_run::held(text, opened)
}

// `dset W C ENTERED COUNTS TOGGLES PLACES DIALS`: any record, sound or not.
pub fn set(line: &[u8], text: &mut [u8]) -> Answered<Cabinet>
    ensures { SmallSetIs line.now result.state text.old result.end text.new }
{
    let set = console_run::set(line, text);
    Answered {
        state: Cabinet {
            run: set.state,
            dials: lists::named(words::word(line, 7), Dial::open()),
        },
        end: set.end,
    }
}

// `denter T V`
pub fn enter(line: &[u8], text: &mut [u8], cabinet: Cabinet) -> Answered<Cabinet>
    ensures { Answers (after_enter line.now cabinet) result.state (enter_line line.now cabinet) text.old result.end text.new }
{
    let entered = cabinet.enter(words::short(line, 1), words::short(line, 2));
    console_run::held(text, entered)
}

// `dturn T`
pub fn turn(line: &[u8], text: &mut [u8], cabinet: Cabinet) -> Answered<Cabinet>
    ensures { Answers (after_turn line.now cabinet) result.state (turn_line line.now cabinet) text.old result.end text.new }
{
    console_run::moved(text, cabinet.turn(words::short(line, 1)))
}

// `poll E`
pub fn poll(line: &[u8], text: &mut [u8], cabinet: Cabinet) -> Answered<Cabinet>
    ensures { Answers (after_poll line.now cabinet) result.state (poll_line line.now cabinet) text.old result.end text.new }
{
    let polled = cabinet.poll(words::short(line, 1));
    let yielded = polled.answer.unwrap_or(0);
    let end = console_answers::put_values(
        text,
        order::number_in(polled.answer),
        &[usize::from(yielded)],
    );
    Answered {
        state: polled.state,
        end,
    }
}

// `drecord`
pub fn record(text: &mut [u8], cabinet: Cabinet) -> usize
    ensures { Puts (small_line cabinet) 0 text.old result text.new }
{
    let run = cabinet.run;
    let first = console_record::put_parts(text, run.width, run.construction, run.board);
    let second = text::put_byte(text, first, b' ');
    let third = console_record::put_list::<Dials>(text, second, &cabinet.dials);
    text::put_byte(text, third, b'\n')
}

// `0 NUMBER`, `0 none` or the refusal number.
#[tactic(auto, unfolding(crate::specs::Calls::top_line, text::specs::Text::letters))]
fn put_top(text: &mut [u8], top: Result<Option<u64>, Refusal>) -> usize
    ensures { Puts (top_line (top_by top)) 0 text.old result text.new }
{
    match top {
        Ok(Some(number)) => console_answers::put_values(text, 0, &[number as usize]),
        Ok(None) => text::put_text(text, 0, b"0 none\n"),
        Err(refusal) => console_answers::put_refusal(text, refusal.number()),
    }
}

// `highest W SUMS`: the cabinet that is held has no part in it.
pub fn highest(line: &[u8], text: &mut [u8]) -> usize
    ensures { Puts (highest_line line.now) 0 text.old result text.new }
{
    let sums = lists::named(words::word(line, 2), 0);
    put_top(text, dials::highest(words::short(line, 1), sums))
}
