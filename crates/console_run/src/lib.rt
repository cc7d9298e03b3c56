// The console's calls on the run that it holds, and the answers that calls on a run over a feed sheet and on a small cabinet have too.
// A line is the call that it is handed to; its answer is put into the front of a lent text. A call that changes the run gives the run
// after it.
#![tactic(auto)]

ghost use Rattle.std.specs.Prelude.{◌≡◌, cond, replicate};
ghost use Rattle.std.specs.Fn.{FnOnceReturnsAtMut};
ghost use Rattle.order.specs.Order.{refused_by};
ghost use Rattle.text.specs.Text.{letters, Puts};
ghost use Rattle.moves.specs.Answer.{answered};
ghost use Rattle.run.specs.Run.{sound};
ghost use Rattle.console_record.specs.Record.{record_line};
ghost use Rattle.console_answers.specs.Answers.{refusal_line};
ghost use Rattle.console_run.specs.Calls.{Answers, after_open, open_line, after_enter, enter_line, after_turn, move_line, moved_line, turn_line, SetIs, NumbersFilled, GapsAnswered};

use console_lines::words;
use moves::Turn;
use order::{After, Refusal};
use run::Run;

// What the console holds after a call, and where the call's answer ends.
#[derive(Clone, Copy)]
pub struct Answered<S> {
    pub state: S,
    pub end: usize,
}

// ---- what a call by value is answered

// The refusal alone.
pub fn held<S>(text: &mut [u8], after: After<S, ()>) -> Answered<S>
    ensures { Answers after.state result.state (refusal_line (refused_by after.answer)) text.old result.end text.new }
{
    let end = console_answers::put_refusal(text, order::number_in(after.answer));
    Answered {
        state: after.state,
        end,
    }
}

// `0 passed LEVEL WIRE LAYER CELL OUTLET`, or `0 dealt EXIT NUMBER`
fn put_move(text: &mut [u8], what: &[u8], values: &[usize]) -> usize
    ensures { Puts (move_line what.now values.now) 0 text.old result text.new }
{
    let at = text::put_text(text, 0, what);
    let end = text::put_row(text, at, values);
    text::put_byte(text, end, b'\n')
}

// What a turn answers.
#[tactic(auto, unfolding(crate::specs::Calls::moved_line, text::specs::Text::letters))]
pub fn put_turn(text: &mut [u8], answer: Result<Turn, Refusal>) -> usize
    ensures { Puts (moved_line (answered answer)) 0 text.old result text.new }
{
    match answer {
        Ok(
            Turn::Passed {
                level,
                wire,
                layer,
                cell,
                outlet,
            },
        ) => {
            let values = [
                usize::from(level),
                usize::from(wire),
                usize::from(layer),
                usize::from(cell),
                usize::from(outlet),
            ];
            put_move(text, b"0 passed", &values)
        }
        Ok(Turn::Dealt { exit, number }) => {
            let values = [usize::from(exit), number as usize];
            put_move(text, b"0 dealt", &values)
        }
        Err(refusal) => console_answers::put_refusal(text, refusal.number()),
    }
}

pub fn moved<S>(text: &mut [u8], after: After<S, Turn>) -> Answered<S>
    ensures { Answers after.state result.state (moved_line (answered after.answer)) text.old result.end text.new }
{
    let end = put_turn(text, after.answer);
    Answered {
        state: after.state,
        end,
    }
}

// Whether a record is sound.
#[tactic(auto, unfolding(text::specs::Text::letters))]
pub fn put_sound(text: &mut [u8], sound: bool) -> usize
    ensures { Puts (cond sound (letters "1\n") (letters "0\n")) 0 text.old result text.new }
{
    if sound {
        return text::put_text(text, 0, b"1\n");
    }
    text::put_text(text, 0, b"0\n")
}

// ---- the calls

// `open W C`
pub fn open(line: &[u8], text: &mut [u8]) -> Answered<Run>
    ensures { Answers (after_open line.now) result.state (open_line line.now) text.old result.end text.new }
{
    let opened = Run::open(words::short(line, 1), words::short(line, 2));
    held(text, opened)
}

// `set W C ENTERED COUNTS TOGGLES PLACES`: any record, sound or not.
pub fn set(line: &[u8], text: &mut [u8]) -> Answered<Run>
    ensures { SetIs line.now result.state.width result.state.construction result.state.board.entered (sound result.state) text.old result.end text.new }
{
    let state = Run {
        width: words::short(line, 1),
        construction: words::short(line, 2),
        board: console_lists::board_in(line),
    };
    let end = put_sound(text, state.is_sound());
    Answered { state, end }
}

// `enter T V`
pub fn enter(line: &[u8], text: &mut [u8], run: Run) -> Answered<Run>
    ensures { Answers (after_enter line.now run) result.state (enter_line line.now run) text.old result.end text.new }
{
    let entered = run.enter(words::short(line, 1), words::short(line, 2));
    held(text, entered)
}

// `turn T`
pub fn turn(line: &[u8], text: &mut [u8], run: Run) -> Answered<Run>
    ensures { Answers (after_turn line.now run) result.state (turn_line line.now run) text.old result.end text.new }
{
    moved(text, run.turn(words::short(line, 1)))
}

// Numbers to fill, as they are before the call.
fn buffer() -> [u32; 65_536]
    ensures { result ≡ replicate 65536 4294967295 }
{
    [u32::MAX; 65_536]
}

// A call that fills lent numbers, as many as word 1 says: the whole lent slice after the call.
pub fn filled<F: FnOnce(&mut [u32]) -> Result<usize, Refusal>>(
    line: &[u8],
    text: &mut [u8],
    fill: F,
) -> usize
    requires { F.IsAlwaysCallable fill }
    ensures { NumbersFilled (FnOnceReturnsAtMut F.FnOnce fill) line.now text.old result text.new }
{
    let room = words::room(line, 1);
    let mut buffer = buffer();
    let lent = &mut buffer[0..room];
    let done = fill(lent);
    let filled = done.unwrap_or(0);
    console_answers::put_numbers(text, order::number_in(done), &[filled], lent)
}

// `gaps ROOM`
pub fn gaps(line: &[u8], text: &mut [u8], run: Run) -> usize
    ensures { GapsAnswered line.now (sound run) run.width run.board text.old result text.new }
{
    filled(line, text, |lent| gaps::gap_list(run, lent))
}

// `record`
pub fn record(text: &mut [u8], run: Run) -> usize
    ensures { Puts (record_line run.width run.construction run.board) 0 text.old result text.new }
{
    console_record::put_record(text, run.width, run.construction, run.board)
}
