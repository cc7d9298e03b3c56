// Every public call of the cabinet's software by a line of text: for a fitter at the bench, and for tests. Each line of
// standard input has one line for an answer; a line that is no call is answered `?` and changes nothing.
#![tactic(auto)]

ghost use Rattle.std.specs.Prelude.{◌≤◌, ◌≡◌, length};

mod calls;

use calls::{Ask, Call, Step, Work};
use console_bytes::{record_calls, sheet_calls};
use console_lines::input;
use console_lines::input::Lines;
use console_run::Answered;
use feeds::FeedRun;
use run::Run;
use small::Cabinet;
use std::io;
use std::io::{Read, Write};

// What the console holds besides the bytes of the feed sheet: a record of each product, and how many bytes that sheet has.
#[derive(Clone, Copy)]
struct Holding {
    run: Run,
    feed: FeedRun,
    small: Cabinet,
    fed: usize,
}

// The calls, in one line.
fn put_help(text: &mut [u8]) -> usize {
    text::put_text(
        text,
        0,
        b"open W C; record; set W C ENTERED COUNTS TOGGLES PLACES; enter T V; turn T; gaps ROOM; sheet W C LEN; view W C LAYER LEN LEN; read HEX; write ROOM KIND FIELD ..; run ROOM HEX; panel ROOM HEX; feed HEX; fopen W D; fenter T V; fturn T; fgaps ROOM; frecord; fset W D ENTERED COUNTS TOGGLES PLACES; dopen W C; denter T V; dturn T; poll E; drecord; dset W C ENTERED COUNTS TOGGLES PLACES DIALS; highest W SUMS; help\n",
    )
}

// The answer to a line that is no call.
fn put_unknown(text: &mut [u8]) -> usize {
    text::put_text(text, 0, b"?\n")
}

// What a call leaves is held from now on. Gives where its answer ends.
fn kept<S: Copy>(answered: Answered<S>, held: &mut S) -> usize
    ensures { held.new ≡ answered.state }
{
    *held = answered.state;
    answered.end
}

// A call that changes the run.
fn on_run(step: Step, line: &[u8], text: &mut [u8], run: Run) -> Answered<Run> {
    match step {
        Step::Open => console_run::open(line, text),
        Step::Set => console_run::set(line, text),
        Step::Enter => console_run::enter(line, text, run),
        Step::Turn => console_run::turn(line, text, run),
    }
}

// A call that changes the run over a feed sheet.
fn on_feed(
    step: Step,
    line: &[u8],
    text: &mut [u8],
    run: FeedRun,
    sheet: &[u8],
) -> Answered<FeedRun> {
    match step {
        Step::Open => console_feed::open(line, text, sheet),
        Step::Set => console_feed::set(line, text),
        Step::Enter => console_feed::enter(line, text, run, sheet),
        Step::Turn => console_feed::turn(line, text, run, sheet),
    }
}

// A call that changes the small cabinet.
fn on_small(step: Step, line: &[u8], text: &mut [u8], cabinet: Cabinet) -> Answered<Cabinet> {
    match step {
        Step::Open => console_small::open(line, text),
        Step::Set => console_small::set(line, text),
        Step::Enter => console_small::enter(line, text, cabinet),
        Step::Turn => console_small::turn(line, text, cabinet),
    }
}

// A call that shows a record or its gaps. Gives where its answer ends.
fn show(ask: Ask, line: &[u8], text: &mut [u8], holding: &Holding) -> usize {
    match ask {
        Ask::Record => console_run::record(text, holding.run),
        Ask::Gaps => console_run::gaps(line, text, holding.run),
        Ask::FeedRecord => console_feed::record(text, holding.feed),
        Ask::FeedGaps => console_feed::gaps(line, text, holding.feed),
        Ask::SmallRecord => console_small::record(text, holding.small),
    }
}

// A call that what is held has no part in. Gives where its answer ends.
fn work_out(work: Work, line: &[u8], text: &mut [u8]) -> usize {
    match work {
        Work::Highest => console_small::highest(line, text),
        Work::Sheet => sheet_calls::sheet(line, text),
        Work::View => sheet_calls::view(line, text),
        Work::Read => record_calls::read(line, text),
        Work::Write => record_calls::write(line, text),
        Work::Schedule => record_calls::run(line, text),
        Work::Panel => console_panel::panel(line, text),
        Work::Help => put_help(text),
        Work::Unknown => put_unknown(text),
    }
}

// Answers a line. Gives where its answer ends.
fn answer(line: &[u8], text: &mut [u8], sheet: &mut [u8], holding: &mut Holding) -> usize
    requires { holding.old.fed ≤ length sheet.old }
    ensures { holding.new.fed ≤ length sheet.new }
{
    match calls::call_of(line) {
        Call::Run(step) => kept(on_run(step, line, text, holding.run), &mut holding.run),
        Call::Feed(step) => {
            let lent = &sheet[..holding.fed];
            kept(
                on_feed(step, line, text, holding.feed, lent),
                &mut holding.feed,
            )
        }
        Call::Small(step) => kept(
            on_small(step, line, text, holding.small),
            &mut holding.small,
        ),
        Call::Poll => kept(
            console_small::poll(line, text, holding.small),
            &mut holding.small,
        ),
        Call::Lend => kept(console_feed::feed(line, text, sheet), &mut holding.fed),
        Call::Ask(ask) => show(ask, line, text, holding),
        Call::Work(work) => work_out(work, line, text),
    }
}

// Answers the line that the buffer holds. Gives where its answer ends.
fn answer_held(
    input: &[u8],
    lines: Lines,
    text: &mut [u8],
    sheet: &mut [u8],
    holding: &mut Holding,
) -> usize
    requires { (lines.to ≤ length input.now) × (holding.old.fed ≤ length sheet.old) }
    ensures { holding.new.fed ≤ length sheet.new }
{
    if lines.too_long {
        return put_unknown(text);
    }
    answer(&input[lines.from..lines.end], text, sheet, holding)
}

// What the console holds at first: records of refused openings, and no feed sheet.
fn at_first() -> Holding
    ensures { result.fed ≡ 0 }
{
    Holding {
        run: Run::open(0, 0).state,
        feed: FeedRun::open(0, 0, &[]).state,
        small: Cabinet::open(0, 0).state,
        fed: 0,
    }
}

// Answers lines to the end of the input. A proved loop has to end, and nothing says that the input does: so lines are counted, up to
// a number that no input uses up.
fn serve<R: Read, W: Write>(
    reader: &mut R,
    writer: &mut W,
    input: &mut [u8],
    text: &mut [u8],
    sheet: &mut [u8],
) -> io::Result<()> {
    let mut holding = at_first();
    let mut before = input::start();
    for _ in 0..u64::MAX {
        let Some(lines) = input::next_line(reader, input, before)? else {
            return Ok(());
        };
        let end = answer_held(input, lines, text, sheet, &mut holding);
        console_answers::send(writer, text, end)?;
        before = lines;
    }
    Ok(())
}

// The input holds the longest line and its line feed, the text the longest answer: 65,536 numbers of 10 digits.
fn main(rt: HostRuntime) -> io::Result<()> {
    let mut input: [u8; 262_145] = streams::buffer_of(0);
    let mut text: [u8; 800_000] = streams::buffer_of(0);
    let mut sheet: [u8; 65_536] = streams::buffer_of(0);
    serve(
        &mut rt.stdin(),
        &mut rt.stdout(),
        &mut input,
        &mut text,
        &mut sheet,
    )
}
