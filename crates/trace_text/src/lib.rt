// The text that the trace program writes: a line for each turn of a schedule, in its order, for who follows a request through the
// cabinet. Each `put` lets its text go into a lent buffer as those of `text` do, and answers the place behind it.
#![tactic(auto)]

ghost use Rattle.std.specs.Prelude.{◌≡◌};
ghost use Rattle.moves.specs.Answer.{answered};
ghost use Rattle.text.specs.Text.{Puts};
ghost use Rattle.listing_text.specs.Listing.{Lists};
ghost use Rattle.trace_text.specs.Lines.{line, turn_line, turn_lines};
ghost use Rattle.trace_text.specs.Trace.{accepted_text, trace_of};

use listing_text::TooShort;
use moves::Turn;
use order::Refusal;
use outcome::Accepted;
use records::{Got, Record};
use run::Run;

// A token, and numbers behind the words that say what they are.
fn put_line(out: &mut [u8], at: usize, token: u16, told: &[(&[u8], usize)]) -> usize
    ensures { Puts (line token told.now) at out.old result out.new }
{
    let mut next = text::put_decimal(out, at, usize::from(token));
    for (word, x) in told {
        let behind = text::put_text(out, next, word);
        next = text::put_decimal(out, behind, *x);
    }
    text::put_byte(out, next, b'\n')
}

// The line of a turn; a refused one has none.
fn put_turn(out: &mut [u8], at: usize, token: u16, answer: Result<Turn, Refusal>) -> usize
    ensures { Puts (turn_line token (answered answer)) at out.old result out.new }
{
    let Ok(turn) = answer else {
        return at;
    };
    match turn {
        Turn::Passed {
            level: _,
            wire,
            layer,
            cell,
            outlet,
        } => {
            let told: [(&[u8], usize); 4] = [
                (b" layer ", usize::from(layer)),
                (b" cell ", usize::from(cell)),
                (b" outlet ", usize::from(outlet)),
                (b" wire ", usize::from(wire)),
            ];
            put_line(out, at, token, &told)
        }
        Turn::Dealt { exit, number } => {
            let told: [(&[u8], usize); 2] = [
                (b" exit ", usize::from(exit)),
                (b" number ", number as usize),
            ];
            put_line(out, at, token, &told)
        }
    }
}

// A line for each turn of a schedule, as far as its bytes are records.
fn put_turns(out: &mut [u8], at: usize, bytes: &[u8]) -> usize
    ensures { Puts (turn_lines bytes.now) at out.old result out.new }
{
    let mut run = Run::open(0, 0).state;
    let mut next = at;
    let mut from = 0;
    // no `for`: a record tells where the next one stands
    'turns: while from < bytes.len() {
        let Ok(Got { record, length }) = records::read_in_schedule(&bytes[from..]) else {
            return next;
        };
        match record {
            Record::Open {
                width,
                construction,
            } => run = Run::open(width, construction).state,
            Record::Enter { token, wire } => run = run.enter(token, wire).state,
            Record::Turn { token } => {
                let turned = run.turn(token);
                next = put_turn(out, next, token, turned.answer);
                run = turned.state;
            }
            Record::Close { .. } | Record::Number { .. } => {}
        }
        from += length;
    }
    next
}

fn put_accepted(out: &mut [u8], accepted: Accepted, bytes: &[u8]) -> usize
    ensures { Puts (accepted_text accepted.width accepted.construction accepted.entries bytes.now) 0 out.old result out.new }
{
    let width = usize::from(accepted.width);
    let first = listing_text::put_network(out, width, accepted.construction);
    let second = put_turns(out, first, bytes);
    listing_text::put_rest(out, second, accepted.entries as usize)
}

// The trace of a schedule, where there is room for it; else `out` stays, and the answer says how much is wanted.
pub fn trace(bytes: &[u8], out: &mut [u8]) -> Result<usize, TooShort>
    ensures { Lists (trace_of bytes.now) out.old result out.new }
{
    let mut reports = [0u8; outcome::MAX_BYTES];
    match schedule::run(bytes, &mut reports) {
        Ok(accepted) => { listing_text::put_if_room(out, |out| put_accepted(out, accepted, bytes)) }
        Err(stopped) => {
            listing_text::put_if_room(out, |out| listing_text::put_stopped(out, stopped))
        }
    }
}
