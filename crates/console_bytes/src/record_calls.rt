// The calls on records and schedules. A line is the call that it is handed to.
ghost use Rattle.text.specs.Text.{Puts};
ghost use Rattle.records.specs.Reading.{read_by};
ghost use Rattle.outcome.specs.Outcome.{outcome_by};
ghost use Rattle.console_answers.specs.Answers.{values_line};
ghost use Rattle.console_bytes.specs.Records.{shown_of, read_line, ReadAnswered, run_line, RunAnswered};

use crate::buffers;
use console_lines::{numbers, words};
use outcome::{Accepted, Stopped};
use records::{Got, Record, Unread};

// ---- read

// `0 KIND LENGTH FIELD ..`
#[tactic(auto, unfolding(crate::specs::Records::shown_of))]
fn put_item(text: &mut [u8], size: usize, item: Record) -> usize
    ensures { Puts (values_line 0 (shown_of size item)) 0 text.old result text.new }
{
    match item {
        Record::Open {
            width,
            construction,
        } => {
            let values = [1, size, usize::from(width), usize::from(construction)];
            console_answers::put_values(text, 0, &values)
        }
        Record::Enter { token, wire } => {
            let values = [2, size, usize::from(token), usize::from(wire)];
            console_answers::put_values(text, 0, &values)
        }
        Record::Turn { token } => {
            let values = [3, size, usize::from(token)];
            console_answers::put_values(text, 0, &values)
        }
        Record::Close { entered } => {
            let values = [4, size, entered as usize];
            console_answers::put_values(text, 0, &values)
        }
        Record::Number {
            token,
            wire,
            number,
        } => {
            let values = [
                5,
                size,
                usize::from(token),
                usize::from(wire),
                number as usize,
            ];
            console_answers::put_values(text, 0, &values)
        }
    }
}

#[tactic(auto, unfolding(crate::specs::Records::read_line))]
fn put_read(text: &mut [u8], read: Result<Got, Unread>) -> usize
    ensures { Puts (read_line (read_by read)) 0 text.old result text.new }
{
    match read {
        Ok(got) => put_item(text, got.length, got.record),
        Err(unread) => {
            console_answers::put_values(text, unread.refusal.number(), &[unread.present])
        }
    }
}

// `read HEX`
pub fn read(line: &[u8], text: &mut [u8]) -> usize
    ensures { ReadAnswered line.now text.old result text.new }
{
    let mut bytes = buffers::spelt();
    let count = numbers::hex(words::word(line, 1), &mut bytes);
    let read = records::read_record(&bytes[0..count]);
    put_read(text, read)
}

// ---- write

// The record that the line spells.
fn record_in(line: &[u8]) -> Record {
    let first = words::short(line, 3);
    let second = words::short(line, 4);
    match words::short(line, 2) {
        1 => Record::Open {
            width: first,
            construction: second,
        },
        2 => Record::Enter {
            token: first,
            wire: second,
        },
        3 => Record::Turn { token: first },
        4 => Record::Close {
            entered: words::long(line, 3),
        },
        _ => Record::Number {
            token: first,
            wire: second,
            number: words::long(line, 5),
        },
    }
}

// `write ROOM KIND FIELD ..`
pub fn write(line: &[u8], text: &mut [u8]) -> usize {
    let record = record_in(line);
    buffers::filled(line, 1, text, |lent| records::write_record(record, lent))
}

// ---- run

// `R RECORD OFFSET PRESENT N HEX`
#[tactic(auto, unfolding(crate::specs::Records::run_line))]
fn put_outcome(text: &mut [u8], outcome: Result<Accepted, Stopped>, lent: &[u8]) -> usize
    ensures { Puts (run_line (outcome_by outcome) lent.now) 0 text.old result text.new }
{
    match outcome {
        Ok(accepted) => {
            let values = [0, 0, 0, accepted.bytes];
            console_answers::put_bytes(text, 0, &values, lent)
        }
        Err(stopped) => {
            let values = [stopped.record, stopped.offset, stopped.present, 0];
            console_answers::put_bytes(text, stopped.refusal.number(), &values, lent)
        }
    }
}

// `run ROOM HEX`: a schedule, and the whole lent buffer after the call. The run that the console holds has no part in it.
pub fn run(line: &[u8], text: &mut [u8]) -> usize
    ensures { RunAnswered line.now text.old result text.new }
{
    let room = words::room(line, 1);
    let mut bytes = buffers::spelt();
    let count = numbers::hex(words::word(line, 2), &mut bytes);
    let mut buffer = buffers::bytes();
    let lent = &mut buffer[0..room];
    let outcome = schedule::run(&bytes[0..count], lent);
    put_outcome(text, outcome, lent)
}
