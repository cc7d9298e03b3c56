// Work to be timed: reads a line `WHAT N` from standard input, does WHAT N times, and writes a sum of what was worked out.
// 1, 2: enter and all turns of a request at width 64, bitonic or periodic, by value, the record judged at each call; 3: the
// periodic sheet of width 64; 4: the gap list of a million entered; 5: writing and reading one record; 6, 7, 8: running a schedule of 64, 32,
// 16 KB; 9: running the first 100 bytes of one; 10: the listing of 6's; 13, 14: reading a
// design of 64, 32 KB. Anything else, and no line at all, does nothing. `bench/peer.c`
// does the same in plain C.
#![tactic(auto)]

use board::Board;
use moves::Turn;
use order::Refusal;
use records::Record;
use run::Run;
use std::io;

// Takes a step so many times, and adds up, modulo 2^64, what each comes to. A step is told how many were taken before it.
fn repeated<F: FnMut(u64) -> u64>(n: u64, mut step: F) -> u64
    requires { F.IsAlwaysCallable step }
{
    let mut sum = 0u64;
    for i in 0..n {
        sum = sum.wrapping_add(step(i));
    }
    sum
}

// How much a call filled, 0 where it was refused, and a value of what it filled.
fn filled<E: Drop>(done: Result<usize, E>, value: u64) -> u64 {
    value.wrapping_add(done.map_or(0, |n| n as u64))
}

// ---- 1 and 2

// The number that a turn deals; 0 where it deals none.
fn number_in(answer: Result<Turn, Refusal>) -> u64 {
    match answer {
        Ok(Turn::Dealt { number, .. }) => u64::from(number),
        _ => 0,
    }
}

fn turns(run: &mut Run, token: u16, count: u16) -> u64 {
    repeated(u64::from(count), |_| {
        let turned = run.turn(token);
        *run = turned.state;
        number_in(turned.answer)
    })
}

fn requests(construction: u16, n: u64) -> u64 {
    let count = network::depth_of(Run::MAX_WIDTH, construction) % 64 + 1;
    let mut run = Run::open(Run::MAX_WIDTH, construction).state;
    repeated(n, |i| {
        let token = (i % 256) as u16;
        run = run.enter(token, (i % 64) as u16).state;
        turns(&mut run, token, count)
    })
}

// ---- 3 and 4

fn sheets_filled(n: u64) -> u64 {
    let mut out: [u8; 4096] = streams::buffer_of(0);
    repeated(n, |i| {
        let done = sheets::sheet(Run::MAX_WIDTH, Run::PERIODIC, &mut out);
        filled(done, u64::from(out[(i % 2304) as usize]))
    })
}

// A record never reached, with the most that can have entered: exit 63 has dealt the numbers of three exits besides its own, so
// that 46,875 are missing.
fn lopsided() -> Run {
    let run = Run::open(Run::MAX_WIDTH, Run::BITONIC).state;
    let mut counts = [15625u32; 64];
    counts[60..].copy_from_slice(&[0, 0, 0, 62500]);
    let board = Board {
        entered: 1_000_000,
        counts,
        ..run.board
    };
    Run { board, ..run }
}

fn gaps_listed(n: u64) -> u64 {
    let run = lopsided();
    let mut out: [u32; 65536] = streams::buffer_of(0);
    repeated(n, |i| {
        let done = gaps::gap_list(run, &mut out);
        filled(done, u64::from(out[(i % 46875) as usize]))
    })
}

// ---- 5

// The fields of a number record, added up; 0 of another.
fn fields_of(record: Record) -> u64 {
    match record {
        Record::Number {
            token,
            wire,
            number,
        } => u64::from(token) + u64::from(wire) + u64::from(number),
        _ => 0,
    }
}

fn record_again(i: u64, out: &mut [u8]) -> u64 {
    let record = Record::Number {
        token: (i % 256) as u16,
        wire: (i % 64) as u16,
        number: (i % 1_000_000) as u32,
    };
    let written = records::write_record(record, out);
    let read = records::read_record(out);
    let fields = read.map_or(0, |got| fields_of(got.record));
    filled(written, filled(read.map(|got| got.length), fields))
}

fn records_again(n: u64) -> u64 {
    let mut out: [u8; 4096] = streams::buffer_of(0);
    repeated(n, |i| record_again(i, &mut out))
}

// ---- 6 to 10

// A record at a place, where there is room for it; the place behind it.
fn put(record: Record, at: usize, out: &mut [u8]) -> usize {
    out.get_mut(at..).map_or(at, |rest| {
        at.saturating_add(records::write_record(record, rest).unwrap_or(0))
    })
}

// One request with its 22 turns.
fn put_request(i: u32, from: usize, out: &mut [u8]) -> usize {
    let token = (i % 256) as u16;
    let wire = (i % 64) as u16;
    let mut at = put(Record::Enter { token, wire }, from, out);
    for _ in 0..22 {
        at = put(Record::Turn { token }, at, out);
    }
    at
}

// Requests one after another at BITONIC[64], 140 bytes each between an open and a close of 8.
fn put_schedule(requests: u32, out: &mut [u8]) -> usize {
    let mut at = put(
        Record::Open {
            width: Run::MAX_WIDTH,
            construction: Run::BITONIC,
        },
        0,
        out,
    );
    for i in 0..requests {
        at = put_request(i, at, out);
    }
    put(Record::Close { entered: requests }, at, out)
}

// Runs a schedule, as often as asked.
fn run_again(bytes: &[u8], n: u64) -> u64 {
    let mut out: [u8; 65536] = streams::buffer_of(0);
    repeated(n, |i| {
        let done = schedule::run(bytes, &mut out).map(|accepted| accepted.bytes);
        filled(done, u64::from(out[(i % 1404) as usize]))
    })
}

// Of a schedule of so many requests, the first bytes.
fn schedules_run(requests: u32, size: usize, n: u64) -> u64 {
    let mut bytes: [u8; 65536] = streams::buffer_of(0);
    put_schedule(requests, &mut bytes);
    bytes.get(..size).map_or(0, |part| run_again(part, n))
}

fn schedules_listed(n: u64) -> u64 {
    let mut bytes: [u8; 65536] = streams::buffer_of(0);
    let mut out: [u8; 65536] = streams::buffer_of(0);
    put_schedule(468, &mut bytes);
    repeated(n, |i| {
        let listed = listing_text::listing(&bytes, &mut out);
        filled(listed, u64::from(out[(i % 4096) as usize]))
    })
}

// ---- 13 and 14

// A cross of 14 wires that go round: its length and its kind, of two bytes each, its width, and the places.
const CROSS: [u8; 19] = [
    19, 0, 20, 0, 14, 1, 2, 3, 4, 5, 6, 7, 8, 9, 10, 11, 12, 13, 0,
];

// The head of a series of so many bytes, and crosses one after another.
fn put_design(size: u16, out: &mut [u8]) {
    let [low, high] = size.to_le_bytes();
    let head = [low, high, 16, 0];
    let design = head.iter().chain(CROSS.iter().cycle());
    for (byte, value) in out.iter_mut().zip(design) {
        *byte = *value;
    }
}

fn read_again(bytes: &[u8], n: u64) -> u64 {
    let mut sheet: [u8; 2368] = streams::buffer_of(0);
    repeated(n, |i| {
        let done = panels::read(bytes, &mut sheet).map(|panel| panel.filled);
        filled(done, u64::from(sheet[(i % 14) as usize]))
    })
}

fn designs_read(size: u16, n: u64) -> u64 {
    let mut bytes: [u8; 65535] = streams::buffer_of(0);
    put_design(size, &mut bytes);
    read_again(&bytes[..usize::from(size)], n)
}

// ---- the line

// The number of these digits, of at most twelve of them.
fn number(digits: &[u8]) -> u64 {
    digits.iter().fold(0, |value, digit| {
        if value < 100_000_000_000 {
            value * 10 + u64::from(digit.wrapping_sub(b'0'))
        } else {
            value
        }
    })
}

// The input says by a number what to do.
fn work(what: u64, n: u64) -> u64 {
    match what {
        1 => requests(Run::BITONIC, n),
        2 => requests(Run::PERIODIC, n),
        3 => sheets_filled(n),
        4 => gaps_listed(n),
        5 => records_again(n),
        6 => schedules_run(468, 65536, n),
        7 => schedules_run(234, 32776, n),
        8 => schedules_run(117, 16396, n),
        9 => schedules_run(1, 100, n),
        10 => schedules_listed(n),
        13 => designs_read(65535, n),
        14 => designs_read(32760, n),
        _ => 0,
    }
}

// What is between the bytes that are no digits: the first two are WHAT and N.
fn main(rt: HostRuntime) -> io::Result<()> {
    let mut text = [0u8; 64];
    let n = streams::read_full(&mut rt.stdin(), &mut text)?;
    let mut words = text[..n].split(|byte| !byte.is_ascii_digit());
    let what = words.next().map_or(0, number);
    let count = words.next().map_or(0, number);
    let sum = work(what, count);
    println!(rt; "{sum}")
}
