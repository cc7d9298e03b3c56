// Running a schedule over lent bytes, in one pass: its records are carried out in place, on a run that is wired up, and its reports are
// gathered in a buffer that has room for those of any schedule. Where the schedule is accepted and the lent output has room, they are
// handed over.
#![tactic(auto)]

ghost use Rattle.std.specs.Prelude.{◌≡◌, ◌++◌, ◌+◌, ◌≤◌, [], length};
ghost use Rattle.order.specs.Order.{refused_by, over};
ghost use Rattle.moves.specs.Answer.{turned};
ghost use Rattle.records.specs.Writing.{bytes_of, size_of};
ghost use Rattle.records.specs.Reading.{read_by};
ghost use Rattle.outcome.specs.Course.{at_start};
ghost use Rattle.outcome.specs.Step.{report_of, close_no, phase_no, step_of};
ghost use Rattle.outcome.specs.Schedule.{record_at};
ghost use Rattle.outcome.specs.Whole.{Ran};
ghost use Rattle.schedule.specs.Phases.{phase_of};
ghost use Rattle.schedule.specs.Pass.{stopped, Passable, PassIs};

use in_place::WiredRun;
use moves::Turn;
use order::Refusal;
use outcome::{Accepted, MAX_BYTES, Stopped};
use records::{Got, Record, Unread};
use std::marker::Model;

// Room for the reports of any schedule: they are never longer than it.
const ROOM: usize = MAX_BYTES;

// Before the open, between it and the close, and after the close.
#[derive(Clone, Copy, PartialEq, Eq)]
enum Phase {
    Before,
    Running,
    Closed,
}

// ---- reports

// The reports so far fill the first bytes of the buffer; a contract sees them.
#[derive(Drop)]
struct Reports {
    buffer: [u8; ROOM],
    filled: usize,
}

impl Model for Reports {
    ghost use Rattle.std.specs.Prelude.{List, ℕ, ◌≤◌};

    ghost Value = { List ℕ };

    ghost use Rattle.schedule.specs.Reports.{reports_in};

    ghost view = { reports_in };

    ghost invariant = { λ r. r.filled ≤ 65536 };
}

impl Reports {
    fn none() -> Reports
        ensures { result ≡ [] }
    {
        Reports {
            buffer: [0; ROOM],
            filled: 0,
        }
    }

    fn len(&self) -> usize
        ensures { result ≡ length self.now }
    {
        self.filled
    }

    // Puts a report behind them.
    fn put(&mut self, report: Record)
        requires { length self.old + size_of report ≤ 65536 }
        ensures { self.new ≡ self.old ++ bytes_of report }
    {
        records::put_record(&mut self.buffer, self.filled, report);
        self.filled += records::size_of(report);
    }

    // The same of the report of a turn, where a number was dealt.
    #[tactic(auto, using(records::proofs::Writing::length_bytes_of), unfolding(outcome::specs::Step::report_of))]
    fn note(&mut self, token: u16, turn: Turn)
        requires { length self.old + length (report_of token (turned turn)) ≤ 65536 }
        ensures { self.new ≡ self.old ++ report_of token (turned turn) }
    {
        if let Turn::Dealt { exit, number } = turn {
            self.put(Record::Number {
                token,
                wire: exit,
                number,
            });
        }
    }

    // Copies them to a lent output that has room.
    fn hand_over(&self, out: &mut [u8])
        requires { length self.now ≤ length out.old }
        ensures { out.new ≡ over self.now out.old }
    {
        out[..self.filled].copy_from_slice(&self.buffer[..self.filled]);
    }
}

// ---- outcomes

// A refusal of a record that is not cut, by its number from 0, or of no record.
fn stopped(refusal: Refusal, number: usize, offset: usize) -> Stopped
    ensures { result ≡ stopped refusal number offset }
{
    Stopped {
        refusal,
        record: number,
        offset,
        present: 0,
    }
}

// ---- reading

// The record at an offset; behind the last byte there is none: 14.
#[tactic(auto, using(outcome::proofs::Told::record_none, outcome::proofs::Told::record_part))]
fn read_any(bytes: &[u8], at: usize) -> Result<Got, Unread>
    ensures { read_by result ≡ record_at bytes.now at }
{
    if bytes.len() <= at {
        return Err(Unread {
            refusal: Refusal::OutOfPlace,
            present: 0,
        });
    }
    records::read_in_schedule(&bytes[at..])
}

// The same; one that is whole and has the head of a turn, as nearly all have, is read where it stands.
fn read_at(bytes: &[u8], at: usize) -> Result<Got, Unread>
    requires { at ≤ length bytes.now }
    ensures { read_by result ≡ record_at bytes.now at }
{
    if bytes.len() - at < 6
        || records::field_of_two(bytes, at) != 6
        || records::field_of_two(bytes, at + 2) != 3
    {
        return read_any(bytes, at);
    }
    let token = records::field_of_two(bytes, at + 4);
    Ok(Got {
        record: Record::Turn { token },
        length: 6,
    })
}

// ---- records, each in its phase

// Where a schedule stands: its phase, its run and its reports.
#[derive(Drop)]
struct Stage {
    phase: Phase,
    wired: WiredRun,
    reports: Reports,
}

// May a schedule close? Refused by 15 while a token is inside, and where the count is not the entries.
#[tactic(auto, unfolding(outcome::specs::Step::close_no, order::specs::Order::first_of, board::specs::Sound::inside_sum))]
fn check_close(wired: &WiredRun, entered: u32) -> Result<(), Refusal>
    ensures { refused_by result ≡ close_no wired.now.run entered }
{
    if wired.within != 0 {
        return Err(Refusal::BadClose);
    }
    if wired.run.board.entered != entered {
        return Err(Refusal::BadClose);
    }
    Ok(())
}

impl Stage {
    ghost use Rattle.schedule.specs.Serving.{course_in, Servable, Serves};

    #[tactic(auto, unfolding(outcome::specs::Course::at_start))]
    fn at_start() -> Stage
        ensures { (course_in result ≡ at_start) × (result.reports ≡ []) }
    {
        Stage {
            phase: Phase::Before,
            wired: WiredRun::unopened(),
            reports: Reports::none(),
        }
    }

    // A record out of the phase that it belongs to is refused by 14.
    #[tactic(auto, unfolding(outcome::specs::Step::phase_no, order::specs::Order::first_of))]
    fn check_phase(&self, own: Phase) -> Result<(), Refusal>
        ensures { refused_by result ≡ phase_no (phase_of own) (phase_of self.now.phase) }
    {
        if self.phase == own {
            return Ok(());
        }
        Err(Refusal::OutOfPlace)
    }

    #[tactic(auto, using(order::proofs::Numbers::number_some), unfolding(outcome::specs::Step::step_of, outcome::specs::Step::served_of, outcome::specs::Step::place_no))]
    fn open(&mut self, width: u16, construction: u16) -> Result<(), Refusal>
        ensures { Serves self.old (Record.Open width construction) result self.new }
    {
        self.check_phase(Phase::Before)?;
        self.wired.open(width, construction)?;
        self.phase = Phase::Running;
        Ok(())
    }

    #[tactic(auto, using(order::proofs::Numbers::number_some, outcome::proofs::Ready::its_phase), unfolding(outcome::specs::Step::step_of, outcome::specs::Step::served_of, outcome::specs::Step::place_no))]
    fn enter(&mut self, token: u16, wire: u16) -> Result<(), Refusal>
        requires { Servable self.old (Record.Enter token wire) }
        ensures { Serves self.old (Record.Enter token wire) result self.new }
    {
        self.check_phase(Phase::Running)?;
        self.wired.enter(token, wire)?;
        Ok(())
    }

    #[tactic(auto, using(order::proofs::Numbers::number_some, outcome::proofs::Ready::its_phase), unfolding(outcome::specs::Step::step_of, outcome::specs::Step::served_of, outcome::specs::Step::place_no))]
    fn turn(&mut self, token: u16) -> Result<(), Refusal>
        requires { Servable self.old (Record.Turn token) }
        ensures { Serves self.old (Record.Turn token) result self.new }
    {
        self.check_phase(Phase::Running)?;
        let turn = self.wired.turn(token)?;
        self.reports.note(token, turn);
        Ok(())
    }

    #[tactic(auto, using(order::proofs::Numbers::number_some), unfolding(outcome::specs::Step::step_of, outcome::specs::Step::served_of, outcome::specs::Step::place_no))]
    fn close(&mut self, entered: u32) -> Result<(), Refusal>
        ensures { Serves self.old (Record.Close entered) result self.new }
    {
        self.check_phase(Phase::Running)?;
        check_close(&self.wired, entered)?;
        self.phase = Phase::Closed;
        Ok(())
    }

    #[tactic(auto, using(order::proofs::Numbers::number_some), unfolding(outcome::specs::Step::step_of, outcome::specs::Step::served_of, outcome::specs::Step::place_no))]
    fn serve(&mut self, item: Record) -> Result<(), Refusal>
        requires { Servable self.old item }
        ensures { Serves self.old item result self.new }
    {
        match item {
            Record::Open {
                width,
                construction,
            } => self.open(width, construction),
            Record::Enter { token, wire } => self.enter(token, wire),
            Record::Turn { token } => self.turn(token),
            Record::Close { entered } => self.close(entered),
            Record::Number { .. } => Err(Refusal::UnknownKind),
        }
    }

    // Carries out the records up to the close.
    fn pass(&mut self, bytes: &[u8]) -> Result<Accepted, Stopped>
        requires { Passable bytes.now self.old }
        ensures { PassIs bytes.now result self.new.reports }
    {
        let mut at: usize = 0;
        let mut record: usize = 0;
        // no `for`: a record tells where the next one stands, and the close ends it
        while self.phase != Phase::Closed {
            let read = read_at(bytes, at);
            let Ok(got) = read else {
                let unread = read.unwrap_err();
                return Err(Stopped {
                    refusal: unread.refusal,
                    record,
                    offset: at,
                    present: unread.present,
                });
            };
            if let Err(refusal) = self.serve(got.record) {
                return Err(stopped(refusal, record, at));
            }
            at += got.length;
            record += 1;
        }
        if at < bytes.len() {
            return Err(stopped(Refusal::OutOfPlace, record, at));
        }
        let run = &self.wired.run;
        Ok(Accepted {
            width: run.width,
            construction: run.construction,
            entries: run.board.entered,
            bytes: self.reports.len(),
        })
    }
}

// Runs a schedule: judges it whole, and then hands over its reports.
#[tactic(auto, unfolding(outcome::specs::Whole::run_of, outcome::specs::Whole::settle, outcome::specs::Whole::output_of, outcome::specs::Whole::after_run))]
pub fn run(bytes: &[u8], out: &mut [u8]) -> Result<Accepted, Stopped>
    ensures { Ran bytes.now out.old result out.new }
{
    if MAX_BYTES < bytes.len() {
        return Err(stopped(Refusal::ScheduleLong, 0, 0));
    }
    let mut stage = Stage::at_start();
    let accepted = stage.pass(bytes)?;
    if out.len() < accepted.bytes {
        return Err(stopped(Refusal::NoRoom, 0, 0));
    }
    stage.reports.hand_over(out);
    Ok(accepted)
}
