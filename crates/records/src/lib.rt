// The records of a schedule: read from bytes and written to bytes. A record carries any field values; only running judges them.
#![tactic(auto)]

ghost use Rattle.std.specs.Prelude.{◌≡◌, true, false, ◌++◌, ◌+◌, ◌≤◌, length, get_or};
ghost use Rattle.order.specs.Order.{refused_by};
ghost use Rattle.records.specs.Fields.{field, bytes_in, placed};
ghost use Rattle.records.specs.Reading.{length_of, record_in, read_no, present_of, read_of, read_by};
ghost use Rattle.records.specs.Writing.{kind_of, fields_of, size_of, bytes_of, Writes};

use order::Refusal;

#[derive(Clone, Copy, Debug, PartialEq, Eq)]
pub enum Record {
    Open { width: u16, construction: u16 },
    Enter { token: u16, wire: u16 },
    Turn { token: u16 },
    Close { entered: u32 },
    Number { token: u16, wire: u16, number: u32 },
}

// A record that was read, and its length.
#[derive(Clone, Copy)]
pub struct Got {
    pub record: Record,
    pub length: usize,
}

// One that was not: why, and how many bytes of it are present where it is cut, else 0.
#[derive(Clone, Copy)]
pub struct Unread {
    pub refusal: Refusal,
    pub present: usize,
}

// The byte at a place, 0 past the end.
fn byte_at(bytes: &[u8], at: usize) -> u8
    ensures { result ≡ get_or bytes.now at 0 }
{
    bytes.get(at).copied().unwrap_or(0)
}

// The field of two bytes at a place; a byte past the end counts as 0.
#[tactic(auto, using(crate::proofs::Fields::field_two))]
pub fn field_of_two(bytes: &[u8], at: usize) -> u16
    ensures { result ≡ field 2 bytes.now at }
{
    if bytes.len() <= at {
        return 0;
    }
    u16::from_le_bytes([byte_at(bytes, at), byte_at(bytes, at + 1)])
}

// The same of four bytes.
#[tactic(auto, using(crate::proofs::Fields::field_four))]
pub fn field_of_four(bytes: &[u8], at: usize) -> u32
    ensures { result ≡ field 4 bytes.now at }
{
    if bytes.len() <= at {
        return 0;
    }
    u32::from_le_bytes([
        byte_at(bytes, at),
        byte_at(bytes, at + 1),
        byte_at(bytes, at + 2),
        byte_at(bytes, at + 3),
    ])
}

// The length of a record of a kind, 0 where there is no such kind. A kind is its number in a file: an enum of them would want to be
// told from that number and back, and a length for what is none.
#[tactic(auto, unfolding(crate::specs::Reading::length_of))]
fn length_of(kind: u16) -> u16
    ensures { result ≡ length_of kind }
{
    match kind {
        1 | 2 | 4 => 8,
        3 => 6,
        5 => 12,
        _ => 0,
    }
}

// The record of a kind whose fields stand behind the head.
#[tactic(auto, unfolding(crate::specs::Reading::record_in))]
fn record_in(kind: u16, bytes: &[u8]) -> Record
    ensures { result ≡ record_in kind bytes.now }
{
    match kind {
        1 => Record::Open {
            width: field_of_two(bytes, 4),
            construction: field_of_two(bytes, 6),
        },
        2 => Record::Enter {
            token: field_of_two(bytes, 4),
            wire: field_of_two(bytes, 6),
        },
        3 => Record::Turn {
            token: field_of_two(bytes, 4),
        },
        4 => Record::Close {
            entered: field_of_four(bytes, 4),
        },
        _ => Record::Number {
            token: field_of_two(bytes, 4),
            wire: field_of_two(bytes, 6),
            number: field_of_four(bytes, 8),
        },
    }
}

// May the record in front be read?
#[tactic(auto, using(std::proofs::lemmas::Bool::Decides::nat_tests), unfolding(crate::specs::Reading::read_no, crate::specs::Reading::known, order::specs::Order::first_of))]
fn check_record(bytes: &[u8], reports: bool) -> Result<(), Refusal>
    ensures { refused_by result ≡ read_no reports bytes.now }
{
    if bytes.len() < 4 {
        return Err(Refusal::HeadCut);
    }
    let kind = field_of_two(bytes, 2);
    let known = matches!(kind, 1..=4) || reports && kind == 5;
    if !known {
        return Err(Refusal::UnknownKind);
    }
    let size = length_of(kind);
    if field_of_two(bytes, 0) != size {
        return Err(Refusal::WrongLength);
    }
    if bytes.len() < size as usize {
        return Err(Refusal::BodyCut);
    }
    Ok(())
}

// How many bytes of a refused record are present, with n from its first to the end: n where it is cut, else 0.
#[tactic(auto, unfolding(crate::specs::Reading::present_of))]
pub fn present_of(number: u8, n: usize) -> usize
    ensures { result ≡ present_of number n }
{
    match number {
        11 | 23 => n,
        _ => 0,
    }
}

#[tactic(auto, using(order::proofs::Numbers::number_some), unfolding(crate::specs::Reading::read_of))]
fn read_among(bytes: &[u8], reports: bool) -> Result<Got, Unread>
    ensures { read_by result ≡ read_of reports bytes.now }
{
    check_record(bytes, reports).map_err(|refusal| Unread {
        refusal,
        present: present_of(refusal.number(), bytes.len()),
    })?;
    let kind = field_of_two(bytes, 2);
    let record = record_in(kind, bytes);
    let length = length_of(kind) as usize;
    Ok(Got { record, length })
}

// The record in front of the bytes, of any kind.
pub fn read_record(bytes: &[u8]) -> Result<Got, Unread>
    ensures { read_by result ≡ read_of true bytes.now }
{
    read_among(bytes, true)
}

// The same inside a schedule, where kind 5 is unknown.
pub fn read_in_schedule(bytes: &[u8]) -> Result<Got, Unread>
    ensures { read_by result ≡ read_of false bytes.now }
{
    read_among(bytes, false)
}

#[tactic(auto, using(crate::proofs::Writing::placed_part), unfolding(crate::specs::Fields::bytes_in))]
fn put16(out: &mut [u8], at: usize, v: u16)
    requires { at + 2 ≤ length out.old }
    ensures { out.new ≡ placed out.old at (bytes_in 2 v) }
{
    out[at..at + 2].copy_from_slice(&v.to_le_bytes());
}

#[tactic(auto, using(crate::proofs::Writing::placed_part, crate::proofs::Fields::bytes_in_four))]
fn put32(out: &mut [u8], at: usize, v: u32)
    requires { at + 4 ≤ length out.old }
    ensures { out.new ≡ placed out.old at (bytes_in 4 v) }
{
    out[at..at + 4].copy_from_slice(&v.to_le_bytes());
}

#[tactic(auto, using(crate::proofs::Writing::placed_more), unfolding(crate::specs::Fields::bytes_in))]
fn put_pair(out: &mut [u8], at: usize, a: u16, b: u16)
    requires { at + 4 ≤ length out.old }
    ensures { out.new ≡ placed out.old at (bytes_in 2 a ++ bytes_in 2 b) }
{
    put16(out, at, a);
    put16(out, at + 2, b);
}

fn kind_of(item: Record) -> u16
    ensures { result ≡ kind_of item }
{
    match item {
        Record::Open { .. } => 1,
        Record::Enter { .. } => 2,
        Record::Turn { .. } => 3,
        Record::Close { .. } => 4,
        Record::Number { .. } => 5,
    }
}

// The length of a record's bytes.
#[tactic(auto, unfolding(crate::specs::Writing::size_of))]
pub fn size_of(item: Record) -> usize
    ensures { result ≡ size_of item }
{
    length_of(kind_of(item)) as usize
}

#[tactic(auto, using(crate::proofs::Writing::placed_more), unfolding(crate::specs::Fields::bytes_in))]
fn put_fields(out: &mut [u8], at: usize, item: Record)
    requires { at + length (fields_of item) ≤ length out.old }
    ensures { out.new ≡ placed out.old at (fields_of item) }
{
    match item {
        Record::Open {
            width,
            construction,
        } => put_pair(out, at, width, construction),
        Record::Enter { token, wire } => put_pair(out, at, token, wire),
        Record::Turn { token } => put16(out, at, token),
        Record::Close { entered } => put32(out, at, entered),
        Record::Number {
            token,
            wire,
            number,
        } => {
            put_pair(out, at, token, wire);
            put32(out, at + 4, number);
        }
    }
}

// Writes a record's bytes at a place that has room for them.
#[tactic(auto, using(crate::proofs::Writing::size_fields, crate::proofs::Writing::placed_more), unfolding(crate::specs::Writing::bytes_of, crate::specs::Writing::size_of, crate::specs::Fields::bytes_in))]
pub fn put_record(out: &mut [u8], at: usize, item: Record)
    requires { at + size_of item ≤ length out.old }
    ensures { out.new ≡ placed out.old at (bytes_of item) }
{
    let kind = kind_of(item);
    let size = length_of(kind);
    put_pair(out, at, size, kind);
    put_fields(out, at + 4, item);
}

// Writes a record in front of out, where there is room; the rest of out stays.
#[tactic(auto, using(crate::proofs::Writing::writes_none, crate::proofs::Writing::writes_all))]
pub fn write_record(item: Record, out: &mut [u8]) -> Result<usize, Refusal>
    ensures { Writes item out.old result out.new }
{
    let size = size_of(item);
    if out.len() < size {
        return Err(Refusal::NoRoom);
    }
    put_record(out, 0, item);
    Ok(size)
}
