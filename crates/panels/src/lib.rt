// Composed panels: a design is read once, record by record, into a grid, and the feed sheet is written from the grid.
// Every public call answers every argument; a refusal changes no lent byte.
#![tactic(auto)]

ghost use Rattle.std.specs.Prelude.{◌≡◌, ◌≢◌, true, None, IfOk, ◌++◌, ◌+◌, ◌*◌, ◌<◌, ◌≤◌, ◌^◌, length, drop};
ghost use Rattle.network.specs.Rows.{rows};
ghost use Rattle.designs.specs.Members.{series, beside};
ghost use Rattle.designs.specs.Heads.{JudgedAt};
ghost use Rattle.designs.specs.Designs.{size_no, record_at, design_of};
ghost use Rattle.leaves.specs.Grid.{byte_at};
ghost use Rattle.leaves.specs.Told.{judged_by, told_at, ReadInto};
ghost use Rattle.panels.specs.Sums.{joined_in, more, ExitsIn};
ghost use Rattle.panels.specs.Answers.{answer_by, room_no, DesignRead};

use designs::{Fault, Kind, Stretch, check_size, judged};
use leaves::grid::{Corner, Grid};
use leaves::{Size, leaf};
use order::Refusal;

// What reading a design gives: the width and the depth of the panel, and how many bytes of the feed sheet were filled.
#[derive(Clone, Copy)]
pub struct Panel {
    pub width: u16,
    pub depth: u16,
    pub filled: usize,
}

// The members read so far: what all must have equal, as the first has it; have they; and the sum of what adds up. Members of a
// series must have equal width and add their depth, those of a beside equal depth and add their width.
#[derive(Clone, Copy)]
struct Sum {
    first: Option<usize>,
    equal: bool,
    total: usize,
}

impl Sum {
    fn none() -> Sum
        ensures { result ≡ record { first = None; equal = true; total = 0 } }
    {
        Sum {
            first: None,
            equal: true,
            total: 0,
        }
    }

    // One member more.
    #[tactic(auto, unfolding(crate::specs::Sums::more))]
    fn more(self, own: usize, added: usize) -> Sum
        requires { self.total + added < 2 ^ 64 }
        ensures { result ≡ more self own added }
    {
        let first = self.first.unwrap_or(own);
        Sum {
            first: Some(first),
            equal: self.equal & (own == first),
            total: self.total + added,
        }
    }

    // The exits of the members, in the row that the next one is read from; none where there is no member.
    fn exits(self, grid: &Grid, row: usize) -> Option<[u8; 64]>
        ensures { ExitsIn grid.now row self.first result }
    {
        self.first?;
        Some(grid.row_at(row))
    }
}

// The size of all members of the record at an offset.
fn sized(at: usize, equal: bool, size: Size) -> Result<Size, Fault>
    ensures { judged_by result ≡ told_at at (size_no equal size.width size.depth) size }
{
    judged(at, check_size(equal, size.width, size.depth))?;
    Ok(size)
}

// The record in front. The readers of a series and of a beside call each other through it, on inner bytes, whose length falls.
#[cycle(readers)]
fn record_reader(
    front: Stretch,
    outermost: bool,
    grid: &mut Grid,
    corner: Corner,
) -> Result<Size, Fault>
    requires { (front.at ≢ 0 → front.at + length front.bytes.now ≤ 65535) × (corner.row ≤ 64 * front.at) × (corner.col ≤ 64 * front.at) }
    ensures { ReadInto (record_at front.entry.left outermost front.entry.at front.entry.bytes.now) corner.row corner.col grid.old grid.new (judged_by result) }
{
    let (kind, inner) = front.take_apart(outermost)?;
    match kind {
        Kind::Series => series_reader(inner, grid, corner),
        Kind::Beside => beside_reader(inner, grid, corner),
        Kind::Leaf(kind) => leaf(kind, inner, grid, corner),
    }
}

// The members in the bytes of a series, one after another. Each is read into the rows from the exit row of those before it on.
// A series and a beside have a reader each, as document 01 wants it.
#[cycle(readers)]
fn series_reader(inner: Stretch, grid: &mut Grid, corner: Corner) -> Result<Size, Fault>
    requires { (inner.at + 4 + length inner.bytes.now ≤ 65535) × (corner.row ≤ 64 * inner.at) × (corner.col ≤ 64 * inner.at) }
    ensures { ReadInto (joined_in series inner.entry.left inner.entry.at inner.entry.bytes.now) corner.row corner.col grid.old grid.new (judged_by result) }
{
    let mut sum = Sum::none();
    let mut rest = Stretch {
        at: inner.at + 4,
        ..inner
    };
    // no `for`: a member tells where the next one stands
    while !rest.bytes.is_empty() {
        let below = Corner {
            row: corner.row + sum.total,
            ..corner
        };
        let exits = sum.exits(grid, below.row);
        let p = record_reader(rest, false, grid, below)?;
        grid.link(exits, below, p.width);
        sum = sum.more(p.width, p.depth);
        rest = rest.past();
    }
    let size = Size {
        width: sum.first.unwrap_or(0),
        depth: sum.total,
    };
    sized(inner.at, sum.equal, size)
}

// The members in the bytes of a beside, side by side. Each is read into the columns behind those before it.
#[cycle(readers)]
fn beside_reader(inner: Stretch, grid: &mut Grid, corner: Corner) -> Result<Size, Fault>
    requires { (inner.at + 4 + length inner.bytes.now ≤ 65535) × (corner.row ≤ 64 * inner.at) × (corner.col ≤ 64 * inner.at) }
    ensures { ReadInto (joined_in beside inner.entry.left inner.entry.at inner.entry.bytes.now) corner.row corner.col grid.old grid.new (judged_by result) }
{
    let mut sum = Sum::none();
    let mut rest = Stretch {
        at: inner.at + 4,
        ..inner
    };
    // no `for`: a member tells where the next one stands
    while !rest.bytes.is_empty() {
        let behind = Corner {
            col: corner.col + sum.total,
            ..corner
        };
        let p = record_reader(rest, false, grid, behind)?;
        sum = sum.more(p.depth, p.width);
        rest = rest.past();
    }
    let size = Size {
        width: sum.total,
        depth: sum.first.unwrap_or(0),
    };
    sized(inner.at, sum.equal, size)
}

// The outermost record: a nesting of eight, in which it counts as one.
fn outermost(design: &[u8], grid: &mut Grid) -> Result<Size, Fault>
    ensures outcome { ReadInto (design_of design.now) 0 0 grid.old grid.new (judged_by result) }
    ensures small { IfOk result (λ p. (p.width ≤ 64) × (p.depth ≤ 36)) }
{
    let front = Stretch {
        bytes: design,
        at: 0,
        left: 8,
    };
    record_reader(front, true, grid, Corner { row: 0, col: 0 })
}

// The first rows of the grid, as many columns of each as the panel is wide, into the sheet.
fn put_rows(grid: &Grid, width: usize, count: usize, sheet: &mut [u8])
    requires { (width ≤ 64) × (count ≤ 37) × (count * width ≤ length sheet.old) }
    ensures { sheet.new ≡ rows (byte_at grid.now) width count ++ drop (count * width) sheet.old }
{
    for r in 0..count {
        let row = grid.row_at(r);
        let at = r * width;
        let end = at + width;
        sheet[at..end].copy_from_slice(&row[..width]);
    }
}

fn feed_length(size: Size) -> usize
    requires { (size.width ≤ 64) × (size.depth ≤ 36) }
    ensures { result ≡ (size.depth + 1) * size.width }
{
    (size.depth + 1) * size.width
}

// Is there room for the feed sheet? A sheet too short is no record's.
fn check_room(size: Size, room: usize) -> Result<(), Fault>
    requires { (size.width ≤ 64) × (size.depth ≤ 36) }
    ensures { JudgedAt 0 (room_no size.width size.depth room) result }
{
    if room < feed_length(size) {
        return Err(Fault {
            refusal: Refusal::SheetShort,
            offset: 0,
            present: 0,
        });
    }
    Ok(())
}

// Reads a design and writes its feed sheet in front of the lent bytes: a row for each layer, then one for the exits.
pub fn read(design: &[u8], sheet: &mut [u8]) -> Result<Panel, Fault>
    ensures { DesignRead design.now sheet.old sheet.new (answer_by result) }
{
    let mut grid = Grid::zeros();
    let size = outermost(design, &mut grid)?;
    check_room(size, sheet.len())?;
    put_rows(&grid, size.width, size.depth + 1, sheet);
    Ok(Panel {
        width: size.width as u16,
        depth: size.depth as u16,
        filled: feed_length(size),
    })
}
