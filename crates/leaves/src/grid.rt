// The grid of 37 rows of 64 bytes: its rows are copied, put in, and put together. What does not fit is left out: a panel that
// reaches past the grid is refused in the end, and its places are never read.
ghost use Rattle.std.specs.Prelude.{◌≡◌, ℕ, ◌+◌, ◌%◌, ◌<◌, ◌≤◌, ◌↔◌, IsTrue, [], length, get_or};
ghost use Rattle.leaves.specs.Grid.{byte_at, Put, Linked};

use std::array;

#[derive(Clone, Copy)]
pub struct Grid {
    rows: [[u8; 64]; 37],
}

// From which row and column on.
#[derive(Clone, Copy)]
pub struct Corner {
    pub row: usize,
    pub col: usize,
}

// The wires in order, 0 to 63.
pub fn in_order() -> [u8; 64]
    ensures { (v : ℕ) → v < 64 → get_or result v 0 ≡ v }
{
    array::from_fn(|v| v as u8)
}

// The bytes of a row from a column on, by their place from there.
fn fill<F: Fn(usize) -> u8>(row: &mut [u8; 64], col: usize, width: usize, byte: F)
    requires within { col + width ≤ 64 }
    requires callable { (v : ℕ) → v < width → F.pre byte v }
    ensures there { (v : ℕ) → v < width → F.post byte v (get_or row.new (col + v) 0) }
    ensures beside { (j : ℕ) → j < col → get_or row.new j 0 ≡ get_or row.old j 0 }
{
    for v in 0..width {
        row[col + v] = byte(v);
    }
}

impl Corner {
    // Do so many wires from there on lie within row and grid?
    fn fits(self, width: usize) -> bool
        ensures { IsTrue result ↔ (self.row ≤ 36) × (self.col + width ≤ 64) }
    {
        self.row <= 36 && width <= 64 && self.col <= 64 - width
    }
}

impl Grid {
    pub fn zeros() -> Grid
        ensures { (i j : ℕ) → byte_at result i j ≡ 0 }
    {
        Grid {
            rows: [[0; 64]; 37],
        }
    }

    // A row of the grid, zeros where there is no such row.
    pub fn row_at(&self, row: usize) -> [u8; 64]
        ensures { row ≤ 36 → result ≡ get_or self.now.rows row [] }
    {
        self.rows.get(row).copied().unwrap_or([0; 64])
    }

    // Places that count from 0, into a row from a column on.
    pub fn put_places(&mut self, corner: Corner, places: &[u8])
        requires { (v : ℕ) → v < length places.now → get_or places.now v 0 < length places.now }
        ensures { Put corner.row corner.col places.now self.old self.new }
    {
        if corner.fits(places.len()) {
            let col = corner.col;
            fill(&mut self.rows[corner.row], col, places.len(), |v| {
                (col as u8) + places[v]
            });
        }
    }

    // The exit row of what stands before is put together with this row, its next one; where nothing stands before, the row stays.
    pub fn link(&mut self, exits: Option<[u8; 64]>, corner: Corner, width: usize)
        ensures { Linked exits corner.row corner.col width self.old self.new }
    {
        let Some(exits) = exits else {
            return;
        };
        if corner.fits(width) {
            let col = corner.col;
            let next = self.rows[corner.row];
            // an exit of a panel that fits is below 64
            fill(&mut self.rows[corner.row], col, width, |v| {
                next[(exits[col + v] % 64) as usize]
            });
        }
    }
}
