// A feed sheet, lent and only read: whether a row is a permutation, how the sheet is judged for a width and a depth, and where it
// sends a wire. Every call answers every argument.
#![tactic(auto)]

ghost use Rattle.std.specs.Prelude.{◌≡◌, not, ◌+◌, ◌*◌, ◌<◌, ◌≤◌, length};
ghost use Rattle.order.specs.Order.{refused_by};
ghost use Rattle.feed_sheet.specs.Limits.{in_limits, permutation};
ghost use Rattle.feed_sheet.specs.Sheet.{unpaired, fed_at, rows_ok, feed_no};

use order::Refusal;

pub const MAX_WIDTH: usize = network::MAX_WIDTH as usize;

pub const MAX_DEPTH: usize = 36;

// Does the row hold every number below its length once? Read from its end: a byte is looked for among those behind it.
pub fn is_permutation(row: &[u8]) -> bool
    ensures { result ≡ permutation row.now }
{
    let mut seen = [false; 256];
    for b in row.iter().rev() {
        let place = usize::from(*b);
        if row.len() <= place || seen[place] {
            return false;
        }
        seen[place] = true;
    }
    true
}

// Width 1 to 64, depth at most 36.
pub fn in_limits(width: usize, depth: usize) -> bool
    ensures { result ≡ in_limits width depth }
{
    (1..=MAX_WIDTH).contains(&width) && depth <= MAX_DEPTH
}

// An odd width with layers.
#[tactic(auto, unfolding(crate::specs::Sheet::unpaired))]
pub fn is_unpaired(width: u16, depth: u16) -> bool
    ensures { result ≡ unpaired width depth }
{
    width % 2 == 1 && 0 < depth
}

// Are all rows permutations?
fn rows_ok(sheet: &[u8], width: usize, rows: usize) -> bool
    requires { rows * width ≤ length sheet.now }
    ensures { result ≡ rows_ok width sheet.now rows }
{
    (0..rows).all(|row| is_permutation(&sheet[row * width..(row + 1) * width]))
}

// How a run call judges the sheet that it is lent: refused by 22, 20, 3 and 21.
#[tactic(auto, unfolding(crate::specs::Sheet::feed_no, order::specs::Order::first_of))]
pub fn check(sheet: &[u8], width: u16, depth: u16) -> Result<(), Refusal>
    ensures { refused_by result ≡ feed_no width depth sheet.now }
{
    let w = usize::from(width);
    let d = usize::from(depth);
    if !in_limits(w, d) {
        return Err(Refusal::PastLimits);
    }
    if is_unpaired(width, depth) {
        return Err(Refusal::Unequal);
    }
    let rows = d + 1;
    if sheet.len() < rows * w {
        return Err(Refusal::SheetShort);
    }
    if !rows_ok(sheet, w, rows) {
        return Err(Refusal::NoPermutation);
    }
    Ok(())
}

// Where the sheet sends a wire; past its end, 0.
#[tactic(auto, unfolding(crate::specs::Sheet::fed_at))]
pub fn fed_at(sheet: &[u8], width: u16, level: u16, wire: u16) -> u8
    ensures { result ≡ fed_at width sheet.now level wire }
{
    let at = usize::from(level) * usize::from(width) + usize::from(wire);
    sheet.get(at).copied().unwrap_or(0)
}
