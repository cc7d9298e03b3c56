// The sheet of a network, and the view of one row of a lent sheet.
// Every call answers every argument; a refusal changes no lent byte.
#![tactic(auto)]

ghost use Rattle.std.specs.Prelude.{◌≡◌, ◌*◌, ◌≤◌, ◌++◌, length, take, drop};
ghost use Rattle.order.specs.Order.{refused_by};
ghost use Rattle.network.specs.Widths.{open_no, depth_of};
ghost use Rattle.network.specs.Rows.{place_of, rows};
ghost use Rattle.sheets.specs.Sheets.{sheet_length, sheet_no, SheetIs, view_no, chosen, ViewIs};

use order::Refusal;

// A row, from an array, into a part of a sheet.
pub fn put_row(out: &mut [u8], row: [u8; network::ROW])
    requires { length out.old ≤ 64 }
    ensures { out.new ≡ take (length out.old) row }
{
    let wires = out.len();
    out.copy_from_slice(&row[..wires]);
}

// The rows of all layers.
fn put_rows(width: u16, construction: u16, depth: u16, out: &mut [u8])
    requires { (depth ≡ depth_of width construction) × (depth * width ≤ length out.old) }
    ensures { out.new ≡ rows (place_of width construction) width depth ++ drop (depth * width) out.old }
{
    let w = width as usize;
    for layer in 0..depth {
        let row = network::row(width, construction, layer);
        let at = layer as usize * w;
        put_row(&mut out[at..at + w], row);
    }
}

// The bytes of a sheet; 0 where the width is not allowed.
#[tactic(auto, using(network::proofs::Widths::depth_of_small), unfolding(crate::specs::Sheets::sheet_length))]
fn sheet_length(width: u16, construction: u16) -> usize
    ensures { result ≡ sheet_length width construction }
{
    let depth = network::depth_of(width, construction);
    (depth as usize) * (width as usize)
}

#[tactic(auto, using(order::proofs::Numbers::number_some), unfolding(crate::specs::Sheets::sheet_no, network::specs::Widths::open_no, order::specs::Order::first_of))]
fn check_sheet(width: u16, construction: u16, room: usize) -> Result<(), Refusal>
    ensures { refused_by result ≡ sheet_no width construction room }
{
    network::check_open(width, construction)?;
    if room < sheet_length(width, construction) {
        return Err(Refusal::SheetShort);
    }
    Ok(())
}

// The sheet: the rows in layer order, in front of the lent bytes.
pub fn sheet(width: u16, construction: u16, out: &mut [u8]) -> Result<usize, Refusal>
    ensures { SheetIs width construction out.old out.new result }
{
    check_sheet(width, construction, out.len())?;
    let depth = network::depth_of(width, construction);
    put_rows(width, construction, depth, out);
    Ok(sheet_length(width, construction))
}

// May the row of a layer be viewed in a sheet of that many bytes?
#[tactic(auto, using(order::proofs::Numbers::number_some), unfolding(crate::specs::Sheets::view_no, network::specs::Widths::open_no, order::specs::Order::first_of))]
fn check_view_in(width: u16, construction: u16, layer: u16, room: usize) -> Result<(), Refusal>
    ensures { refused_by result ≡ view_no width construction layer room }
{
    network::check_open(width, construction)?;
    if network::depth_of(width, construction) <= layer {
        return Err(Refusal::NoLayer);
    }
    if room < sheet_length(width, construction) {
        return Err(Refusal::SheetShort);
    }
    Ok(())
}

// The sheet that the construction says.
fn chosen<'a>(construction: u16, bitonic: &'a [u8], periodic: &'a [u8]) -> &'a [u8]
    ensures bytes { result.now ≡ chosen construction bitonic.now periodic.now }
    ensures there { result.ref_ptr ≡ chosen construction bitonic.entry.ref_ptr periodic.entry.ref_ptr }
{
    if construction == network::BITONIC {
        bitonic
    } else {
        periodic
    }
}

// Why the view of a layer's row is refused.
pub fn check_view(
    width: u16,
    construction: u16,
    layer: u16,
    bitonic: &[u8],
    periodic: &[u8],
) -> Result<(), Refusal>
    ensures { refused_by result ≡ view_no width construction layer (length (chosen construction bitonic.now periodic.now)) }
{
    let sheet = chosen(construction, bitonic, periodic);
    check_view_in(width, construction, layer, sheet.len())
}

// The row in one sheet, or nothing.
fn row_in<'a>(width: u16, construction: u16, layer: u16, sheet: &'a [u8]) -> &'a [u8]
    ensures { ViewIs width construction layer sheet.now sheet.entry.ref_ptr result.now result.ref_ptr }
{
    if check_view_in(width, construction, layer, sheet.len()).is_err() {
        return &sheet[0..0];
    }
    let w = width as usize;
    let at = layer as usize * w;
    &sheet[at..at + w]
}

// The row of a layer in the sheet that the construction says; empty where that is refused.
pub fn view<'a>(
    width: u16,
    construction: u16,
    layer: u16,
    bitonic: &'a [u8],
    periodic: &'a [u8],
) -> &'a [u8]
    ensures { ViewIs width construction layer (chosen construction bitonic.now periodic.now) (chosen construction bitonic.entry.ref_ptr periodic.entry.ref_ptr) result.now result.ref_ptr }
{
    let sheet = chosen(construction, bitonic, periodic);
    row_in(width, construction, layer, sheet)
}
