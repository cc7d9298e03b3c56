// The calls on sheets. A line is the call that it is handed to.
ghost use Rattle.console_bytes.specs.Sheets.{SheetAnswered};

use crate::buffers;
use console_lines::words;

// `sheet W C LEN`
pub fn sheet(line: &[u8], text: &mut [u8]) -> usize
    ensures { SheetAnswered line.now text.old result text.new }
{
    let width = words::short(line, 1);
    let construction = words::short(line, 2);
    buffers::filled(line, 3, text, |lent| {
        sheets::sheet(width, construction, lent)
    })
}

// A sheet to view: byte i is (i + first) mod 251.
fn number_bytes(sheet: &mut [u8], first: u8) {
    let mut value = first;
    for byte in sheet.iter_mut() {
        *byte = value;
        value = if value < 250 { value + 1 } else { 0 };
    }
}

// The row of one layer, from the sheet that the construction says.
fn put_view(line: &[u8], text: &mut [u8], bitonic: &[u8], periodic: &[u8]) -> usize {
    let width = words::short(line, 1);
    let construction = words::short(line, 2);
    let layer = words::short(line, 3);
    let checked = sheets::check_view(width, construction, layer, bitonic, periodic);
    let row = sheets::view(width, construction, layer, bitonic, periodic);
    console_answers::put_bytes(text, order::number_in(checked), &[], row)
}

// `view W C LAYER LEN LEN`
pub fn view(line: &[u8], text: &mut [u8]) -> usize {
    let first = words::room(line, 4);
    let second = words::room(line, 5);
    let mut buffer = buffers::bytes();
    let mut next_buffer = buffers::bytes();
    let bitonic = &mut buffer[0..first];
    let periodic = &mut next_buffer[0..second];
    number_bytes(bitonic, 0);
    number_bytes(periodic, 100);
    put_view(line, text, bitonic, periodic)
}
