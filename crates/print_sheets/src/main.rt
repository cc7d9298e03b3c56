// Writes every sheet, and what bad arguments get, a line each: `sheet WIDTH CONSTRUCTION REFUSAL BYTES HEX`, where HEX is the
// whole lent buffer after the call, each byte aa before it.
#![tactic(auto)]

use std::io;

fn hex(rt: HostRuntime, bytes: &[u8]) -> io::Result<()> {
    if bytes.is_empty() {
        print!(rt; "-")?;
    }
    for b in bytes {
        print!(rt; "{b:02x}")?;
    }
    println!(rt)
}

// One call, and its line.
fn show_in(rt: HostRuntime, width: u16, construction: u16, out: &mut [u8]) -> io::Result<()> {
    let done = sheets::sheet(width, construction, out);
    let refusal = order::number_in(done);
    let filled = done.unwrap_or(0);
    print!(rt; "sheet {width} {construction} {refusal} {filled} ")?;
    hex(rt, out)
}

// The same on a buffer of `room` bytes, at most 2,400.
fn show(rt: HostRuntime, width: u16, construction: u16, room: usize) -> io::Result<()> {
    let mut buffer = [170; 2400];
    if let Some(out) = buffer.get_mut(..room) {
        show_in(rt, width, construction, out)?;
    }
    Ok(())
}

// The sheets of one construction, each in three bytes more than it needs.
fn show_all(rt: HostRuntime, construction: u16) -> io::Result<()> {
    for width in [1, 2, 4, 8, 16, 32, network::MAX_WIDTH] {
        let depth = network::depth_of(width, construction);
        show(
            rt,
            width,
            construction,
            usize::from(depth) * usize::from(width) + 3,
        )?;
    }
    Ok(())
}

fn main(rt: HostRuntime) -> io::Result<()> {
    show_all(rt, network::BITONIC)?;
    show_all(rt, network::PERIODIC)?;
    let refused = [
        (0, 1, 16),
        (3, 1, 16),
        (128, 1, 16),
        (260, 1, 16),
        (65_535, 2, 16),
        (4, 0, 16),
        (4, 3, 16),
        (64, 65_535, 16),
        (1, 0, 16),
        (4, 1, 11),
        (64, 2, 2303),
        (2, 2, 1),
    ];
    for (width, construction, room) in refused {
        show(rt, width, construction, room)?;
    }
    Ok(())
}
