// The panel program: reads a design from standard input and writes its feed sheet, or why it is refused, to standard output. It
// stops reading behind byte 65,537: a design is one record of at most 65,535, and whatever follows is refused alike.
#![tactic(auto)]

ghost use Rattle.std.specs.Prelude.{◌≡◌, ◌≤◌, length};
ghost use Rattle.listing_text.specs.Listing.{Whole};
ghost use Rattle.panel_text.specs.Panel.{panel_of};

use std::io;

// Fills the text into a buffer that has room for every one, and answers its length. Which text, and how much room every one wants, is all
// that is the program's own.
fn print_all(design: &[u8], out: &mut [u8]) -> usize
    requires { 50000 ≤ length out.old }
    ensures { Whole (panel_of design.now) out.old result out.new }
{
    panel_text::panel(design, out).unwrap()
}

fn main(rt: HostRuntime) -> io::Result<()> {
    let mut out: [u8; 50000] = streams::buffer_of(0);
    streams::tell(&rt, &mut out, print_all)
}
