// The listing program: reads a schedule from standard input and writes its listing to standard output. It stops reading behind
// byte 65,537, which is enough to refuse by 16 whatever follows.
#![tactic(auto)]

ghost use Rattle.std.specs.Prelude.{◌≡◌, ◌≤◌, length};
ghost use Rattle.listing_text.specs.Listing.{listing_of, Whole};

use std::io;

// Fills the listing into a buffer that has room for every one, and answers its length. Which text, and how much room every one wants, is all
// that is the program's own.
fn list_all(bytes: &[u8], out: &mut [u8]) -> usize
    requires { 350000 ≤ length out.old }
    ensures { Whole (listing_of bytes.now) out.old result out.new }
{
    listing_text::listing(bytes, out).unwrap()
}

fn main(rt: HostRuntime) -> io::Result<()> {
    let mut out: [u8; 350000] = streams::buffer_of(0);
    streams::tell(&rt, &mut out, list_all)
}
