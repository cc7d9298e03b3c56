// The trace program: reads a schedule from standard input and writes its trace to standard output. It stops reading behind byte
// 65,537, which is enough to refuse by 16 whatever follows.
#![tactic(auto)]

ghost use Rattle.std.specs.Prelude.{◌≡◌, ◌≤◌, length};
ghost use Rattle.listing_text.specs.Listing.{Whole};
ghost use Rattle.trace_text.specs.Trace.{trace_of};

use std::io;

// Fills the trace into a buffer that has room for every one, and answers its length. Which text, and how much room every one wants, is all
// that is the program's own.
fn trace_all(bytes: &[u8], out: &mut [u8]) -> usize
    requires { 1500000 ≤ length out.old }
    ensures { Whole (trace_of bytes.now) out.old result out.new }
{
    trace_text::trace(bytes, out).unwrap()
}

fn main(rt: HostRuntime) -> io::Result<()> {
    let mut out: [u8; 1500000] = streams::buffer_of(0);
    streams::tell(&rt, &mut out, trace_all)
}
