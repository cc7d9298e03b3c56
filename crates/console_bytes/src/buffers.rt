// What the console lends to a call, as it is before the call.
ghost use Rattle.std.specs.Prelude.{◌≡◌, length, replicate};
ghost use Rattle.std.specs.Fn.{FnOnceReturnsAtMut};
ghost use Rattle.console_bytes.specs.Lent.{BytesFilled};

use console_lines::words;
use order::Refusal;

// Bytes to fill, each aa.
pub fn bytes() -> [u8; 65_536]
    ensures { result ≡ replicate 65536 170 }
{
    [0xaa; 65_536]
}

// Room for the bytes that a line spells.
pub fn spelt() -> [u8; 131_072]
    ensures { 131072 ≡ length result }
{
    streams::buffer_of(0)
}

// A call that fills lent bytes, as many as word `at` says: the whole lent buffer after the call.
pub fn filled<F: FnOnce(&mut [u8]) -> Result<usize, Refusal>>(
    line: &[u8],
    at: usize,
    text: &mut [u8],
    fill: F,
) -> usize
    requires { F.IsAlwaysCallable fill }
    ensures { BytesFilled (FnOnceReturnsAtMut F.FnOnce fill) at line.now text.old result text.new }
{
    let room = words::room(line, at);
    let mut buffer = bytes();
    let lent = &mut buffer[0..room];
    let done = fill(lent);
    let filled = done.unwrap_or(0);
    console_answers::put_bytes(text, order::number_in(done), &[filled], lent)
}
