// Reading into a lent buffer, from any reader, writing one to any writer, buffers to lend, and the program that tells a text of its
// input. Nothing is allocated.
#![tactic(auto)]

ghost use Rattle.std.specs.Prelude.{◌≡◌, ℕ, ◌+◌, ◌<◌, ◌≤◌, IfOk, OnOk, OnErr, All, EachIndex, slice_index, length, take, drop};
ghost use Rattle.std.specs.Io.KnownBytes.{Appends, Consumes, IsAtEnd, Keeps};

use std::io;
use std::io::{ErrorKind, Read, Write};

// One read, into the buffer from a place on. Answers how many bytes it gave: none where the input has ended or no room is left. An
// error is the reader's own, and nothing is read then.
pub fn read_behind<R: Read>(reader: &mut R, buf: &mut [u8], at: usize) -> io::Result<usize>
    requires { at ≤ length buf.old }
    ensures front { take at buf.new ≡ take at buf.old }
    ensures fits { IfOk result (λ n. at + n ≤ length buf.new) }
    ensures bytes { IfOk result (λ n. Consumes (R.remaining reader.old) (R.remaining reader.new) (take n (drop at buf.new))) }
    ensures end { IfOk result (λ n. n ≡ 0 → at < length buf.new → IsAtEnd (R.remaining reader.new)) }
    ensures err { OnErr result (Keeps (R.remaining reader.old) (R.remaining reader.new)) }
{
    reader.read(&mut buf[at..])
}

// Reads until the buffer is full or the input ends. Answers how many bytes it put at the buffer's front. An error is the reader's own,
// and what was read before it stands at the front.
pub fn read_full<R: Read>(reader: &mut R, buf: &mut [u8]) -> io::Result<usize>
    ensures within { IfOk result (λ n. n ≤ length buf.new) }
    ensures bytes { IfOk result (λ n. Consumes (R.remaining reader.old) (R.remaining reader.new) (take n buf.new)) }
    ensures all { IfOk result (λ n. n < length buf.new → IsAtEnd (R.remaining reader.new)) }
    ensures err { OnErr result ((n : ℕ) × (n ≤ length buf.new) × Consumes (R.remaining reader.old) (R.remaining reader.new) (take n buf.new)) }
{
    let mut done = 0;
    // no `for`: how far a turn comes is the reader's to say
    while done < buf.len() {
        let n = read_behind(reader, buf, done)?;
        if n == 0 {
            return Ok(done);
        }
        done += n;
    }
    Ok(done)
}

// Writes bytes whole. An error is the writer's own, or that it takes no more, and what stands before some place was written then.
pub fn write_whole<W: Write>(writer: &mut W, bytes: &[u8]) -> io::Result<()>
    ensures ok { OnOk result (Appends (W.contents writer.old) (W.contents writer.new) bytes.now) }
    ensures err { OnErr result ((n : ℕ) × (n ≤ length bytes.now) × Appends (W.contents writer.old) (W.contents writer.new) (take n bytes.now)) }
{
    let mut done = 0;
    // no `for`: how far a turn comes is the writer's to say; and the library's `write_all` tells nothing of what an error leaves
    while done < bytes.len() {
        let taken = writer.write(&bytes[done..])?;
        if taken == 0 {
            return Err(io::Error::from(ErrorKind::WriteZero));
        }
        done += taken;
    }
    Ok(())
}

// A buffer to lend, of so many copies of a value. A program with a long one asks for it here: of a literal that long a proof would
// work out each of them.
pub fn buffer_of<T: Copy, const N: usize>(value: T) -> [T; N]
    ensures long { length result ≡ N }
    ensures each { All (λ x. x ≡ value) result }
{
    [value; N]
}

// The same of zeros.
pub fn zeros<const N: usize>() -> [u8; N]
    ensures long { length result ≡ N }
    ensures zero { EachIndex result (λ i. slice_index result i ≡ 0) }
{
    buffer_of(0)
}

// The program that tells a text of its input: it reads the input, has the text put into `out`, and writes it. It stops reading behind
// byte 65,537: the longest input that is of use is shorter.
pub fn tell<F: FnOnce(&[u8], &mut [u8]) -> usize>(
    rt: &HostRuntime,
    out: &mut [u8],
    put: F,
) -> io::Result<()>
    requires takes { (bytes lent : _) → length lent.now ≡ length out.old → F.pre put bytes lent }
    requires within { (bytes lent n left : _) → length lent.now ≡ length out.old → F.post put bytes lent n left → n ≤ length left.now }
{
    let mut input: [u8; 65537] = zeros();
    let n = read_full(&mut rt.stdin(), &mut input)?;
    let end = put(&input[..n], out);
    rt.write_all(&out[..end])
}
