//! A program's input.
ghost use Rattle.std.specs.Prelude.{◌≡◌, ◌+◌, ◌<◌, ◌≤◌, length, take, drop, IfOk};
ghost use Rattle.std.specs.Io.KnownBytes.{Consumes, IsAtEnd};

use std::io;
use std::io::Read;

/// Fills the front of a buffer from an input, to its end or the buffer's, and says how much of it.
// Not by `read_to_end`, which asks for 512 bytes at first and doubles: of a packet that is longer than what is asked for
// the rest is lost, and the longest input takes twice its length.
pub fn fill<R: Read>(input: &mut R, buffer: &mut [u8]) -> io::Result<usize>
    ensures within { IfOk result (λ n. n ≤ length buffer.old) }
    ensures bytes { IfOk result (λ n. Consumes (R.remaining input.old) (R.remaining input.new) (take n buffer.new)) }
    ensures whole { IfOk result (λ n. n < length buffer.old → IsAtEnd (R.remaining input.new)) }
{
    let mut size = 0;
    while size < buffer.len() {
        let more = read_behind(input, buffer, size)?;
        if more == 0 {
            return Ok(size);
        }
        size += more;
    }
    Ok(size)
}

/// Reads once into a buffer from a place on, and says how many bytes came; none only at the input's end.
fn read_behind<R: Read>(input: &mut R, buffer: &mut [u8], at: usize) -> io::Result<usize>
    requires { at < length buffer.old }
    ensures front { take at buffer.new ≡ take at buffer.old }
    ensures fits { IfOk result (λ n. at + n ≤ length buffer.new) }
    ensures bytes { IfOk result (λ n. Consumes (R.remaining input.old) (R.remaining input.new) (take n (drop at buffer.new))) }
    ensures end { IfOk result (λ n. n ≡ 0 → IsAtEnd (R.remaining input.new)) }
{
    input.read(&mut buffer[at..])
}
