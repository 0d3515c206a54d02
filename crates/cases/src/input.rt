// A program's input, as far as there is room for it.
ghost use Rattle.std.specs.Prelude.{◌≡◌, ◌<◌, ◌≤◌, length, take, IfOk};
ghost use Rattle.std.specs.Io.KnownBytes.{Consumes, IsAtEnd};

use crate::record::Records;
use std::io;
use std::io::Read;

// How much of an input the programs of cases read.
pub const SPACE: usize = 65536;

// Reads until the room is full or the input ends, and tells how many bytes came. An error is the
// reader's.
pub fn fill<R: Read>(from: &mut R, space: &mut [u8]) -> io::Result<usize>
    ensures within { IfOk result (λ n. n ≤ length space.new) }
    ensures taken { IfOk result (λ n. Consumes (R.remaining from.old) (R.remaining from.new) (take n space.new)) }
    ensures whole { IfOk result (λ n. n < length space.new → IsAtEnd (R.remaining from.new)) }
{
    let mut done: usize = 0;
    // No `read_exact`: where the input ends sooner, it tells no count.
    while done < space.len() {
        let n = from.read(&mut space[done..])?;
        if n == 0 {
            return Ok(done);
        }
        done += n;
    }
    Ok(done)
}

// The cases of an input, as far as there is room for it.
pub fn records<'a, R: Read>(from: &mut R, space: &'a mut [u8]) -> io::Result<Records<'a>>
    ensures start { IfOk result (λ r. r.at ≡ 0) }
    ensures taken { IfOk result (λ r. Consumes (R.remaining from.old) (R.remaining from.new) r.input.now) }
    ensures whole { IfOk result (λ r. length r.input.now < length space.old → IsAtEnd (R.remaining from.new)) }
{
    let n = fill(from, space)?;
    Ok(Records {
        input: &space[..n],
        at: 0,
    })
}
