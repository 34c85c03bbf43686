// Reads from a reader until a lent buffer is full or the input ends.
#![tactic(auto)]

ghost use Rattle.std.specs.Prelude.{◌≡◌, ◌≤◌, ◌<◌, IfOk, length, take};
ghost use Rattle.std.specs.Io.KnownBytes.{Consumes, IsAtEnd};

use std::io;
use std::io::Read;

// How many bytes were read, which stand first. Fewer than there is room for: the input has ended. A read that fails is told.
pub fn fill<R: Read>(from: &mut R, into: &mut [u8]) -> io::Result<usize>
    ensures room { length into.new ≡ length into.old }
    ensures bound { IfOk result (λ n. n ≤ length into.new) }
    ensures bytes { IfOk result (λ n. Consumes (R.remaining from.old) (R.remaining from.new) (take n into.new)) }
    ensures end { IfOk result (λ n. n < length into.new → IsAtEnd (R.remaining from.new)) }
{
    let mut done = 0;
    // `while`: a reader gives as many bytes at a time as it has.
    while done < into.len() {
        let n = from.read(&mut into[done..])?;
        if n == 0 {
            return Ok(done);
        }
        done += n;
    }
    Ok(done)
}
