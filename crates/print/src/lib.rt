// Words and numbers, put one after another into a lent buffer and then written in one go.
// The buffer and the place are two parameters: so a clause names the lent bytes themselves, before and after.
#![tactic(auto)]

ghost use Rattle.std.specs.Prelude.{◌+◌, ◌≤◌, length};
ghost use Rattle.paper.specs.Listings.{decimal, line as Listings·line, line_of_two, refusal_line};
ghost use Rattle.puts.specs.Put.{Fits, Put};

use itoa::Buffer;
use paper::Refusal;
pub use puts::word;
use std::io;

// Puts a number in decimal.
pub fn number(out: &mut [u8], at: usize, n: u64) -> usize
    requires { Fits out.old at (decimal n) }
    ensures { Put out.old at (decimal n) result out.new }
{
    let mut digits = Buffer::new();
    word(out, at, digits.format(n).as_bytes())
}

// A line with one number.
pub fn line(out: &mut [u8], at: usize, before: &[u8], n: u64) -> usize
    requires { Fits out.old at (Listings·line before.now n) }
    ensures { Put out.old at (Listings·line before.now n) result out.new }
{
    let after_word = word(out, at, before);
    let after_number = number(out, after_word, n);
    word(out, after_number, b"\n")
}

// A line with two numbers.
pub fn line_of_two(out: &mut [u8], at: usize, before: &[u8], first: u64, second: u64) -> usize
    requires { Fits out.old at (line_of_two before.now first second) }
    ensures { Put out.old at (line_of_two before.now first second) result out.new }
{
    let after_word = word(out, at, before);
    let after_first = number(out, after_word, first);
    line(out, after_first, b" ", second)
}

// "A refusal prints `refused`, number, place." "A printed refusal ends with the second place." No such line is longer than 71 bytes.
pub fn refusal(out: &mut [u8], at: usize, r: Refusal) -> usize
    requires { at + 71 ≤ length out.old }
    ensures { Put out.old at (refusal_line r) result out.new }
{
    let after_word = word(out, at, b"refused ");
    let after_number = number(out, after_word, r.number as u64);
    line_of_two(out, after_number, b" ", r.place as u64, r.second as u64)
}

// Writes what stands before a place to standard output; nothing where the place lies behind the end.
pub fn send(rt: &impl Print, out: &[u8], at: usize) -> io::Result<()> {
    if at <= out.len() {
        rt.write_all(&out[0..at])?;
    }
    Ok(())
}
