// Numbers put into the lent buffer one after another. "Little-endian."
ghost use Rattle.std.specs.Prelude.{◌≡◌, ◌+◌, ◌*◌, ◌≤◌, length};
ghost use Rattle.paper.specs.OneFact.{words};
ghost use Rattle.paper.specs.Writing.{number_bytes};
ghost use Rattle.puts.specs.Put.{Put};

use puts::word;

// Puts a number of 16 bits, and answers the place after it.
pub fn put_word(out: &mut [u8], at: usize, x: u16) -> usize
    requires { at + 2 ≤ length out.old }
    ensures put { Put out.old at (number_bytes 2 x) result out.new }
    ensures value { result ≡ at + 2 }
{
    let low_first = x.to_le_bytes();
    word(out, at, &low_first)
}

pub fn put_long(out: &mut [u8], at: usize, x: u32) -> usize
    requires { at + 4 ≤ length out.old }
    ensures put { Put out.old at (number_bytes 4 x) result out.new }
    ensures value { result ≡ at + 4 }
{
    word(out, at, &x.to_le_bytes())
}

// A whole list of 16-bit numbers.
pub fn put_words(out: &mut [u8], at: usize, list: &[u16]) -> usize
    requires { at + 2 * length list.now ≤ length out.old }
    ensures put { Put out.old at (words list.now) result out.new }
    ensures value { result ≡ at + 2 * length list.now }
{
    let mut to = at;
    for x in list {
        to = put_word(out, to, *x);
    }
    to
}
