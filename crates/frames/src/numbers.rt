// Little-endian numbers, read from bytes and put into bytes.
ghost use Rattle.std.specs.Prelude.{◌≡◌, ◌+◌, ◌*◌, ◌≤◌, ℕ, List, length, drop};
ghost use Rattle.paper.specs.Lists.{table};
ghost use Rattle.paper.specs.Files.{u16_at, u32_at};
ghost use Rattle.puts.specs.Put.{Put};
ghost use Rattle.frames.specs.Little.{little, littles, littles_laws, NumberLaws, u64_at};

// A kind of number of a request or an answer: how many bytes it takes, which number stands in the bytes at a place, and the bytes of several, one after another.
pub trait Number: Copy {
    ghost WIDTH: { ℕ };

    ghost number_at: { List ℕ → ℕ → Self };

    ghost value_of: { Self → ℕ };

    ghost bytes_of: { List Self → List ℕ };

    const WIDTH: usize;

    fn read(bytes: &[u8], at: usize) -> Self
        requires { at + WIDTH ≤ length bytes.now }
        ensures { result ≡ number_at bytes.now at };

    fn value(self) -> u64
        ensures { result ≡ value_of self };

    ghost laws: { NumberLaws WIDTH value_of bytes_of };
}

impl Number for u16 {
    ghost WIDTH = { 2 };

    ghost number_at = { u16_at };

    ghost value_of = { λ x. x };

    ghost bytes_of = { littles 2 };

    ghost laws = { littles_laws 2 };

    const WIDTH: usize = 2;

    fn read(bytes: &[u8], at: usize) -> u16 {
        layout::u16_at(bytes, at)
    }

    fn value(self) -> u64 {
        self as u64
    }
}

impl Number for u32 {
    ghost WIDTH = { 4 };

    ghost number_at = { u32_at };

    ghost value_of = { λ x. x };

    ghost bytes_of = { littles 4 };

    ghost laws = { littles_laws 4 };

    const WIDTH: usize = 4;

    fn read(bytes: &[u8], at: usize) -> u32 {
        layout::u32_at(bytes, at)
    }

    fn value(self) -> u64 {
        self as u64
    }
}

impl Number for u64 {
    ghost WIDTH = { 8 };

    ghost number_at = { u64_at };

    ghost value_of = { λ x. x };

    ghost bytes_of = { littles 8 };

    ghost laws = { littles_laws 8 };

    const WIDTH: usize = 8;

    fn read(bytes: &[u8], at: usize) -> u64 {
        u64_at(bytes, at)
    }

    fn value(self) -> u64 {
        self
    }
}

// Puts the low bytes of a number, width of them, at a place, and answers the place after them.
pub fn put(out: &mut [u8], at: usize, width: usize, x: u64) -> usize
    requires { at + width ≤ length out.old }
    ensures put { Put out.old at (little width x) result out.new }
    ensures value { result ≡ at + width }
{
    let end = at + width;
    // Byte by byte, not a part of `to_le_bytes`: the width may be more than the eight bytes that it has.
    let mut rest = x;
    for to in at..end {
        out[to] = (rest % 256) as u8;
        rest /= 256;
    }
    end
}

pub fn u64_at(bytes: &[u8], p: usize) -> u64
    requires { p + 8 ≤ length bytes.now }
    ensures { result ≡ u64_at bytes.now p }
{
    let low = layout::u32_at(bytes, p) as u64;
    let high = layout::u32_at(bytes, p + 4) as u64;
    low + 4294967296 * high
}

// Fills a list of numbers from the bytes.
pub fn read_list<N: Number>(bytes: &[u8], numbers: &mut [N])
    requires { N.WIDTH * length numbers.old ≤ length bytes.now }
    ensures { numbers.new ≡ table (λ i. N.number_at bytes.now (N.WIDTH * i)) (length numbers.old) }
{
    for (i, number) in numbers.iter_mut().enumerate() {
        *number = N::read(bytes, N::WIDTH * i);
    }
}

// The same from a place on, and the place after them.
pub fn read_list_at<N: Number>(bytes: &[u8], at: usize, numbers: &mut [N]) -> usize
    requires { at + N.WIDTH * length numbers.old ≤ length bytes.now }
    ensures numbers_after { numbers.new ≡ table (λ i. N.number_at (drop at bytes.now) (N.WIDTH * i)) (length numbers.old) }
    ensures value { result ≡ at + N.WIDTH * length numbers.old }
{
    let to = at + N::WIDTH * numbers.len();
    read_list(&bytes[at..], numbers);
    to
}

// Puts a list of numbers at a place, and answers the place after them.
pub fn put_list<N: Number>(out: &mut [u8], at: usize, numbers: &[N]) -> usize
    requires { at + N.WIDTH * length numbers.now ≤ length out.old }
    ensures put { Put out.old at (N.bytes_of numbers.now) result out.new }
    ensures value { result ≡ at + N.WIDTH * length numbers.now }
{
    let mut to = at;
    for number in numbers {
        to = put(out, to, N::WIDTH, number.value());
    }
    to
}
