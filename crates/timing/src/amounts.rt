// Times that are cut at 2 to the 63: sums and products.
ghost use Rattle.std.specs.Prelude.{◌≡◌, ◌+◌, ◌*◌, min};
ghost use Rattle.timing.specs.Pushed.{cut};

pub const TOO_LARGE: u64 = 9223372036854775808;

// The sum, or `most` where it is more.
pub fn added(x: u64, y: u64, most: u64) -> u64
    ensures { result ≡ min (x + y) most }
{
    x.saturating_add(y).min(most)
}

// n times x.
pub fn rounds(n: u32, x: u64) -> u64
    ensures { result ≡ min (n * x) cut }
{
    (n as u64).saturating_mul(x).min(TOO_LARGE)
}
