// Which caches there are, and which set of one a block lives in.
ghost use Rattle.std.specs.Prelude.{◌≡◌, ◌%◌, ◌<◌, ◌≤◌};
ghost use Rattle.paper.specs.Machines as Machines;

use crate::Sets;
use crate::policies::Policy;

// "A set has k ways": the policy is one of the four, and has so many.
pub fn is_offered(policy: u8, ways: u8) -> bool
    ensures { result ≡ Machines.offered policy ways }
{
    Policy::with_ways(policy, ways).is_some()
}

// "With S sets (1 to 64)"
pub fn is_set_count(sets: u8) -> bool
    ensures { result ≡ Machines.set_count sets }
{
    (0 < sets) & (sets <= 64)
}

pub fn is_in_range(policy: u8, ways: u8, sets: u8) -> bool
    ensures { result ≡ Machines.in_range policy ways sets }
{
    is_offered(policy, ways) & is_set_count(sets)
}

// "block b lives in set b mod S"
pub fn home(b: u16, sets: u8) -> u16
    requires { (0 < sets) × (sets ≤ 64) }
    ensures value { result ≡ b % sets }
    ensures upper_bound { result < 64 }
{
    b % (sets as u16)
}

impl Sets {
    pub fn of(sets: u8) -> Sets
        requires { (0 < sets) × (sets ≤ 64) }
        ensures { result.count ≡ sets }
    {
        let s = sets as u64;
        let up = (4294967295 + s) / s;
        Sets {
            count: s,
            inverse: up,
        }
    }

    // "block b lives in set b mod S", for whoever asks often: two products in the place of a division.
    pub fn home(self, b: u16) -> usize
        ensures value { result ≡ b % self.count }
        ensures upper_bound { result < 64 }
    {
        let low = ((b as u64) * self.inverse) % 4294967296;
        (low * self.count / 4294967296) as usize
    }
}
