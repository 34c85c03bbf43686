// Amounts that are added by set: each set's sum, and its parts by limit.
ghost use Rattle.std.specs.Prelude.{◌≡◌, cond, ◌%◌, ◌<◌, ◌≤◌};
ghost use Rattle.paper.specs.Ceilings as Ceilings;
ghost use Rattle.charge.specs.Sizes as Sizes;
ghost use Rattle.charge.specs.Tables as Tables;

use crate::sizes::{LIMITS, SETS, SETS_BY_LIMITS};

#[derive(Drop)]
pub struct Sums {
    pub whole: [u64; SETS],
    pub parts: [u64; SETS_BY_LIMITS],
}

impl Sums {
    // x is added to the sum of block b's whole set, y to its part of limit l.
    pub fn add(&mut self, sets: u8, b: u16, l: u16, x: u64, y: u64)
        requires sets_nonzero { (0 < sets) × (sets ≤ Sizes.sets) }
        requires fact { Tables.Open self.old.whole self.old.parts (b % sets) l x y }
        ensures whole_after { self.new.whole ≡ Tables.plus self.old.whole (b % sets) x }
        ensures parts_after { self.new.parts ≡ Tables.plus self.old.parts (Tables.place_of (b % sets) l) y }
    {
        let q = paper::home(b, sets) as usize;
        let at = LIMITS * q + l as usize;
        self.whole[q] = self.whole[q] + x;
        self.parts[at] = self.parts[at] + y;
    }
}

pub fn count_if(hit: bool, count: u32) -> u64
    ensures value { result ≡ cond hit count 0 }
    ensures upper_bound { result ≤ Ceilings.most_count }
{
    if hit { count as u64 } else { 0 }
}
