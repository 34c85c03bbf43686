// The pass over the sets: the set bounds and the total, from the sums of the facts and the nodes.
ghost use Rattle.std.specs.Prelude.{◌≡◌, ◌<◌, ◌≤◌};
ghost use Rattle.paper.specs.Lists.{lowest_to};
ghost use Rattle.paper.specs.Bounds as Bounds;
ghost use Rattle.paper.specs.Files as Files;
ghost use Rattle.formulas.specs.Largest as Largest;
ghost use Rattle.charge.specs.Sizes as Sizes;
ghost use Rattle.charge.specs.Tables as Tables;

use crate::both::Both;
use crate::sizes::{LIMITS, NO_LIMIT};
use paper::SETS_FROM;

impl Both<'_> {
    // "the least of A and, for each l from 1 to k, floor(k·M(l)/(k-l+1))": M(l) is M(l-1), with the entries of the facts of limit l for the counts that they cover.
    fn least_floor(&self, q: usize, a: u64) -> u64
        requires { q < Sizes.sets }
        ensures value { result ≡ lowest_to (Bounds.floor_at (Files.case_of self.now.of.file.now self.now.of.trailer) self.now.of.interruptions q) a self.now.of.trailer.ways }
        ensures upper_bound { result ≤ a }
    {
        let mut m = self.nodes.whole[q];
        let mut x = a;
        for j in 0..self.of.trailer.ways as u64 {
            let l = j + 1;
            let at = LIMITS * q + l as usize;
            m = m + self.facts.parts[at] - self.nodes.parts[at];
            x = x.min(formulas::floor_of(self.of.trailer, l, m));
        }
        x
    }

    // "Set bound: for LRU and NMRU, A. For FIFO, the least of A and" the floors.
    fn set_bound(&self, q: usize) -> u64
        requires { q < Sizes.sets }
        ensures value { result ≡ Bounds.set_bound (Files.case_of self.now.of.file.now self.now.of.trailer) self.now.of.interruptions q }
        ensures upper_bound { result ≤ Largest.largest_a }
    {
        let a = self.facts.whole[q] + self.nodes.parts[LIMITS * q + NO_LIMIT as usize];
        if paper::has_floors(self.of.trailer.policy) {
            return self.least_floor(q, a);
        }
        a
    }

    // The sets' bounds, and "Total: the sum over sets."
    pub fn charge_sets(&self, numbers: &mut [u64])
        requires { Tables.Part (Files.case_of self.now.of.file.now self.now.of.trailer) self.now.of.interruptions 0 0 self.now.of.trailer.facts numbers.old numbers.old }
        ensures { Tables.Part (Files.case_of self.now.of.file.now self.now.of.trailer) self.now.of.interruptions (Bounds.total_bound (Files.case_of self.now.of.file.now self.now.of.trailer) self.now.of.interruptions) self.now.of.trailer.sets self.now.of.trailer.facts numbers.old numbers.new }
    {
        let mut total: u64 = 0;
        for q in 0..self.of.trailer.sets as usize {
            let x = self.set_bound(q);
            numbers[SETS_FROM + q] = x;
            total += x;
        }
        numbers[0] = total;
    }
}
