// The nodes by buckets of blocks, so that a fact looks only at those that may fetch its block.
ghost use Rattle.std.specs.Prelude.{◌≡◌, cond, ◌&&◌, ◌<◌, ◌≤◌, min, eqb, leb};
ghost use Rattle.paper.specs.Bounds as Bounds;
ghost use Rattle.paper.specs.Files as Files;
ghost use Rattle.formulas.specs.Largest as Largest;
ghost use Rattle.charge.specs.Chained as Chained;
ghost use Rattle.charge.specs.Sizes as Sizes;

use crate::asked::Asked;
use crate::heads::Head;
use crate::pass::Pass;
use crate::sizes::{BUCKETS, CHAINED, NO_LIMIT, NODES};
use crate::sums::count_if;

// A node's limit, where it was `old`: lowered to l by a fact that covers it.
fn lower_if(hit: bool, l: u16, old: u8) -> u8
    ensures { result ≡ min old (cond hit l Sizes.no_limit) }
{
    let x = if hit { l } else { NO_LIMIT };
    x.min(old as u16) as u8
}

impl Asked<'_> {
    // The nodes by their blocks' buckets: place h holds the last node of bucket h, and after the buckets place v the one before v in its bucket, each plus 1, and 0 where there is none.
    pub fn chain_nodes(&self, chain: &mut [u16; CHAINED])
        requires { Chained.Chained (Files.case_of self.now.file.now self.now.trailer) 0 chain.old }
        ensures { Chained.Chained (Files.case_of self.now.file.now self.now.trailer) self.now.trailer.nodes chain.new }
    {
        for v in 0..self.trailer.nodes {
            let h = (layout::node_at(self.file, self.trailer, v) % BUCKETS) as usize;
            chain[BUCKETS as usize + v as usize] = chain[h];
            chain[h] = v + 1;
        }
    }
}

impl Pass<'_> {
    // Node v, not before h's range, is in it and fetches h's block.
    fn fetches(&self, h: Head, v: u16) -> bool
        requires { v < self.now.of.trailer.nodes }
        ensures { result ≡ (leb v h.range.last && eqb (Files.node_at self.now.of.file.now v) h.block) }
    {
        (v <= h.range.last) & (layout::node_at(self.of.file, self.of.trailer, v) == h.block)
    }

    // N: "the sum of counts of its nodes that fetch b"; and those nodes are covered by a fact of its limit. Only nodes of b's bucket are looked at.
    pub fn cover_nodes(&self, h: Head, cover: &mut [u8; NODES]) -> u64
        requires { Chained.Limits (Files.case_of self.now.of.file.now self.now.of.trailer) cover.old }
        ensures value { result ≡ Bounds.counts (Files.case_of self.now.of.file.now self.now.of.trailer) (Bounds.fetches_in (Files.case_of self.now.of.file.now self.now.of.trailer) h.range h.block) }
        ensures upper_bound { result ≤ Largest.largest_visits }
        ensures lowered { Chained.Lowered (Files.case_of self.now.of.file.now self.now.of.trailer) (Bounds.fetches_in (Files.case_of self.now.of.file.now self.now.of.trailer) h.range h.block) h.limit cover.old cover.new }
    {
        let mut n: u64 = 0;
        let mut c: u16 = self.chain[(h.block % BUCKETS) as usize];
        // `while`: c goes from a node to the one before it in its bucket.
        while h.range.first < c {
            let v = c - 1;
            let at = v as usize;
            let hit = self.fetches(h, v);
            n += count_if(hit, self.of.counts[at]);
            cover[at] = lower_if(hit, h.limit, cover[at]);
            c = self.chain[BUCKETS as usize + at];
        }
        n
    }
}
