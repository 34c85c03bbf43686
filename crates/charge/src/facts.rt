// The pass over the facts: what each costs, and the nodes that it covers.
ghost use Rattle.std.specs.Prelude.{◌≡◌, ◌≤◌};
ghost use Rattle.paper.specs.Bounds as Bounds;
ghost use Rattle.paper.specs.Files as Files;
ghost use Rattle.paper.proofs.Meaning.{SoundHead};
ghost use Rattle.charge.specs.Chained as Chained;
ghost use Rattle.charge.specs.Tables as Tables;

use crate::asked::Asked;
use crate::pass::Pass;
use crate::sizes::{CHAINED, LOOPS, NODES};
use crate::sums::Sums;
use paper::FACTS_FROM;

// What a fact costs, and where the next one stands.
#[derive(Clone, Copy)]
pub struct Cost {
    pub block: u16,
    pub limit: u16,
    pub entered: u64,
    pub bound: u64,
    pub next: usize,
}

impl Pass<'_> {
    // The fact at p: what it costs; and its nodes are covered.
    fn charge_fact(&self, p: usize, cover: &mut [u8; NODES]) -> Cost
        requires sound_head { SoundHead (Files.case_of self.now.of.file.now self.now.of.trailer) (Files.fact_at self.now.of.file.now p) }
        requires p_bound { Files.fact_end self.now.of.file.now self.now.of.trailer p ≤ Files.end_at self.now.of.file.now }
        requires limits { Chained.Limits (Files.case_of self.now.of.file.now self.now.of.trailer) cover.old }
        ensures value { result ≡ Tables.cost_of self.now.of.file.now self.now.of.trailer p self.now.of.interruptions }
        ensures lowered { Chained.Lowered (Files.case_of self.now.of.file.now self.now.of.trailer) (Bounds.covers (Files.case_of self.now.of.file.now self.now.of.trailer) (Files.fact_at self.now.of.file.now p)) (Files.fact_at self.now.of.file.now p).limit cover.old cover.new }
    {
        let h = self.of.head_at(p);
        let e = self.entries_of(p, h);
        let n = self.cover_nodes(h, cover);
        // "Every fact's E becomes the lesser of E + p and N"
        let x = formulas::entered(e, self.of.interruptions, n);
        let trailer = self.of.trailer;
        Cost {
            block: h.block,
            limit: h.limit,
            entered: x,
            bound: formulas::bound_of(trailer.policy, trailer.ways as u64, h.limit as u64, x, n),
            next: h.next,
        }
    }

    // Each fact: its bound, and its sums by set, and by set and limit.
    fn charge_each(&self, cover: &mut [u8; NODES], sums: &mut Sums, numbers: &mut [u64])
        requires covered { Chained.Covered (Files.case_of self.now.of.file.now self.now.of.trailer) 0 cover.old }
        requires facts_added { Tables.FactsAdded (Files.case_of self.now.of.file.now self.now.of.trailer) self.now.of.interruptions 0 sums.old.whole sums.old.parts }
        requires part { Tables.Part (Files.case_of self.now.of.file.now self.now.of.trailer) self.now.of.interruptions 0 0 0 numbers.old numbers.old }
        ensures all_covered { Chained.Covered (Files.case_of self.now.of.file.now self.now.of.trailer) self.now.of.trailer.facts cover.new }
        ensures all_added { Tables.FactsAdded (Files.case_of self.now.of.file.now self.now.of.trailer) self.now.of.interruptions self.now.of.trailer.facts sums.new.whole sums.new.parts }
        ensures all_written { Tables.Part (Files.case_of self.now.of.file.now self.now.of.trailer) self.now.of.interruptions 0 0 self.now.of.trailer.facts numbers.old numbers.new }
    {
        let mut p = layout::facts_at(self.of.trailer);
        for i in 0..self.of.trailer.facts as usize {
            let c = self.charge_fact(p, cover);
            sums.add(self.of.trailer.sets, c.block, c.limit, c.bound, c.entered);
            numbers[FACTS_FROM + i] = c.bound;
            p = c.next;
        }
    }
}

impl Asked<'_> {
    // All facts, with the next loops out and the nodes by buckets made for them.
    pub fn charge_facts(&self, cover: &mut [u8; NODES], sums: &mut Sums, numbers: &mut [u64])
        requires covered { Chained.Covered (Files.case_of self.now.file.now self.now.trailer) 0 cover.old }
        requires facts_added { Tables.FactsAdded (Files.case_of self.now.file.now self.now.trailer) self.now.interruptions 0 sums.old.whole sums.old.parts }
        requires part { Tables.Part (Files.case_of self.now.file.now self.now.trailer) self.now.interruptions 0 0 0 numbers.old numbers.old }
        ensures all_covered { Chained.Covered (Files.case_of self.now.file.now self.now.trailer) self.now.trailer.facts cover.new }
        ensures all_added { Tables.FactsAdded (Files.case_of self.now.file.now self.now.trailer) self.now.interruptions self.now.trailer.facts sums.new.whole sums.new.parts }
        ensures all_written { Tables.Part (Files.case_of self.now.file.now self.now.trailer) self.now.interruptions 0 0 self.now.trailer.facts numbers.old numbers.new }
    {
        let mut outers: [u16; LOOPS] = [0; LOOPS];
        let mut chain: [u16; CHAINED] = [0; CHAINED];
        self.chain_loops(&mut outers);
        self.chain_nodes(&mut chain);
        let pass = Pass {
            of: *self,
            outers: &outers,
            chain: &chain,
        };
        pass.charge_each(cover, sums, numbers);
    }
}
