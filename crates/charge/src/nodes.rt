// The pass over the nodes.
ghost use Rattle.paper.specs.Files as Files;
ghost use Rattle.charge.specs.Chained as Chained;
ghost use Rattle.charge.specs.Tables as Tables;

use crate::asked::Asked;
use crate::sizes::NODES;
use crate::sums::{Sums, count_if};

impl Asked<'_> {
    // All nodes: their counts by set, and by set and the least limit that covers them.
    pub fn charge_nodes(&self, cover: &[u8; NODES], sums: &mut Sums)
        requires covered { Chained.Covered (Files.case_of self.now.file.now self.now.trailer) self.now.trailer.facts cover.now }
        requires nodes_added { Tables.NodesAdded (Files.case_of self.now.file.now self.now.trailer) 0 sums.old.whole sums.old.parts }
        ensures { Tables.NodesAdded (Files.case_of self.now.file.now self.now.trailer) self.now.trailer.nodes sums.new.whole sums.new.parts }
    {
        for v in 0..self.trailer.nodes {
            let b = layout::node_at(self.file, self.trailer, v);
            let at = v as usize;
            let x = count_if(b != 65535, self.counts[at]);
            sums.add(self.trailer.sets, b, cover[at] as u16, x, x);
        }
    }
}
