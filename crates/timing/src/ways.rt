// The longest way from a node: the numbers are taken along the edges in file order, and the greatest is found.
ghost use Rattle.std.specs.Prelude.{◌≡◌, ◌<◌, ◌≤◌, min};
ghost use Rattle.paper.specs.Lists.{highest_to};
ghost use Rattle.paper.specs.Files.{case_of};
ghost use Rattle.paper.specs.Times as Times;
ghost use Rattle.timing.specs.Pushed as Pushed;
ghost use Rattle.timing.specs.Pushed.{cut};
ghost use Rattle.timing.specs.Ready.{entry};
ghost use Rattle.timing.specs.Numbered.{Zeros, Numbered};

use crate::levels::Level;
use paper::MOST_NODES;

impl Level<'_> {
    // What the edge from u to v carries.
    fn carried(&self, table: &[u64; MOST_NODES], u: u16, v: u16) -> u64
        requires { u < self.now.of.trailer.nodes }
        ensures { result ≡ Pushed.carried (case_of self.now.of.file.now self.now.of.trailer) (entry self.now.of.costs.now) (entry self.now.times.now) cut self.now.k (entry table.now) u v }
    {
        if u < v {
            return self.number(table, u);
        }
        0
    }

    // Edge by edge, for ways from the node `first`, the number of the start is taken over to the end. Edges are sorted by their start, so that all edges into a node have had their turn before the first that leaves it.
    fn push(&self, first: u16, table: &mut [u64; MOST_NODES])
        requires first_lt_nodes { first < self.now.of.trailer.nodes }
        requires zeros { Zeros self.now.of.trailer.nodes table.old }
        ensures { Numbered (case_of self.now.of.file.now self.now.of.trailer) (entry self.now.of.costs.now) self.now.times.now self.now.k first self.now.of.trailer.edges table.new }
    {
        table[first as usize] = 1;
        for i in 0..self.of.trailer.edges {
            let u = layout::from_at(self.of.file, self.of.trailer, i);
            let v = layout::to_at(self.of.file, self.of.trailer, i);
            let n = self.carried(table, u, v);
            table[v as usize] = table[v as usize].max(n);
        }
    }

    // The greatest number of the nodes before `end`.
    fn highest(&self, end: u16, table: &[u64; MOST_NODES]) -> u64
        requires { end ≤ self.now.of.trailer.nodes }
        ensures { result ≡ highest_to (Pushed.number_by (case_of self.now.of.file.now self.now.of.trailer) (entry self.now.of.costs.now) (entry self.now.times.now) cut self.now.k (entry table.now)) end }
    {
        let mut most: u64 = 0;
        for v in 0..end {
            most = most.max(self.number(table, v));
        }
        most
    }

    // "the longest way", from the node `first` over nodes before `end`
    pub fn longest_way(&self, first: u16, end: u16) -> u64
        requires first_lt_nodes { first < self.now.of.trailer.nodes }
        requires end_le_nodes { end ≤ self.now.of.trailer.nodes }
        ensures { result ≡ min (Times.longest_way (case_of self.now.of.file.now self.now.of.trailer) (entry self.now.of.costs.now) (Times.time_of (case_of self.now.of.file.now self.now.of.trailer) (entry self.now.of.costs.now)) self.now.k first end) cut }
    {
        // A copy, whose fields the loops keep in registers: through `self` each would be read anew at each edge.
        let level = *self;
        let mut table: [u64; MOST_NODES] = [0; MOST_NODES];
        level.push(first, &mut table);
        level.highest(end, &table).saturating_sub(1)
    }
}
