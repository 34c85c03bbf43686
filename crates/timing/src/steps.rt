// The step that has a node, and its number: 0 where no way leads to it, else one more than the time of the longest, that step included.
ghost use Rattle.std.specs.Prelude.{◌≡◌, ◌<◌, ◌≤◌};
ghost use Rattle.paper.specs.Files.{case_of};
ghost use Rattle.paper.specs.Times as Times;
ghost use Rattle.timing.specs.Pushed as Pushed;
ghost use Rattle.timing.specs.Pushed.{cut};
ghost use Rattle.timing.specs.Ready.{entry};

use crate::amounts::{TOO_LARGE, added};
use crate::levels::Level;
use paper::MOST_NODES;

impl Level<'_> {
    // Where the step that has v begins.
    fn step_first(&self, v: u16) -> u16
        requires { v < self.now.of.trailer.nodes }
        ensures { result ≡ Times.step_first (case_of self.now.of.file.now self.now.of.trailer) self.now.k v }
    {
        let step = self.steps[v as usize];
        if step < self.of.trailer.loops as u32 {
            return layout::loop_at(self.of.file, self.of.trailer, step as u16).first;
        }
        v
    }

    // How long it takes: the time of a loop, or the node's cost.
    fn step_time(&self, v: u16) -> u64
        requires { v < self.now.of.trailer.nodes }
        ensures value { result ≡ Times.step_time (case_of self.now.of.file.now self.now.of.trailer) (entry self.now.of.costs.now) (entry self.now.times.now) self.now.k v }
        ensures upper_bound { result ≤ cut }
    {
        let step = self.steps[v as usize];
        if step < self.of.trailer.loops as u32 {
            return self.times[step as usize];
        }
        self.of.costs[v as usize] as u64
    }

    // The number of node v, where the table has what comes before the first node of each step.
    pub fn number(&self, table: &[u64; MOST_NODES], v: u16) -> u64
        requires { v < self.now.of.trailer.nodes }
        ensures { result ≡ Pushed.number_by (case_of self.now.of.file.now self.now.of.trailer) (entry self.now.of.costs.now) (entry self.now.times.now) cut self.now.k (entry table.now) v }
    {
        let before = table[self.step_first(v) as usize];
        if before == 0 {
            return 0;
        }
        added(before, self.step_time(v), TOO_LARGE + 1)
    }
}
