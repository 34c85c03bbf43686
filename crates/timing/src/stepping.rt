// The loops become steps, inner ones first.
ghost use Rattle.std.specs.Prelude.{◌≡◌, suc, ◌<◌, ◌≤◌, min, length};
ghost use Rattle.paper.specs.Ceilings.{most_nodes, most_loops};
ghost use Rattle.paper.specs.Files.{case_of};
ghost use Rattle.paper.specs.Times as Times;
ghost use Rattle.timing.specs.Pushed.{cut};
ghost use Rattle.timing.specs.Ready.{entry, Ready};

use crate::amounts::{TOO_LARGE, added, rounds};
use crate::levels::{Costed, Level};
use paper::MOST_LOOPS;

impl Costed<'_> {
    // "times B, is the loop's time for one entry": that of loop j, which becomes a step.
    fn take_loop(&self, j: u16, steps: &mut [u32], times: &mut [u64; MOST_LOOPS])
        requires j_lt_loops { j < self.now.trailer.loops }
        requires ready { Ready self.now.file.now self.now.trailer self.now.costs.now (suc j) steps.old times.old }
        ensures { Ready self.now.file.now self.now.trailer self.now.costs.now j steps.new times.new }
    {
        let l = layout::loop_at(self.file, self.trailer, j);
        let level = Level {
            of: *self,
            k: j + 1,
            steps,
            times,
        };
        let way = level.longest_way(l.first, l.last + 1);
        times[j as usize] = rounds(l.bound, way);
        graph::fill(steps, l.first as usize, l.last as usize + 1, j as u32);
    }

    // The loops become steps from the last to the first, so inner ones first. The table of steps is overwritten.
    fn take_loops(&self, steps: &mut [u32], times: &mut [u64; MOST_LOOPS])
        requires most_nodes_in_bounds { most_nodes ≤ length steps.old }
        requires most_loops_in_bounds { most_loops ≤ length times.old }
        ensures { Ready self.now.file.now self.now.trailer self.now.costs.now 0 steps.new times.new }
    {
        graph::fill(
            steps,
            0,
            self.trailer.nodes as usize,
            self.trailer.loops as u32,
        );
        for j in (0..self.trailer.loops).rev() {
            self.take_loop(j, steps, times);
        }
    }

    // "The graph's time is the longest way from node 0 in the same sense, plus penalty times the total miss bound", or 2 to the 63 where it is that or more. The table is overwritten.
    pub fn time_of(&self, penalty: u32, total: u64, table: &mut [u32]) -> u64
        requires { most_nodes ≤ length table.old }
        ensures { result ≡ min (Times.graph_time (case_of self.now.file.now self.now.trailer) (entry self.now.costs.now) penalty total) cut }
    {
        let mut times: [u64; MOST_LOOPS] = [0; MOST_LOOPS];
        self.take_loops(table, &mut times);
        let level = Level {
            of: *self,
            k: 0,
            steps: table,
            times: &times,
        };
        let way = level.longest_way(0, self.trailer.nodes);
        added(way, rounds(penalty, total), TOO_LARGE)
    }
}
