// What rules 6 and 7 look at in the lists: the edges, two numbers each, and the loops.
#![tactic(auto, unfolding(paper::specs::Writing::loop_in))]

ghost use Rattle.std.specs.Prelude.{◌≡◌, ◌*◌, [], length};
ghost use Rattle.paper.specs.Writing.{per_loop};
ghost use Rattle.lists.specs.Listed as Listed;

use crate::numbers::loop_at;
use graph::{Shape, WideLoop};
use paper::Trailer;

#[derive(Clone, Copy)]
pub struct ListShape<'a> {
    pub trailer: Trailer,
    pub edges: &'a [u16],
    pub loops: &'a [u32],
    ghost edges_len: { length edges.now ≡ 2 * trailer.edges },
    ghost loops_len: { length loops.now ≡ per_loop trailer.version * trailer.loops },
}

impl<'a> Shape for ListShape<'a> {
    ghost told = { λ s. Listed.told s.trailer s.edges.now s.loops.now [] [] };

    fn nodes(&self) -> u16 {
        self.trailer.nodes
    }

    fn edges(&self) -> u16 {
        self.trailer.edges
    }

    fn loops(&self) -> u16 {
        self.trailer.loops
    }

    fn edge(&self, i: u16) -> (u16, u16) {
        let at = 2 * (i as usize);
        (self.edges[at], self.edges[at + 1])
    }

    fn loop_at(&self, j: u16) -> WideLoop {
        loop_at(self.trailer, self.loops, j)
    }
}
