// A loop's numbers in the list: first, last and B, and in version 2 also W.
ghost use Rattle.std.specs.Prelude.{◌≡◌, ◌+◌, ◌*◌, ◌<◌, ◌≤◌, length, get_or};
ghost use Rattle.paper.specs.Files.{visits_by};
ghost use Rattle.paper.specs.Writing.{per_loop};
ghost use Rattle.graph.specs.Wide.{as_loop};
ghost use Rattle.lists.specs.Listed.{loop_at};

use graph::WideLoop;
use paper::{Trailer, UNLIMITED, WITHOUT_W};

// "Version 1 content carries no W."
pub fn per_loop(version: u8) -> usize
    ensures value { result ≡ per_loop version }
    ensures lower_bound { 3 ≤ result }
    ensures upper_bound { result ≤ 4 }
{
    if version == WITHOUT_W {
        return 3;
    }
    4
}

// First, last or B of loop j: its number k.
pub fn loop_number(trailer: Trailer, loops: &[u32], j: u16, k: usize) -> u32
    requires loops_len { length loops.now ≡ per_loop trailer.version * trailer.loops }
    requires j_lt_loops { j < trailer.loops }
    requires k_bound { k < 3 }
    ensures { result ≡ get_or loops.now (per_loop trailer.version * j + k) 0 }
{
    loops[per_loop(trailer.version) * (j as usize) + k]
}

// "Version 1 is read as without W"; else it is the number after B.
pub fn visits_of(trailer: Trailer, loops: &[u32], j: u16) -> u32
    requires loops_len { length loops.now ≡ per_loop trailer.version * trailer.loops }
    requires j_lt_loops { j < trailer.loops }
    ensures { result ≡ visits_by trailer.version (get_or loops.now (per_loop trailer.version * j + 3) 0) }
{
    if trailer.version == WITHOUT_W {
        return UNLIMITED;
    }
    loops[4 * (j as usize) + 3]
}

// Loop j, its ends as wide as they are handed over.
pub fn loop_at(trailer: Trailer, loops: &[u32], j: u16) -> WideLoop
    requires loops_len { length loops.now ≡ per_loop trailer.version * trailer.loops }
    requires j_lt_loops { j < trailer.loops }
    ensures { as_loop result ≡ loop_at trailer.version loops.now j }
{
    WideLoop {
        first: loop_number(trailer, loops, j, 0),
        last: loop_number(trailer, loops, j, 1),
        bound: loop_number(trailer, loops, j, 2),
        visits: visits_of(trailer, loops, j),
    }
}
