// The nodes, edges and loops of a file that is laid out.
#![tactic(auto, unfolding(paper::specs::Files::node_at, paper::specs::Files::from_at, paper::specs::Files::to_at))]

ghost use Rattle.std.specs.Prelude.{ℕ, ◌≡◌, ◌≢◌, ◌≤◌, ◌<◌};
ghost use Rattle.paper.specs.Files as Files;
ghost use Rattle.paper.specs.Cases as Cases;
ghost use Rattle.paper.specs.Known.{Laid};
ghost use Rattle.paper.specs.declared.Loop.{Loop};

use crate::bytes::{u16_at, u32_at};
use crate::places::{
    BOUND_FIELD, LAST_FIELD, TO_FIELD, VISITS_FIELD, edge_place, loop_place, node_place,
};
use paper::{Loop, Trailer, UNLIMITED, WITHOUT_W};

pub fn node_at(file: &[u8], trailer: Trailer, v: u16) -> u16
    requires laid { Laid file.now trailer }
    requires v_lt_nodes { v < trailer.nodes }
    ensures { result ≡ Files.node_at file.now v }
{
    u16_at(file, node_place(v))
}

pub fn from_at(file: &[u8], trailer: Trailer, i: u16) -> u16
    requires laid { Laid file.now trailer }
    requires i_lt_edges { i < trailer.edges }
    ensures { result ≡ Files.from_at file.now trailer i }
{
    u16_at(file, edge_place(trailer, i))
}

pub fn to_at(file: &[u8], trailer: Trailer, i: u16) -> u16
    requires laid { Laid file.now trailer }
    requires i_lt_edges { i < trailer.edges }
    ensures { result ≡ Files.to_at file.now trailer i }
{
    u16_at(file, edge_place(trailer, i) + TO_FIELD)
}

// "Version 1 is read as without W"
#[tactic(auto, using(crate::proofs::LoopPlaces::all_in), unfolding(paper::specs::Files::loop_at))]
fn visits_at(file: &[u8], trailer: Trailer, j: u16) -> u32
    requires laid { Laid file.now trailer }
    requires j_lt_loops { j < trailer.loops }
    ensures { result ≡ (Files.loop_at file.now trailer j).visits }
{
    if trailer.version == WITHOUT_W {
        return UNLIMITED;
    }
    u32_at(file, loop_place(trailer, j) + VISITS_FIELD)
}

#[tactic(auto, using(crate::proofs::LoopPlaces::front_in), unfolding(paper::specs::Files::loop_at))]
pub fn loop_at(file: &[u8], trailer: Trailer, j: u16) -> Loop
    requires laid { Laid file.now trailer }
    requires j_lt_loops { j < trailer.loops }
    ensures { result ≡ Files.loop_at file.now trailer j }
{
    let at = loop_place(trailer, j);
    Loop {
        first: u16_at(file, at),
        last: u16_at(file, at + LAST_FIELD),
        bound: u32_at(file, at + BOUND_FIELD),
        visits: visits_at(file, trailer, j),
    }
}

// The whole graph as a scope: "the whole graph with one entry", which is range 65,535 whatever the loops are.
#[tactic(auto, unfolding(paper::specs::Cases::range_of))]
pub fn whole_graph(trailer: Trailer) -> Loop
    requires { 1 ≤ trailer.nodes }
    ensures { (loop : ℕ → Loop) → result ≡ Cases.range_of trailer.nodes loop 65535 }
{
    Loop {
        first: 0,
        last: trailer.nodes - 1,
        bound: 1,
        visits: UNLIMITED,
    }
}

pub fn range_at(file: &[u8], trailer: Trailer, w: u16) -> Loop
    requires laid { Laid file.now trailer }
    requires w_lt_loops { w ≢ 65535 → w < trailer.loops }
    ensures { result ≡ Cases.range_of trailer.nodes (Files.loop_at file.now trailer) w }
{
    if w == 65535 {
        return whole_graph(trailer);
    }
    loop_at(file, trailer, w)
}
