// Rule 26: the nodes that no edges lead to from node 0.
ghost use Rattle.std.specs.Prelude.{◌≡◌, false, ◌≤◌, length};
ghost use Rattle.paper.specs.Lists.{bit, some};
ghost use Rattle.layout.specs.Firsts.{first};
ghost use Rattle.paper.specs.Graphs as Graphs;
ghost use Rattle.paper.specs.Ceilings.{most_nodes};
ghost use Rattle.paper.specs.Files.{case_of};
ghost use Rattle.paper.specs.Known.{Laid, Shaped};
ghost use Rattle.graph.specs.Filled.{Holds};
ghost use Rattle.graph.specs.Reaching.{reached_to};

use crate::marks::{fill, first_zero};
use paper::Trailer;

// Node 0 is marked, and edge by edge in file order the end of each edge whose start is.
fn mark_reached(file: &[u8], trailer: Trailer, table: &mut [u32])
    requires laid { Laid file.now trailer }
    requires shaped { Shaped (case_of file.now trailer) }
    requires most_nodes_in_bounds { most_nodes ≤ length table.old }
    ensures { Holds (λ v. bit (reached_to (case_of file.now trailer) v trailer.edges)) trailer.nodes table.new }
{
    fill(table, 0, trailer.nodes as usize, 0);
    table[0] = 1;
    for i in 0..trailer.edges {
        let u = layout::from_at(file, trailer, i);
        let v = layout::to_at(file, trailer, i);
        table[v as usize] |= table[u as usize];
    }
}

// The least dead node. One pass is enough after rules 8 and 9: a backward edge leads to a header that every walk to its start has passed, so forward edges alone lead to every
// node that is not dead, and those that lead to a node come before those that leave it.
pub fn first_dead(file: &[u8], trailer: Trailer, table: &mut [u32]) -> Option<u16>
    requires laid { Laid file.now trailer }
    requires shaped { Shaped (case_of file.now trailer) }
    requires edges_value { some (Graphs.bad_entry (case_of file.now trailer)) trailer.edges ≡ false }
    requires edges_value_2 { some (Graphs.bad_return (case_of file.now trailer)) trailer.edges ≡ false }
    requires most_nodes_in_bounds { most_nodes ≤ length table.old }
    ensures { result ≡ first (Graphs.dead (case_of file.now trailer)) trailer.nodes }
{
    mark_reached(file, trailer, table);
    first_zero(trailer, table)
}
