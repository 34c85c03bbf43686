// Rule 10: the counts.
ghost use Rattle.std.specs.Prelude.{◌≡◌, ◌≤◌, None, length};
ghost use Rattle.layout.specs.Firsts.{first};
ghost use Rattle.paper.specs.Graphs as Graphs;
ghost use Rattle.paper.specs.Ceilings.{most_nodes};
ghost use Rattle.paper.specs.Files.{case_of};
ghost use Rattle.paper.specs.Known.{Laid, Shaped};
ghost use Rattle.layout.specs.Counted.{Counted};

use crate::marks::{Rule, first_zero, mark_nodes};
use paper::Trailer;

// The least node that breaks rule 10. Where none does, the table holds all counts.
pub fn first_bad_count(file: &[u8], trailer: Trailer, counts: &mut [u32]) -> Option<u16>
    requires laid { Laid file.now trailer }
    requires shaped { Shaped (case_of file.now trailer) }
    requires most_nodes_in_bounds { most_nodes ≤ length counts.old }
    ensures value { result ≡ first (Graphs.bad_count (case_of file.now trailer)) trailer.nodes }
    ensures counted { result ≡ None → Counted file.now trailer counts.new }
{
    mark_nodes(file, trailer, counts, Rule::Count, 1);
    first_zero(trailer, counts)
}
