// Rules 6, 8 and 9: the edges.
ghost use Rattle.std.specs.Prelude.{◌≡◌, ◌≤◌, length};
ghost use Rattle.layout.specs.Firsts.{first};
ghost use Rattle.paper.specs.Graphs as Graphs;
ghost use Rattle.paper.specs.Ceilings.{most_nodes};
ghost use Rattle.paper.specs.Files.{case_of};
ghost use Rattle.paper.specs.Known.{Laid, Shaped};
ghost use Rattle.graph.specs.Filled.{Holds};
ghost use Rattle.graph.specs.Marks as Marks;

use crate::marks::{Rule, mark_nodes};
use crate::shape::Shape;
use paper::Trailer;

// Rule 6 for the edge u to v, edge i, after the edge a to b; of a file or of a list.
pub fn wrong_edge(nodes: u16, i: u16, a: u16, b: u16, u: u16, v: u16) -> bool
    ensures { result ≡ Graphs.wrong_edge nodes i a b u v }
{
    (nodes <= u) | ((nodes <= v) | ((0 < i) & !((a < u) | ((a == u) & (b < v)))))
}

// The least edge that breaks rule 6; a and b are the ends of the edge before.
pub fn first_bad_edge<S: Shape>(shape: &S) -> Option<u16>
    ensures { result ≡ first (Graphs.bad_edge (S.told shape.now)) (S.told shape.now).edges }
{
    let nodes = shape.nodes();
    let mut a: u16 = 0;
    let mut b: u16 = 0;
    for i in 0..shape.edges() {
        let (u, v) = shape.edge(i);
        if wrong_edge(nodes, i, a, b, u, v) {
            return Some(i);
        }
        a = u;
        b = v;
    }
    None
}

// Whether the edge u to v breaks the rule, by v's mark. No edge breaks rule 10.
#[tactic(auto, unfolding(crate::specs::Marks::breaks))]
fn breaks(rule: Rule, u: u16, v: u16, mark: u32) -> bool
    ensures { result ≡ Marks.breaks rule u v mark }
{
    match rule {
        Rule::Entry => (u as u32) < mark,
        Rule::Return => (v <= u) & (mark <= u as u32),
        Rule::Count => false,
    }
}

// The least edge that breaks the rule.
fn first_edge(file: &[u8], trailer: Trailer, table: &[u32], rule: Rule) -> Option<u16>
    requires laid { Laid file.now trailer }
    requires shaped { Shaped (case_of file.now trailer) }
    requires holds { Holds (λ v. Marks.marked_to (Marks.marks (case_of file.now trailer) rule) 0 v trailer.loops) trailer.nodes table.now }
    ensures { result ≡ first (Marks.edge_rule (case_of file.now trailer) rule) trailer.edges }
{
    for i in 0..trailer.edges {
        let u = layout::from_at(file, trailer, i);
        let v = layout::to_at(file, trailer, i);
        if breaks(rule, u, v, table[v as usize]) {
            return Some(i);
        }
    }
    None
}

// Rules 8 and 9: the least edge that breaks the rule.
pub fn edge_rule(file: &[u8], trailer: Trailer, table: &mut [u32], rule: Rule) -> Option<u16>
    requires laid { Laid file.now trailer }
    requires shaped { Shaped (case_of file.now trailer) }
    requires most_nodes_in_bounds { most_nodes ≤ length table.old }
    ensures { result ≡ first (Marks.edge_rule (case_of file.now trailer) rule) trailer.edges }
{
    mark_nodes(file, trailer, table, rule, 0);
    first_edge(file, trailer, table, rule)
}
