// Passes over the edges of the scope, in file order, until nothing changes.
ghost use Rattle.std.specs.Prelude.{◌≡◌, ◌<◌};
ghost use Rattle.paper.specs.Files.{case_of};
ghost use Rattle.paper.specs.Known.{Laid};
ghost use Rattle.search.specs.Passes as Passes;
ghost use Rattle.search.proofs.Justly.{Asked};
ghost use Rattle.search.proofs.Searching.{Searched, Settled};
ghost use Rattle.finder.specs.Scopes.{fact_by, Scoped};

use crate::table::{TABLE, put_row, row_of};
use gather::Sought;
use paper::Trailer;

// One edge, from u to v: v's row becomes what the edge makes of it. Whether it is another row.
fn take_edge(file: &[u8], trailer: Trailer, q: Sought, table: &mut [u16; TABLE], i: u16) -> bool
    requires laid { Laid file.now trailer }
    requires scoped { Scoped file.now trailer q }
    requires searched { Searched (case_of file.now trailer) (fact_by file.now trailer q) table.old }
    requires i_lt_edges { i < trailer.edges }
    ensures value { result ≡ Passes.changes (case_of file.now trailer) (fact_by file.now trailer q) table.old i }
    ensures table_after { table.new ≡ Passes.after_edge (case_of file.now trailer) (fact_by file.now trailer q) table.old i }
{
    let u = layout::from_at(file, trailer, i);
    let v = layout::to_at(file, trailer, i);
    if !(q.contains(u) & q.contains(v)) {
        return false;
    }
    let at = (v - q.first) as usize;
    let old = row_of(table, at);
    let r = row_of(table, (u - q.first) as usize);
    let new = gather::stepped(q, layout::node_at(file, trailer, u), r, old);
    if new[0] == old[0] {
        return false;
    }
    put_row(table, at, new);
    true
}

// One pass. Whether it changed the table.
fn pass(file: &[u8], trailer: Trailer, q: Sought, table: &mut [u16; TABLE]) -> bool
    requires laid { Laid file.now trailer }
    requires scoped { Scoped file.now trailer q }
    requires asked { Asked (case_of file.now trailer) (fact_by file.now trailer q) }
    requires searched { Searched (case_of file.now trailer) (fact_by file.now trailer q) table.old }
    ensures value { result ≡ Passes.changed_to (case_of file.now trailer) (fact_by file.now trailer q) table.old trailer.edges }
    ensures table_after { table.new ≡ Passes.pass_to (case_of file.now trailer) (fact_by file.now trailer q) table.old trailer.edges }
{
    let mut changed = false;
    for i in 0..trailer.edges {
        changed |= take_edge(file, trailer, q, table, i);
    }
    changed
}

// "It must end on every graph": each pass but the last raises what the table says, and that has its ceiling.
pub fn settle(file: &[u8], trailer: Trailer, q: Sought, table: &mut [u16; TABLE])
    requires laid { Laid file.now trailer }
    requires scoped { Scoped file.now trailer q }
    requires asked { Asked (case_of file.now trailer) (fact_by file.now trailer q) }
    requires searched { Searched (case_of file.now trailer) (fact_by file.now trailer q) table.old }
    ensures { Settled (case_of file.now trailer) (fact_by file.now trailer q) table.new }
{
    // `while`: the graph decides how many passes there are.
    while pass(file, trailer, q, table) {}
}
