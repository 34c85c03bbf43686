// What is asked for, and the refusals after the graph's: 12, 14 and 20.
ghost use Rattle.std.specs.Prelude.{◌≡◌, ◌≢◌, ◌*◌, ◌<◌, Ok};
ghost use Rattle.paper.specs.Cases as Cases;
ghost use Rattle.paper.specs.Facts as Facts;
ghost use Rattle.paper.specs.Files.{case_of};
ghost use Rattle.paper.specs.Finding.{sought, rows_length, sought_rules};
ghost use Rattle.paper.specs.Known.{Laid, Shaped};
ghost use Rattle.finder.specs.Scopes.{fact_by, nodes_by, Scoped};

use crate::table::PER_ROW;
use gather::Sought;
use paper::{Refusal, Sets, Trailer};

// "for each block and a scope handed to it": the scope's nodes, and "limit up to k".
pub fn sought_of(file: &[u8], trailer: Trailer, scope: u16, block: u16) -> Sought
    requires laid { Laid file.now trailer }
    requires shaped { Shaped (case_of file.now trailer) }
    requires scope_lt_loops { scope ≢ 65535 → scope < trailer.loops }
    ensures scope_value { (result.scope ≡ scope) × (result.block ≡ block) }
    ensures scoped { Scoped file.now trailer result }
{
    let range = layout::range_at(file, trailer, scope);
    let sets = Sets::of(trailer.sets);
    Sought {
        scope: scope,
        first: range.first,
        last: range.last,
        block: block,
        limit: trailer.ways as u16,
        home: sets.home(block),
        sets: sets,
    }
}

pub fn fetches(file: &[u8], trailer: Trailer, q: Sought, j: u16) -> bool
    requires laid { Laid file.now trailer }
    requires scoped { Scoped file.now trailer q }
    requires j_bound { j < nodes_by file.now trailer q }
    ensures { result ≡ Cases.fetches (case_of file.now trailer) (fact_by file.now trailer q) j }
{
    layout::node_at(file, trailer, q.first + j) == q.block
}

// 14: "no node of the scope fetches b"
fn unfetched(file: &[u8], trailer: Trailer, q: Sought) -> bool
    requires laid { Laid file.now trailer }
    requires scoped { Scoped file.now trailer q }
    ensures { result ≡ Facts.unfetched (case_of file.now trailer) (fact_by file.now trailer q) }
{
    !evidence::fetched(file, trailer, q.first, q.nodes(), q.block)
}

// "then 12 for a bad scope or block, 14, and 20 for too little room for the rows of the whole scope; the last three have place 0"
pub fn sought_rules(
    file: &[u8],
    trailer: Trailer,
    scope: u16,
    block: u16,
    room: usize,
) -> Result<(), Refusal>
    requires laid { Laid file.now trailer }
    requires shaped { Shaped (case_of file.now trailer) }
    ensures { result ≡ sought_rules (case_of file.now trailer) (sought (case_of file.now trailer) scope block) room (Ok tt) }
{
    if facts::wrong_head(trailer, scope, block, trailer.ways as u16) {
        return Err(paper::refuse(12, 0));
    }
    let q = sought_of(file, trailer, scope, block);
    if unfetched(file, trailer, q) {
        return Err(paper::refuse(14, 0));
    }
    if room < PER_ROW * (q.nodes() as usize) {
        return Err(paper::refuse(20, 0));
    }
    Ok(())
}
