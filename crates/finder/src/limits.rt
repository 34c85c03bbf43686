// The limit that a settled table asks for, and the rows for it.
ghost use Rattle.std.specs.Prelude.{◌≡◌, cond, ◌++◌, ◌≤◌, ◌<◌, max, length, drop};
ghost use Rattle.paper.specs.Cases as Cases;
ghost use Rattle.paper.specs.Files.{case_of};
ghost use Rattle.paper.specs.Finding.{rows_length};
ghost use Rattle.paper.specs.Known.{Laid};
ghost use Rattle.search.specs.Steps as Steps;
ghost use Rattle.search.specs.Passes as Passes;
ghost use Rattle.search.proofs.Searching.{Searched};
ghost use Rattle.finder.specs.Scopes.{fact_by, nodes_by, Scoped};

use crate::asking::fetches;
use crate::table::{TABLE, put_row, row_of};
use gather::Sought;
use paper::{Trailer, UNFETCHED};

// "Many" asks for one more than any limit.
pub const NO_LIMIT: u16 = 9;

// The limit that a row with this number asks for where b is fetched.
fn asks(n: u16) -> u16
    requires { n ≤ 9 }
    ensures { result ≡ Passes.asks n }
{
    if n == UNFETCHED {
        return 1;
    }
    n + 1
}

// The most that is asked for, with the scope's node j.
fn most_with(
    file: &[u8],
    trailer: Trailer,
    q: Sought,
    table: &[u16; TABLE],
    j: u16,
    most: u16,
) -> u16
    requires laid { Laid file.now trailer }
    requires scoped { Scoped file.now trailer q }
    requires searched { Searched (case_of file.now trailer) (fact_by file.now trailer q) table.now }
    requires j_bound { j < nodes_by file.now trailer q }
    ensures { result ≡ cond (Cases.fetches (case_of file.now trailer) (fact_by file.now trailer q) j) (max most (Passes.asks (Steps.number_of (Passes.table_row table.now j)))) most }
{
    if fetches(file, trailer, q, j) {
        let r = row_of(table, j as usize);
        return most.max(asks(r[0]));
    }
    most
}

// The most that is asked for at a node that fetches b.
pub fn most_asked(file: &[u8], trailer: Trailer, q: Sought, table: &[u16; TABLE]) -> u16
    requires laid { Laid file.now trailer }
    requires scoped { Scoped file.now trailer q }
    requires searched { Searched (case_of file.now trailer) (fact_by file.now trailer q) table.now }
    ensures { result ≡ Passes.most_to (case_of file.now trailer) (fact_by file.now trailer q) table.now (nodes_by file.now trailer q) }
{
    let mut most: u16 = 0;
    for j in 0..q.nodes() {
        most = most_with(file, trailer, q, table, j, most);
    }
    most
}

// "with the rows": those of the table, for the limit l. "Room past the rows always" stays as it was.
pub fn lend_rows(
    file: &[u8],
    trailer: Trailer,
    q: Sought,
    table: &[u16; TABLE],
    l: u16,
    rows: &mut [u16],
)
    requires scoped { Scoped file.now trailer q }
    requires q_in_bounds { rows_length (case_of file.now trailer) (fact_by file.now trailer q) ≤ length rows.old }
    ensures { rows.new ≡ Passes.rows_found (case_of file.now trailer) (fact_by file.now trailer q) table.now l ++ drop (rows_length (case_of file.now trailer) (fact_by file.now trailer q)) rows.old }
{
    for j in 0..q.nodes() as usize {
        put_row(rows, j, gather::lowered(l, row_of(table, j)));
    }
}
