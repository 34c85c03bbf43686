// The search's table: a row of eight numbers for each node of the scope. Rows are lent the same way.
ghost use Rattle.std.specs.Prelude.{◌≡◌, ℕ, ◌+◌, ◌*◌, ◌≤◌, ◌<◌, length};
ghost use Rattle.paper.specs.Ceilings.{most_nodes};
ghost use Rattle.paper.specs.Writing.{per_row};
ghost use Rattle.search.specs.Steps as Steps;
ghost use Rattle.search.specs.Passes as Passes;

use paper::{MOST_NODES, UNFETCHED};

pub const PER_ROW: usize = 8;

pub const TABLE: usize = PER_ROW * MOST_NODES;

// The eight numbers one by one, here and in `put_row`: with `copy_from_slice` the finder executes up to two fifths more instructions.
pub fn row_of(table: &[u16; TABLE], j: usize) -> [u16; 8]
    requires { j < most_nodes }
    ensures { result ≡ Passes.table_row table.now j }
{
    let at = PER_ROW * j;
    [
        table[at],
        table[at + 1],
        table[at + 2],
        table[at + 3],
        table[at + 4],
        table[at + 5],
        table[at + 6],
        table[at + 7],
    ]
}

pub fn put_row(rows: &mut [u16], j: usize, r: [u16; 8])
    requires { per_row * j + per_row ≤ length rows.old }
    ensures { rows.new ≡ Passes.with_row rows.old j r }
{
    let at = PER_ROW * j;
    rows[at] = r[0];
    rows[at + 1] = r[1];
    rows[at + 2] = r[2];
    rows[at + 3] = r[3];
    rows[at + 4] = r[4];
    rows[at + 5] = r[5];
    rows[at + 6] = r[6];
    rows[at + 7] = r[7];
}

// Nothing is known of the first n nodes: "9 where b has not been fetched".
pub fn start(table: &mut [u16], n: usize)
    requires { per_row * n ≤ length table.old }
    ensures by_index { (j : ℕ) → j < n → Passes.table_row table.new j ≡ Steps.plain 9 }
    ensures table_len_unchanged { length table.new ≡ length table.old }
{
    for j in 0..n {
        put_row(table, j, gather::plain(UNFETCHED));
    }
}
