// Rule 4: the numbers, and lists that are whole.
ghost use Rattle.std.specs.Prelude.{◌≡◌, ◌||◌, ◌+◌, ◌*◌, ◌≤◌, length, get_or};
ghost use Rattle.paper.specs.Lists.{sum_to};
ghost use Rattle.paper.specs.Files.{bad_numbers};
ghost use Rattle.paper.specs.Writing as Writing;
ghost use Rattle.lists.specs.Listed.{plain};

use crate::numbers::per_loop;
use paper::{MOST_EDGES, MOST_FACTS, MOST_LOOPS, MOST_NODES};

// How many rows the first n heads name.
fn rows_named(heads: &[u16], n: usize) -> usize
    requires n_in_bounds { 4 * n ≤ length heads.now }
    requires n_bound { n ≤ 256 }
    ensures value { result ≡ sum_to (λ i. get_or heads.now (4 * i + 3) 0) n }
    ensures upper_bound { result ≤ 65535 * n }
{
    let mut sum: usize = 0;
    for i in 0..n {
        sum += heads[4 * i + 3] as usize;
    }
    sum
}

// 4: "Nodes 1 to 1,024, edges 0 to 4,096, loops 0 to 64, facts 0 to 256"; and every list is a whole number of records, with eight numbers for each row that the heads name.
pub fn bad_lists(
    version: u8,
    nodes: &[u16],
    edges: &[u16],
    loops: &[u32],
    heads: &[u16],
    rows: &[u16],
) -> bool
    ensures { result ≡ (Writing.bad_lists (plain version nodes.now edges.now loops.now heads.now rows.now) || bad_numbers (Writing.trailer_in (plain version nodes.now edges.now loops.now heads.now rows.now))) }
{
    let per = per_loop(version);
    let facts = heads.len() / 4;
    if (nodes.len() < 1)
        | ((MOST_NODES < nodes.len())
            | ((MOST_EDGES < edges.len() / 2)
                | ((MOST_LOOPS < loops.len() / per) | (MOST_FACTS < facts))))
    {
        return true;
    }
    !(edges.len() % 2 == 0)
        | (!(loops.len() % per == 0)
            | (!(heads.len() % 4 == 0) | !(rows.len() == 8 * rows_named(heads, facts))))
}
