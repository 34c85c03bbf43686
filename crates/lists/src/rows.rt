// Rule 16: the rows of a fact, eight numbers each.
ghost use Rattle.std.specs.Prelude.{◌≡◌, not, ◌+◌, ◌*◌, ◌%◌, ◌<◌, ◌≤◌, eqb, length};
ghost use Rattle.paper.specs.Lists.{some};
ghost use Rattle.layout.specs.Firsts.{first};
ghost use Rattle.paper.specs.Facts as Facts;
ghost use Rattle.evidence.specs.RowParts.{unfree};
ghost use Rattle.lists.specs.Listed.{row_at, fact_of, row_case, SetAt, Judged};

use evidence::Head;
use paper::{MANY, Sets, Trailer, UNFETCHED};

// "block b lives in set b mod S": x lives in another set than the fact's block. (The trailer is handed on for the contract.)
fn elsewhere(trailer: Trailer, sets: Sets, h: Head, x: u16) -> bool
    requires { Judged trailer sets h }
    ensures { result ≡ not (eqb (x % trailer.sets) h.home) }
{
    sets.home(x) != h.home as usize
}

// Slot i of the row at `at`.
fn slot_at(rows: &[u16], at: usize, i: u16) -> u16
    requires at_in_bounds { at + 8 ≤ length rows.now }
    requires i_bound { i < 7 }
    ensures { result ≡ (row_at rows.now at).slot i }
{
    rows[at + 1 + (i as usize)]
}

// "strictly rising, each of b's set, none equal to b or none": one of the n blocks of the row at `at` is not so.
fn bad_blocks(rows: &[u16], trailer: Trailer, sets: Sets, h: Head, at: usize, n: u16) -> bool
    requires judged { Judged trailer sets h }
    requires set_at { SetAt rows.now at n }
    ensures { result ≡ some (Facts.bad_slot (row_case trailer) (fact_of rows.now h) (row_at rows.now at)) n }
{
    let mut low: u16 = 0;
    for i in 0..n {
        let x = slot_at(rows, at, i);
        if (x == 65535) | ((x == h.block) | (elsewhere(trailer, sets, h, x) | (x < low))) {
            return true;
        }
        low = x + 1;
    }
    false
}

// "free slots are 65,535": one of the slots from n on is not.
fn bad_rest(rows: &[u16], at: usize, n: u16) -> bool
    requires at_in_bounds { at + 8 ≤ length rows.now }
    requires n_bound { n < 8 }
    ensures { result ≡ some (unfree n (row_at rows.now at)) 7 }
{
    for i in n..7 {
        if slot_at(rows, at, i) != 65535 {
            return true;
        }
    }
    false
}

// Rule 16 for the row at `at`.
fn bad_row(rows: &[u16], trailer: Trailer, sets: Sets, h: Head, at: usize) -> bool
    requires judged { Judged trailer sets h }
    requires at_in_bounds { at + 8 ≤ length rows.now }
    ensures { result ≡ Facts.bad_row (row_case trailer) (fact_of rows.now h) (row_at rows.now at) }
{
    let n = rows[at];
    if UNFETCHED < n {
        return true;
    }
    if MANY <= n {
        return bad_rest(rows, at, 0);
    }
    if h.limit <= n {
        return true;
    }
    if bad_blocks(rows, trailer, sets, h, at, n) {
        return true;
    }
    bad_rest(rows, at, n)
}

// 16: "a row not sound": the least of the n rows from the head's place on that is not.
pub fn bad_rows(rows: &[u16], trailer: Trailer, sets: Sets, h: Head, n: u16) -> Option<u16>
    requires judged { Judged trailer sets h }
    requires n_in_bounds { 8 * (h.place + n) ≤ length rows.now }
    ensures { result ≡ first (Facts.bad_row_at (row_case trailer) (fact_of rows.now h)) n }
{
    for j in 0..n {
        if bad_row(rows, trailer, sets, h, 8 * (h.place + (j as usize))) {
            return Some(j);
        }
    }
    None
}
