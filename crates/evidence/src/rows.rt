// Rule 16: the rows of a fact, where they stand and what they may be.
ghost use Rattle.std.specs.Prelude.{◌≡◌, not, ◌+◌, ◌%◌, ◌<◌, ◌≤◌, eqb, length};
ghost use Rattle.paper.specs.Lists.{some};
ghost use Rattle.paper.specs.Files as Files;
ghost use Rattle.paper.specs.Facts as Facts;
ghost use Rattle.paper.specs.Records.{row_size};
ghost use Rattle.paper.specs.Known.{Laid};
ghost use Rattle.layout.specs.Firsts.{first};
ghost use Rattle.evidence.specs.Stands.{fact_of, nodes_of, Stands, Ready, Whole};
ghost use Rattle.evidence.specs.RowParts.{SetAt, unfree};

use crate::Head;
use paper::{MANY, Sets, Trailer, UNFETCHED};

// Where the row of the scope's node j stands.
pub fn row_at(file: &[u8], h: Head, j: u16) -> usize
    requires whole { Whole file.now h }
    requires j_bound { j < nodes_of h }
    ensures value { result ≡ Files.row_place h.place j }
    ensures row_size_in_bounds { result + row_size ≤ length file.now }
{
    layout::row_place(file, h.place, j)
}

// "block b lives in set b mod S": x lives in another set than the fact's block. (The trailer is handed on for the contract.)
pub fn elsewhere(trailer: Trailer, sets: Sets, h: Head, x: u16) -> bool
    requires { Ready trailer sets }
    ensures { result ≡ not (eqb (x % trailer.sets) h.home) }
{
    sets.home(x) != h.home as usize
}

// "strictly rising, each of b's set, none equal to b or none": one of the n blocks of the row at `at` is not so.
fn bad_blocks(file: &[u8], trailer: Trailer, sets: Sets, h: Head, at: usize, n: u16) -> bool
    requires ready { Ready trailer sets }
    requires stands { Stands file.now trailer h }
    requires set_at { SetAt file.now at n }
    ensures { result ≡ some (Facts.bad_slot (Files.case_of file.now trailer) (fact_of file.now h) (Files.row_at file.now at)) n }
{
    let mut low: u16 = 0;
    for i in 0..n {
        let x = layout::slot_at(file, at, i);
        if (x == 65535) | ((x == h.block) | (elsewhere(trailer, sets, h, x) | (x < low))) {
            return true;
        }
        low = x + 1;
    }
    false
}

// "free slots are 65,535": one of the slots from n on is not.
fn bad_rest(file: &[u8], at: usize, n: u16) -> bool
    requires row_size_in_bounds { at + row_size ≤ length file.now }
    requires n_bound { n < 8 }
    ensures { result ≡ some (unfree n (Files.row_at file.now at)) 7 }
{
    (n..7).any(|i| layout::slot_at(file, at, i) != 65535)
}

fn bad_row(file: &[u8], trailer: Trailer, sets: Sets, h: Head, j: u16) -> bool
    requires ready { Ready trailer sets }
    requires stands { Stands file.now trailer h }
    requires whole { Whole file.now h }
    requires j_bound { j < nodes_of h }
    ensures { result ≡ Facts.bad_row_at (Files.case_of file.now trailer) (fact_of file.now h) j }
{
    let at = row_at(file, h, j);
    let n = layout::number_at(file, at);
    if UNFETCHED < n {
        return true;
    }
    if MANY <= n {
        return bad_rest(file, at, 0);
    }
    if h.limit <= n {
        return true;
    }
    if bad_blocks(file, trailer, sets, h, at, n) {
        return true;
    }
    bad_rest(file, at, n)
}

// 16: "a row not sound": the least such node of the scope.
pub fn bad_rows(file: &[u8], trailer: Trailer, h: Head) -> Option<u16>
    requires laid { Laid file.now trailer }
    requires stands { Stands file.now trailer h }
    requires whole { Whole file.now h }
    ensures { result ≡ first (Facts.bad_row_at (Files.case_of file.now trailer) (fact_of file.now h)) (nodes_of h) }
{
    let sets = Sets::of(trailer.sets);
    (0..h.nodes()).find(|j| bad_row(file, trailer, sets, h, *j))
}
