// Rules 17, 24 and 25: the rows at the ends of the edges inside a scope.
ghost use Rattle.std.specs.Prelude.{◌≡◌, ◌<◌};
ghost use Rattle.paper.specs.Lists.{some};
ghost use Rattle.paper.specs.Files as Files;
ghost use Rattle.paper.specs.Facts as Facts;
ghost use Rattle.paper.specs.Known.{Laid, Shaped};
ghost use Rattle.layout.specs.Firsts.{first};
ghost use Rattle.evidence.specs.Stands.{fact_of, nodes_of, Stands, Ready, Whole, SoundRows};
ghost use Rattle.evidence.specs.Edges.{Splits, From, BadStep};
ghost use Rattle.evidence.specs.RowParts.{SetAt, RisingAt, missing, forgets, breaks_at};

use crate::Head;
use crate::rows::{elsewhere, row_at};
use paper::{MANY, Sets, Trailer, UNFETCHED};

// The row at `at`, a set of n blocks, holds x.
fn holds(file: &[u8], at: usize, n: u16, x: u16) -> bool
    requires { SetAt file.now at n }
    ensures { result ≡ Facts.holds (Files.row_at file.now at) x }
{
    (0..n).any(|i| layout::slot_at(file, at, i) == x)
}

// The set at s lacks one of the n blocks of the set at r. Both rise, so one pass over the m blocks of s is enough.
fn drops(file: &[u8], r: usize, n: u16, s: usize, m: u16) -> bool
    requires rising_at { RisingAt file.now r n }
    requires rising_at_2 { RisingAt file.now s m }
    ensures { result ≡ some (missing (Files.row_at file.now r) (Files.row_at file.now s)) n }
{
    let mut i: u16 = 0;
    for j in 0..m {
        if n <= i {
            return false;
        }
        let x = layout::slot_at(file, r, i);
        let y = layout::slot_at(file, s, j);
        if x < y {
            return true;
        }
        if x == y {
            i += 1;
        }
    }
    i < n
}

// Node u's block x is not none, of b's set, and the set at s lacks it.
fn lost(file: &[u8], trailer: Trailer, sets: Sets, h: Head, x: u16, s: usize, m: u16) -> bool
    requires ready { Ready trailer sets }
    requires stands { Stands file.now trailer h }
    requires set_at { SetAt file.now s m }
    ensures { result ≡ forgets (Files.case_of file.now trailer) (fact_of file.now h) x (Files.row_at file.now s) }
{
    if x == 65535 {
        return false;
    }
    if elsewhere(trailer, sets, h, x) {
        return false;
    }
    !holds(file, s, m, x)
}

// 17, 24 or 25, for an edge from the scope's node i, which fetches x, to its node j.
fn breaks(file: &[u8], trailer: Trailer, sets: Sets, h: Head, x: u16, i: u16, j: u16) -> bool
    requires ready { Ready trailer sets }
    requires stands { Stands file.now trailer h }
    requires whole { Whole file.now h }
    requires sound_rows { SoundRows file.now trailer h }
    requires i_bound { (i < nodes_of h) × (j < nodes_of h) }
    ensures { result ≡ breaks_at file.now trailer h x i j }
{
    let s = row_at(file, h, j);
    let m = layout::number_at(file, s);
    if x == h.block {
        return m == UNFETCHED;
    }
    let r = row_at(file, h, i);
    let n = layout::number_at(file, r);
    if n == UNFETCHED {
        return false;
    }
    if n == MANY {
        return m != MANY;
    }
    if MANY <= m {
        return m != MANY;
    }
    if layout::same_row(file, r, s) {
        return lost(file, trailer, sets, h, x, s, m);
    }
    if lost(file, trailer, sets, h, x, s, m) {
        return true;
    }
    drops(file, r, n, s, m)
}

// The first edge from node v or a later one: edges rise by from.
fn first_edge(file: &[u8], trailer: Trailer, v: u16) -> u16
    requires laid { Laid file.now trailer }
    requires shaped { Shaped (Files.case_of file.now trailer) }
    ensures { Splits file.now trailer v result result }
{
    let mut low: u16 = 0;
    let mut high: u16 = trailer.edges;
    // `while`: the part that is left is halved.
    while low < high {
        let middle = (low + high) / 2;
        if layout::from_at(file, trailer, middle) < v {
            low = middle + 1;
        } else {
            high = middle;
        }
    }
    low
}

// 17, 24 or 25, for edge i, which comes from the scope's node u.
fn bad_step(file: &[u8], trailer: Trailer, sets: Sets, h: Head, i: u16, u: u16) -> bool
    requires laid { Laid file.now trailer }
    requires ready { Ready trailer sets }
    requires stands { Stands file.now trailer h }
    requires whole { Whole file.now h }
    requires sound_rows { SoundRows file.now trailer h }
    requires from { From file.now trailer h i u }
    ensures { result ≡ Facts.bad_step_at (Files.case_of file.now trailer) (fact_of file.now h) i }
{
    let v = layout::to_at(file, trailer, i);
    if (v < h.first) | (h.last < v) {
        return false;
    }
    breaks(
        file,
        trailer,
        sets,
        h,
        layout::node_at(file, trailer, u),
        u - h.first,
        v - h.first,
    )
}

// 17, 24 and 25, "an edge's rule broken": the least such edge. The edges from nodes of the scope stand together.
pub fn bad_steps(file: &[u8], trailer: Trailer, h: Head) -> Option<u16>
    requires laid { Laid file.now trailer }
    requires shaped { Shaped (Files.case_of file.now trailer) }
    requires stands { Stands file.now trailer h }
    requires whole { Whole file.now h }
    requires sound_rows { SoundRows file.now trailer h }
    ensures { result ≡ first (Facts.bad_step_at (Files.case_of file.now trailer) (fact_of file.now h)) trailer.edges }
{
    let sets = Sets::of(trailer.sets);
    for i in first_edge(file, trailer, h.first)..trailer.edges {
        let u = layout::from_at(file, trailer, i);
        if h.last < u {
            return None;
        }
        if bad_step(file, trailer, sets, h, i, u) {
            return Some(i);
        }
    }
    None
}

// Which of 24, 25 and 17 edge i breaks, where it breaks one: u's block and row tell. Only the one edge that is told is looked at again.
pub fn step_number(file: &[u8], trailer: Trailer, h: Head, i: u16) -> u8
    requires laid { Laid file.now trailer }
    requires stands { Stands file.now trailer h }
    requires whole { Whole file.now h }
    requires bad_step { BadStep file.now trailer h i }
    ensures { result ≡ Facts.step_number (Files.case_of file.now trailer) (fact_of file.now h) i }
{
    let u = layout::from_at(file, trailer, i);
    if layout::node_at(file, trailer, u) == h.block {
        return 24;
    }
    if layout::number_at(file, row_at(file, h, u - h.first)) == MANY {
        return 25;
    }
    17
}
