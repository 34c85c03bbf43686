// "Sections in order, without gaps": loops, facts and the trailer put after nodes and edges.
ghost use Rattle.std.specs.Prelude.{◌≡◌, ◌+◌, ◌*◌, ◌≤◌, ◌<◌, length};
ghost use Rattle.paper.specs.Lists.{each};
ghost use Rattle.paper.specs.Records.{bits16, head_size, loop_size, row_size, trailer_size, visits_field};
ghost use Rattle.paper.specs.Writing.{per_head, per_row};
ghost use Rattle.paper.specs.Writing as Writing;
ghost use Rattle.puts.specs.Put.{Put};
ghost use Rattle.writer.specs.Room.{of_loops, of_facts, NarrowLoops, front_bytes, FactsFit, offset_bytes, mark_bytes};

use crate::bytes::{put_long, put_word, put_words};
use paper::{Trailer, WITHOUT_W};
use puts::word;

// "loops (16-bit first, 16-bit last, 32-bit B)": loop j of the list, but for W.
fn put_front(out: &mut [u8], at: usize, trailer: Trailer, loops: &[u32], j: u16) -> usize
    requires visits_field_in_bounds { at + visits_field ≤ length out.old }
    requires j_lt_loops { j < trailer.loops }
    requires narrow_loops { NarrowLoops trailer loops.now }
    ensures put { Put out.old at (front_bytes trailer loops.now j) result out.new }
    ensures value { result ≡ at + visits_field }
{
    let last = put_word(out, at, lists::loop_number(trailer, loops, j, 0) as u16);
    let bound = put_word(out, last, lists::loop_number(trailer, loops, j, 1) as u16);
    put_long(out, bound, lists::loop_number(trailer, loops, j, 2))
}

// Loop j, in version 2 with W.
fn put_loop(out: &mut [u8], at: usize, trailer: Trailer, loops: &[u32], j: u16) -> usize
    requires version_in_bounds { at + loop_size trailer.version ≤ length out.old }
    requires j_lt_loops { j < trailer.loops }
    requires narrow_loops { NarrowLoops trailer loops.now }
    ensures put { Put out.old at (Writing.loop_bytes trailer.version (Writing.loop_in (of_loops trailer.version loops.now) j)) result out.new }
    ensures value { result ≡ at + loop_size trailer.version }
{
    let visits = put_front(out, at, trailer, loops, j);
    if trailer.version == WITHOUT_W {
        return visits;
    }
    put_long(out, visits, lists::visits_of(trailer, loops, j))
}

pub fn put_loops(out: &mut [u8], at: usize, trailer: Trailer, loops: &[u32]) -> usize
    requires loops_in_bounds { at + loop_size trailer.version * trailer.loops ≤ length out.old }
    requires narrow_loops { NarrowLoops trailer loops.now }
    ensures put { Put out.old at (each (λ j. Writing.loop_bytes trailer.version (Writing.loop_in (of_loops trailer.version loops.now) j)) trailer.loops) result out.new }
    ensures value { result ≡ at + loop_size trailer.version * trailer.loops }
{
    let mut to = at;
    for j in 0..trailer.loops {
        to = put_loop(out, to, trailer, loops, j);
    }
    to
}

// "facts (16-bit loop number or 65,535 for the whole graph, 16-bit block, 16-bit l, then 16 bytes a row)": fact i, whose n rows come after r others.
fn put_fact(out: &mut [u8], at: usize, heads: &[u16], rows: &[u16], i: usize, r: usize) -> usize
    requires per_head_in_bounds { per_head * i + per_head ≤ length heads.now }
    requires r_value { r ≡ Writing.rows_before (of_facts heads.now rows.now) i }
    requires i_in_bounds { per_row * (r + Writing.rows_named (of_facts heads.now rows.now) i) ≤ length rows.now }
    requires i_in_bounds_2 { at + head_size + row_size * Writing.rows_named (of_facts heads.now rows.now) i ≤ length out.old }
    ensures put { Put out.old at (Writing.fact_bytes (of_facts heads.now rows.now) i) result out.new }
    ensures value { result ≡ at + head_size + row_size * Writing.rows_named (of_facts heads.now rows.now) i }
{
    let body = put_words(out, at, &heads[4 * i..4 * i + 3]);
    let end = r + heads[4 * i + 3] as usize;
    put_words(out, body, &rows[8 * r..8 * end])
}

pub fn put_facts(out: &mut [u8], at: usize, heads: &[u16], rows: &[u16], n: usize) -> usize
    requires facts_fit { FactsFit heads.now rows.now n }
    requires rows_in_bounds { at + head_size * n + bits16 * length rows.now ≤ length out.old }
    ensures put { Put out.old at (each (Writing.fact_bytes (of_facts heads.now rows.now)) n) result out.new }
    ensures value { result ≡ at + head_size * n + bits16 * length rows.now }
{
    let mut to = at;
    let mut r: usize = 0;
    for i in 0..n {
        to = put_fact(out, to, heads, rows, i, r);
        r += heads[4 * i + 3] as usize;
    }
    to
}

// "four 32-bit offsets (nodes, edges, loops, facts)"
fn put_offsets(out: &mut [u8], at: usize, trailer: Trailer) -> usize
    requires { at + 16 ≤ length out.old }
    ensures put { Put out.old at (offset_bytes trailer) result out.new }
    ensures value { result ≡ at + 16 }
{
    let edges = put_long(out, at, 0);
    let loops = put_long(out, edges, layout::places::edges_at(trailer) as u32);
    let facts = put_long(out, loops, layout::places::loops_at(trailer) as u32);
    put_long(out, facts, layout::facts_at(trailer) as u32)
}

// "policy (0 LRU, 1 FIFO, 2 NMRU), ways, sets, version …, one byte each; then the four letters QMBT"
fn put_marks(out: &mut [u8], at: usize, trailer: Trailer) -> usize
    requires { at + 8 ≤ length out.old }
    ensures put { Put out.old at (mark_bytes trailer) result out.new }
    ensures value { result ≡ at + 8 }
{
    let marks = [
        trailer.policy,
        trailer.ways,
        trailer.sets,
        trailer.version,
        b'Q',
        b'M',
        b'B',
        b'T',
    ];
    word(out, at, &marks)
}

// "The last 32 bytes point back."
pub fn put_trailer(out: &mut [u8], at: usize, trailer: Trailer) -> usize
    requires { at + trailer_size ≤ length out.old }
    ensures put { Put out.old at (Writing.trailer_bytes trailer) result out.new }
    ensures value { result ≡ at + trailer_size }
{
    let numbers = put_offsets(out, at, trailer);
    let counts = [trailer.nodes, trailer.edges, trailer.loops, trailer.facts];
    let marks = put_words(out, numbers, &counts);
    put_marks(out, marks, trailer)
}
