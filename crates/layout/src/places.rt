// Where things lie in a case file, by name: the one place in code that has their sizes and offsets. `Records` and `Files` of crates/paper/specs have the definitions.
ghost use Rattle.std.specs.Prelude.{◌≡◌, ◌*◌, ◌≤◌, length};
ghost use Rattle.paper.specs.Cases.{size};
ghost use Rattle.paper.specs.Files as Files;
ghost use Rattle.paper.specs.Records as Records;

use paper::{Loop, Trailer, WITHOUT_W};

// Sizes of the records, in bytes.
pub const NODE_SIZE: usize = 2;

pub const EDGE_SIZE: usize = 4;

pub const LOOP_SIZE: usize = 8;

pub const WIDEST_LOOP: usize = 12;

pub const HEAD_SIZE: usize = 6;

pub const ROW_SIZE: usize = 16;

pub const TRAILER_SIZE: usize = 32;

// Fields of an edge, a loop, a fact's head and a row that do not stand first in it.
pub const TO_FIELD: usize = 2;

pub const LAST_FIELD: usize = 2;

pub const BOUND_FIELD: usize = 4;

pub const VISITS_FIELD: usize = 8;

pub const BLOCK_FIELD: usize = 2;

pub const LIMIT_FIELD: usize = 4;

pub const SLOTS_FIELD: usize = 2;

pub const SLOT_SIZE: usize = 2;

// Fields of the trailer: the sections' offsets, their numbers of records, and one byte each.
pub const EDGES_OFFSET: usize = 4;

pub const LOOPS_OFFSET: usize = 8;

pub const FACTS_OFFSET: usize = 12;

pub const NODES_FIELD: usize = 16;

pub const EDGES_FIELD: usize = 18;

pub const LOOPS_FIELD: usize = 20;

pub const FACTS_FIELD: usize = 22;

pub const POLICY_FIELD: usize = 24;

pub const WAYS_FIELD: usize = 25;

pub const SETS_FIELD: usize = 26;

pub const VERSION_FIELD: usize = 27;

pub const LETTERS_FIELD: usize = 28;

// Where the trailer begins.
pub fn end_of(file: &[u8]) -> usize
    requires { Records.trailer_size ≤ length file.now }
    ensures { result ≡ Files.end_at file.now }
{
    file.len() - TRAILER_SIZE
}

pub fn node_place(v: u16) -> usize
    ensures { result ≡ Files.node_place v }
{
    NODE_SIZE * (v as usize)
}

pub fn edges_at(trailer: Trailer) -> usize
    ensures { result ≡ Files.edges_at trailer }
{
    node_place(trailer.nodes)
}

pub fn edge_place(trailer: Trailer, i: u16) -> usize
    ensures { result ≡ Files.edge_place trailer i }
{
    edges_at(trailer) + EDGE_SIZE * (i as usize)
}

pub fn loops_at(trailer: Trailer) -> usize
    ensures { result ≡ Files.loops_at trailer }
{
    edge_place(trailer, trailer.edges)
}

// "Version 2 of the case file gives each loop a further 32-bit number W"
pub fn loop_size(version: u8) -> usize
    ensures value { result ≡ Records.loop_size version }
    ensures upper_bound { result ≤ Records.size_of Records.widest_loop }
{
    if version == WITHOUT_W {
        return LOOP_SIZE;
    }
    WIDEST_LOOP
}

pub fn loop_place(trailer: Trailer, j: u16) -> usize
    ensures { result ≡ Files.loop_place trailer j }
{
    loops_at(trailer) + loop_size(trailer.version) * (j as usize)
}

pub fn facts_at(trailer: Trailer) -> usize
    ensures { result ≡ Files.facts_at trailer }
{
    loop_place(trailer, trailer.loops)
}

// How long the rows of n nodes are.
pub fn rows_size(n: u16) -> usize
    ensures { result ≡ Records.row_size * n }
{
    ROW_SIZE * (n as usize)
}

// Where row j of the fact that stands at p begins. (The file is lent for the contract.)
pub fn row_place(file: &[u8], p: usize, j: u16) -> usize
    requires { Files.row_place p j ≤ length file.now }
    ensures { result ≡ Files.row_place p j }
{
    p + HEAD_SIZE + rows_size(j)
}

// Where the fact that stands at p ends, if its scope is s: one row for each of its nodes.
pub fn fact_end(file: &[u8], p: usize, s: Loop) -> usize
    requires first_le_last { s.first ≤ s.last }
    requires s_in_bounds { Files.row_place p (size s) ≤ length file.now }
    ensures { result ≡ Files.row_place p (size s) }
{
    p + HEAD_SIZE + ROW_SIZE * ((s.last - s.first) as usize + 1)
}
