// A file's trailer and what it says: rules 1 to 5.
#![tactic(auto)]

ghost use Rattle.std.specs.Prelude.{◌≡◌, ◌≤◌, length};
ghost use Rattle.paper.specs.Files as Files;
ghost use Rattle.paper.specs.Lists as Lists;
ghost use Rattle.paper.specs.Records as Records;
ghost use Rattle.layout.specs.Layouts as Layouts;

mod bytes;
mod facts;
pub mod places;
mod sections;

pub use bytes::{u16_at, u32_at};
pub use facts::{block_at, limit_at, number_at, same_row, scope_at, slot_at};
use paper::{MOST_EDGES, MOST_FACTS, MOST_LOOPS, MOST_NODES, Refusal, Trailer};
use places::{
    EDGES_FIELD, EDGES_OFFSET, FACTS_FIELD, FACTS_OFFSET, LETTERS_FIELD, LOOPS_FIELD, LOOPS_OFFSET,
    NODES_FIELD, POLICY_FIELD, SETS_FIELD, TRAILER_SIZE, VERSION_FIELD, WAYS_FIELD, edges_at,
    loops_at,
};
pub use places::{HEAD_SIZE, end_of, fact_end, facts_at, row_place, rows_size};
pub use sections::{from_at, loop_at, node_at, range_at, to_at, whole_graph};

fn bad_letters(file: &[u8]) -> bool
    requires { Records.trailer_size ≤ length file.now }
    ensures { result ≡ Files.bad_letters file.now }
{
    let end = end_of(file);
    // "then the four letters QMBT"
    (file[end + LETTERS_FIELD..] != b"QMBT"[..]) | paper::is_bad_version(file[end + VERSION_FIELD])
}

#[tactic(auto, unfolding(paper::specs::Files::trailer_of))]
fn trailer_of(file: &[u8]) -> Trailer
    requires { Records.trailer_size ≤ length file.now }
    ensures { result ≡ Files.trailer_of file.now }
{
    let end = end_of(file);
    Trailer {
        nodes: u16_at(file, end + NODES_FIELD),
        edges: u16_at(file, end + EDGES_FIELD),
        loops: u16_at(file, end + LOOPS_FIELD),
        facts: u16_at(file, end + FACTS_FIELD),
        policy: file[end + POLICY_FIELD],
        ways: file[end + WAYS_FIELD],
        sets: file[end + SETS_FIELD],
        version: file[end + VERSION_FIELD],
    }
}

#[tactic(auto, unfolding(paper::specs::Files::bad_cache))]
fn bad_cache(trailer: Trailer) -> bool
    ensures { result ≡ Files.bad_cache trailer }
{
    !paper::is_in_range(trailer.policy, trailer.ways, trailer.sets)
}

#[tactic(auto, unfolding(paper::specs::Files::bad_numbers))]
fn bad_numbers(trailer: Trailer) -> bool
    ensures { result ≡ Files.bad_numbers trailer }
{
    (trailer.nodes < 1)
        | ((MOST_NODES < trailer.nodes as usize)
            | ((MOST_EDGES < trailer.edges as usize)
                | ((MOST_LOOPS < trailer.loops as usize) | (MOST_FACTS < trailer.facts as usize))))
}

#[tactic(auto, unfolding(paper::specs::Files::bad_offsets))]
fn bad_offsets(file: &[u8], trailer: Trailer) -> bool
    requires { Records.trailer_size ≤ length file.now }
    ensures { result ≡ Files.bad_offsets file.now trailer }
{
    let end = end_of(file);
    let facts = facts_at(trailer);
    !(u32_at(file, end) == 0)
        | (!(u32_at(file, end + EDGES_OFFSET) as usize == edges_at(trailer))
            | (!(u32_at(file, end + LOOPS_OFFSET) as usize == loops_at(trailer))
                | (!(u32_at(file, end + FACTS_OFFSET) as usize == facts) | (end < facts))))
}

// What a file's trailer says, or the first of the rules 1 to 5 that the file breaks.
pub fn layout_of(file: &[u8]) -> Result<Trailer, Refusal>
    ensures { result ≡ Layouts.layout_of file.now }
{
    if file.len() < TRAILER_SIZE {
        return Err(paper::refuse(1, 0));
    }
    if bad_letters(file) {
        return Err(paper::refuse(2, 0));
    }
    let trailer = trailer_of(file);
    if bad_cache(trailer) {
        return Err(paper::refuse(3, 0));
    }
    if bad_numbers(trailer) {
        return Err(paper::refuse(4, 0));
    }
    if bad_offsets(file, trailer) {
        return Err(paper::refuse(5, 0));
    }
    Ok(trailer)
}
