// The writer: "nodes, edges, loops and facts in, case file out in a lent buffer".
#![tactic(auto)]

ghost use Rattle.std.specs.Prelude.{◌+◌, ◌*◌, ◌≤◌, length};
ghost use Rattle.paper.specs.Files.{facts_at};
ghost use Rattle.paper.specs.Records.{bits16, head_size, trailer_size};
ghost use Rattle.paper.specs.Writing as Writing;
ghost use Rattle.puts.specs.Put.{Put};
ghost use Rattle.lists.specs.Listed.{Listed};
ghost use Rattle.lists.specs.Listings.{offered};
ghost use Rattle.writer.specs.Answered.{Written, room_rule, listed_verdict};
ghost use Rattle.writer.specs.Handed.{content_of, facts_of};

mod bytes;
mod sections;

use bytes::put_words;
use layout::HEAD_SIZE;
use layout::places::TRAILER_SIZE;
use paper::{Refusal, Trailer};
use sections::{put_facts, put_loops, put_trailer};

// "nodes, edges, loops and facts in": the lists that are lent, a fact's head apart from its rows.
#[derive(Clone, Copy)]
struct Lists<'a> {
    nodes: &'a [u16],
    edges: &'a [u16],
    loops: &'a [u32],
    heads: &'a [u16],
    rows: &'a [u16],
}

// "Sections in order, without gaps", then the trailer.
fn put_file(out: &mut [u8], trailer: Trailer, lists: &Lists<'_>) -> usize
    requires listed { Listed (content_of trailer lists.now) trailer }
    requires facts { facts_of trailer lists.now }
    requires trailer_size_in_bounds { facts_at trailer + head_size * trailer.facts + bits16 * length lists.now.rows.now + trailer_size ≤ length out.old }
    ensures { Put out.old 0 (Writing.file_of (content_of trailer lists.now)) result out.new }
{
    let after_nodes = put_words(out, 0, lists.nodes);
    let after_edges = put_words(out, after_nodes, lists.edges);
    let after_loops = put_loops(out, after_edges, trailer, lists.loops);
    let after_facts = put_facts(
        out,
        after_loops,
        lists.heads,
        lists.rows,
        trailer.facts as usize,
    );
    put_trailer(out, after_facts, trailer)
}

// 20, before a byte is written; then the file.
fn write_fitting(trailer: Trailer, lists: &Lists<'_>, out: &mut [u8]) -> Result<usize, Refusal>
    requires listed { Listed (content_of trailer lists.now) trailer }
    requires facts { facts_of trailer lists.now }
    ensures { Written (content_of trailer lists.now) out.old (room_rule (content_of trailer lists.now) (length out.old)) result out.new }
{
    let size = layout::facts_at(trailer)
        + HEAD_SIZE * (trailer.facts as usize)
        + 2 * lists.rows.len()
        + TRAILER_SIZE;
    if out.len() < size {
        return Err(paper::refuse(20, 0));
    }
    put_file(out, trailer, lists);
    Ok(size)
}

// 6 and 7, the facts in turn, and 20.
fn write_listed(trailer: Trailer, lists: &Lists<'_>, out: &mut [u8]) -> Result<usize, Refusal>
    requires { Listed (content_of trailer lists.now) trailer }
    ensures { Written (content_of trailer lists.now) out.old (listed_verdict (content_of trailer lists.now) (length out.old)) result out.new }
{
    lists::rules_on(
        trailer,
        lists.nodes,
        lists.edges,
        lists.loops,
        lists.heads,
        lists.rows,
    )?;
    write_fitting(trailer, lists, out)
}

// "Refusals, in this order: 3, 4, 6 and 7; then for each fact in turn 12, 13, 15 and 16 …; then 20 if the file does not fit"; and 2 "as its first".
pub fn write(
    version: u8,
    policy: u8,
    ways: u8,
    sets: u8,
    nodes: &[u16],
    edges: &[u16],
    loops: &[u32],
    heads: &[u16],
    rows: &[u16],
    out: &mut [u8],
) -> Result<usize, Refusal>
    ensures { Written (offered version policy ways sets nodes.now edges.now loops.now heads.now rows.now) out.old (Writing.write_verdict (offered version policy ways sets nodes.now edges.now loops.now heads.now rows.now) (length out.old)) result out.new }
{
    let trailer = lists::listing_of(
        version, policy, ways, sets, nodes, edges, loops, heads, rows,
    )?;
    let handed = Lists {
        nodes: nodes,
        edges: edges,
        loops: loops,
        heads: heads,
        rows: rows,
    };
    write_listed(trailer, &handed, out)
}
