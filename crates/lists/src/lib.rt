// The rules of the check on lists instead of a file: 2, 3, 4, 6, 7, and for each fact in turn 12, 13, 15 and 16.
#![tactic(auto)]

ghost use Rattle.std.specs.Prelude.{◌≡◌, Ok};
ghost use Rattle.paper.specs.Verdicts as Verdicts;
ghost use Rattle.paper.specs.Writing.{case_in, written_facts};
ghost use Rattle.lists.specs.Listed.{content, Listed, Facts};
ghost use Rattle.lists.specs.Listings.{offered, listing_of};

mod numbers;
mod rows;
mod shapes;
mod turns;
mod whole;

use numbers::per_loop;
pub use numbers::{loop_number, visits_of};
use paper::{Refusal, Trailer};
use shapes::ListShape;
use turns::FactLists;
use whole::bad_lists;

// 2, 3 and 4: how many of each there are, or the refusal.
pub fn listing_of(
    version: u8,
    policy: u8,
    ways: u8,
    sets: u8,
    nodes: &[u16],
    edges: &[u16],
    loops: &[u32],
    heads: &[u16],
    rows: &[u16],
) -> Result<Trailer, Refusal>
    ensures { result ≡ listing_of (offered version policy ways sets nodes.now edges.now loops.now heads.now rows.now) }
{
    if paper::is_bad_version(version) {
        return Err(paper::refuse(2, 0));
    }
    if !paper::is_in_range(policy, ways, sets) {
        return Err(paper::refuse(3, 0));
    }
    if bad_lists(version, nodes, edges, loops, heads, rows) {
        return Err(paper::refuse(4, 0));
    }
    let per = per_loop(version);
    Ok(Trailer {
        nodes: nodes.len() as u16,
        edges: (edges.len() / 2) as u16,
        loops: (loops.len() / per) as u16,
        facts: (heads.len() / 4) as u16,
        policy: policy,
        ways: ways,
        sets: sets,
        version: version,
    })
}

// 6 and 7, then for each fact in turn 12, 13, 15 and 16. (The nodes are lent for the contract.)
pub fn rules_on(
    trailer: Trailer,
    nodes: &[u16],
    edges: &[u16],
    loops: &[u32],
    heads: &[u16],
    rows: &[u16],
) -> Result<(), Refusal>
    requires { Listed (content trailer nodes.now edges.now loops.now heads.now rows.now) trailer }
    ensures value { result ≡ Verdicts.shape_rules (case_in (content trailer nodes.now edges.now loops.now heads.now rows.now)) (written_facts (content trailer nodes.now edges.now loops.now heads.now rows.now) (Ok tt)) }
    ensures facts { result ≡ Ok tt → Facts trailer loops.now heads.now rows.now }
{
    graph::shape_rules_on(&ListShape {
        trailer,
        edges,
        loops,
    })?;
    let lists = FactLists {
        trailer,
        loops,
        heads,
        rows,
    };
    lists.fact_rules()
}
