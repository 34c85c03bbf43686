// A table over the nodes that loops or edges mark in turn, for rules 8 to 10 and 26.
ghost use Rattle.std.specs.Prelude.{◌≡◌, suc, ◌<◌, ◌≤◌, eqb, length, get_or};
ghost use Rattle.layout.specs.Firsts.{first};
ghost use Rattle.paper.specs.Ceilings.{most_nodes};
ghost use Rattle.paper.specs.Files.{case_of};
ghost use Rattle.paper.specs.Known.{Laid, Shaped};
ghost use Rattle.graph.specs.Filled.{Filled, Holds};
ghost use Rattle.graph.specs.Marks as Marks;
ghost use Rattle.loops.specs.Counts.{no_loop, count_in};

use paper::{Loop, Trailer};

// The rules that the loops' marks decide: 8, of edges into a loop; 9, of edges back; 10, of counts.
#[derive(Clone, Copy)]
pub enum Rule {
    Entry,
    Return,
    Count,
}

// What a loop writes into a table over the nodes: `value`, at the places from `from` to before `to`.
#[derive(Clone, Copy)]
struct Mark {
    from: usize,
    to: usize,
    value: u32,
}

// The places from `from` to before `to` become x.
pub fn fill(table: &mut [u32], from: usize, to: usize, x: u32)
    requires from_le_to { from ≤ to }
    requires to_in_bounds { to ≤ length table.old }
    ensures { Filled table.old table.new from to x }
{
    table[from..to].fill(x);
}

// The least node whose place in the table holds 0.
pub fn first_zero(trailer: Trailer, table: &[u32]) -> Option<u16>
    requires { trailer.nodes ≤ length table.now }
    ensures { result ≡ first (λ v. eqb (get_or table.now v 0) 0) trailer.nodes }
{
    let n = trailer.nodes;
    for v in 0..n {
        if table[v as usize] == 0 {
            return Some(v);
        }
    }
    None
}

// What loop j marks, by the rule. 8: at its other nodes its header; 9: at its header the node after its last; 10: at all its nodes its header's count over the loops up to it.
#[tactic(auto, unfolding(crate::specs::Marks::loop_mark))]
fn loop_mark(rule: Rule, loops: &[Loop], j: u16) -> Mark
    requires { j < length loops.now }
    ensures { result ≡ Marks.loop_mark rule (get_or loops.now j no_loop) (count_in loops.now (suc j) (get_or loops.now j no_loop).first) }
{
    let l = loops[j as usize];
    let first = l.first as usize;
    let after = l.last as usize + 1;
    match rule {
        Rule::Entry => Mark {
            from: first + 1,
            to: after,
            value: l.first as u32,
        },
        Rule::Return => Mark {
            from: first,
            to: first + 1,
            value: l.last as u32 + 1,
        },
        Rule::Count => Mark {
            from: first,
            to: after,
            value: loops::header_count(loops, j),
        },
    }
}

// All nodes begin with `start`, and the loops mark theirs in turn: loops come by rising headers, so an inner loop marks over those around it.
pub fn mark_nodes(file: &[u8], trailer: Trailer, table: &mut [u32], rule: Rule, start: u32)
    requires laid { Laid file.now trailer }
    requires shaped { Shaped (case_of file.now trailer) }
    requires most_nodes_in_bounds { most_nodes ≤ length table.old }
    ensures { Holds (λ v. Marks.marked_to (Marks.marks (case_of file.now trailer) rule) start v trailer.loops) trailer.nodes table.new }
{
    fill(table, 0, trailer.nodes as usize, start);
    let loops = loops::loops_of(file, trailer);
    for j in 0..trailer.loops {
        let m = loop_mark(rule, &loops, j);
        fill(table, m.from, m.to, m.value);
    }
}
