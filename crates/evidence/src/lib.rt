// One fact and its evidence: rules 14, 16 to 18, 24 and 25. Nodes, edges and rows are read straight from the file.
#![tactic(auto)]

ghost use Rattle.std.specs.Prelude.{◌≡◌, ◌+◌, ◌<◌, ◌≤◌, eqb, Ok, Err};
ghost use Rattle.paper.specs.Lists.{some};
ghost use Rattle.paper.specs.Answers.{refuse_at};
ghost use Rattle.paper.specs.Ceilings.{most_nodes};
ghost use Rattle.paper.specs.Files as Files;
ghost use Rattle.paper.specs.Facts as Facts;
ghost use Rattle.paper.specs.Cases as Cases;
ghost use Rattle.paper.specs.Verdicts as Verdicts;
ghost use Rattle.paper.specs.Known.{Laid, Shaped};
ghost use Rattle.layout.specs.Firsts.{first};
ghost use Rattle.evidence.specs.Stands.{fact_of, nodes_of, Stands, Whole};

mod rows;
mod steps;

use paper::{MANY, Refusal, Trailer};
pub use rows::bad_rows;
use rows::row_at;
pub use steps::bad_steps;
use steps::step_number;

// The fact at hand: where it stands, its scope's first and last node, its block b, its limit, and b's set.
#[derive(Clone, Copy)]
pub struct Head {
    pub place: usize,
    pub first: u16,
    pub last: u16,
    pub block: u16,
    pub limit: u16,
    pub home: u16,
}

impl Head {
    // How many nodes the scope has.
    pub fn nodes(self) -> u16
        requires first_le_last { self.first ≤ self.last }
        requires last_lt_most_nodes { self.last < most_nodes }
        ensures value { result ≡ nodes_of self }
        ensures upper_bound { result ≤ most_nodes }
    {
        self.last + 1 - self.first
    }
}

fn fetches(file: &[u8], trailer: Trailer, h: Head, j: u16) -> bool
    requires laid { Laid file.now trailer }
    requires stands { Stands file.now trailer h }
    requires j_bound { j < nodes_of h }
    ensures { result ≡ Cases.fetches (Files.case_of file.now trailer) (fact_of file.now h) j }
{
    layout::node_at(file, trailer, h.first + j) == h.block
}

// One of the n nodes from `first` on fetches x.
pub fn fetched(file: &[u8], trailer: Trailer, first: u16, n: u16, x: u16) -> bool
    requires laid { Laid file.now trailer }
    requires n_bound { first + n ≤ trailer.nodes }
    ensures { result ≡ some (λ j. eqb (Files.node_at file.now (first + j)) x) n }
{
    (0..n).any(|j| layout::node_at(file, trailer, first + j) == x)
}

// 14: "no node of the scope fetches b"
pub fn unfetched(file: &[u8], trailer: Trailer, h: Head) -> bool
    requires laid { Laid file.now trailer }
    requires stands { Stands file.now trailer h }
    ensures { result ≡ Facts.unfetched (Files.case_of file.now trailer) (fact_of file.now h) }
{
    !fetched(file, trailer, h.first, h.nodes(), h.block)
}

fn bad_many(file: &[u8], trailer: Trailer, h: Head, j: u16) -> bool
    requires laid { Laid file.now trailer }
    requires stands { Stands file.now trailer h }
    requires whole { Whole file.now h }
    requires j_bound { j < nodes_of h }
    ensures { result ≡ Facts.bad_many_at (Files.case_of file.now trailer) (fact_of file.now h) j }
{
    fetches(file, trailer, h, j) && layout::number_at(file, row_at(file, h, j)) == MANY
}

// 18: "a node that fetches b has row 8": the least such node of the scope.
pub fn bad_manys(file: &[u8], trailer: Trailer, h: Head) -> Option<u16>
    requires laid { Laid file.now trailer }
    requires stands { Stands file.now trailer h }
    requires whole { Whole file.now h }
    ensures { result ≡ first (Facts.bad_many_at (Files.case_of file.now trailer) (fact_of file.now h)) (nodes_of h) }
{
    (0..h.nodes()).find(|j| bad_many(file, trailer, h, *j))
}

// Fact i is refused at the scope's node j, by its number in the graph.
fn at_node(number: u8, i: u16, h: Head, j: u16) -> Result<(), Refusal>
    requires last_lt_most_nodes { h.last < most_nodes }
    requires j_bound { j < nodes_of h }
    ensures { result ≡ Err (refuse_at number i (h.first + j)) }
{
    Err(paper::refuse_at(number, i as usize, (h.first + j) as usize))
}

// 16, then 17, 24 and 25 together, then 18: the evidence of fact i.
pub fn evidence_rules(file: &[u8], trailer: Trailer, i: u16, h: Head) -> Result<(), Refusal>
    requires laid { Laid file.now trailer }
    requires shaped { Shaped (Files.case_of file.now trailer) }
    requires stands { Stands file.now trailer h }
    requires whole { Whole file.now h }
    ensures { result ≡ Verdicts.evidence_rules (Files.case_of file.now trailer) i (fact_of file.now h) (Ok tt) }
{
    if let Some(row) = bad_rows(file, trailer, h) {
        return at_node(16, i, h, row);
    }
    if let Some(edge) = bad_steps(file, trailer, h) {
        let number = step_number(file, trailer, h, edge);
        return Err(paper::refuse_at(number, i as usize, edge as usize));
    }
    if let Some(many) = bad_manys(file, trailer, h) {
        return at_node(18, i, h, many);
    }
    Ok(())
}
