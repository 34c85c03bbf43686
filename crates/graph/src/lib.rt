// Edges, loops, paths and counts: rules 6 to 10 and 26.
#![tactic(auto)]

ghost use Rattle.std.specs.Prelude.{◌≡◌, ◌≤◌, length, Ok};
ghost use Rattle.paper.specs.Ceilings.{most_nodes};
ghost use Rattle.paper.specs.Files.{case_of};
ghost use Rattle.paper.specs.Verdicts as Verdicts;
ghost use Rattle.paper.specs.Known.{Laid, Shaped};
ghost use Rattle.layout.specs.Counted.{Counted};

mod counts;
mod dead;
mod edges;
mod marks;
mod nesting;
mod shape;

use counts::first_bad_count;
use dead::first_dead;
pub use edges::wrong_edge;
use edges::{edge_rule, first_bad_edge};
use marks::Rule;
pub use marks::fill;
use nesting::first_bad_loop;
use paper::{Refusal, Trailer};
use shape::FileShape;
pub use shape::{Shape, WideLoop};

// 6 and 7: edges and loops by themselves.
pub fn shape_rules_on<S: Shape>(shape: &S) -> Result<(), Refusal>
    ensures { result ≡ Verdicts.shape_rules (S.told shape.now) (Ok tt) }
{
    if let Some(edge) = first_bad_edge(shape) {
        return Err(paper::refuse(6, edge as usize));
    }
    if let Some(looped) = first_bad_loop(shape) {
        return Err(paper::refuse(7, looped as usize));
    }
    Ok(())
}

// Those of a file.
pub fn shape_rules(file: &[u8], trailer: Trailer) -> Result<(), Refusal>
    requires { Laid file.now trailer }
    ensures { result ≡ Verdicts.shape_rules (case_of file.now trailer) (Ok tt) }
{
    shape_rules_on(&FileShape { file, trailer })
}

// 8, 9 and 26: the ways into loops, back, and to each node. The table is overwritten.
pub fn path_rules(file: &[u8], trailer: Trailer, table: &mut [u32]) -> Result<(), Refusal>
    requires laid { Laid file.now trailer }
    requires shaped { Shaped (case_of file.now trailer) }
    requires most_nodes_in_bounds { most_nodes ≤ length table.old }
    ensures { result ≡ Verdicts.path_rules (case_of file.now trailer) (Ok tt) }
{
    if let Some(forward) = edge_rule(file, trailer, table, Rule::Entry) {
        return Err(paper::refuse(8, forward as usize));
    }
    if let Some(back) = edge_rule(file, trailer, table, Rule::Return) {
        return Err(paper::refuse(9, back as usize));
    }
    if let Some(node) = first_dead(file, trailer, table) {
        return Err(paper::refuse(26, node as usize));
    }
    Ok(())
}

// 10: the counts, which the table holds afterwards.
pub fn count_rules(file: &[u8], trailer: Trailer, counts: &mut [u32]) -> Result<(), Refusal>
    requires laid { Laid file.now trailer }
    requires shaped { Shaped (case_of file.now trailer) }
    requires most_nodes_in_bounds { most_nodes ≤ length counts.old }
    ensures value { result ≡ Verdicts.count_rules (case_of file.now trailer) (Ok tt) }
    ensures counted { result ≡ Ok tt → Counted file.now trailer counts.new }
{
    if let Some(node) = first_bad_count(file, trailer, counts) {
        return Err(paper::refuse(10, node as usize));
    }
    Ok(())
}

pub fn graph_rules(file: &[u8], trailer: Trailer, counts: &mut [u32]) -> Result<(), Refusal>
    requires laid { Laid file.now trailer }
    requires most_nodes_in_bounds { most_nodes ≤ length counts.old }
    ensures value { result ≡ Verdicts.graph_rules (case_of file.now trailer) (Ok tt) }
    ensures counts_len_unchanged { length counts.new ≡ length counts.old }
    ensures counted { result ≡ Ok tt → Counted file.now trailer counts.new }
{
    shape_rules(file, trailer)?;
    path_rules(file, trailer, counts)?;
    count_rules(file, trailer, counts)
}
