// The bounds of facts, of sets and in all, by the paper's formulas: one pass over the facts, one over the nodes, one over the sets.
#![tactic(auto)]

ghost use Rattle.std.specs.Prelude.{◌≡◌, ◌++◌, ◌≤◌, length, drop};
ghost use Rattle.paper.specs.Bounds as Bounds;
ghost use Rattle.paper.specs.Files as Files;
ghost use Rattle.paper.proofs.Meaning.{Sound};
ghost use Rattle.paper.specs.Known.{Laid};
ghost use Rattle.layout.specs.Counted.{Counted};
ghost use Rattle.charge.specs.Placed.{Placed};
ghost use Rattle.charge.specs.Tables as Tables;

use asked::Asked;
use paper::{LIST_LENGTH, Trailer};
use sizes::{NODES, SETS, SETS_BY_LIMITS, UNCOVERED};
use sums::Sums;

mod asked;
mod both;
mod chains;
mod facts;
mod heads;
mod nodes;
mod outers;
mod pass;
mod rest;
mod sets;
mod sizes;
mod sums;

// All numbers 0.
fn clear(numbers: &mut [u64])
    requires { Bounds.list_length ≤ length numbers.old }
    ensures { numbers.new ≡ Tables.zeros ++ drop Bounds.list_length numbers.old }
{
    numbers[..LIST_LENGTH].fill(0);
}

// All numbers: "the total, 64 set bounds, 256 fact bounds, unused ones 0, later ones untouched".
pub fn charge(
    file: &[u8],
    trailer: Trailer,
    counts: &[u32],
    interruptions: u16,
    numbers: &mut [u64],
)
    requires laid { Laid file.now trailer }
    requires sound { Sound (Files.case_of file.now trailer) }
    requires placed { Placed file.now trailer }
    requires counted { Counted file.now trailer counts.now }
    requires in_bounds { Bounds.list_length ≤ length numbers.old }
    ensures { numbers.new ≡ Bounds.numbers (Files.case_of file.now trailer) interruptions ++ drop Bounds.list_length numbers.old }
{
    let asked = Asked {
        file,
        trailer,
        counts,
        interruptions,
    };
    let mut cover: [u8; NODES] = [UNCOVERED; NODES];
    let mut sums = Sums {
        whole: [0; SETS],
        parts: [0; SETS_BY_LIMITS],
    };
    clear(numbers);
    asked.charge_facts(&mut cover, &mut sums, numbers);
    asked.charge_rest(&cover, &sums, numbers);
}
