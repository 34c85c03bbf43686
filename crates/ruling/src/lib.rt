// The rules of a file that is laid out, put together: the graph's, then the facts', then the bounds.
#![tactic(auto)]

ghost use Rattle.std.specs.Prelude.{◌≤◌, length};
ghost use Rattle.paper.specs.Bounds.{list_length};
ghost use Rattle.paper.specs.Known.{Laid};
ghost use Rattle.ruling.specs.Ruled.{Ruled};

use paper::{MOST_NODES, Refusal, Trailer};

// Rules 6 to 19 and the 321 numbers, for a file that passes rules 1 to 5 and a walk that is interrupted so often at most.
pub fn rule_on(
    file: &[u8],
    trailer: Trailer,
    interruptions: u16,
    numbers: &mut [u64],
) -> Result<(), Refusal>
    requires laid { Laid file.now trailer }
    requires list_length_in_bounds { list_length ≤ length numbers.old }
    ensures { Ruled file.now trailer interruptions numbers.old result numbers.new }
{
    let mut counts: [u32; MOST_NODES] = [0; MOST_NODES];
    graph::graph_rules(file, trailer, &mut counts)?;
    facts::fact_rules(file, trailer)?;
    charge::charge(file, trailer, &counts, interruptions, numbers);
    Ok(())
}
