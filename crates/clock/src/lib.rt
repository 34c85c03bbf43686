// The time of a file that is laid out: the check's refusals first, then what the costs come to for the total of its numbers.
#![tactic(auto)]

ghost use Rattle.std.specs.Prelude.{◌≡◌};
ghost use Rattle.paper.specs.Known.{Laid};
ghost use Rattle.clock.specs.Timed.{time_for};

use paper::{LIST_LENGTH, MOST_NODES, Refusal, Trailer};

// For a file that passes rules 1 to 5; the tables are overwritten. The total is the first of the check's numbers.
pub fn time_on(
    file: &[u8],
    trailer: Trailer,
    costs: &[u32],
    penalty: u32,
    interruptions: u16,
    numbers: &mut [u64; LIST_LENGTH],
    table: &mut [u32; MOST_NODES],
) -> Result<u64, Refusal>
    requires { Laid file.now trailer }
    ensures { result ≡ time_for file.now trailer costs.now penalty interruptions }
{
    ruling::rule_on(file, trailer, interruptions, numbers)?;
    timing::timed(file, trailer, costs, penalty, numbers[0], table)
}
