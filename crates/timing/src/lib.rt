// Cycles: the longest way through each loop, inner loops first, and through the graph; and the penalties of its misses.
#![tactic(auto)]

ghost use Rattle.std.specs.Prelude.{◌≡◌, ◌≤◌, length};
ghost use Rattle.paper.specs.Ceilings.{most_nodes};
ghost use Rattle.paper.specs.Files.{case_of};
ghost use Rattle.paper.specs.Known.{Laid, Shaped};
ghost use Rattle.timing.specs.Answering.{answer_for};

mod amounts;
mod levels;
mod stepping;
mod steps;
mod ways;

use amounts::TOO_LARGE;
use levels::Costed;
use paper::{Refusal, Trailer};

// "then 20 for a cost list of the wrong length, then 27 if the time exceeds 9,223,372,036,854,775,807; both at place 0", for a file that passes the check's own rules. The table is overwritten.
pub fn timed(
    file: &[u8],
    trailer: Trailer,
    costs: &[u32],
    penalty: u32,
    total: u64,
    table: &mut [u32],
) -> Result<u64, Refusal>
    requires laid { Laid file.now trailer }
    requires shaped { Shaped (case_of file.now trailer) }
    requires most_nodes_in_bounds { most_nodes ≤ length table.old }
    ensures { result ≡ answer_for (case_of file.now trailer) costs.now penalty total }
{
    if costs.len() != trailer.nodes as usize {
        return Err(paper::refuse(20, 0));
    }
    let costed = Costed {
        file,
        trailer,
        costs,
    };
    let time = costed.time_of(penalty, total, table);
    if TOO_LARGE <= time {
        return Err(paper::refuse(27, 0));
    }
    Ok(time)
}
