// "Salvage a file with bad facts": each fact is judged once, then the rest is written, with a list of the facts that are dropped.
#![tactic(auto)]

ghost use Rattle.std.specs.Prelude.{◌≡◌, length};
ghost use Rattle.paper.specs.Files.{trailer_of, case_of};
ghost use Rattle.paper.specs.Known.{Laid, Shaped};
ghost use Rattle.paper.specs.Salvaging.{salvage_verdict};
ghost use Rattle.paper.specs.Verdicts.{graph_rules};
ghost use Rattle.salvager.specs.Sieve.{Sieved};
ghost use Rattle.salvager.specs.Done.{room_rule, Done};

mod filling;
mod sifting;

use filling::{copy_numbers, put_file};
use layout::places::TRAILER_SIZE;
use paper::{MOST_FACTS, MOST_NODES, Refusal, Salvage, Trailer};
use sifting::sift;

// The table's two lists: two places a fact that is kept, three numbers a fact that is dropped.
const SPANS: usize = 2 * MOST_FACTS;

const WHYS: usize = 3 * MOST_FACTS;

// How many facts are kept, how many are dropped, and how many bytes those have that are kept.
#[derive(Clone, Copy)]
pub struct Sifted {
    pub kept: u16,
    pub dropped: u16,
    pub size: usize,
}

// "then 20 if file or list does not fit", before anything is written; then both.
fn fill(
    file: &[u8],
    trailer: Trailer,
    s: Sifted,
    spans: &[usize],
    whys: &[u64],
    out: &mut [u8],
    dropped: &mut [u64],
) -> Result<Salvage, Refusal>
    requires laid { Laid file.now trailer }
    requires trailer_value { trailer ≡ trailer_of file.now }
    requires sieved { Sieved file.now (trailer_of file.now) s spans.now whys.now }
    ensures { Done file.now out.old dropped.old (room_rule file.now (length out.old) (length dropped.old)) result out.new dropped.new }
{
    let size = layout::facts_at(trailer) + s.size + TRAILER_SIZE;
    let numbers = 3 * (s.dropped as usize);
    if (out.len() < size) | (dropped.len() < numbers) {
        return Err(paper::refuse(20, 0));
    }
    put_file(out, file, trailer, s, spans, whys);
    copy_numbers(dropped, whys, numbers);
    Ok(Salvage {
        length: size,
        dropped: s.dropped as usize,
    })
}

// The facts are judged into the table, and the rest is written by it.
fn sift_and_fill(
    file: &[u8],
    trailer: Trailer,
    spans: &mut [usize; SPANS],
    whys: &mut [u64; WHYS],
    out: &mut [u8],
    dropped: &mut [u64],
) -> Result<Salvage, Refusal>
    requires laid { Laid file.now trailer }
    requires shaped { Shaped (case_of file.now trailer) }
    requires trailer_value { trailer ≡ trailer_of file.now }
    ensures { Done file.now out.old dropped.old (room_rule file.now (length out.old) (length dropped.old)) result out.new dropped.new }
{
    let s = sift(file, trailer, spans, whys);
    fill(file, trailer, s, spans, whys, out, dropped)
}

// 6 to 10 and 26, for a file that passes rules 1 to 5.
fn salvage_in(
    file: &[u8],
    trailer: Trailer,
    out: &mut [u8],
    dropped: &mut [u64],
) -> Result<Salvage, Refusal>
    requires laid { Laid file.now trailer }
    requires trailer_value { trailer ≡ trailer_of file.now }
    ensures { Done file.now out.old dropped.old (graph_rules (case_of file.now trailer) (room_rule file.now (length out.old) (length dropped.old))) result out.new dropped.new }
{
    let mut counts: [u32; MOST_NODES] = [0; MOST_NODES];
    graph::graph_rules(file, trailer, &mut counts)?;
    let mut spans: [usize; SPANS] = [0; SPANS];
    let mut whys: [u64; WHYS] = [0; WHYS];
    sift_and_fill(file, trailer, &mut spans, &mut whys, out, dropped)
}

// "Refusals: 1 to 10 and 26 as in the check, then 20 if file or list does not fit."
pub fn salvage(file: &[u8], out: &mut [u8], dropped: &mut [u64]) -> Result<Salvage, Refusal>
    ensures { Done file.now out.old dropped.old (salvage_verdict file.now (length out.old) (length dropped.old)) result out.new dropped.new }
{
    let trailer = layout::layout_of(file)?;
    salvage_in(file, trailer, out, dropped)
}
