// "All ways in one pass": what LRU misses with one way, two ways and so on up to eight.
#![tactic(auto)]

ghost use Rattle.std.specs.Prelude.{◌≡◌, ◌<◌};
ghost use Rattle.lines.specs.Lines.{weight_of};
ghost use Rattle.paper.specs.AllWays.{all_ways};
ghost use Rattle.paper.specs.Policies.{lru_policy};
ghost use Rattle.runs.specs.TraceRuns.{Runs};
ghost use Rattle.onepass.specs.Passes.{Found, eight_counts};

use paper::{Block, Refusal, SetState, Sets};

// A run of LRU with eight ways. "count each access by how many other blocks of its set came since its last one": by the weight of its line, which the step has at hand; 0 stands for a miss.
// It asks for what a trace run asks for; it writes no marks, and the blocks stand for the list that would be lent.
// A loop beside that of `runs`, which writes marks: it counts the weight that was looked for, which a step does not tell.
fn found_by_weight(sets: u8, blocks: &[u16]) -> [u64; 256]
    requires { Runs lru_policy 8 sets blocks.now blocks.now }
    ensures { Found sets blocks.now result }
{
    let all = Sets::of(sets);
    let mut shift = paper::shift_of(8);
    let mut found = [0u64; 256];
    let mut states = [SetState {
        lines: [65535u16; 8],
        bits: 0,
    }; 64];
    let mut state = states[0];
    let mut last: usize = 0;
    for b in blocks {
        let at = all.home(*b);
        if at != last {
            states[last] = state;
            state = states[at];
            last = at;
        }
        let n = state.shift(8, Block(*b), shift);
        let t = state.lru(8, Block(*b), n);
        let w = n.weight as usize;
        shift = n;
        state = t.state;
        found[w] += 1;
    }
    found
}

// The weight of line j.
fn weight_of(j: usize) -> usize
    requires { j < 8 }
    ensures value { result ≡ weight_of j }
    ensures upper_bound { result < 256 }
{
    255 - (1 << j)
}

// With w ways all accesses miss but those found in one of the first w lines.
fn counts(sets: u8, blocks: &[u16]) -> [u64; 8]
    requires { Runs lru_policy 8 sets blocks.now blocks.now }
    ensures { result ≡ eight_counts sets blocks.now }
{
    let found = found_by_weight(sets, blocks);
    let mut counts = [0u64; 8];
    let mut left = blocks.len() as u64;
    for j in 0..8 {
        left -= found[weight_of(j)];
        counts[j] = left;
    }
    counts
}

// "Refusals: 3 for sets, 21 for blocks, in that order, no count returned."
pub fn all_ways(sets: u8, blocks: &[u16]) -> Result<[u64; 8], Refusal>
    ensures { result ≡ all_ways sets blocks.now }
{
    if !paper::is_set_count(sets) {
        return Err(paper::refuse(3, 0));
    }
    let at = trace::bad_access(blocks);
    if at < blocks.len() {
        return Err(paper::refuse(21, at));
    }
    Ok(counts(sets, blocks))
}
