// The trace run: what is refused, and the run of the policy.
#![tactic(auto)]

ghost use Rattle.std.specs.Prelude.{◌≡◌, ◌+◌, ◌≤◌, length};
ghost use Rattle.paper.specs.Lists as Lists;
ghost use Rattle.paper.specs.Traces as Traces;
ghost use Rattle.trace.specs.Eights.{some_of, Clear};

use paper::{Policy, Refusal};

// Whether one of eight accesses from i on has no block: all eight are compared at once.
fn has_none(blocks: &[u16], i: usize) -> bool
    requires { i + 8 ≤ length blocks.now }
    ensures { result ≡ some_of (Lists.table (λ d. Traces.bad_access blocks.now (i + d)) 8) }
{
    (blocks[i] == 65535)
        | ((blocks[i + 1] == 65535)
            | ((blocks[i + 2] == 65535)
                | ((blocks[i + 3] == 65535)
                    | ((blocks[i + 4] == 65535)
                        | ((blocks[i + 5] == 65535)
                            | ((blocks[i + 6] == 65535) | (blocks[i + 7] == 65535)))))))
}

// How far the trace is without block none, eight accesses by eight.
fn passed_eights(blocks: &[u16]) -> usize
    ensures { Clear blocks.now result }
{
    let mut i: usize = 0;
    // `while`: i goes from eight accesses to the next eight.
    while 8 <= blocks.len() - i {
        if has_none(blocks, i) {
            return i;
        }
        i += 8;
    }
    i
}

// The least access whose block is none; the number of accesses where there is none such.
pub fn bad_access(blocks: &[u16]) -> usize
    ensures { result ≡ Lists.least (Traces.bad_access blocks.now) (length blocks.now) }
{
    for i in passed_eights(blocks)..blocks.len() {
        if blocks[i] == 65535 {
            return i;
        }
    }
    blocks.len()
}

// "Trace run: 3, 20, 21."
pub fn trace_run(
    policy: u8,
    ways: u8,
    sets: u8,
    blocks: &[u16],
    marks: &mut [u8],
) -> Result<usize, Refusal>
    ensures value { result ≡ (Traces.trace_run policy ways sets blocks.now marks.old).answer }
    ensures marks_after { marks.new ≡ (Traces.trace_run policy ways sets blocks.now marks.old).marks }
{
    let Some(machine) = Policy::with_ways(policy, ways) else {
        return Err(paper::refuse(3, 0));
    };
    if !paper::is_set_count(sets) {
        return Err(paper::refuse(3, 0));
    }
    if marks.len() < blocks.len() {
        return Err(paper::refuse(20, 0));
    }
    let at = bad_access(blocks);
    if at < blocks.len() {
        return Err(paper::refuse(21, at));
    }
    let misses = runs::run(machine, ways as usize, sets, blocks, marks);
    Ok(misses)
}
