// The run over a trace that is not refused: every access steps the machine of its set.
#![tactic(auto)]

ghost use Rattle.std.specs.Prelude.{◌≡◌, not, ◌≤◌};
ghost use Rattle.paper.specs.Lists as Lists;
ghost use Rattle.paper.specs.Policies.{fifo_policy, nmru_policy, tree_policy};
ghost use Rattle.paper.specs.PolicyNumbers.{number_of};
ghost use Rattle.runs.specs.TraceRuns.{Runs, Ran};

mod machines;

use machines::{Guesses, Lru, Machine, Nmru, Tree};
use paper::{Block, Policy, SetState, Sets};
use trees::TreeTables;

// "1 for a miss and 0 for a hit"
fn mark_of(hit: bool) -> u8
    ensures value { result ≡ Lists.bit (not hit) }
    ensures upper_bound { result ≤ 1 }
{
    if hit { 0 } else { 1 }
}

// The state of the last access's set is held apart: while accesses go to one set, its lines stay where they are.
fn run_on<M: Machine>(machine: &mut M, sets: u8, blocks: &[u16], marks: &mut [u8]) -> usize
    requires { Runs M.policy (M.ways machine.old) sets blocks.now marks.old }
    ensures { Ran M.policy (M.ways machine.old) sets blocks.now marks.old result marks.new }
{
    let all = Sets::of(sets);
    let mut states = [SetState {
        lines: [65535u16; 8],
        bits: 0,
    }; 64];
    let mut state = states[0];
    let mut last: usize = 0;
    let mut misses: usize = 0;
    for (i, b) in blocks.iter().enumerate() {
        let at = all.home(*b);
        if at != last {
            states[last] = state;
            state = states[at];
            last = at;
        }
        let t = machine.step(state, Block(*b));
        let m = mark_of(t.hit);
        state = t.state;
        marks[i] = m;
        misses += m as usize;
    }
    misses
}

// FIFO's hits change nothing, so only a miss is stored. Its own loop: in `run_on` it takes three instructions an access more with one set, and eleven with 64.
fn fifo_run(k: usize, sets: u8, blocks: &[u16], marks: &mut [u8]) -> usize
    requires { Runs fifo_policy k sets blocks.now marks.old }
    ensures { Ran fifo_policy k sets blocks.now marks.old result marks.new }
{
    let all = Sets::of(sets);
    let beyond = paper::kept_from(k);
    let mut states = [SetState {
        lines: [65535u16; 8],
        bits: 0,
    }; 64];
    let mut misses: usize = 0;
    for (i, b) in blocks.iter().enumerate() {
        let at = all.home(*b);
        let s = states[at];
        let t = s.fifo(k, Block(*b), beyond);
        if !t.hit {
            let new = t.state;
            states[at] = new;
        }
        let m = mark_of(t.hit);
        marks[i] = m;
        misses += m as usize;
    }
    misses
}

fn nmru_run(k: usize, sets: u8, blocks: &[u16], marks: &mut [u8]) -> usize
    requires { Runs nmru_policy k sets blocks.now marks.old }
    ensures { Ran nmru_policy k sets blocks.now marks.old result marks.new }
{
    let next = next::next_bits();
    let mut guesses = Guesses::new();
    let mut machine = Nmru {
        k,
        next,
        guesses: &mut guesses,
    };
    run_on(&mut machine, sets, blocks, marks)
}

// The tree's tables lie beside the states of the run: reached where the program lies, they take an instruction or two an access more.
fn tree_run(k: usize, sets: u8, blocks: &[u16], marks: &mut [u8]) -> usize
    requires { Runs tree_policy k sets blocks.now marks.old }
    ensures { Ran tree_policy k sets blocks.now marks.old result marks.new }
{
    let misses = trees::misses();
    let ones = trees::ones();
    let zeros = trees::zeros();
    let tables = TreeTables {
        misses: &misses,
        ones: &ones,
        zeros: &zeros,
    };
    let mut guesses = Guesses::new();
    let mut machine = Tree {
        k,
        tables,
        guesses: &mut guesses,
    };
    run_on(&mut machine, sets, blocks, marks)
}

// The policy is chosen once, before the first access.
pub fn run(policy: Policy, k: usize, sets: u8, blocks: &[u16], marks: &mut [u8]) -> usize
    requires { Runs (number_of policy) k sets blocks.now marks.old }
    ensures { Ran (number_of policy) k sets blocks.now marks.old result marks.new }
{
    match policy {
        Policy::Lru => run_on(&mut Lru::new(k), sets, blocks, marks),
        Policy::Fifo => fifo_run(k, sets, blocks, marks),
        Policy::Nmru => nmru_run(k, sets, blocks, marks),
        Policy::Tree => tree_run(k, sets, blocks, marks),
    }
}
