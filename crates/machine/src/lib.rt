// The public single step, and the conversions of addresses, blocks and sets.
#![tactic(auto)]

ghost use Rattle.std.specs.Prelude.{◌≡◌, true, ◌≢◌};
ghost use Rattle.paper.specs.Machines as Machines;
ghost use Rattle.paper.specs.Operations as Operations;
ghost use Rattle.paper.specs.PolicyNumbers.{number_of};

mod legality;

use legality::is_legal;
use paper::{Address, Block, Outcome, Policy, Refusal, SetNumber, SetState, StepAnswer, Stepped};

// One step of the policy's machine.
fn take_step(policy: Policy, k: usize, state: SetState, block: Block) -> Stepped
    requires k_value { Machines.offered (number_of policy) k ≡ true }
    requires state_value { Machines.legal (number_of policy) k state ≡ true }
    requires block_nonzero { block.0 ≢ Machines.none }
    ensures { result ≡ Machines.step (number_of policy) k state block.0 }
{
    match policy {
        Policy::Lru => {
            let shift = state.shift(k, block, paper::shift_of(k));
            state.lru(k, block, shift)
        }
        Policy::Fifo => state.fifo(k, block, paper::kept_from(k)),
        Policy::Nmru => {
            let line = state.line(k, block);
            state.nmru(k, block, line, next::next_bits())
        }
        Policy::Tree => trees::step_alone(state, k, block),
    }
}

// "a refused step hands back the state it was given"
fn refused(state: SetState, number: u8) -> StepAnswer
    ensures { result ≡ Operations.refused_step state number }
{
    let why = paper::refuse(number, 0);
    StepAnswer {
        state: state,
        outcome: Err(why),
    }
}

// "hands the new state back with hit or miss"
fn took(t: Stepped) -> StepAnswer
    ensures { result ≡ Operations.took_step t }
{
    let state = t.state;
    if t.hit {
        return StepAnswer {
            state: state,
            outcome: Ok(Outcome::Hit),
        };
    }
    StepAnswer {
        state: state,
        outcome: Ok(Outcome::Miss),
    }
}

// "Step: 3, 22, 21."
pub fn step(policy: u8, ways: u8, state: SetState, block: Block) -> StepAnswer
    ensures { result ≡ Operations.step_answer policy ways state block }
{
    let b = block.0;
    let Some(machine) = Policy::with_ways(policy, ways) else {
        return refused(state, 3);
    };
    let k = ways as usize;
    if !is_legal(machine, k, state) {
        return refused(state, 22);
    }
    if b == 65535 {
        return refused(state, 21);
    }
    took(take_step(machine, k, state, block))
}

// "the line size is 8, 16, 32, 64 or 128"
fn is_line_size(n: u32) -> bool
    ensures { result ≡ Operations.line_size n }
{
    match n {
        8 | 16 | 32 | 64 | 128 => true,
        _ => false,
    }
}

// "Block = address / line size, rounded down". "Address: 23, 21."
pub fn block_of(address: Address, line_size: u32) -> Result<Block, Refusal>
    ensures { result ≡ Operations.block_answer address line_size }
{
    if !is_line_size(line_size) {
        return Err(paper::refuse(23, 0));
    }
    let q = address.0 / line_size;
    if q > 65534 {
        return Err(paper::refuse(21, 0));
    }
    Ok(Block(q as u16))
}

// "block b lives in set b mod S", for S from 1 to 64.
pub fn set_of(block: Block, sets: u8) -> Result<SetNumber, Refusal>
    ensures { result ≡ Operations.set_answer block sets }
{
    if !paper::is_set_count(sets) {
        return Err(paper::refuse(3, 0));
    }
    if block.0 == 65535 {
        return Err(paper::refuse(21, 0));
    }
    let q = paper::home(block.0, sets);
    Ok(SetNumber(q as u8))
}
