// The public face of Bolgverk: every public operation, each thin, with its whole promise. Each takes every input.
#![tactic(auto)]

ghost use Rattle.bolgverk.specs.Promises.{StepPromise, BlockPromise, SetPromise, TracePromise, CheckPromise, WritePromise, FindPromise, SalvagePromise, WaysPromise, TimePromise};

use paper::{
    Address, Block, LIST_LENGTH, MOST_NODES, Refusal, Salvage, SetNumber, SetState, StepAnswer,
};

// "A single step takes a policy, k, any set state and any block (no S; the block's set isn't looked at)"
pub fn step(policy: u8, ways: u8, state: SetState, block: Block) -> StepAnswer
    ensures { StepPromise policy ways state block result }
{
    machine::step(policy, ways, state, block)
}

// "Block = address / line size, rounded down"
pub fn block_of(address: Address, line_size: u32) -> Result<Block, Refusal>
    ensures { BlockPromise address line_size result }
{
    machine::block_of(address, line_size)
}

// "block b lives in set b mod S"
pub fn set_of(block: Block, sets: u8) -> Result<SetNumber, Refusal>
    ensures { SetPromise block sets result }
{
    machine::set_of(block, sets)
}

// "A trace run takes a policy, k, S, a lent list of 16-bit blocks and a byte list; all sets start empty with bits 0."
pub fn trace_run(
    policy: u8,
    ways: u8,
    sets: u8,
    blocks: &[u16],
    marks: &mut [u8],
) -> Result<usize, Refusal>
    ensures { TracePromise policy ways sets blocks.now marks.old result marks.new }
{
    trace::trace_run(policy, ways, sets, blocks, marks)
}

// "The check tests 20 first, then 1 to 10 in order, each over the whole file; then for each fact in turn 11 to 18; then 19." And 26 "after 9 and before 10".
// "The caller hands the greatest number p of such interruptions, 0 to 65,535."
pub fn check(file: &[u8], interruptions: u16, numbers: &mut [u64]) -> Result<(), Refusal>
    ensures { CheckPromise file.now interruptions numbers.old result numbers.new }
{
    if numbers.len() < LIST_LENGTH {
        return Err(paper::refuse(20, 0));
    }
    let trailer = layout::layout_of(file)?;
    ruling::rule_on(file, trailer, interruptions, numbers)
}

// "Nodes, edges, loops and facts in, case file out in a lent buffer": two numbers an edge, three a loop and in version 2 four, four a head (scope, block, l, how many rows), eight a row.
pub fn write(
    version: u8,
    policy: u8,
    ways: u8,
    sets: u8,
    nodes: &[u16],
    edges: &[u16],
    loops: &[u32],
    heads: &[u16],
    rows: &[u16],
    out: &mut [u8],
) -> Result<usize, Refusal>
    ensures { WritePromise version policy ways sets nodes.now edges.now loops.now heads.now rows.now out.old result out.new }
{
    writer::write(
        version, policy, ways, sets, nodes, edges, loops, heads, rows, out,
    )
}

// "the smallest age limit up to k for which evidence exists, with the rows"
pub fn find(file: &[u8], scope: u16, block: u16, rows: &mut [u16]) -> Result<Option<u16>, Refusal>
    ensures { FindPromise file.now scope block rows.old result rows.new }
{
    finder::find(file, scope, block, rows)
}

// "drops each fact that earns 12 to 14 or 16 to 18, 24 or 25, …, and writes the rest, with a list of dropped facts": three numbers a fact, its number of refusal, its place and the second place.
pub fn salvage(file: &[u8], out: &mut [u8], dropped: &mut [u64]) -> Result<Salvage, Refusal>
    ensures { SalvagePromise file.now out.old dropped.old result out.new dropped.new }
{
    salvager::salvage(file, out, dropped)
}

// "what LRU would miss with one way, two ways and so on up to eight": count w - 1 is that of w ways.
pub fn all_ways(sets: u8, blocks: &[u16]) -> Result<[u64; 8], Refusal>
    ensures { WaysPromise sets blocks.now result }
{
    onepass::all_ways(sets, blocks)
}

// "The check's own but its 20, then 20 for a cost list of the wrong length, then 27 if the time exceeds 9,223,372,036,854,775,807; both at place 0."
pub fn time(file: &[u8], costs: &[u32], penalty: u32, interruptions: u16) -> Result<u64, Refusal>
    ensures { TimePromise file.now costs.now penalty interruptions result }
{
    let trailer = layout::layout_of(file)?;
    let mut numbers: [u64; LIST_LENGTH] = [0; LIST_LENGTH];
    let mut table: [u32; MOST_NODES] = [0; MOST_NODES];
    clock::time_on(
        file,
        trailer,
        costs,
        penalty,
        interruptions,
        &mut numbers,
        &mut table,
    )
}
