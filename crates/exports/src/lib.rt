// The public operations under C names. include/bolgverk.h says the same to a C compiler.
// A slice passes as a pointer and a length, a number to be written as a pointer. No function has a `requires`.
#![tactic(auto)]

ghost use Rattle.exports.specs.Calls.{CheckCall, WriteCall, FindCall, SalvageCall, TraceCall, StepCall, BlockCall, SetCall, WaysCall, TimeCall};

use paper::{Address, Block, SetState};

// The refusal's number, 0 where the file is accepted; `place` and `second` get the refusal's places, or 0. "The caller hands the greatest number p of such interruptions, 0 to 65,535."
#[unsafe(no_mangle)]
pub extern "C" fn bolgverk_check(
    file: &[u8],
    interruptions: u16,
    numbers: &mut [u64],
    place: &mut u64,
    second: &mut u64,
) -> u8
    ensures { CheckCall file.now interruptions numbers.old result place.new second.new numbers.new }
{
    telling::check(bolgverk::check(file, interruptions, numbers), place, second)
}

// The refusal's number, or 0; `place` and `second` get the refusal's places, or 0; `length` gets the file's, where nothing is refused.
#[unsafe(no_mangle)]
pub extern "C" fn bolgverk_write(
    version: u8,
    policy: u8,
    ways: u8,
    sets: u8,
    nodes: &[u16],
    edges: &[u16],
    loops: &[u32],
    heads: &[u16],
    rows: &[u16],
    out: &mut [u8],
    length: &mut u64,
    place: &mut u64,
    second: &mut u64,
) -> u8
    ensures { WriteCall version policy ways sets nodes.now edges.now loops.now heads.now rows.now out.old length.old result length.new place.new second.new out.new }
{
    let answer = bolgverk::write(
        version, policy, ways, sets, nodes, edges, loops, heads, rows, out,
    );
    telling::write(answer, length, place, second)
}

// The refusal's number, or 0; `place` gets the refusal's place, or 0; `limit` gets the limit found, or 0, where nothing is refused.
#[unsafe(no_mangle)]
pub extern "C" fn bolgverk_find(
    file: &[u8],
    scope: u16,
    block: u16,
    rows: &mut [u16],
    limit: &mut u16,
    place: &mut u64,
) -> u8
    ensures { FindCall file.now scope block rows.old limit.old result limit.new place.new rows.new }
{
    telling::find(bolgverk::find(file, scope, block, rows), limit, place)
}

// The refusal's number, or 0; `place` gets the refusal's place, or 0; `length` and `count` get how long the rest is and how many facts were dropped, where nothing is refused.
#[unsafe(no_mangle)]
pub extern "C" fn bolgverk_salvage(
    file: &[u8],
    out: &mut [u8],
    dropped: &mut [u64],
    length: &mut u64,
    count: &mut u64,
    place: &mut u64,
) -> u8
    ensures { SalvageCall file.now out.old dropped.old length.old count.old result length.new count.new place.new out.new dropped.new }
{
    telling::salvage(bolgverk::salvage(file, out, dropped), length, count, place)
}

// The refusal's number, or 0; `place` gets the refusal's place, or 0; `misses` is written where nothing is refused.
#[unsafe(no_mangle)]
pub extern "C" fn bolgverk_trace_run(
    policy: u8,
    ways: u8,
    sets: u8,
    blocks: &[u16],
    marks: &mut [u8],
    misses: &mut u64,
    place: &mut u64,
) -> u8
    ensures { TraceCall policy ways sets blocks.now marks.old misses.old result misses.new place.new marks.new }
{
    let answer = bolgverk::trace_run(policy, ways, sets, blocks, marks);
    telling::trace_run(answer, misses, place)
}

// 0 for a hit, 1 for a miss, else the refusal's number; the state is changed in place, or left as it was.
#[unsafe(no_mangle)]
pub extern "C" fn bolgverk_step(
    policy: u8,
    ways: u8,
    lines: &mut [u16; 8],
    bits: &mut u8,
    block: u16,
) -> u8
    ensures { StepCall policy ways lines.old bits.old block result lines.new bits.new }
{
    let given = SetState {
        lines: *lines,
        bits: *bits,
    };
    let answer = bolgverk::step(policy, ways, given, Block(block));
    let state = answer.state;
    let next = state.lines;
    *lines = next;
    *bits = state.bits;
    let outcome = answer.outcome;
    telling::step(outcome)
}

// The refusal's number, or 0, and then `block` is the address's.
#[unsafe(no_mangle)]
pub extern "C" fn bolgverk_block_of(address: u32, line_size: u32, block: &mut u16) -> u8
    ensures { BlockCall address line_size block.old result block.new }
{
    telling::block_of(bolgverk::block_of(Address(address), line_size), block)
}

// The refusal's number, or 0, and then `set` is the block's.
#[unsafe(no_mangle)]
pub extern "C" fn bolgverk_set_of(block: u16, sets: u8, set: &mut u8) -> u8
    ensures { SetCall block sets set.old result set.new }
{
    telling::set_of(bolgverk::set_of(Block(block), sets), set)
}

// The refusal's number, or 0; `place` gets the refusal's place, or 0; `counts` get the misses with one way to eight, where nothing is refused.
#[unsafe(no_mangle)]
pub extern "C" fn bolgverk_all_ways(
    sets: u8,
    blocks: &[u16],
    counts: &mut [u64; 8],
    place: &mut u64,
) -> u8
    ensures { WaysCall sets blocks.now counts.old result place.new counts.new }
{
    telling::all_ways(bolgverk::all_ways(sets, blocks), counts, place)
}

// The refusal's number, or 0; `place` and `second` get the refusal's places, or 0; `cycles` gets the time, where nothing is refused.
#[unsafe(no_mangle)]
pub extern "C" fn bolgverk_time(
    file: &[u8],
    costs: &[u32],
    penalty: u32,
    interruptions: u16,
    cycles: &mut u64,
    place: &mut u64,
    second: &mut u64,
) -> u8
    ensures { TimeCall file.now costs.now penalty interruptions cycles.old result cycles.new place.new second.new }
{
    let answer = bolgverk::time(file, costs, penalty, interruptions);
    telling::time(answer, cycles, place, second)
}
