// What `ways` prints, as bytes: the misses of a trace with one way to eight, or the refusal.
#![tactic(auto)]

ghost use Rattle.std.specs.Prelude.{◌≡◌, ◌+◌, ◌*◌, ◌≤◌, length, true};
ghost use Rattle.listing.specs.Listed.{Printed};
ghost use Rattle.waylines.specs.WayLines as WayLines;

use frames::numbers;
use listing::refused;

// As many accesses as a trace can have in the pipe.
const ACCESSES: usize = 1048576;

// The number of sets and the accesses, two bytes each.
pub const LONGEST_INPUT: usize = 2097154;

// Eight lines with counts of 20 digits.
pub const LONGEST: usize = 224;

// Whether an input of n bytes holds a number of sets, and is neither too long nor ends with half a number.
fn is_whole(n: usize) -> bool
    ensures { result ≡ WayLines.whole n }
{
    (2 <= n) & ((n <= LONGEST_INPUT) & (n % 2 == 0))
}

// "one way, two ways and so on up to eight"
fn accepted(out: &mut [u8; LONGEST], counts: &[u64]) -> usize
    requires { length counts.now ≡ 8 }
    ensures { Printed (WayLines.count_lines counts.now) out.old result out.new }
{
    listing::lines(out, 0, b"ways ", 1, counts)
}

fn answered(sets: u8, blocks: &[u16], out: &mut [u8; LONGEST]) -> usize
    ensures { Printed (WayLines.printed_for sets blocks.now) out.old result out.new }
{
    match bolgverk::all_ways(sets, blocks) {
        Err(why) => refused(out, why),
        Ok(counts) => accepted(out, &counts),
    }
}

// The number of sets has 16 bits here and 8 in the operation, which refuses what is above 64.
fn counted(input: &[u8], blocks: &mut [u16], out: &mut [u8; LONGEST]) -> usize
    requires { 2 + 2 * length blocks.old ≡ length input.now }
    ensures { Printed (WayLines.printed_for (WayLines.sets_in input.now) (WayLines.trace_in input.now)) out.old result out.new }
{
    let sets = layout::u16_at(input, 0);
    numbers::read_list_at(input, 2, blocks);
    if sets > 255 {
        refused(out, paper::refuse(3, 0))
    } else {
        answered(sets as u8, blocks, out)
    }
}

// As much of the room as the trace takes.
fn part(input: &[u8], blocks: &mut [u16; ACCESSES], out: &mut [u8; LONGEST]) -> usize
    requires { WayLines.whole (length input.now) ≡ true }
    ensures { Printed (WayLines.printed_for (WayLines.sets_in input.now) (WayLines.trace_in input.now)) out.old result out.new }
{
    let n = input.len() / 2 - 1;
    counted(input, &mut blocks[0..n], out)
}

// 28, which `bounds` prints for an input that is too long, stands for every input that is no number of sets and a trace.
pub fn ways(input: &[u8], out: &mut [u8; LONGEST]) -> usize
    ensures { Printed (WayLines.ways_of input.now) out.old result out.new }
{
    if is_whole(input.len()) {
        let mut blocks = [0u16; ACCESSES];
        part(input, &mut blocks, out)
    } else {
        refused(out, paper::refuse(28, 0))
    }
}
