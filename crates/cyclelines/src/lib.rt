// What `cycles` prints, as bytes: the time of a case file, or the refusal.
#![tactic(auto)]

ghost use Rattle.std.specs.Prelude.{◌≡◌, true, ◌+◌, ◌*◌, ◌≤◌, length};
ghost use Rattle.paper.specs.Listings.{bytes, line};
ghost use Rattle.paper.specs.Times.{file_time_answer};
ghost use Rattle.listing.specs.Listed.{Printed};
ghost use Rattle.cyclelines.specs.CycleLines as CycleLines;

use frames::numbers;
use listing::refused;
use paper::LONGEST_INPUT;

// More costs than fit into an input of 65,536 bytes.
const COSTS: usize = 16384;

// A refusal's line is the longest.
pub const LONGEST: usize = 71;

// Whether the input holds its head and as many costs as that says, and is not too long.
fn is_whole(input: &[u8]) -> bool
    ensures { result ≡ CycleLines.whole input.now }
{
    if input.len() < 8 {
        return false;
    }
    if LONGEST_INPUT < input.len() {
        return false;
    }
    8 + 4 * (layout::u16_at(input, 6) as usize) <= input.len()
}

fn told(out: &mut [u8; LONGEST], cycles: u64) -> usize
    ensures { Printed (line (bytes "time ") cycles) out.old result out.new }
{
    print::line(out, 0, b"time ", cycles)
}

// "Only the time is returned."
fn answered(
    file: &[u8],
    costs: &[u32],
    penalty: u32,
    interruptions: u16,
    out: &mut [u8; LONGEST],
) -> usize
    ensures { Printed (CycleLines.time_line (file_time_answer file.now costs.now penalty interruptions)) out.old result out.new }
{
    match bolgverk::time(file, costs, penalty, interruptions) {
        Err(why) => refused(out, why),
        Ok(cycles) => told(out, cycles),
    }
}

// The penalty, the number of interruptions, the costs, the file.
fn timed(input: &[u8], costs: &mut [u32], out: &mut [u8; LONGEST]) -> usize
    requires costs_len { length costs.old ≡ CycleLines.many_in input.now }
    requires input_in_bounds { CycleLines.file_from input.now ≤ length input.now }
    ensures { Printed (CycleLines.printed_for input.now) out.old result out.new }
{
    let penalty = layout::u32_at(input, 0);
    let interruptions = layout::u16_at(input, 4);
    let from = numbers::read_list_at(input, 8, costs);
    answered(&input[from..], costs, penalty, interruptions, out)
}

// As much of the room as the costs take.
fn part(input: &[u8], costs: &mut [u32; COSTS], out: &mut [u8; LONGEST]) -> usize
    requires { CycleLines.whole input.now ≡ true }
    ensures { Printed (CycleLines.printed_for input.now) out.old result out.new }
{
    let n = layout::u16_at(input, 6) as usize;
    timed(input, &mut costs[0..n], out)
}

// 28, which `bounds` prints for an input that is too long, stands for every input that is not whole.
pub fn cycles(input: &[u8], out: &mut [u8; LONGEST]) -> usize
    ensures { Printed (CycleLines.cycles_of input.now) out.old result out.new }
{
    if is_whole(input) {
        let mut costs = [0u32; COSTS];
        part(input, &mut costs, out)
    } else {
        refused(out, paper::refuse(28, 0))
    }
}
