// The listing of a case file: what the programs print, as bytes.
#![tactic(auto)]

pub mod program;

ghost use Rattle.std.specs.Prelude.{◌+◌, ◌^◌, ◌≤◌, ◌<◌, length};
ghost use Rattle.paper.specs.Bounds.{list_length};
ghost use Rattle.paper.specs.Listings.{refusal_line, printed, listing_of};
ghost use Rattle.paper.specs.Verdicts as Verdicts;
ghost use Rattle.puts.specs.Put.{Fits, Put};
ghost use Rattle.listing.specs.Listed as Listed;

use paper::{FACTS_FROM, LIST_LENGTH, LONGEST_INPUT, Refusal, SETS_FROM};

// The longest listing: 321 lines with bounds of 20 digits.
// 27 bytes for the total, 64 * 26 + 10 + 54 * 2 for the sets, 256 * 27 + 10 + 90 * 2 + 156 * 3 for the facts.
pub const LONGEST: usize = 9379;

// "Each line: word, number of the set or fact, bound": one for each number, counted from `first` on.
pub fn lines(out: &mut [u8], at: usize, word: &[u8], first: usize, numbers: &[u64]) -> usize
    requires first_in_range { first + length numbers.now < 2 ^ 64 }
    requires fits { Fits out.old at (Listed.numbered word.now first numbers.now) }
    ensures { Put out.old at (Listed.numbered word.now first numbers.now) result out.new }
{
    let mut to = at;
    for (i, bound) in numbers.iter().enumerate() {
        to = print::line_of_two(out, to, word, (first + i) as u64, *bound);
    }
    to
}

// "Every set up to S is listed."
fn accepted(out: &mut [u8; LONGEST], numbers: &[u64], sets: usize, facts: usize) -> usize
    requires list_length_in_bounds { list_length ≤ length numbers.now }
    requires sets_bound { sets ≤ 64 }
    requires facts_bound { facts ≤ 256 }
    ensures { Listed.Printed (Listed.number_lines numbers.now sets facts) out.old result out.new }
{
    let after_total = print::line(out, 0, b"total ", numbers[0]);
    let set_bounds = &numbers[SETS_FROM..SETS_FROM + sets];
    let after_sets = lines(out, after_total, b"set ", 0, set_bounds);
    let fact_bounds = &numbers[FACTS_FROM..FACTS_FROM + facts];
    lines(out, after_sets, b"fact ", 0, fact_bounds)
}

// "A refusal prints `refused`, number, place." "A printed refusal ends with the second place."
pub fn refused(out: &mut [u8], why: Refusal) -> usize
    requires { 71 ≤ length out.old }
    ensures { Listed.Printed (refusal_line why) out.old result out.new }
{
    print::refusal(out, 0, why)
}

// A file that the check accepts has a layout, so the refusal below it is never met.
fn checked(file: &[u8], interruptions: u16, out: &mut [u8; LONGEST]) -> usize
    ensures { Listed.Printed (printed file.now interruptions (Verdicts.verdict file.now list_length)) out.old result out.new }
{
    let mut numbers = [0u64; LIST_LENGTH];
    match bolgverk::check(file, interruptions, &mut numbers) {
        Err(r) => refused(out, r),
        Ok(()) => match layout::layout_of(file) {
            Err(r) => refused(out, r),
            Ok(trailer) => accepted(out, &numbers, trailer.sets as usize, trailer.facts as usize),
        },
    }
}

// "the program reads at most 65,536 bytes and prints `refused 28 0` for longer input", since the second place `refused 28 0 0`
pub fn listing(input: &[u8], interruptions: u16, out: &mut [u8; LONGEST]) -> usize
    ensures { Listed.Printed (listing_of input.now interruptions) out.old result out.new }
{
    if input.len() > LONGEST_INPUT {
        refused(out, paper::refuse(28, 0))
    } else {
        checked(input, interruptions, out)
    }
}
