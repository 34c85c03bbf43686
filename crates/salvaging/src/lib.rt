// What `salvage` writes, as bytes: the rest of a case file, and the facts that were dropped, in words.
#![tactic(auto)]

ghost use Rattle.std.specs.Prelude.{◌≡◌, ◌+◌, ◌*◌, ◌≤◌, length, get_or};
ghost use Rattle.paper.specs.Ceilings.{longest_input};
ghost use Rattle.paper.specs.Listings.{refusal_line};
ghost use Rattle.paper.specs.Salvaging.{salvage_verdict};
ghost use Rattle.puts.specs.Put.{Put};
ghost use Rattle.listing.specs.Listed.{Printed};
ghost use Rattle.salvaging.specs.Said as Said;

use paper::{LONGEST_INPUT, Refusal};

// How many bytes the rest has, and how many what is said.
#[derive(Clone, Copy)]
pub struct Saved {
    pub rest: usize,
    pub said: usize,
}

// Three numbers for each of 256 facts.
const LIST: usize = 768;

// 256 lines of at most 218 bytes.
pub const LONGEST: usize = 55808;

// What is wrong, in the words of README's table. None has more than 118 bytes.
// A number, and no enum: it is read from the list that the salvage fills, which C lends too.
#[tactic(auto, unfolding(crate::specs::Said::wrong))]
fn wrong(out: &mut [u8], at: usize, number: u64) -> usize
    requires { at + 118 ≤ length out.old }
    ensures put { Put out.old at (Said.wrong number) result out.new }
    ensures upper_bound { result ≤ at + 118 }
{
    match number {
        11 => print::word(out, at, b"fewer than 6 bytes are left for a fact"),
        12 => print::word(
            out,
            at,
            b"a fact's loop number, block or age limit out of range",
        ),
        13 => print::word(
            out,
            at,
            b"a fact's block is below the previous fact's, or equal and its scope starts at or before the previous scope's last node",
        ),
        14 => print::word(out, at, b"no node of a fact's scope fetches its block"),
        15 => print::word(
            out,
            at,
            b"a fact's rows are cut short, or the writer is handed more or fewer than its scope has nodes",
        ),
        16 => print::word(out, at, b"a row is not sound"),
        17 => print::word(
            out,
            at,
            b"a set is followed by row 9, or by a set that lacks a block",
        ),
        18 => print::word(
            out,
            at,
            b"a node that fetches the fact's block has row 8 (\"many\")",
        ),
        24 => print::word(
            out,
            at,
            b"row 9 (\"not since b\") follows a fetch of the fact's block",
        ),
        25 => print::word(out, at, b"row 8 (\"many\") is followed by another row"),
        _ => at,
    }
}

fn named(out: &mut [u8], at: usize, number: u64, place: u64) -> usize
    requires { at + 145 ≤ length out.old }
    ensures put { Put out.old at (Said.named number place) result out.new }
    ensures upper_bound { result ≤ at + 145 }
{
    let after_word = print::word(out, at, b"fact ");
    let after_place = print::number(out, after_word, place);
    let after_colon = print::word(out, after_place, b": ");
    wrong(out, after_colon, number)
}

// "each with the first number it earns and places". No such line is longer than 218 bytes.
fn line(out: &mut [u8], at: usize, number: u64, place: u64, second: u64) -> usize
    requires { at + 218 ≤ length out.old }
    ensures put { Put out.old at (Said.fact_line number place second) result out.new }
    ensures upper_bound { result ≤ at + 218 }
{
    let after_name = named(out, at, number, place);
    let after_word = print::word(out, after_name, b": refused ");
    let after_number = print::number(out, after_word, number);
    print::line_of_two(out, after_number, b" ", place, second)
}

// One line for each of n facts, three numbers a fact.
fn lines(out: &mut [u8], numbers: &[u64], n: usize) -> usize
    requires n_in_bounds { 3 * n ≤ length numbers.now }
    requires n_in_bounds_2 { 218 * n ≤ length out.old }
    ensures put { Put out.old 0 (Said.lines_from (λ i. get_or numbers.now i 0) 0 n) result out.new }
    ensures upper_bound { result ≤ 218 * n }
{
    let mut to = 0;
    for i in 0..n {
        to = line(
            out,
            to,
            numbers[3 * i],
            numbers[3 * i + 1],
            numbers[3 * i + 2],
        );
    }
    to
}

// A refused file leaves nothing to write but the refusal.
fn refused(text: &mut [u8; LONGEST], why: Refusal) -> Saved
    ensures printed { Printed (refusal_line why) text.old result.said text.new }
    ensures rest_value { result.rest ≡ 0 }
{
    Saved {
        rest: 0,
        said: listing::refused(text, why),
    }
}

fn salvaged(input: &[u8], out: &mut [u8; LONGEST_INPUT], text: &mut [u8; LONGEST]) -> Saved
    ensures { Said.Saves (salvage_verdict input.now longest_input Said.list_room) input.now out.old text.old result out.new text.new }
{
    let mut numbers = [0u64; LIST];
    match bolgverk::salvage(input, out, &mut numbers) {
        Err(why) => refused(text, why),
        Ok(kept) => Saved {
            rest: kept.length,
            said: lines(text, &numbers, kept.dropped),
        },
    }
}

// A file that `bounds` has room for is salvaged; a longer one is refused 28, as `bounds` refuses it.
pub fn salvage(input: &[u8], out: &mut [u8; LONGEST_INPUT], text: &mut [u8; LONGEST]) -> Saved
    ensures { Said.Saves (Said.verdict_of input.now) input.now out.old text.old result out.new text.new }
{
    if input.len() > LONGEST_INPUT {
        refused(text, paper::refuse(28, 0))
    } else {
        salvaged(input, out, text)
    }
}
