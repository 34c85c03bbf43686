// What a C caller is told of an answer: the number that is returned, and the numbers that are written through pointers.
// A value is written only where nothing is refused; places are written always, 0 where nothing is refused.
#![tactic(auto)]

ghost use Rattle.std.specs.Prelude.{◌≡◌};
ghost use Rattle.paper.specs.Answers.{told_verdict, told_trace, told_outcome, told_block, told_set, told_write, told_find, told_salvage, told_ways, told_time, value_or, limit_or, second_or, counts_or};

use paper::{Block, Outcome, Refusal, Salvage, SetNumber};

// Nothing is refused: number and place are 0.
fn accepted_at(place: &mut u64) -> u8
    ensures value { result ≡ 0 }
    ensures place_after { place.new ≡ 0 }
{
    *place = 0;
    0
}

fn accepted(place: &mut u64, second: &mut u64) -> u8
    ensures value { result ≡ 0 }
    ensures place_after { place.new ≡ 0 }
    ensures second_after { second.new ≡ 0 }
{
    *second = 0;
    accepted_at(place)
}

// A refusal's number, and its place.
fn refused_at(why: Refusal, place: &mut u64) -> u8
    ensures value { result ≡ why.number }
    ensures place_after { place.new ≡ why.place }
{
    *place = why.place as u64;
    why.number
}

fn refused(why: Refusal, place: &mut u64, second: &mut u64) -> u8
    ensures value { result ≡ why.number }
    ensures place_after { place.new ≡ why.place }
    ensures second_after { second.new ≡ why.second }
{
    *second = why.second as u64;
    refused_at(why, place)
}

pub fn check(answer: Result<(), Refusal>, place: &mut u64, second: &mut u64) -> u8
    ensures value { result ≡ (told_verdict answer).number }
    ensures place_after { place.new ≡ (told_verdict answer).place }
    ensures second_after { second.new ≡ (told_verdict answer).second }
{
    match answer {
        Ok(()) => accepted(place, second),
        Err(broken) => refused(broken, place, second),
    }
}

pub fn write(
    answer: Result<usize, Refusal>,
    length: &mut u64,
    place: &mut u64,
    second: &mut u64,
) -> u8
    ensures value { result ≡ (told_write answer).number }
    ensures length_after { length.new ≡ value_or length.old (told_write answer) }
    ensures place_after { place.new ≡ (told_write answer).place }
    ensures second_after { second.new ≡ (told_write answer).second }
{
    match answer {
        Ok(size) => {
            *length = size as u64;
            accepted(place, second)
        }
        Err(unfit) => refused(unfit, place, second),
    }
}

// The limit is 0 where none has evidence.
pub fn find(answer: Result<Option<u16>, Refusal>, limit: &mut u16, place: &mut u64) -> u8
    ensures value { result ≡ (told_find answer).number }
    ensures limit_after { limit.new ≡ limit_or limit.old (told_find answer) }
    ensures place_after { place.new ≡ (told_find answer).place }
{
    match answer {
        Ok(Some(found)) => {
            *limit = found;
            accepted_at(place)
        }
        Ok(None) => {
            *limit = 0;
            accepted_at(place)
        }
        Err(unsound) => refused_at(unsound, place),
    }
}

// The length of the rest, and how many facts were dropped.
pub fn salvage(
    answer: Result<Salvage, Refusal>,
    length: &mut u64,
    count: &mut u64,
    place: &mut u64,
) -> u8
    ensures value { result ≡ (told_salvage answer).number }
    ensures length_after { length.new ≡ value_or length.old (told_salvage answer) }
    ensures count_after { count.new ≡ second_or count.old (told_salvage answer) }
    ensures place_after { place.new ≡ (told_salvage answer).place }
{
    match answer {
        Ok(rest) => {
            *length = rest.length as u64;
            *count = rest.dropped as u64;
            accepted_at(place)
        }
        Err(lost) => refused_at(lost, place),
    }
}

pub fn trace_run(answer: Result<usize, Refusal>, misses: &mut u64, place: &mut u64) -> u8
    ensures value { result ≡ (told_trace answer).number }
    ensures misses_after { misses.new ≡ value_or misses.old (told_trace answer) }
    ensures place_after { place.new ≡ (told_trace answer).place }
{
    match answer {
        Ok(count) => {
            *misses = count as u64;
            accepted_at(place)
        }
        Err(why) => refused_at(why, place),
    }
}

// 0 for a hit, 1 for a miss, else the refusal's number.
pub fn step(outcome: Result<Outcome, Refusal>) -> u8
    ensures { result ≡ value_or (told_outcome outcome).number (told_outcome outcome) }
{
    match outcome {
        Ok(Outcome::Hit) => 0,
        Ok(Outcome::Miss) => 1,
        Err(illegal) => illegal.number,
    }
}

pub fn block_of(answer: Result<Block, Refusal>, block: &mut u16) -> u8
    ensures value { result ≡ (told_block answer).number }
    ensures block_after { block.new ≡ value_or block.old (told_block answer) }
{
    match answer {
        Ok(found) => {
            *block = found.0;
            0
        }
        Err(outside) => outside.number,
    }
}

pub fn set_of(answer: Result<SetNumber, Refusal>, set: &mut u8) -> u8
    ensures value { result ≡ (told_set answer).number }
    ensures set_after { set.new ≡ value_or set.old (told_set answer) }
{
    match answer {
        Ok(found) => {
            *set = found.0;
            0
        }
        Err(unknown) => unknown.number,
    }
}

// The eight counts, which stay as they were where something is refused.
pub fn all_ways(answer: Result<[u64; 8], Refusal>, counts: &mut [u64; 8], place: &mut u64) -> u8
    ensures value { result ≡ (told_ways answer).number }
    ensures counts_after { counts.new ≡ counts_or counts.old (told_ways answer) }
    ensures place_after { place.new ≡ (told_ways answer).place }
{
    match answer {
        Ok(found) => {
            *counts = found;
            accepted_at(place)
        }
        Err(wrong) => refused_at(wrong, place),
    }
}

pub fn time(answer: Result<u64, Refusal>, cycles: &mut u64, place: &mut u64, second: &mut u64) -> u8
    ensures value { result ≡ (told_time answer).number }
    ensures cycles_after { cycles.new ≡ value_or cycles.old (told_time answer) }
    ensures place_after { place.new ≡ (told_time answer).place }
    ensures second_after { second.new ≡ (told_time answer).second }
{
    match answer {
        Ok(most) => {
            *cycles = most;
            accepted(place, second)
        }
        Err(bad) => refused(bad, place, second),
    }
}
