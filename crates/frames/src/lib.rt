// The frames of `pipe`, as bytes: docs/PIPE.md in words, specs/Frames.antt as definitions.
#![tactic(auto)]

pub mod heads;
pub mod numbers;
pub mod operations;
pub mod places;

ghost use Rattle.std.specs.Prelude.{◌≡◌, ◌+◌, ◌≤◌, length};
ghost use Rattle.puts.specs.Put.{Put};
ghost use Rattle.frames.specs.Frames as Frames;
ghost use Rattle.frames.specs.Operations.{number_of};
ghost use Rattle.frames.specs.Places.{head_size, length_width, count_width, last_size};

use operations::Operation;
use paper::Refusal;

// What an operation says first: a refusal, number and places 0 where it does not refuse, and a value.
#[derive(Clone, Copy)]
pub struct Head {
    pub refusal: Refusal,
    pub value: u64,
}

// What a salvage says first: the head with the length of the rest, and how many facts were dropped.
#[derive(Clone, Copy)]
pub struct SalvageHead {
    pub head: Head,
    pub count: u64,
}

// Puts the head of an answer at a place: the operation, the refusal, and the value in as many bytes as it takes.
pub fn front(out: &mut [u8], at: usize, operation: u8, width: usize, h: Head) -> usize
    requires { at + head_size + width ≤ length out.old }
    ensures put { Put out.old at (Frames.front operation width h) result out.new }
    ensures value { result ≡ at + head_size + width }
{
    let after_operation = numbers::put(out, at, 1, operation as u64);
    let refusal = h.refusal;
    let after_number = numbers::put(out, after_operation, 1, refusal.number as u64);
    let after_place = numbers::put(out, after_number, 8, refusal.place as u64);
    let after_second = numbers::put(out, after_place, 8, refusal.second as u64);
    numbers::put(out, after_second, width, h.value)
}

// Puts the head of an answer so that it ends where what follows it begins, and answers its place.
pub fn front_before(
    out: &mut [u8],
    end: usize,
    operation: Operation,
    width: usize,
    h: Head,
) -> usize
    requires start { head_size + width ≤ end }
    requires in_bounds { end ≤ length out.old }
    ensures put { Put out.old result (Frames.front (number_of operation) width h) end out.new }
    ensures value { result + head_size + width ≡ end }
{
    let at = end - places::HEAD_SIZE - width;
    front(out, at, operation.number(), width, h);
    at
}

// Puts the head of a salvage at a place.
pub fn salvage_front(out: &mut [u8], at: usize, h: SalvageHead) -> usize
    requires { at + head_size + length_width + count_width ≤ length out.old }
    ensures put { Put out.old at (Frames.salvage_front h) result out.new }
    ensures value { result ≡ at + head_size + length_width + count_width }
{
    let after_length = front(
        out,
        at,
        Operation::Salvage as u8,
        places::LENGTH_WIDTH,
        h.head,
    );
    numbers::put(out, after_length, places::COUNT_WIDTH, h.count)
}

// The last answer of all: the byte 0, why, and how many requests were answered before.
pub fn last(out: &mut [u8], why: u8, answered: u64)
    requires { length out.old ≡ last_size }
    ensures { out.new ≡ Frames.last_frame why answered }
{
    let after_zero = numbers::put(out, 0, 1, 0);
    let after_why = numbers::put(out, after_zero, 1, why as u64);
    numbers::put(out, after_why, 8, answered);
}
