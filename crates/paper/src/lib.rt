// The types that cross crate borders. What they mean stands in specs/, section by section of the paper.
#![tactic(auto)]

ghost use Rattle.std.specs.Prelude.{◌≡◌, ◌+◌, ◌/◌, ◌<◌, ◌≤◌};
ghost use Rattle.paper.specs.Answers as Answers;
ghost use Rattle.paper.specs.NextBits.{next_bits};

mod cache;
mod ceilings;
mod methods;
mod policies;
mod versions;

pub use cache::{home, is_in_range, is_offered, is_set_count};
pub use ceilings::{
    FACTS_FROM, LIST_LENGTH, LONGEST_INPUT, MANY, MOST_BOUND, MOST_EDGES, MOST_FACTS, MOST_LOOPS,
    MOST_NODES, SETS_FROM, UNFETCHED,
};
pub use methods::{kept_from, shift_of};
pub use policies::{FIFO, LRU, NMRU, Policy, TREE, bits_below, has_floors};
pub use versions::{UNLIMITED, WITH_W, WITHOUT_W, at_most, is_bad_version};

// "Addresses, block numbers and set numbers, which the sources distinguish, are each kept apart."
#[derive(Clone, Copy)]
pub struct Address(pub u32);

#[derive(Clone, Copy)]
pub struct Block(pub u16);

#[derive(Clone, Copy)]
pub struct SetNumber(pub u8);

// "is held as eight lines and one byte of bits"
#[derive(Clone, Copy)]
pub struct SetState {
    pub lines: [u16; 8],
    pub bits: u8,
}

// A machine's step: the new state, and whether the access hit.
#[derive(Clone, Copy)]
pub struct Stepped {
    pub state: SetState,
    pub hit: bool,
}

// Which lines stay where they are when a block comes to line 0: those from k on, and, where the block stood in the line with this weight, those after it too.
#[derive(Clone, Copy)]
pub struct Shift {
    pub beyond: [u16; 8],
    pub weight: u16,
    pub kept: [u16; 8],
}

// The line that an access goes to, by the value of its bit, and whether the block stands there.
#[derive(Clone, Copy)]
pub struct Line {
    pub bit: u16,
    pub hit: bool,
}

// "With S sets (1 to 64)": S, and what takes the place of a division by it, 2^32 / S rounded up.
#[derive(Clone, Copy)]
pub struct Sets {
    pub count: u64,
    pub inverse: u64,
    ghost some: { 0 < count },
    ghost few: { count ≤ 64 },
    ghost rounded_up: { inverse ≡ (4294967295 + count) / count },
}

// "For eight ways the NMRU bits come from a table over all 256 patterns and eight lines (2,048 entries), pattern p and line j at entry 8p + j".
#[derive(Clone, Copy)]
pub struct NextBits<'a> {
    pub table: &'a [u8; 2048],
    ghost made: { table.now ≡ next_bits },
}

// "Each returns number and place." "The result gets a second place": the node or the edge at which a fact's evidence breaks, and 0 for every other refusal.
#[derive(Clone, Copy)]
pub struct Refusal {
    pub number: u8,
    pub place: usize,
    pub second: usize,
}

// "handed back with hit or miss"
#[derive(Clone, Copy)]
pub enum Outcome {
    Hit,
    Miss,
}

// "a refused step hands back the state it was given"
#[derive(Clone, Copy)]
pub struct StepAnswer {
    pub state: SetState,
    pub outcome: Result<Outcome, Refusal>,
}

// "writes the rest, with a list of dropped facts": how many bytes the rest takes, and how many facts were dropped.
#[derive(Clone, Copy)]
pub struct Salvage {
    pub length: usize,
    pub dropped: usize,
}

// "The loops are handed on as a list of records: first node, last node, bound"; and "a further 32-bit number W", how often a whole walk visits the header at most.
#[derive(Clone, Copy)]
pub struct Loop {
    pub first: u16,
    pub last: u16,
    pub bound: u32,
    pub visits: u32,
}

// What the last 32 bytes of a case file say of it, besides the offsets.
#[derive(Clone, Copy)]
pub struct Trailer {
    pub nodes: u16,
    pub edges: u16,
    pub loops: u16,
    pub facts: u16,
    pub policy: u8,
    pub ways: u8,
    pub sets: u8,
    pub version: u8,
}

// What the order of facts asks of the previous fact, where there is one: its block, and its scope's last node.
#[derive(Clone, Copy)]
pub struct Previous {
    pub block: u16,
    pub last: u16,
}

// Every refusal is made here.
pub fn refuse_at(number: u8, place: usize, second: usize) -> Refusal
    ensures { result ≡ Answers.refuse_at number place second }
{
    Refusal {
        number: number,
        place: place,
        second: second,
    }
}

// "An accepted file's second place is 0, and so is that of every refusal not named here."
pub fn refuse(number: u8, place: usize) -> Refusal
    ensures { result ≡ Answers.refuse number place }
{
    refuse_at(number, place, 0)
}
