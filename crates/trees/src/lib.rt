// The tree's step: a miss by one table, and what an access turns by another, each for 2, 4 and 8 ways at once.
#![tactic(auto)]

ghost use Rattle.std.specs.Prelude.{◌≡◌, true, ◌≢◌, ◌^◌, ◌<◌, ◌-◌};
ghost use Rattle.std.specs.Int.Count.{count_trailing_zeros};
ghost use Rattle.paper.specs.Machines.{none, offered, legal};
ghost use Rattle.paper.specs.Policies.{tree_policy};
ghost use Rattle.paper.specs.Shifts.{Bit};
ghost use Rattle.paper.specs.Trees.{turned, tree_step};
ghost use Rattle.trees.specs.TreeTables.{at_miss, tree_misses, turned_ones, turned_zeros, tree_line_for};

use paper::{Block, Line, SetState, Stepped};

// Bits p of k ways at entry 2^(k-1) + p: "A miss follows the bits and takes that line", by the value of the line's bit, and 256 times the bits after it.
const MISSES: [u16; 256] = [
    0x0000, 0x0000, 0x0101, 0x0002, 0x0000, 0x0000, 0x0000, 0x0000, 0x0301, 0x0404, 0x0102, 0x0604,
    0x0701, 0x0008, 0x0502, 0x0208, 0x0000, 0x0000, 0x0000, 0x0000, 0x0000, 0x0000, 0x0000, 0x0000,
    0x0000, 0x0000, 0x0000, 0x0000, 0x0000, 0x0000, 0x0000, 0x0000, 0x0000, 0x0000, 0x0000, 0x0000,
    0x0000, 0x0000, 0x0000, 0x0000, 0x0000, 0x0000, 0x0000, 0x0000, 0x0000, 0x0000, 0x0000, 0x0000,
    0x0000, 0x0000, 0x0000, 0x0000, 0x0000, 0x0000, 0x0000, 0x0000, 0x0000, 0x0000, 0x0000, 0x0000,
    0x0000, 0x0000, 0x0000, 0x0000, 0x0000, 0x0000, 0x0000, 0x0000, 0x0000, 0x0000, 0x0000, 0x0000,
    0x0000, 0x0000, 0x0000, 0x0000, 0x0000, 0x0000, 0x0000, 0x0000, 0x0000, 0x0000, 0x0000, 0x0000,
    0x0000, 0x0000, 0x0000, 0x0000, 0x0000, 0x0000, 0x0000, 0x0000, 0x0000, 0x0000, 0x0000, 0x0000,
    0x0000, 0x0000, 0x0000, 0x0000, 0x0000, 0x0000, 0x0000, 0x0000, 0x0000, 0x0000, 0x0000, 0x0000,
    0x0000, 0x0000, 0x0000, 0x0000, 0x0000, 0x0000, 0x0000, 0x0000, 0x0000, 0x0000, 0x0000, 0x0000,
    0x0000, 0x0000, 0x0000, 0x0000, 0x0000, 0x0000, 0x0000, 0x0000, 0x0b01, 0x2410, 0x1104, 0x2610,
    0x0f01, 0x4040, 0x1504, 0x4240, 0x0302, 0x2c10, 0x1904, 0x2e10, 0x0702, 0x4840, 0x1d04, 0x4a40,
    0x1b01, 0x3410, 0x0108, 0x3610, 0x1f01, 0x5040, 0x0508, 0x5240, 0x1302, 0x3c10, 0x0908, 0x3e10,
    0x1702, 0x5840, 0x0d08, 0x5a40, 0x2b01, 0x0420, 0x3104, 0x0620, 0x2f01, 0x6040, 0x3504, 0x6240,
    0x2302, 0x0c20, 0x3904, 0x0e20, 0x2702, 0x6840, 0x3d04, 0x6a40, 0x3b01, 0x1420, 0x2108, 0x1620,
    0x3f01, 0x7040, 0x2508, 0x7240, 0x3302, 0x1c20, 0x2908, 0x1e20, 0x3702, 0x7840, 0x2d08, 0x7a40,
    0x4b01, 0x6410, 0x5104, 0x6610, 0x4f01, 0x0080, 0x5504, 0x0280, 0x4302, 0x6c10, 0x5904, 0x6e10,
    0x4702, 0x0880, 0x5d04, 0x0a80, 0x5b01, 0x7410, 0x4108, 0x7610, 0x5f01, 0x1080, 0x4508, 0x1280,
    0x5302, 0x7c10, 0x4908, 0x7e10, 0x5702, 0x1880, 0x4d08, 0x1a80, 0x6b01, 0x4420, 0x7104, 0x4620,
    0x6f01, 0x2080, 0x7504, 0x2280, 0x6302, 0x4c20, 0x7904, 0x4e20, 0x6702, 0x2880, 0x7d04, 0x2a80,
    0x7b01, 0x5420, 0x6108, 0x5620, 0x7f01, 0x3080, 0x6508, 0x3280, 0x7302, 0x5c20, 0x6908, 0x5e20,
    0x7702, 0x3880, 0x6d08, 0x3a80,
];

// The line with number i at entry i: "Each access turns the bits on its line's path away from it". What it makes of seven bits that are all 1,
const ONES: [u8; 15] = [
    127, 127, 126, 127, 125, 126, 122, 127, 119, 125, 109, 126, 94, 122, 58,
];

// and of bits that are all 0.
const ZEROS: [u8; 15] = [0, 1, 0, 3, 1, 4, 0, 11, 3, 17, 1, 36, 4, 64, 0];

// What a miss makes of these bits.
pub fn missed(k: usize, bits: u8, misses: &[u16; 256]) -> u16
    requires k_value { offered tree_policy k ≡ true }
    requires bits_bound { bits < 2 ^ (k - 1) }
    requires misses_value { misses.now ≡ tree_misses }
    ensures { result ≡ at_miss k bits }
{
    let first: usize = 1 << (k - 1);
    misses[first + (bits as usize)]
}

// "Each access turns the bits on its line's path away from it": those that are 1 in both tables become 1, those that are 0 in both become 0.
pub fn turn(k: usize, bits: u8, bit: u16, ones: &[u8; 15], zeros: &[u8; 15]) -> u8
    requires k_value { offered tree_policy k ≡ true }
    requires bits_bound { bits < 2 ^ (k - 1) }
    requires bit { Bit k bit }
    requires ones_value { ones.now ≡ turned_ones }
    requires zeros_value { zeros.now ≡ turned_zeros }
    ensures { result ≡ turned k bits (count_trailing_zeros 32 bit) }
{
    let j = u32::trailing_zeros(bit as u32) as usize;
    let at = k - 1 + j;
    bits & ones[at] | zeros[at]
}

// The line that an access goes to: the block's, or "that line, empty or not". A guess at the line's bit comes with the block, as in an NMRU run.
pub fn line(state: SetState, k: usize, block: Block, guess: u8, misses: &[u16; 256]) -> Line
    requires k_value { offered tree_policy k ≡ true }
    requires state_value { legal tree_policy k state ≡ true }
    requires block_nonzero { block.0 ≢ none }
    requires misses_value { misses.now ≡ tree_misses }
    ensures { result ≡ tree_line_for k state block.0 }
{
    let lines = state.lines;
    let w = lines::weight(lines, block.0);
    let guessed = (guess % 255) as u16;
    if w == 255 - guessed {
        return Line {
            bit: guessed,
            hit: true,
        };
    }
    if 0 < w {
        return Line {
            bit: 255 - w,
            hit: true,
        };
    }
    Line {
        bit: missed(k, state.bits, misses) % 256,
        hit: false,
    }
}

// The three tables, wherever they lie.
#[derive(Clone, Copy)]
pub struct TreeTables<'a> {
    pub misses: &'a [u16; 256],
    pub ones: &'a [u8; 15],
    pub zeros: &'a [u8; 15],
    ghost misses_made: { misses.now ≡ tree_misses },
    ghost ones_made: { ones.now ≡ turned_ones },
    ghost zeros_made: { zeros.now ≡ turned_zeros },
}

// A table of its own, made where it is asked for: a run reaches it with fewer instructions.
pub fn misses() -> [u16; 256]
    ensures { result ≡ tree_misses }
{
    MISSES
}

pub fn ones() -> [u8; 15]
    ensures { result ≡ turned_ones }
{
    ONES
}

pub fn zeros() -> [u8; 15]
    ensures { result ≡ turned_zeros }
{
    ZEROS
}

// These lie where the program does: whoever looks at them once makes no copy.
static STILL_MISSES: [u16; 256] = MISSES;

static STILL_ONES: [u8; 15] = ONES;

static STILL_ZEROS: [u8; 15] = ZEROS;

pub fn tables() -> TreeTables<'static> {
    TreeTables {
        misses: &STILL_MISSES,
        ones: &STILL_ONES,
        zeros: &STILL_ZEROS,
    }
}

// Each asks the table that it needs.
impl TreeTables<'_> {
    pub fn missed(self, k: usize, bits: u8) -> u16
        requires k_value { offered tree_policy k ≡ true }
        requires bits_bound { bits < 2 ^ (k - 1) }
        ensures { result ≡ at_miss k bits }
    {
        missed(k, bits, self.misses)
    }

    pub fn turn(self, k: usize, bits: u8, bit: u16) -> u8
        requires k_value { offered tree_policy k ≡ true }
        requires bits_bound { bits < 2 ^ (k - 1) }
        requires bit { Bit k bit }
        ensures { result ≡ turned k bits (count_trailing_zeros 32 bit) }
    {
        turn(k, bits, bit, self.ones, self.zeros)
    }

    pub fn line(self, state: SetState, k: usize, block: Block, guess: u8) -> Line
        requires k_value { offered tree_policy k ≡ true }
        requires state_value { legal tree_policy k state ≡ true }
        requires block_nonzero { block.0 ≢ none }
        ensures { result ≡ tree_line_for k state block.0 }
    {
        line(state, k, block, guess, self.misses)
    }

    // One step at the access's line. A miss has its line and the bits after it from one entry, so that the next access need not wait for the line.
    pub fn step(self, state: SetState, k: usize, block: Block, line: Line) -> Stepped
        requires k_value { offered tree_policy k ≡ true }
        requires state_value { legal tree_policy k state ≡ true }
        requires line_value { line ≡ tree_line_for k state block.0 }
        ensures { result ≡ tree_step k state block.0 }
    {
        if line.hit {
            return state.placed(k, block, line, self.turn(k, state.bits, line.bit));
        }
        state.placed(k, block, line, (self.missed(k, state.bits) / 256) as u8)
    }
}

// One step by itself.
pub fn step_alone(state: SetState, k: usize, block: Block) -> Stepped
    requires k_value { offered tree_policy k ≡ true }
    requires state_value { legal tree_policy k state ≡ true }
    requires block_nonzero { block.0 ≢ none }
    ensures { result ≡ tree_step k state block.0 }
{
    let tables = tables();
    let to = tables.line(state, k, block, 0);
    tables.step(state, k, block, to)
}
