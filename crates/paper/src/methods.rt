// One step of each machine, by value on the set state: the lines go back shifted or replaced, with hit or miss.
ghost use Rattle.std.specs.Prelude.{◌≡◌, ◌≢◌, ℕ, ◌+◌, ◌^◌, ◌<◌, ◌≤◌, set};
ghost use Rattle.paper.specs.Machines.{none, line_of, hits, line_or, victim, miss_line, lru_step, fifo_step, marked, nmru_step};
ghost use Rattle.paper.specs.Ready.{Ready, state_of, stepped_of};
ghost use Rattle.lines.specs.Lines.{weighed};
ghost use Rattle.paper.specs.Shifts.{kept_from, shift_by, shift_at, Bit, marked_by, line_for};

use crate::{Block, Line, NextBits, SetState, Shift, Stepped};
use lines::{kept_after, moved, replaced, weight};

// "the lowest line whose bit is 0": that bit's value. At least one of the low k is.
fn lowest_clear(bits: u8, k: usize) -> u16
    requires { (k ≤ 8) × (bits + 1 < 2 ^ k) }
    ensures { result ≡ 2 ^ victim k bits }
{
    let p = bits as u16;
    !p & (p + 1)
}

// The lowest empty line, 8 where none is. It goes through all eight, so that the compiler can do without a loop.
fn lowest_empty(lines: [u16; 8]) -> usize
    ensures value { result ≡ line_of lines none }
    ensures upper_bound { result ≤ 8 }
{
    for i in 0..8 {
        if lines[i] == 65535 {
            return i;
        }
    }
    8
}

// "puts a missed block in the lowest empty line, whatever its bit says, and looks at bits only when no line is empty": the value of that line's bit.
fn missed_bit(lines: [u16; 8], bits: u8, k: usize) -> u16
    requires { (k ≤ 8) × (bits + 1 < 2 ^ k) }
    ensures { result ≡ 2 ^ miss_line k (state_of lines bits) }
{
    let i = lowest_empty(lines);
    if i < k {
        return 1 << i;
    }
    lowest_clear(bits, k)
}

impl NextBits<'_> {
    // The bits after an access of line j.
    pub fn after(self, bits: u8, j: usize) -> u8
        requires { j < 8 }
        ensures { result ≡ marked 8 bits j }
    {
        self.table[8 * (bits as usize) + j]
    }
}

// "The accessed line's bit becomes 1; if then all k bits are 1, all the others become 0." The line comes by its bit's value. For eight ways from the table.
fn mark(bits: u8, k: usize, bit: u16, next: NextBits) -> u8
    requires bit { Bit k bit }
    requires k_bound { (k ≤ 8) × (bits + 1 < 2 ^ k) }
    ensures { result ≡ marked_by k bits bit }
{
    if k == 8 {
        return next.after(bits, u32::trailing_zeros(bit as u32) as usize);
    }
    let p = bits as u16;
    let q = p | bit;
    let full: u16 = 255 >> (8 - k);
    if q == full { bit as u8 } else { q as u8 }
}

fn stepped(lines: [u16; 8], bits: u8, hit: bool) -> Stepped
    ensures { result ≡ stepped_of lines bits hit }
{
    Stepped {
        state: SetState {
            lines: lines,
            bits: bits,
        },
        hit: hit,
    }
}

// Made by a loop: as a list of eight comparisons it is made anew at each access.
pub fn kept_from(n: usize) -> [u16; 8]
    requires { n ≤ 8 }
    ensures { result ≡ kept_from n }
{
    let mut kept = [0u16; 8];
    for i in n..8 {
        kept[i] = 65535;
    }
    kept
}

fn shift_at(weight: u16, beyond: [u16; 8]) -> Shift
    ensures { result ≡ shift_by beyond weight }
{
    let kept = kept_after(weight, beyond);
    Shift {
        beyond: beyond,
        weight: weight,
        kept: kept,
    }
}

// What a miss moves in a set of k ways.
pub fn shift_of(k: usize) -> Shift
    requires { k ≤ 8 }
    ensures { result ≡ shift_at k 0 }
{
    shift_at(0, kept_from(k))
}

// "hands the new state back with hit or miss"
impl SetState {
    // What LRU moves for this block. The last shift is handed on while the blocks come from the same line, as they do in a loop: then a step need not wait for the search.
    pub fn shift(self, k: usize, block: Block, last: Shift) -> Shift
        requires { last ≡ shift_at k last.weight }
        ensures { result ≡ shift_at k (weighed self.lines block.0) }
    {
        let lines = self.lines;
        let w = weight(lines, block.0);
        if w == last.weight {
            return last;
        }
        let beyond = last.beyond;
        shift_at(w, beyond)
    }

    pub fn lru(self, k: usize, block: Block, shift: Shift) -> Stepped
        requires ready { Ready k self.lines }
        requires block_nonzero { block.0 ≢ none }
        requires shift_value { shift ≡ shift_at k (weighed self.lines block.0) }
        ensures { result ≡ lru_step k self block.0 }
    {
        let lines = self.lines;
        let kept = shift.kept;
        stepped(moved(kept, lines, block.0), self.bits, 0 < shift.weight)
    }

    pub fn fifo(self, k: usize, block: Block, beyond: [u16; 8]) -> Stepped
        requires ready { Ready k self.lines }
        requires block_nonzero { block.0 ≢ none }
        requires beyond_value { beyond ≡ kept_from k }
        ensures { result ≡ fifo_step k self block.0 }
    {
        let lines = self.lines;
        if 0 < weight(lines, block.0) {
            return stepped(lines, self.bits, true);
        }
        stepped(moved(beyond, lines, block.0), self.bits, false)
    }

    // The line that an NMRU access goes to.
    pub fn line(self, k: usize, block: Block) -> Line
        requires ready { Ready k self.lines }
        requires block_nonzero { block.0 ≢ none }
        requires bits_bound { self.bits + 1 < 2 ^ k }
        ensures { result ≡ line_for k self block.0 }
    {
        let lines = self.lines;
        let w = weight(lines, block.0);
        if 0 < w {
            return Line {
                bit: 255 - w,
                hit: true,
            };
        }
        Line {
            bit: missed_bit(lines, self.bits, k),
            hit: false,
        }
    }

    // The same where the bits alone tell a missed block's line, as they do in a run from empty sets. A guess at the line's bit comes with the block: where it is right the processor need not wait for the search,
    // and where it is not nothing else changes.
    // The tree's line is looked for in the same words (crates/trees): as one function, with the missed line handed over, a run took seven instructions an access more.
    pub fn line_by_bits(self, k: usize, block: Block, guess: u8) -> Line
        requires ready { Ready k self.lines }
        requires block_nonzero { block.0 ≢ none }
        requires bits_bound { self.bits + 1 < 2 ^ k }
        requires self_value { miss_line k self ≡ victim k self.bits }
        ensures { result ≡ line_for k self block.0 }
    {
        let lines = self.lines;
        let w = weight(lines, block.0);
        let guessed = (guess % 255) as u16;
        if w == 255 - guessed {
            return Line {
                bit: guessed,
                hit: true,
            };
        }
        if 0 < w {
            return Line {
                bit: 255 - w,
                hit: true,
            };
        }
        Line {
            bit: lowest_clear(self.bits, k),
            hit: false,
        }
    }

    // The block stands in the line that it is told, or comes there on a miss; the bits after the access are handed over.
    pub fn placed(self, k: usize, block: Block, line: Line, bits: u8) -> Stepped
        requires ready { Ready k self.lines }
        requires hit_value { line.hit ≡ hits k self.lines block.0 }
        ensures { (j : ℕ) → line.bit ≡ 2 ^ line_or k self.lines block.0 j → result ≡ stepped_of (set self.lines (line_or k self.lines block.0 j) block.0) bits line.hit }
    {
        let lines = self.lines;
        if line.hit {
            return stepped(lines, bits, true);
        }
        stepped(replaced(lines, line.bit, block.0), bits, false)
    }

    pub fn nmru(self, k: usize, block: Block, line: Line, next: NextBits) -> Stepped
        requires ready { Ready k self.lines }
        requires bits_bound { self.bits + 1 < 2 ^ k }
        requires line_value { line ≡ line_for k self block.0 }
        ensures { result ≡ nmru_step k self block.0 }
    {
        self.placed(k, block, line, mark(self.bits, k, line.bit, next))
    }
}
