// What stands in a fact's head and in its rows.
ghost use Rattle.std.specs.Prelude.{◌≡◌, true, ◌+◌, ◌<◌, ◌≤◌, length};
ghost use Rattle.paper.specs.Files as Files;
ghost use Rattle.paper.specs.Records as Records;
ghost use Rattle.layout.specs.Packed.{word_at, packed, Alike};

use crate::bytes::u16_at;
use crate::places::{BLOCK_FIELD, LIMIT_FIELD, SLOT_SIZE, SLOTS_FIELD};

// "16-bit loop number or 65,535 for the whole graph": the scope of the fact that stands at p
pub fn scope_at(file: &[u8], p: usize) -> u16
    requires { Files.head_end p ≤ length file.now }
    ensures { result ≡ (Files.fact_at file.now p).scope }
{
    u16_at(file, p)
}

pub fn block_at(file: &[u8], p: usize) -> u16
    requires { Files.head_end p ≤ length file.now }
    ensures { result ≡ (Files.fact_at file.now p).block }
{
    u16_at(file, p + BLOCK_FIELD)
}

pub fn limit_at(file: &[u8], p: usize) -> u16
    requires { Files.head_end p ≤ length file.now }
    ensures { result ≡ (Files.fact_at file.now p).limit }
{
    u16_at(file, p + LIMIT_FIELD)
}

// "the number and seven slots": those of the row that stands at p
pub fn number_at(file: &[u8], p: usize) -> u16
    requires { p + Records.row_size ≤ length file.now }
    ensures { result ≡ (Files.row_at file.now p).number }
{
    u16_at(file, p)
}

pub fn slot_at(file: &[u8], p: usize, i: u16) -> u16
    requires p_in_bounds { p + Records.row_size ≤ length file.now }
    requires i_bound { i < 7 }
    ensures { result ≡ (Files.row_at file.now p).slot i }
{
    u16_at(file, p + SLOTS_FIELD + SLOT_SIZE * (i as usize))
}

// Four numbers that stand side by side, as one: the compiler reads them at once.
#[tactic(auto, using(crate::proofs::Pack::packed_four))]
fn four_at(file: &[u8], p: usize) -> u64
    requires { p + 8 ≤ length file.now }
    ensures { result ≡ packed (word_at file.now p) 4 }
{
    let first = u16_at(file, p) as u64;
    let second = u16_at(file, p + 2) as u64;
    let third = u16_at(file, p + 4) as u64;
    let fourth = u16_at(file, p + 6) as u64;
    first + 65536 * (second + 65536 * (third + 65536 * fourth))
}

// Whether the rows at r and s are the same, for whoever looks at one and has looked at the other.
pub fn same_row(file: &[u8], r: usize, s: usize) -> bool
    requires r_in_bounds { r + Records.row_size ≤ length file.now }
    requires s_in_bounds { s + Records.row_size ≤ length file.now }
    ensures { result ≡ true → Alike (Files.row_at file.now r) (Files.row_at file.now s) }
{
    (four_at(file, r) == four_at(file, s)) & (four_at(file, r + 8) == four_at(file, s + 8))
}
