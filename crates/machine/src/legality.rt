// "A state is legal if no block stands in two lines, the lines from k on are empty, and the bits are 0 for LRU and FIFO; for NMRU the bits from k on are 0 and at least one of the low k is 0." The tree's "legal state has bits 0 from k-1 on."
ghost use Rattle.std.specs.Prelude.{◌≡◌, ◌≤◌, drop};
ghost use Rattle.paper.specs.Machines as Machines;
ghost use Rattle.paper.specs.PolicyNumbers.{number_of};

use paper::{Policy, SetState};

// Whether b stands in a line from `from` on.
fn stands_from(lines: [u16; 8], from: usize, b: u16) -> bool
    requires { from ≤ 8 }
    ensures { result ≡ Machines.stands (drop from lines) b }
{
    for i in from..8 {
        if lines[i] == b {
            return true;
        }
    }
    false
}

fn is_distinct(lines: [u16; 8]) -> bool
    ensures { result ≡ Machines.distinct lines }
{
    for i in 0..8 {
        let b = lines[i];
        if b != 65535 && stands_from(lines, i + 1, b) {
            return false;
        }
    }
    true
}

fn is_empty_from(lines: [u16; 8], from: usize) -> bool
    requires { from ≤ 8 }
    ensures { result ≡ Machines.empty (drop from lines) }
{
    for i in from..8 {
        if lines[i] != 65535 {
            return false;
        }
    }
    true
}

fn has_legal_bits(policy: Policy, k: usize, bits: u8) -> bool
    requires { k ≤ 8 }
    ensures { result ≡ Machines.legal_bits (number_of policy) k bits }
{
    (bits as u16) < policy.bits_below(k)
}

pub fn is_legal(policy: Policy, k: usize, state: SetState) -> bool
    requires { k ≤ 8 }
    ensures { result ≡ Machines.legal (number_of policy) k state }
{
    let lines = state.lines;
    let bits = state.bits;
    is_distinct(lines) & (is_empty_from(lines, k) & has_legal_bits(policy, k, bits))
}
