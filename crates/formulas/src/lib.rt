// The paper's formulas: the bound of a fact, a policy's lines each, and the floor of M(l).
#![tactic(auto)]

ghost use Rattle.std.specs.Prelude.{◌≡◌, ◌+◌, ◌≤◌, min};
ghost use Rattle.paper.specs.Bounds as Bounds;
ghost use Rattle.paper.specs.Ceilings as Ceilings;
ghost use Rattle.formulas.specs.Largest as Largest;

use paper::Trailer;

// "the lesser of E + p and N"
pub fn entered(e: u64, interruptions: u16, n: u64) -> u64
    requires { e ≤ Ceilings.most_count }
    ensures { result ≡ min (e + interruptions) n }
{
    n.min(e + interruptions as u64)
}

// "g = ceil(k/(l-1))"
fn ratio(k: u64, l: u64) -> u64
    requires le_l { 2 ≤ l }
    requires l_le_k { l ≤ k }
    requires k_bound { k ≤ 8 }
    ensures value { result ≡ Bounds.g k l }
    ensures lower_bound { 1 ≤ result }
{
    (k + (l - 2)) / (l - 1)
}

// "FIFO, l = 1: E"; "FIFO, l >= 2: E + floor((N-E)/g)"
fn fifo_bound(k: u64, l: u64, e: u64, n: u64) -> u64
    requires l_le_k { l ≤ k }
    requires k_bound { k ≤ 8 }
    requires e_bound { e ≤ Largest.largest_visits }
    requires n_bound { n ≤ Largest.largest_visits }
    ensures { result ≡ Bounds.fifo_bound k l e n }
{
    if l < 2 {
        return e;
    }
    e + n.saturating_sub(e) / ratio(k, l)
}

// "NMRU, l = 1: E"; "the bound for l = 2 is E, and the factor l starts at 3"
fn nmru_bound(k: u64, l: u64, e: u64, n: u64) -> u64
    requires l_le_k { l ≤ k }
    requires k_bound { k ≤ 8 }
    requires e_bound { e ≤ Largest.largest_visits }
    ensures { result ≡ Bounds.nmru_bound k l e n }
{
    if l < 3 {
        return e;
    }
    n.min(l * e)
}

// "A fact whose limit is at most 1 + log2 k has bound E"; "a larger limit gets N": l is at most 1 + log2 k where 2^l is below 4k.
fn tree_bound(k: u64, l: u64, e: u64, n: u64) -> u64
    requires l_le_k { l ≤ k }
    requires k_bound { k ≤ 8 }
    ensures { result ≡ Bounds.tree_bound k l e n }
{
    if l < 2 {
        return e;
    }
    let two: u64 = 1 << l;
    if two < 4 * k { e } else { n }
}

// "bound of a fact", by policy; for LRU it is E.
pub fn bound_of(policy: u8, k: u64, l: u64, e: u64, n: u64) -> u64
    requires l_le_k { l ≤ k }
    requires k_bound { k ≤ 8 }
    requires e_bound { e ≤ Largest.largest_visits }
    requires n_bound { n ≤ Largest.largest_visits }
    ensures { result ≡ Bounds.bound_of policy k l e n }
{
    match policy {
        paper::LRU => e,
        paper::FIFO => fifo_bound(k, l, e, n),
        paper::NMRU => nmru_bound(k, l, e, n),
        _ => tree_bound(k, l, e, n),
    }
}

// "floor(k·M(l)/(k-l+1))"
pub fn floor_of(trailer: Trailer, l: u64, m: u64) -> u64
    requires l_le_ways { l ≤ trailer.ways }
    requires ways_bound { trailer.ways ≤ 8 }
    requires m_bound { m ≤ Largest.largest_m }
    ensures { result ≡ Bounds.floor_of trailer.ways l m }
{
    let k = trailer.ways as u64;
    k * m / (k + 1 - l)
}
