// Each fact is judged once, into a table: where those stand and end that are kept, and why the others are dropped.
ghost use Rattle.std.specs.Prelude.{◌≡◌, [], ◌∷◌, ◌+◌, ◌*◌, ◌≤◌, length};
ghost use Rattle.paper.specs.Ceilings.{most_facts};
ghost use Rattle.paper.specs.Files.{end_at, case_of};
ghost use Rattle.paper.specs.Known.{Laid, Shaped};
ghost use Rattle.paper.specs.Salvaging.{next_place, listed};
ghost use Rattle.puts.specs.Put.{Put};
ghost use Rattle.salvager.specs.Sieve.{Sieved};

use crate::Sifted;
use layout::HEAD_SIZE;
use paper::{Previous, Refusal, Trailer};

// Where the fact stands that comes after the one at p, which is dropped: "drops everything from a fact cut short onward", and "where a fact's scope number is bad its length is unknown, so it is treated as cut short".
fn next_place(file: &[u8], trailer: Trailer, p: usize) -> usize
    requires laid { Laid file.now trailer }
    requires shaped { Shaped (case_of file.now trailer) }
    requires p_bound { p ≤ end_at file.now }
    ensures value { result ≡ next_place file.now trailer p }
    ensures lower_bound { (p ≤ result) × (result ≤ end_at file.now) }
{
    let end = layout::end_of(file);
    if facts::short_of(file, trailer, p, HEAD_SIZE) {
        return end;
    }
    let scope = layout::scope_at(file, p);
    if facts::wrong_scope(trailer, scope) {
        return end;
    }
    let range = layout::range_at(file, trailer, scope);
    let begin = p + HEAD_SIZE;
    let rows = layout::rows_size(range.last + 1 - range.first);
    if facts::short_of(file, trailer, begin, rows) {
        return end;
    }
    begin + rows
}

// The fact that is kept after k others stands at p and ends at `end`.
fn put_span(spans: &mut [usize], k: u16, p: usize, end: usize)
    requires { 2 * k + 2 ≤ length spans.old }
    ensures { Put spans.old (2 * k) (p ∷ end ∷ []) (2 * k + 2) spans.new }
{
    let at = 2 * (k as usize);
    spans[at] = p;
    spans[at + 1] = end;
}

// The fact that is dropped after k others earns r: "each with the first number it earns and places".
fn put_why(whys: &mut [u64], k: u16, r: Refusal)
    requires { 3 * k + 3 ≤ length whys.old }
    ensures { Put whys.old (3 * k) (listed (r ∷ [])) (3 * k + 3) whys.new }
{
    let at = 3 * (k as usize);
    whys[at] = r.number as u64;
    whys[at + 1] = r.place as u64;
    whys[at + 2] = r.second as u64;
}

// "An order fault (13) is judged against the last fact kept."
pub fn sift(file: &[u8], trailer: Trailer, spans: &mut [usize], whys: &mut [u64]) -> Sifted
    requires laid { Laid file.now trailer }
    requires shaped { Shaped (case_of file.now trailer) }
    requires most_facts_in_bounds { 2 * most_facts ≤ length spans.old }
    requires most_facts_in_bounds_2 { 3 * most_facts ≤ length whys.old }
    ensures { Sieved file.now trailer result spans.new whys.new }
{
    let mut kept: u16 = 0;
    let mut dropped: u16 = 0;
    let mut size: usize = 0;
    let mut previous = None;
    let mut p = layout::facts_at(trailer);
    for i in 0..trailer.facts {
        match facts::turn_of(file, trailer, i, previous, p) {
            Ok(k) => {
                put_span(spans, kept, p, k.end);
                kept += 1;
                size += k.end - p;
                previous = Some(k.previous);
                p = k.end;
            }
            Err(x) => {
                put_why(whys, dropped, x);
                dropped += 1;
                p = next_place(file, trailer, p);
            }
        }
    }
    Sifted {
        kept: kept,
        dropped: dropped,
        size: size,
    }
}
