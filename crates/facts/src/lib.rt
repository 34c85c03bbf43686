// Rules 11 to 19: the facts judged in turn, and what is left after the last.
#![tactic(auto)]

ghost use Rattle.std.specs.Prelude.{◌≡◌, ◌+◌, ◌≤◌, ltb, Ok};
ghost use Rattle.paper.specs.Facts as Facts;
ghost use Rattle.paper.specs.Files.{end_at, head_end, case_of};
ghost use Rattle.paper.specs.Known.{Laid, Shaped};
ghost use Rattle.paper.specs.Verdicts as Verdicts;
ghost use Rattle.evidence.specs.Stands.{Stands};
ghost use Rattle.facts.specs.Turns.{names_at, Told};

use evidence::Head;
use layout::HEAD_SIZE;
use paper::{Previous, Refusal, Trailer};

// "A fact names a scope …, a block b and an age limit l", as they stand in the file.
#[derive(Clone, Copy)]
pub struct Names {
    pub scope: u16,
    pub block: u16,
    pub limit: u16,
}

// A fact that passes its turn: what it is to the next one, and where it ends.
#[derive(Clone, Copy)]
pub struct Kept {
    pub previous: Previous,
    pub end: usize,
}

// From p on, fewer than n bytes are left before the trailer.
pub fn short_of(file: &[u8], trailer: Trailer, p: usize, n: usize) -> bool
    requires laid { Laid file.now trailer }
    requires p_bound { p ≤ end_at file.now }
    ensures { result ≡ ltb (end_at file.now) (p + n) }
{
    layout::end_of(file) - p < n
}

pub fn names_at(file: &[u8], trailer: Trailer, p: usize) -> Names
    requires laid { Laid file.now trailer }
    requires p_bound { head_end p ≤ end_at file.now }
    ensures { result ≡ names_at file.now p }
{
    Names {
        scope: layout::scope_at(file, p),
        block: layout::block_at(file, p),
        limit: layout::limit_at(file, p),
    }
}

// "16-bit loop number or 65,535 for the whole graph": w is neither.
pub fn wrong_scope(trailer: Trailer, w: u16) -> bool
    ensures { result ≡ Facts.wrong_scope trailer.loops w }
{
    (trailer.loops <= w) & (w != 65535)
}

// 12: "its loop number, block or l out of range"
pub fn wrong_head(trailer: Trailer, w: u16, b: u16, l: u16) -> bool
    ensures { result ≡ Facts.wrong_head trailer.loops trailer.ways w b l }
{
    wrong_scope(trailer, w) | ((b == 65535) | ((l < 1) | ((trailer.ways as u16) < l)))
}

// 13: "block below the previous fact's, or equal and its scope starts at or before the previous scope's last node"
pub fn wrong_order(previous: Option<Previous>, b: u16, first: u16) -> bool
    ensures { result ≡ Facts.wrong_order previous b first }
{
    match previous {
        Some(p) => (b < p.block) | ((b == p.block) & (first <= p.last)),
        None => false,
    }
}

// 14 to 18, for fact i, which is the one at hand and whose head is there.
fn weigh(file: &[u8], trailer: Trailer, i: u16, h: Head) -> Result<Kept, Refusal>
    requires laid { Laid file.now trailer }
    requires shaped { Shaped (case_of file.now trailer) }
    requires stands { Stands file.now trailer h }
    requires place_bound { head_end h.place ≤ end_at file.now }
    ensures { Told file.now trailer h.place (Verdicts.body_rules file.now trailer i h.place) result }
{
    if evidence::unfetched(file, trailer, h) {
        return Err(paper::refuse(14, i as usize));
    }
    let begin = h.place + HEAD_SIZE;
    let rows = layout::rows_size(h.nodes());
    if short_of(file, trailer, begin, rows) {
        return Err(paper::refuse(15, i as usize));
    }
    evidence::evidence_rules(file, trailer, i, h)?;
    Ok(Kept {
        previous: Previous {
            block: h.block,
            last: h.last,
        },
        end: begin + rows,
    })
}

// The turn of fact i, which stands at p, after the previous one.
pub fn turn_of(
    file: &[u8],
    trailer: Trailer,
    i: u16,
    previous: Option<Previous>,
    p: usize,
) -> Result<Kept, Refusal>
    requires laid { Laid file.now trailer }
    requires shaped { Shaped (case_of file.now trailer) }
    requires p_bound { p ≤ end_at file.now }
    ensures { Told file.now trailer p (Verdicts.turn_rules file.now trailer i previous p) result }
{
    if short_of(file, trailer, p, HEAD_SIZE) {
        return Err(paper::refuse(11, i as usize));
    }
    let n = names_at(file, trailer, p);
    if wrong_head(trailer, n.scope, n.block, n.limit) {
        return Err(paper::refuse(12, i as usize));
    }
    let scope = layout::range_at(file, trailer, n.scope);
    if wrong_order(previous, n.block, scope.first) {
        return Err(paper::refuse(13, i as usize));
    }
    let home = paper::home(n.block, trailer.sets);
    weigh(
        file,
        trailer,
        i,
        Head {
            place: p,
            first: scope.first,
            last: scope.last,
            block: n.block,
            limit: n.limit,
            home: home,
        },
    )
}

// "then for each fact in turn 11 to 18; then 19"
pub fn fact_rules(file: &[u8], trailer: Trailer) -> Result<(), Refusal>
    requires laid { Laid file.now trailer }
    requires shaped { Shaped (case_of file.now trailer) }
    ensures { result ≡ Verdicts.fact_rules file.now trailer (Ok tt) }
{
    let mut p = layout::facts_at(trailer);
    let mut previous = None;
    for i in 0..trailer.facts {
        let kept = turn_of(file, trailer, i, previous, p)?;
        previous = Some(kept.previous);
        p = kept.end;
    }
    if p < layout::end_of(file) {
        return Err(paper::refuse(19, 0));
    }
    Ok(())
}
