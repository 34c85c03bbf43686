// Rules 12, 13, 15 and 16: the facts of the lists judged in turn.
ghost use Rattle.std.specs.Prelude.{◌≡◌, ◌≢◌, ◌<◌, Ok};
ghost use Rattle.paper.specs.Cases as Cases;
ghost use Rattle.lists.specs.Listed.{loop_at, Facts};
ghost use Rattle.lists.specs.Turns as Turns;

use crate::numbers;
use crate::rows::bad_rows;
use evidence::Head;
use facts::Kept;
use paper::{Loop, Previous, Refusal, Sets, Trailer};

// The lists when their facts are judged: rules 2 to 4 and 7 are passed.
#[derive(Clone, Copy)]
pub struct FactLists<'a> {
    pub trailer: Trailer,
    pub loops: &'a [u32],
    pub heads: &'a [u16],
    pub rows: &'a [u16],
    ghost facts: { Facts trailer loops.now heads.now rows.now },
}

impl<'a> FactLists<'a> {
    // The scope with the number w. A loop that passed rule 7 has nodes for ends, so they are narrow.
    fn range_of(&self, w: u16) -> Loop
        requires { w ≢ 65535 → w < self.now.trailer.loops }
        ensures { result ≡ Cases.range_of self.now.trailer.nodes (loop_at self.now.trailer.version self.now.loops.now) w }
    {
        if w == 65535 {
            return layout::whole_graph(self.trailer);
        }
        let l = numbers::loop_at(self.trailer, self.loops, w);
        Loop {
            first: l.first as u16,
            last: l.last as u16,
            bound: l.bound,
            visits: l.visits,
        }
    }

    // 15 and 16, for fact i, which has this head.
    fn weigh(&self, i: u16, h: Head) -> Result<Kept, Refusal>
        requires i_lt_facts { i < self.now.trailer.facts }
        requires stands { Turns.Stands self.now.trailer self.now.loops.now self.now.heads.now self.now.rows.now i h }
        ensures { Turns.Told self.now.trailer self.now.loops.now self.now.heads.now self.now.rows.now i (Turns.body self.now.trailer self.now.loops.now self.now.heads.now self.now.rows.now i) result }
    {
        // how many rows the fact's head names
        let n = self.heads[4 * (i as usize) + 3];
        if n as u32 + h.first as u32 != h.last as u32 + 1 {
            return Err(paper::refuse(15, i as usize));
        }
        let sets = Sets::of(self.trailer.sets);
        if let Some(bad) = bad_rows(self.rows, self.trailer, sets, h, n) {
            return Err(paper::refuse_at(16, i as usize, h.first as usize + bad as usize));
        }
        let end = h.place + (n as usize);
        Ok(Kept {
            previous: Previous {
                block: h.block,
                last: h.last,
            },
            end: end,
        })
    }

    // The turn of fact i, whose rows come after p others, after the previous one.
    fn turn_of(&self, i: u16, previous: Option<Previous>, p: usize) -> Result<Kept, Refusal>
        requires i_lt_facts { i < self.now.trailer.facts }
        requires p_value { p ≡ Turns.before self.now.trailer self.now.loops.now self.now.heads.now self.now.rows.now i }
        ensures { Turns.Told self.now.trailer self.now.loops.now self.now.heads.now self.now.rows.now i (Turns.turn self.now.trailer self.now.loops.now self.now.heads.now self.now.rows.now i previous) result }
    {
        let at = 4 * (i as usize);
        let w = self.heads[at];
        let b = self.heads[at + 1];
        let l = self.heads[at + 2];
        if facts::wrong_head(self.trailer, w, b, l) {
            return Err(paper::refuse(12, i as usize));
        }
        let scope = self.range_of(w);
        if facts::wrong_order(previous, b, scope.first) {
            return Err(paper::refuse(13, i as usize));
        }
        let home = paper::home(b, self.trailer.sets);
        self.weigh(
            i,
            Head {
                place: p,
                first: scope.first,
                last: scope.last,
                block: b,
                limit: l,
                home: home,
            },
        )
    }

    // "then for each fact in turn 12, 13, 15 and 16"
    pub fn fact_rules(&self) -> Result<(), Refusal>
        ensures { result ≡ Turns.turns self.now.trailer self.now.loops.now self.now.heads.now self.now.rows.now (Ok tt) }
    {
        let mut p: usize = 0;
        let mut previous = None;
        for i in 0..self.trailer.facts {
            let kept = self.turn_of(i, previous, p)?;
            previous = Some(kept.previous);
            p = kept.end;
        }
        Ok(())
    }
}
