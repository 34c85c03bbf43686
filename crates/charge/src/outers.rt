// E: "its entries the lesser of W and that outer number", the header visits of the next loop out: its header's count, and 1 where there is none.
ghost use Rattle.std.specs.Prelude.{◌≡◌, ◌≢◌, ◌<◌};
ghost use Rattle.paper.specs.Files as Files;
ghost use Rattle.paper.specs.Graphs as Graphs;
ghost use Rattle.charge.specs.NextOut as NextOut;
ghost use Rattle.charge.specs.Tables as Tables;

use crate::asked::Asked;
use crate::heads::Head;
use crate::pass::Pass;
use crate::sizes::LOOPS;

impl Asked<'_> {
    // The next loop out of loop j, plus 1; 0 where there is none. Of loops that end before this header, those between one and the next out of it end before it too, and are passed over.
    fn next_out(&self, outers: &[u16; LOOPS], j: u16) -> u16
        requires outers { NextOut.Outers (Files.case_of self.now.file.now self.now.trailer) j outers.now }
        requires j_lt_loops { j < self.now.trailer.loops }
        ensures { result ≡ NextOut.next_out (Files.case_of self.now.file.now self.now.trailer) j }
    {
        let header = layout::loop_at(self.file, self.trailer, j).first;
        let mut c = j;
        // `while`: c goes from a loop to the next one out of it.
        while 0 < c {
            let at = c - 1;
            if header <= layout::loop_at(self.file, self.trailer, at).last {
                return c;
            }
            c = outers[at as usize];
        }
        0
    }

    // The next loop out of each loop.
    pub fn chain_loops(&self, outers: &mut [u16; LOOPS])
        requires { NextOut.Outers (Files.case_of self.now.file.now self.now.trailer) 0 outers.old }
        ensures { NextOut.Outers (Files.case_of self.now.file.now self.now.trailer) self.now.trailer.loops outers.new }
    {
        for j in 0..self.trailer.loops {
            outers[j as usize] = self.next_out(outers, j);
        }
    }
}

impl Pass<'_> {
    // The header visits of the next loop out of loop w, "1 outside all loops".
    fn outer_of(&self, w: u16) -> u64
        requires { w < self.now.of.trailer.loops }
        ensures { result ≡ Graphs.outer (Files.case_of self.now.of.file.now self.now.of.trailer) (Files.loop_at self.now.of.file.now self.now.of.trailer w) }
    {
        let c = self.outers[w as usize];
        if c == 0 {
            return 1;
        }
        let header = layout::loop_at(self.of.file, self.of.trailer, c - 1).first as usize;
        self.of.counts[header] as u64
    }

    // E of the fact at p, of which h was read: "the whole graph with one entry".
    pub fn entries_of(&self, p: usize, h: Head) -> u64
        requires h_value { h ≡ Tables.head_of self.now.of.file.now self.now.of.trailer p }
        requires scope_lt_loops { h.scope ≢ 65535 → h.scope < self.now.of.trailer.loops }
        ensures { result ≡ Graphs.entries (Files.case_of self.now.of.file.now self.now.of.trailer) (Files.fact_at self.now.of.file.now p) }
    {
        if h.scope == 65535 {
            return 1;
        }
        let n = self.outer_of(h.scope);
        paper::at_most(h.range.visits, n)
    }
}
