// What rules 6 and 7 look at, wherever it lies: in a file that is laid out, or in lists that are handed over.
#![tactic(auto, unfolding(paper::specs::Files::case_of))]

ghost use Rattle.std.specs.Prelude.{◌≡◌, ◌<◌};
ghost use Rattle.paper.specs.Cases.{Case};
ghost use Rattle.paper.specs.Files.{case_of};
ghost use Rattle.paper.specs.Known.{Laid};
ghost use Rattle.graph.specs.Wide.{as_loop};

use paper::Trailer;

// A loop as it is handed over: in a list its ends have 32 bits like its other numbers.
#[derive(Clone, Copy)]
pub struct WideLoop {
    pub first: u32,
    pub last: u32,
    pub bound: u32,
    pub visits: u32,
}

pub trait Shape {
    // The case that it tells of.
    ghost told: { Self → Case };

    fn nodes(&self) -> u16
        ensures { result ≡ (told self.now).nodes };

    fn edges(&self) -> u16
        ensures { result ≡ (told self.now).edges };

    fn loops(&self) -> u16
        ensures { result ≡ (told self.now).loops };

    // Where edge i starts and where it ends.
    fn edge(&self, i: u16) -> (u16, u16)
        requires { i < (told self.now).edges }
        ensures from { result.0 ≡ (told self.now).from i }
        ensures to { result.1 ≡ (told self.now).to i };

    fn loop_at(&self, j: u16) -> WideLoop
        requires { j < (told self.now).loops }
        ensures { as_loop result ≡ (told self.now).loop j };
}

// A file that is laid out.
#[derive(Clone, Copy)]
pub struct FileShape<'a> {
    pub file: &'a [u8],
    pub trailer: Trailer,
    ghost laid: { Laid file.now trailer },
}

impl<'a> Shape for FileShape<'a> {
    ghost told = { λ s. case_of s.file.now s.trailer };

    fn nodes(&self) -> u16 {
        self.trailer.nodes
    }

    fn edges(&self) -> u16 {
        self.trailer.edges
    }

    fn loops(&self) -> u16 {
        self.trailer.loops
    }

    fn edge(&self, i: u16) -> (u16, u16) {
        (
            layout::from_at(self.file, self.trailer, i),
            layout::to_at(self.file, self.trailer, i),
        )
    }

    fn loop_at(&self, j: u16) -> WideLoop {
        let l = layout::loop_at(self.file, self.trailer, j);
        WideLoop {
            first: l.first as u32,
            last: l.last as u32,
            bound: l.bound,
            visits: l.visits,
        }
    }
}
