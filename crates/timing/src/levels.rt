// A file with its costs, and the loops of it that are steps already.
ghost use Rattle.std.specs.Prelude.{◌≤◌, length};
ghost use Rattle.paper.specs.Files.{case_of};
ghost use Rattle.paper.specs.Known.{Laid, Shaped};
ghost use Rattle.timing.specs.Ready.{Ready};

use paper::{MOST_LOOPS, Trailer};

// A cost for each node.
#[derive(Clone, Copy)]
pub struct Costed<'a> {
    pub file: &'a [u8],
    pub trailer: Trailer,
    pub costs: &'a [u32],
    pub ghost laid: { Laid file.now trailer },
    pub ghost shaped: { Shaped (case_of file.now trailer) },
    pub ghost nodes_in_bounds: { trailer.nodes ≤ length costs.now },
}

// The loops from number k on are steps: which step has a node, and how long each takes.
#[derive(Clone, Copy)]
pub struct Level<'a> {
    pub of: Costed<'a>,
    pub k: u16,
    pub steps: &'a [u32],
    pub times: &'a [u64; MOST_LOOPS],
    pub ghost ready: { Ready of.file.now of.trailer of.costs.now k steps.now times.now },
}
