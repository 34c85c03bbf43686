// What the pass over the facts looks up.
ghost use Rattle.paper.specs.Files as Files;
ghost use Rattle.charge.specs.Chained as Chained;
ghost use Rattle.charge.specs.NextOut as NextOut;

use crate::asked::Asked;
use crate::sizes::{CHAINED, LOOPS};

// The next loop out of each loop, and the nodes by buckets.
#[derive(Clone, Copy)]
pub struct Pass<'a> {
    pub of: Asked<'a>,
    pub outers: &'a [u16; LOOPS],
    pub chain: &'a [u16; CHAINED],
    pub ghost loops_out: { NextOut.Outers (Files.case_of of.file.now of.trailer) of.trailer.loops outers.now },
    pub ghost chained: { Chained.Chained (Files.case_of of.file.now of.trailer) of.trailer.nodes chain.now },
}
