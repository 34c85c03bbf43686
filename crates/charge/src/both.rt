// What the sets' bounds are made of.
ghost use Rattle.charge.specs.Summed.{Summed};

use crate::asked::Asked;
use crate::sums::Sums;

// The sums of all facts and of all nodes. (The file is lent for the clauses.)
#[derive(Clone, Copy)]
pub struct Both<'a> {
    pub of: Asked<'a>,
    pub facts: &'a Sums,
    pub nodes: &'a Sums,
    pub ghost summed: { Summed of.file.now of.trailer of.interruptions facts.now.whole facts.now.parts nodes.now.whole nodes.now.parts },
}
