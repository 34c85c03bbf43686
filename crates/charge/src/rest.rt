// What comes after the facts.
ghost use Rattle.paper.specs.Bounds as Bounds;
ghost use Rattle.paper.specs.Files as Files;
ghost use Rattle.charge.specs.Chained as Chained;
ghost use Rattle.charge.specs.Tables as Tables;

use crate::asked::Asked;
use crate::both::Both;
use crate::sizes::{NODES, SETS, SETS_BY_LIMITS};
use crate::sums::Sums;

impl Asked<'_> {
    // The nodes, then the sets. Their tables stand in a function of their own, so that the stack holds them only where the facts' are no longer needed: the compiler puts both into one place.
    pub fn charge_rest(&self, cover: &[u8; NODES], facts: &Sums, numbers: &mut [u64])
        requires covered { Chained.Covered (Files.case_of self.now.file.now self.now.trailer) self.now.trailer.facts cover.now }
        requires facts_added { Tables.FactsAdded (Files.case_of self.now.file.now self.now.trailer) self.now.interruptions self.now.trailer.facts facts.now.whole facts.now.parts }
        requires part { Tables.Part (Files.case_of self.now.file.now self.now.trailer) self.now.interruptions 0 0 self.now.trailer.facts numbers.old numbers.old }
        ensures { Tables.Part (Files.case_of self.now.file.now self.now.trailer) self.now.interruptions (Bounds.total_bound (Files.case_of self.now.file.now self.now.trailer) self.now.interruptions) self.now.trailer.sets self.now.trailer.facts numbers.old numbers.new }
    {
        let mut nodes = Sums {
            whole: [0; SETS],
            parts: [0; SETS_BY_LIMITS],
        };
        self.charge_nodes(cover, &mut nodes);
        let both = Both {
            of: *self,
            facts,
            nodes: &nodes,
        };
        both.charge_sets(numbers);
    }
}
