// What is read of a fact, once.
ghost use Rattle.std.specs.Prelude.{◌≡◌, ◌≤◌};
ghost use Rattle.paper.specs.Files as Files;
ghost use Rattle.paper.proofs.Meaning.{SoundHead};
ghost use Rattle.charge.specs.Tables as Tables;

use crate::asked::Asked;
use paper::Loop;

// A fact's head, the range of its scope, and where the next fact stands.
#[derive(Clone, Copy)]
pub struct Head {
    pub scope: u16,
    pub block: u16,
    pub limit: u16,
    pub range: Loop,
    pub next: usize,
}

impl Asked<'_> {
    // The fact at p: its head, then 16 bytes a row. The head is read before its scope is looked up: read in both branches of that, it made the compiler keep the fact's place in a register through rule 17's loop, and the check 2 % slower.
    pub fn head_at(&self, p: usize) -> Head
        requires sound_head { SoundHead (Files.case_of self.now.file.now self.now.trailer) (Files.fact_at self.now.file.now p) }
        requires p_bound { Files.fact_end self.now.file.now self.now.trailer p ≤ Files.end_at self.now.file.now }
        ensures { result ≡ Tables.head_of self.now.file.now self.now.trailer p }
    {
        let scope = layout::scope_at(self.file, p);
        let block = layout::block_at(self.file, p);
        let limit = layout::limit_at(self.file, p);
        let range = layout::range_at(self.file, self.trailer, scope);
        Head {
            scope,
            block,
            limit,
            range,
            next: layout::fact_end(self.file, p, range),
        }
    }
}
