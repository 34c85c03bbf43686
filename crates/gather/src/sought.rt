// What is sought, and its scope's nodes.
ghost use Rattle.std.specs.Prelude.{◌≡◌, ◌≤◌, ◌<◌, ◌-◌, suc, ◌&&◌, leb};
ghost use Rattle.paper.specs.Ceilings.{most_nodes};

use paper::Sets;

// The scope by its number and by its first and last node, the block b, the ways, b's set, and the number of sets, made ready for whoever asks often where a block lives.
#[derive(Clone, Copy)]
pub struct Sought {
    pub scope: u16,
    pub first: u16,
    pub last: u16,
    pub block: u16,
    pub limit: u16,
    pub home: usize,
    pub sets: Sets,
    pub ghost rises: { first ≤ last },
    pub ghost within: { last < most_nodes },
}

impl Sought {
    // How many nodes the scope has.
    pub fn nodes(self) -> u16
        ensures value { result ≡ suc self.last - self.first }
        ensures upper_bound { result ≤ most_nodes }
    {
        self.last + 1 - self.first
    }

    // Node v is one of the scope.
    pub fn contains(self, v: u16) -> bool
        ensures { result ≡ (leb self.first v && leb v self.last) }
    {
        (self.first <= v) & (v <= self.last)
    }
}
