// The policies, their numbers, and what differs between them as far as it is a number or a test: `Policies` of specs/ has all parts of each side by side.
ghost use Rattle.std.specs.Prelude.{◌≡◌, ◌<◌, ◌≤◌, MatchOption, true, false};
ghost use Rattle.paper.specs.Machines.{offered};
ghost use Rattle.paper.specs.Policies as Policies;
ghost use Rattle.paper.specs.PolicyNumbers.{number_of};

// "policy (0 LRU, 1 FIFO, 2 NMRU)"; "Policy 3 is tree replacement"
pub const LRU: u8 = 0;

pub const FIFO: u8 = 1;

pub const NMRU: u8 = 2;

pub const TREE: u8 = 3;

#[derive(Clone, Copy, PartialEq, Eq)]
pub enum Policy {
    Lru,
    Fifo,
    Nmru,
    Tree,
}

impl Policy {
    // The policy with this number, if there is one.
    pub fn of(number: u8) -> Option<Policy>
        ensures { MatchOption result (Policies.last_policy < number) (λ p. number_of p ≡ number) }
    {
        match number {
            LRU => Some(Policy::Lru),
            FIFO => Some(Policy::Fifo),
            NMRU => Some(Policy::Nmru),
            TREE => Some(Policy::Tree),
            _ => None,
        }
    }

    // "A set has k ways": the policy with this number, if there is one and it has so many.
    pub fn with_ways(number: u8, ways: u8) -> Option<Policy>
        ensures { MatchOption result (offered number ways ≡ false) (λ p. (number_of p ≡ number) × (offered number ways ≡ true)) }
    {
        let policy = Policy::of(number)?;
        if policy.has_ways(ways) {
            Some(policy)
        } else {
            None
        }
    }

    // "LRU, FIFO 1 to 8; NMRU 2 to 8"; the tree "with 2, 4 or 8 ways"
    pub fn has_ways(self, ways: u8) -> bool
        ensures { result ≡ (Policies.parts_of (number_of self)).ways ways }
    {
        match self {
            Policy::Lru | Policy::Fifo => (ways <= 8) & (1 <= ways),
            Policy::Nmru => (ways <= 8) & (2 <= ways),
            Policy::Tree => (ways == 2) | ((ways == 4) | (ways == 8)),
        }
    }

    // "the bits are 0 for LRU and FIFO; for NMRU the bits from k on are 0 and at least one of the low k is 0"; the tree's "legal state has bits 0 from k-1 on": those below this number.
    pub fn bits_below(self, k: usize) -> u16
        requires { k ≤ 8 }
        ensures { result ≡ (Policies.parts_of (number_of self)).bits k }
    {
        let ones: u16 = 255 >> (8 - k);
        match self {
            Policy::Lru | Policy::Fifo => 1,
            Policy::Nmru => ones,
            Policy::Tree => ones / 2 + 1,
        }
    }
}

// The two that follow are of a number, as a caller has it, and every number gets an answer: one above the last has the last one's parts.

// The same of a policy's number.
pub fn bits_below(policy: u8, k: usize) -> u16
    requires { k ≤ 8 }
    ensures { result ≡ (Policies.parts_of policy).bits k }
{
    match Policy::of(policy) {
        Some(p) => p.bits_below(k),
        None => Policy::Tree.bits_below(k),
    }
}

// "Set bound: for LRU and NMRU, A. For FIFO, the least of A and" the floors. For the tree "the sum A".
pub fn has_floors(policy: u8) -> bool
    ensures { result ≡ (Policies.parts_of policy).floors }
{
    policy == FIFO
}
