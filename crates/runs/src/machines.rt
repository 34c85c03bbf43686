// The machines of a run, but for FIFO's: each steps a set at an access, and keeps from one access to the next what spares the step some work.
ghost use Rattle.std.specs.Prelude.{◌≡◌, ℕ, ◌≤◌};
ghost use Rattle.paper.specs.Machines as Machines;
ghost use Rattle.paper.specs.Policies.{lru_policy, nmru_policy, tree_policy};
ghost use Rattle.paper.specs.Shifts.{shift_at};
ghost use Rattle.runs.specs.TraceRuns.{Stands};

use paper::{Block, Line, NextBits, SetState, Shift, Stepped};
use trees::TreeTables;

// The machine of one policy, with so many ways.
pub trait Machine {
    ghost policy: { ℕ };

    ghost ways: { Self → ℕ };

    fn step(&mut self, state: SetState, block: Block) -> Stepped
        requires { Stands policy (ways self.old) state block.0 }
        ensures value { result ≡ Machines.step policy (ways self.old) state block.0 }
        ensures ways_after { ways self.new ≡ ways self.old };
}

// What was moved last is moved again while the blocks come from the same line.
#[derive(Clone, Copy)]
pub struct Lru {
    k: usize,
    shift: Shift,
    ghost known: { shift ≡ shift_at k shift.weight },
}

impl Lru {
    pub fn new(k: usize) -> Lru
        requires { k ≤ 8 }
        ensures { result.k ≡ k }
    {
        Lru {
            k: k,
            shift: paper::shift_of(k),
        }
    }
}

impl Machine for Lru {
    ghost policy = { lru_policy };

    ghost ways = { λ m. m.k };

    fn step(&mut self, state: SetState, block: Block) -> Stepped {
        let shift = state.shift(self.k, block, self.shift);
        self.shift = shift;
        state.lru(self.k, block, shift)
    }
}

// The line's bit where a block last came in, less 1, as the guess at its line: a block stays in its line until it is lost. Blocks 1,024 apart share a place. Nothing is asked of a guess.
#[derive(Drop)]
pub struct Guesses {
    bits: [u8; 1024],
}

impl Guesses {
    pub fn new() -> Guesses {
        Guesses { bits: [0; 1024] }
    }

    // From 1 to 128 the compiler sees that a guess is below 255.
    fn of(&self, block: Block) -> u8 {
        self.bits[(block.0 % 1024) as usize] % 128 + 1
    }

    // Written at misses only.
    fn note(&mut self, block: Block, line: Line) {
        if !line.hit {
            self.bits[(block.0 % 1024) as usize] = ((line.bit % 256 + 127) % 128) as u8;
        }
    }
}

#[derive(Drop)]
pub struct Nmru<'t, 'g> {
    pub k: usize,
    pub next: NextBits<'t>,
    pub guesses: &'g mut Guesses,
}

impl Machine for Nmru<'_, '_> {
    ghost policy = { nmru_policy };

    ghost ways = { λ m. m.k };

    // A run begins with empty sets and bits 0: the bits alone tell where a missed block goes.
    fn step(&mut self, state: SetState, block: Block) -> Stepped {
        let line = state.line_by_bits(self.k, block, self.guesses.of(block));
        self.guesses.note(block, line);
        state.nmru(self.k, block, line, self.next)
    }
}

#[derive(Drop)]
pub struct Tree<'t, 'g> {
    pub k: usize,
    pub tables: TreeTables<'t>,
    pub guesses: &'g mut Guesses,
}

impl Machine for Tree<'_, '_> {
    ghost policy = { tree_policy };

    ghost ways = { λ m. m.k };

    fn step(&mut self, state: SetState, block: Block) -> Stepped {
        let line = self
            .tables
            .line(state, self.k, block, self.guesses.of(block));
        self.guesses.note(block, line);
        self.tables.step(state, self.k, block, line)
    }
}
