// The answers of `pipe`, each made in lent bytes: docs/PIPE.md in words, crates/frames/specs/Frames.antt as definitions. What is read and what is written is the program's.
#![tactic(auto)]

pub mod addresses;
pub mod checks;
pub mod finds;
pub mod salvages;
pub mod sets;
pub mod steps;
pub mod times;
pub mod traces;
pub mod ways;
pub mod writes;

use frames::places;

// The fixed room of docs/PIPE.md.
pub const ACCESSES: usize = 1048576;

pub const FILE: usize = 4300000;

pub const NUMBERS: usize = 4096;

// Numbers in a writer's lists. It has as many in rows as a trace has accesses.
pub const NODES: usize = 4096;

pub const EDGES: usize = 16384;

pub const LOOPS: usize = 1024;

pub const HEADS: usize = 2048;

// Numbers in the rows that a finder is lent.
pub const FOUND: usize = 16384;

// The bytes that a writer is lent.
pub const OUT: usize = 2150000;

// The bytes of a file that is salvaged, and those that its rest is lent.
pub const SALVAGE: usize = 1048576;

// The costs of a time.
pub const COSTS: usize = 4096;

// The bytes have room for what stands before the lent memory, then for the lent memory. A check's takes most.
pub const ROOM: usize = places::LENT_AT + FILE + 8 * NUMBERS;
