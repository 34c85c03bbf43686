// "Nodes 1 to 1,024, edges 0 to 4,096, loops 0 to 64, facts 0 to 256, B from 1 to 1,000,000". `Ceilings` of specs/ has the same names.
pub const MOST_NODES: usize = 1024;

pub const MOST_EDGES: usize = 4096;

pub const MOST_LOOPS: usize = 64;

pub const MOST_FACTS: usize = 256;

pub const MOST_BOUND: u32 = 1000000;

// "the program reads at most 65,536 bytes"
pub const LONGEST_INPUT: usize = 65536;

// "321 64-bit numbers": "the total, 64 set bounds, 256 fact bounds". `Bounds` of specs/ has the same names.
pub const LIST_LENGTH: usize = 321;

pub const SETS_FROM: usize = 1;

pub const FACTS_FROM: usize = 65;

// A row's number: below 8 it is "the number of blocks", 8 says "many", and 9 that "b has not been fetched".
pub const MANY: u16 = 8;

pub const UNFETCHED: u16 = 9;
