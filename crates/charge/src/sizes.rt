// How large the tables are. The reasons stand in specs/Sizes.
pub const NODES: usize = 1024;

pub const LOOPS: usize = 64;

pub const SETS: usize = 64;
// the limit of a node that no fact covers
pub const NO_LIMIT: u16 = 9;
// the same in the table of the nodes' limits, which has a byte for each
pub const UNCOVERED: u8 = 9;
// a set's places in a table by limit
pub const LIMITS: usize = 10;

pub const SETS_BY_LIMITS: usize = LIMITS * SETS;

pub const BUCKETS: u16 = 1024;

pub const CHAINED: usize = BUCKETS as usize + NODES;
