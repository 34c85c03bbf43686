// Where things lie in a request and in an answer, by name: the one place in code that has their sizes and offsets. specs/Places.antt has the definitions.

// An answer's head: the operation, the refusal's number, its two places.
pub const HEAD_SIZE: usize = 18;

// What follows the head first: a step's outcome, a block, a set, the misses of a trace, a file's length, a limit; of a salvage the length of the rest and the number of dropped facts.
pub const OUTCOME_WIDTH: usize = 1;

pub const BLOCK_WIDTH: usize = 2;

pub const SET_WIDTH: usize = 1;

pub const MISSES_WIDTH: usize = 8;

pub const LENGTH_WIDTH: usize = 8;

pub const LIMIT_WIDTH: usize = 2;

pub const COUNT_WIDTH: usize = 8;

// A step's answer, with eight lines and bits, is the longest without lent memory. The lent memory stands after room for it.
pub const LENT_AT: usize = HEAD_SIZE + OUTCOME_WIDTH + 16 + 1;

// Where a salvage's answer begins: before the lent memory, and it goes on with it.
pub const SALVAGE_AT: usize = LENT_AT - HEAD_SIZE - LENGTH_WIDTH - COUNT_WIDTH;

// "the byte 0, then one byte that says why, then the number of frames answered before it, u64"
pub const LAST_SIZE: usize = 10;

// The arguments of each operation. A writer's take most.
pub const STEP_SIZE: usize = 21;

pub const BLOCK_SIZE: usize = 8;

pub const SET_SIZE: usize = 3;

pub const TRACE_SIZE: usize = 11;

pub const CHECK_SIZE: usize = 10;

pub const WRITE_SIZE: usize = 28;

pub const FIND_SIZE: usize = 12;

pub const SALVAGE_SIZE: usize = 12;

pub const ARGUMENTS_ROOM: usize = WRITE_SIZE;

// Arguments that do not stand first.
pub const STEP_WAYS: usize = 1;

pub const STEP_LINES: usize = 2;

pub const STEP_BITS: usize = 18;

pub const STEP_BLOCK: usize = 19;

pub const BLOCK_LINE_SIZE: usize = 4;

pub const SET_SETS: usize = 2;

pub const TRACE_WAYS: usize = 1;

pub const TRACE_SETS: usize = 2;

pub const TRACE_ACCESSES: usize = 3;

pub const TRACE_MARKS: usize = 7;

pub const CHECK_FILE: usize = 2;

pub const CHECK_NUMBERS: usize = 6;

pub const WRITE_POLICY: usize = 1;

pub const WRITE_WAYS: usize = 2;

pub const WRITE_SETS: usize = 3;

pub const WRITE_NODES: usize = 4;

pub const WRITE_EDGES: usize = 8;

pub const WRITE_LOOPS: usize = 12;

pub const WRITE_HEADS: usize = 16;

pub const WRITE_ROWS: usize = 20;

pub const WRITE_LENT: usize = 24;

pub const FIND_BLOCK: usize = 2;

pub const FIND_FILE: usize = 4;

pub const FIND_NUMBERS: usize = 8;

pub const SALVAGE_OUT: usize = 4;

pub const SALVAGE_NUMBERS: usize = 8;

// All ways in one pass: its answer, eight counts after the head, has bytes of its own.
pub const WAYS_SIZE: usize = 5;

pub const WAYS_ACCESSES: usize = 1;

pub const COUNTS_SIZE: usize = HEAD_SIZE + 64;

// The time: its answer, the head and the time, has bytes of its own.
pub const TIME_SIZE: usize = 14;

pub const TIME_PENALTY: usize = 2;

pub const TIME_FILE: usize = 6;

pub const TIME_COSTS: usize = 10;

pub const TIME_WIDTH: usize = 8;

pub const CYCLES_SIZE: usize = HEAD_SIZE + TIME_WIDTH;
