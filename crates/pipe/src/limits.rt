// "`pipe` has fixed room", as docs/PIPE.md says: `Room` of crates/frames has its numbers, and what `answers` has room for is as many.
ghost use Rattle.std.specs.Prelude.{◌≡◌, ◌+◌, ◌*◌};
ghost use Rattle.frames.specs.Places as Places;
ghost use Rattle.frames.specs.Room as Rooms;

use answers::{ACCESSES, COSTS, EDGES, FILE, FOUND, HEADS, LOOPS, NODES, NUMBERS, SALVAGE};

// A trace has at most so many accesses, and as many marks; a write so many numbers in rows.
pub fn accesses() -> usize
    ensures { result ≡ Rooms.accesses }
{
    ACCESSES
}

// Numbers that a check or a salvage is lent.
pub fn numbers() -> usize
    ensures { result ≡ Rooms.numbers }
{
    NUMBERS
}

// Numbers in a writer's nodes.
pub fn nodes() -> usize
    ensures { result ≡ Rooms.nodes }
{
    NODES
}

// Numbers in a writer's edges.
pub fn edges() -> usize
    ensures { result ≡ Rooms.edges }
{
    EDGES
}

// Numbers in a writer's loops.
pub fn loops() -> usize
    ensures { result ≡ Rooms.loops }
{
    LOOPS
}

// Numbers in a writer's heads.
pub fn heads() -> usize
    ensures { result ≡ Rooms.heads }
{
    HEADS
}

// Numbers in the rows that a finder is lent.
pub fn found() -> usize
    ensures { result ≡ Rooms.found }
{
    FOUND
}

// The bytes of a file that is salvaged, and those that its rest is lent.
pub fn salvage() -> usize
    ensures { result ≡ Rooms.salvage }
{
    SALVAGE
}

// The costs of a time.
pub fn costs() -> usize
    ensures { result ≡ Rooms.costs }
{
    COSTS
}

// The bytes of a file: with a check's numbers it fills the room.
pub fn file() -> usize
    ensures { Places.lent_at + result + 8 * Rooms.numbers ≡ Rooms.bytes }
{
    FILE
}
