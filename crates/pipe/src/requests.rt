// One request of each operation whose lists have room in the whole run's: its lent memory is read, the answer is made where it lies, and what stands from its place on is written.
ghost use Rattle.std.specs.Prelude.{◌≡◌, ◌≤◌, length};
ghost use Rattle.frames.specs.Places.{lent_at};

use crate::channel::{Channel, End};
use crate::limits;
use crate::room::{Room, count};
use frames::operations::Operation;
use frames::places::{self, ARGUMENTS_ROOM, LENT_AT};
use std::io::{Read, Write};

// A step, the block of an address or the set of a block: no lent memory.
fn placed(operation: Operation, request: &[u8; ARGUMENTS_ROOM], bytes: &mut [u8]) -> usize
    requires { length bytes.old ≡ lent_at }
    ensures { result ≤ lent_at }
{
    match operation {
        Operation::Step => answers::steps::answer(request, bytes),
        Operation::Block => answers::addresses::answer(request, bytes),
        _ => answers::sets::answer(request, bytes),
    }
}

pub fn short<R: Read, W: Write>(
    channel: &mut Channel<R, W>,
    operation: Operation,
    request: &[u8; ARGUMENTS_ROOM],
    room: &mut Room,
) -> Result<(), End> {
    let whole = &mut *room.bytes;
    let bytes = &mut whole[0..LENT_AT];
    let at = placed(operation, request, bytes);
    channel.write(&bytes[at..])
}

// The arguments end with the number of blocks and the number of marks.
pub fn trace<R: Read, W: Write>(
    channel: &mut Channel<R, W>,
    request: &[u8; ARGUMENTS_ROOM],
    room: &mut Room,
) -> Result<(), End> {
    let n = count(request, places::TRACE_ACCESSES, limits::accesses())?;
    let m = count(request, places::TRACE_MARKS, limits::accesses())?;
    let blocks = &mut *room.blocks;
    let whole = &mut *room.bytes;
    let bytes = &mut whole[0..LENT_AT + 2 * n + m];
    channel.read(&mut bytes[LENT_AT..])?;
    let at = answers::traces::answer(request, bytes, blocks);
    channel.write(&bytes[at..])
}

// The arguments end with the number of bytes and the number of numbers.
pub fn check<R: Read, W: Write>(
    channel: &mut Channel<R, W>,
    request: &[u8; ARGUMENTS_ROOM],
    room: &mut Room,
) -> Result<(), End> {
    let n = count(request, places::CHECK_FILE, limits::file())?;
    let m = count(request, places::CHECK_NUMBERS, limits::numbers())?;
    let numbers = &mut *room.numbers;
    let whole = &mut *room.bytes;
    let bytes = &mut whole[0..LENT_AT + n + 8 * m];
    channel.read(&mut bytes[LENT_AT..])?;
    let at = answers::checks::answer(request, bytes, numbers);
    channel.write(&bytes[at..])
}

// The arguments end with the number of bytes and the number of numbers. The rows have room where a trace has its blocks.
pub fn find<R: Read, W: Write>(
    channel: &mut Channel<R, W>,
    request: &[u8; ARGUMENTS_ROOM],
    room: &mut Room,
) -> Result<(), End> {
    let n = count(request, places::FIND_FILE, limits::file())?;
    let m = count(request, places::FIND_NUMBERS, limits::found())?;
    let rows = &mut *room.blocks;
    let whole = &mut *room.bytes;
    let bytes = &mut whole[0..LENT_AT + n + 2 * m];
    channel.read(&mut bytes[LENT_AT..])?;
    let at = answers::finds::answer(request, bytes, rows);
    channel.write(&bytes[at..])
}
