// One request of the writer. Its lists but the rows are short, and have room here.
use crate::channel::{Channel, End};
use crate::limits;
use crate::room::{Room, count};
use answers::{EDGES, HEADS, LOOPS, NODES, OUT};
use frames::places::{self, ARGUMENTS_ROOM, LENT_AT};
use std::io::{Read, Write};

// The arguments end with how many numbers each list has, and how many bytes are lent.
pub fn write<R: Read, W: Write>(
    channel: &mut Channel<R, W>,
    request: &[u8; ARGUMENTS_ROOM],
    room: &mut Room,
) -> Result<(), End> {
    let n = count(request, places::WRITE_NODES, limits::nodes())?;
    let e = count(request, places::WRITE_EDGES, limits::edges())?;
    let l = count(request, places::WRITE_LOOPS, limits::loops())?;
    let h = count(request, places::WRITE_HEADS, limits::heads())?;
    let r = count(request, places::WRITE_ROWS, limits::accesses())?;
    let m = count(request, places::WRITE_LENT, OUT)?;
    let rows = &mut *room.blocks;
    let whole = &mut *room.bytes;
    let bytes = &mut whole[0..LENT_AT + 2 * n + 2 * e + 4 * l + 2 * h + 2 * r + m];
    channel.read(&mut bytes[LENT_AT..])?;
    let mut nodes = [0u16; NODES];
    let mut edges = [0u16; EDGES];
    let mut loops = [0u32; LOOPS];
    let mut heads = [0u16; HEADS];
    let at = answers::writes::answer(
        request, bytes, &mut nodes, &mut edges, &mut loops, &mut heads, rows,
    );
    channel.write(&bytes[at..])
}
