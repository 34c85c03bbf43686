// One request of each operation whose answer has bytes of its own: for all ways, and for a time.
ghost use Rattle.std.specs.Prelude.{◌≡◌, ◌+◌, ◌*◌, ◌≤◌, length};
ghost use Rattle.paper.specs.Files.{u32_at};
ghost use Rattle.frames.specs.Places as Places;
ghost use Rattle.frames.specs.Room as Rooms;

use crate::channel::{Channel, End};
use crate::limits;
use crate::room::{Room, count};
use answers::{ACCESSES, COSTS};
use frames::places::{self, ARGUMENTS_ROOM};
use std::io::{Read, Write};

// The bytes that are read and answered, the blocks, are as many as the request says.
fn counted<R: Read, W: Write>(
    channel: &mut Channel<R, W>,
    request: &[u8; ARGUMENTS_ROOM],
    bytes: &mut [u8],
    blocks: &mut [u16; ACCESSES],
) -> Result<(), End>
    requires request_in_bounds { u32_at request.now Places.ways_accesses ≤ Rooms.accesses }
    requires bytes_len { length bytes.old ≡ 2 * u32_at request.now Places.ways_accesses }
{
    channel.read(bytes)?;
    let mut out = [0u8; places::COUNTS_SIZE];
    answers::ways::answer(request, bytes, blocks, &mut out);
    channel.write(&out)
}

// The arguments end with the number of blocks.
pub fn all_ways<R: Read, W: Write>(
    channel: &mut Channel<R, W>,
    request: &[u8; ARGUMENTS_ROOM],
    room: &mut Room,
) -> Result<(), End> {
    let n = count(request, places::WAYS_ACCESSES, limits::accesses())?;
    let blocks = &mut *room.blocks;
    let whole = &mut *room.bytes;
    counted(channel, request, &mut whole[0..2 * n], blocks)
}

// The bytes that are read and answered, the file and the costs, are as many as the request says.
fn timed<R: Read, W: Write>(
    channel: &mut Channel<R, W>,
    request: &[u8; ARGUMENTS_ROOM],
    bytes: &mut [u8],
) -> Result<(), End>
    requires request_bound { u32_at request.now Places.time_costs ≤ Rooms.costs }
    requires bytes_len { length bytes.old ≡ u32_at request.now Places.time_file + 4 * u32_at request.now Places.time_costs }
{
    channel.read(bytes)?;
    let mut costs = [0u32; COSTS];
    let mut out = [0u8; places::CYCLES_SIZE];
    answers::times::answer(request, bytes, &mut costs, &mut out);
    channel.write(&out)
}

// The arguments end with the number of bytes and the number of costs.
pub fn time<R: Read, W: Write>(
    channel: &mut Channel<R, W>,
    request: &[u8; ARGUMENTS_ROOM],
    room: &mut Room,
) -> Result<(), End> {
    let n = count(request, places::TIME_FILE, limits::file())?;
    let m = count(request, places::TIME_COSTS, limits::costs())?;
    let whole = &mut *room.bytes;
    timed(channel, request, &mut whole[0..n + 4 * m])
}
