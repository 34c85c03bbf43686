// One request of the salvage. Its file has room here, because what is lent is written while the file is read.
use crate::channel::{Channel, End};
use crate::limits;
use crate::room::{Room, count};
use answers::SALVAGE;
use frames::places::{self, ARGUMENTS_ROOM, LENT_AT};
use std::io::{Read, Write};

// The arguments: the number of bytes of the file, of lent bytes, of numbers. The file is read first, and then what is lent.
fn salvaged<R: Read, W: Write>(
    channel: &mut Channel<R, W>,
    request: &[u8; ARGUMENTS_ROOM],
    room: &mut Room,
    space: &mut [u8; SALVAGE],
) -> Result<(), End> {
    let n = count(request, 0, limits::salvage())?;
    let m = count(request, places::SALVAGE_OUT, limits::salvage())?;
    let d = count(request, places::SALVAGE_NUMBERS, limits::numbers())?;
    let file = &mut space[0..n];
    channel.read(file)?;
    let numbers = &mut *room.numbers;
    let whole = &mut *room.bytes;
    let bytes = &mut whole[0..LENT_AT + m + 8 * d];
    channel.read(&mut bytes[LENT_AT..])?;
    let at = answers::salvages::answer(request, file, bytes, numbers);
    channel.write(&bytes[at..])
}

// The room for the file is made here and lent whole to `salvaged`, where its length is known by its type.
pub fn salvage<R: Read, W: Write>(
    channel: &mut Channel<R, W>,
    request: &[u8; ARGUMENTS_ROOM],
    room: &mut Room,
) -> Result<(), End> {
    let mut space = [0u8; SALVAGE];
    salvaged(channel, request, room, &mut space)
}
