// The room that requests are answered in, and whether it is enough for one.
ghost use Rattle.std.specs.Prelude.{◌≡◌, ◌+◌, ◌≤◌, IfOk};
ghost use Rattle.paper.specs.Files.{u32_at};
ghost use Rattle.frames.specs.Places.{arguments_room};

use crate::channel::{End, Why};
use answers::{ACCESSES, NUMBERS, ROOM};
use frames::places::ARGUMENTS_ROOM;

// `bytes` is for a request's lent memory and for what stands before it in the answer, `blocks` for a trace's blocks or the rows of a writer or a finder, `numbers` for those of a check or a salvage.
// Whoever uses a field gives it a name first and takes a part of that: the checker has no rule for a part behind a reference.
#[derive(Drop)]
pub struct Room<'a> {
    pub bytes: &'a mut [u8; ROOM],
    pub blocks: &'a mut [u16; ACCESSES],
    pub numbers: &'a mut [u64; NUMBERS],
}

// How many elements the argument at a place asks for, if there is room for them.
pub fn count(request: &[u8; ARGUMENTS_ROOM], at: usize, room: usize) -> Result<usize, End>
    requires { at + 4 ≤ arguments_room }
    ensures value { IfOk result (λ n. n ≡ u32_at request.now at) }
    ensures bound { IfOk result (λ n. n ≤ room) }
{
    let n = layout::u32_at(request, at) as usize;
    if n > room {
        return Err(End::Stopped(Why::NoRoom));
    }
    Ok(n)
}
