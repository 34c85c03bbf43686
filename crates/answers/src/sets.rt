// Operation 3, the set of a block.
ghost use Rattle.std.specs.Prelude.{◌≡◌, length};
ghost use Rattle.frames.specs.Frames as Frames;
ghost use Rattle.frames.specs.Places as Places;

use frames::operations::Operation;
use frames::{heads, places};
use paper::{Block, Refusal, SetNumber};

// The arguments: block, sets.
fn asked(request: &[u8; places::ARGUMENTS_ROOM]) -> Result<SetNumber, Refusal>
    ensures { result ≡ Frames.set_asked request.now }
{
    let block = Block(layout::u16_at(request, 0));
    bolgverk::set_of(block, request[places::SET_SETS])
}

pub fn answer(request: &[u8; places::ARGUMENTS_ROOM], out: &mut [u8]) -> usize
    requires { length out.old ≡ Places.lent_at }
    ensures { Frames.Answered (Frames.set_frame (Frames.set_asked request.now)) result out.new }
{
    let head = heads::set(asked(request));
    frames::front_before(
        out,
        places::LENT_AT,
        Operation::Set,
        places::SET_WIDTH,
        head,
    )
}
