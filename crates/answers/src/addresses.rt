// Operation 2, the block of an address.
ghost use Rattle.std.specs.Prelude.{◌≡◌, length};
ghost use Rattle.frames.specs.Frames as Frames;
ghost use Rattle.frames.specs.Places as Places;

use frames::operations::Operation;
use frames::{heads, places};
use paper::{Address, Block, Refusal};

// The arguments: address, line size.
fn asked(request: &[u8; places::ARGUMENTS_ROOM]) -> Result<Block, Refusal>
    ensures { result ≡ Frames.block_asked request.now }
{
    let address = Address(layout::u32_at(request, 0));
    bolgverk::block_of(address, layout::u32_at(request, places::BLOCK_LINE_SIZE))
}

pub fn answer(request: &[u8; places::ARGUMENTS_ROOM], out: &mut [u8]) -> usize
    requires { length out.old ≡ Places.lent_at }
    ensures { Frames.Answered (Frames.block_frame (Frames.block_asked request.now)) result out.new }
{
    let head = heads::block(asked(request));
    frames::front_before(
        out,
        places::LENT_AT,
        Operation::Block,
        places::BLOCK_WIDTH,
        head,
    )
}
