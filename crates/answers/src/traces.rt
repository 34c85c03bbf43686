// Operation 4, the trace run.
ghost use Rattle.std.specs.Prelude.{◌≡◌, ◌+◌, ◌*◌, ◌≤◌, length, drop};
ghost use Rattle.paper.specs.Files.{u32_at};
ghost use Rattle.frames.specs.Frames as Frames;
ghost use Rattle.frames.specs.Places as Places;

use frames::operations::Operation;
use frames::{heads, places};
use paper::Refusal;

// The arguments: policy, ways, sets, the number of blocks, the number of marks. The lent memory: the blocks, then the marks.
fn traced(
    request: &[u8; places::ARGUMENTS_ROOM],
    bytes: &mut [u8],
    blocks: &mut [u16],
) -> Result<usize, Refusal>
    requires blocks_len { length blocks.old ≡ u32_at request.now Places.trace_accesses }
    requires blocks_in_bounds { Places.lent_at + 2 * length blocks.old ≤ length bytes.old }
    ensures value { result ≡ (Frames.trace_asked request.now (drop Places.lent_at bytes.old)).answer }
    ensures bytes_after { drop (Places.lent_at + 2 * length blocks.old) bytes.new ≡ (Frames.trace_asked request.now (drop Places.lent_at bytes.old)).marks }
{
    let marks = places::LENT_AT + 2 * blocks.len();
    frames::numbers::read_list(&bytes[places::LENT_AT..], blocks);
    bolgverk::trace_run(
        request[0],
        request[places::TRACE_WAYS],
        request[places::TRACE_SETS],
        blocks,
        &mut bytes[marks..],
    )
}

// The blocks are not wanted any more when the head and the misses are put just before the marks, over their end.
fn framed(request: &[u8; places::ARGUMENTS_ROOM], bytes: &mut [u8], blocks: &mut [u16]) -> usize
    requires blocks_len { length blocks.old ≡ u32_at request.now Places.trace_accesses }
    requires blocks_in_bounds { Places.lent_at + 2 * length blocks.old ≤ length bytes.old }
    ensures { Frames.Answered (Frames.trace_frame (Frames.trace_asked request.now (drop Places.lent_at bytes.old))) result bytes.new }
{
    let marks = places::LENT_AT + 2 * blocks.len();
    let head = heads::trace(traced(request, bytes, blocks));
    frames::front_before(bytes, marks, Operation::Trace, places::MISSES_WIDTH, head)
}

pub fn answer(request: &[u8; places::ARGUMENTS_ROOM], bytes: &mut [u8], blocks: &mut [u16]) -> usize
    requires request_in_bounds { u32_at request.now Places.trace_accesses ≤ length blocks.old }
    requires request_in_bounds_2 { Places.lent_at + 2 * u32_at request.now Places.trace_accesses ≤ length bytes.old }
    ensures { Frames.Answered (Frames.trace_frame (Frames.trace_asked request.now (drop Places.lent_at bytes.old))) result bytes.new }
{
    let n = layout::u32_at(request, places::TRACE_ACCESSES) as usize;
    framed(request, bytes, &mut blocks[0..n])
}
