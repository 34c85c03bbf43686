// Operation 9, all ways in one pass.
ghost use Rattle.std.specs.Prelude.{◌≡◌, ◌*◌, ◌≤◌, length};
ghost use Rattle.paper.specs.Files.{u32_at};
ghost use Rattle.frames.specs.Frames as Frames;
ghost use Rattle.frames.specs.Places as Places;

use frames::operations::Operation;
use frames::{Head, heads, numbers, places};
use paper::Refusal;

// The arguments: sets, the number of blocks. The lent memory: the blocks.
fn counted(
    request: &[u8; places::ARGUMENTS_ROOM],
    lent: &[u8],
    blocks: &mut [u16],
) -> Result<[u64; 8], Refusal>
    requires blocks_len { length blocks.old ≡ u32_at request.now Places.ways_accesses }
    requires blocks_in_bounds { 2 * length blocks.old ≤ length lent.now }
    ensures { result ≡ Frames.ways_asked request.now lent.now }
{
    numbers::read_list(lent, blocks);
    bolgverk::all_ways(request[0], blocks)
}

// The answer: the head, eight counts.
fn put_answer(out: &mut [u8], head: Head, counts: [u64; 8])
    requires { length out.old ≡ Places.counts_size }
    ensures { out.new ≡ Frames.ways_text head counts }
{
    let after_head = frames::front(out, 0, Operation::AllWays as u8, 0, head);
    numbers::put_list(out, after_head, &counts);
}

fn framed(request: &[u8; places::ARGUMENTS_ROOM], lent: &[u8], blocks: &mut [u16], out: &mut [u8])
    requires blocks_len { length blocks.old ≡ u32_at request.now Places.ways_accesses }
    requires blocks_in_bounds { 2 * length blocks.old ≤ length lent.now }
    requires out_len { length out.old ≡ Places.counts_size }
    ensures { out.new ≡ Frames.ways_frame (Frames.ways_asked request.now lent.now) }
{
    match counted(request, lent, blocks) {
        Ok(counts) => put_answer(out, heads::found(0), counts),
        Err(r) => put_answer(out, heads::refused(r, 0), [0; 8]),
    }
}

// The answer is longer than what stands before lent memory: it has bytes of its own, and fills them.
pub fn answer(
    request: &[u8; places::ARGUMENTS_ROOM],
    lent: &[u8],
    blocks: &mut [u16],
    out: &mut [u8],
)
    requires request_in_bounds { u32_at request.now Places.ways_accesses ≤ length blocks.old }
    requires request_in_bounds_2 { 2 * u32_at request.now Places.ways_accesses ≤ length lent.now }
    requires out_len { length out.old ≡ Places.counts_size }
    ensures { out.new ≡ Frames.ways_frame (Frames.ways_asked request.now lent.now) }
{
    let n = layout::u32_at(request, places::WAYS_ACCESSES) as usize;
    framed(request, lent, &mut blocks[0..n], out);
}
