// Operation 10, the time.
ghost use Rattle.std.specs.Prelude.{◌≡◌, ◌+◌, ◌*◌, ◌≤◌, length};
ghost use Rattle.paper.specs.Files.{u32_at};
ghost use Rattle.frames.specs.Frames as Frames;
ghost use Rattle.frames.specs.Places as Places;

use frames::operations::Operation;
use frames::{heads, numbers, places};
use paper::Refusal;

// The arguments: interruptions, penalty, the number of bytes, the number of costs. The lent memory: the file, then the costs.
fn timed(
    request: &[u8; places::ARGUMENTS_ROOM],
    lent: &[u8],
    costs: &mut [u32],
) -> Result<u64, Refusal>
    requires costs_len { length costs.old ≡ u32_at request.now Places.time_costs }
    requires costs_in_bounds { u32_at request.now Places.time_file + 4 * length costs.old ≤ length lent.now }
    ensures { result ≡ Frames.time_asked request.now lent.now }
{
    let interruptions = layout::u16_at(request, 0);
    let penalty = layout::u32_at(request, places::TIME_PENALTY);
    let n = layout::u32_at(request, places::TIME_FILE) as usize;
    numbers::read_list_at(lent, n, costs);
    bolgverk::time(&lent[0..n], costs, penalty, interruptions)
}

fn framed(request: &[u8; places::ARGUMENTS_ROOM], lent: &[u8], costs: &mut [u32], out: &mut [u8])
    requires costs_len { length costs.old ≡ u32_at request.now Places.time_costs }
    requires costs_in_bounds { u32_at request.now Places.time_file + 4 * length costs.old ≤ length lent.now }
    requires out_len { length out.old ≡ Places.time_size }
    ensures { out.new ≡ Frames.time_frame (Frames.time_asked request.now lent.now) }
{
    let head = heads::time(timed(request, lent, costs));
    frames::front(out, 0, Operation::Time as u8, places::TIME_WIDTH, head);
}

// The answer has bytes of its own, as that of all ways, and fills them.
pub fn answer(
    request: &[u8; places::ARGUMENTS_ROOM],
    lent: &[u8],
    costs: &mut [u32],
    out: &mut [u8],
)
    requires request_in_bounds { u32_at request.now Places.time_costs ≤ length costs.old }
    requires request_in_bounds_2 { u32_at request.now Places.time_file + 4 * u32_at request.now Places.time_costs ≤ length lent.now }
    requires out_len { length out.old ≡ Places.time_size }
    ensures { out.new ≡ Frames.time_frame (Frames.time_asked request.now lent.now) }
{
    let m = layout::u32_at(request, places::TIME_COSTS) as usize;
    framed(request, lent, &mut costs[0..m], out);
}
