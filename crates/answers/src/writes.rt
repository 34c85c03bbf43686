// Operation 6, the writer.
ghost use Rattle.std.specs.Prelude.{◌≡◌, ◌+◌, ◌≤◌, length, drop};
ghost use Rattle.paper.specs.Files.{u32_at};
ghost use Rattle.frames.specs.Frames as Frames;
ghost use Rattle.frames.specs.Places as Places;

use frames::operations::Operation;
use frames::{heads, numbers, places};
use paper::Refusal;

// The lists, one after another from where the lent memory begins, and the place after them.
fn read_lists(
    request: &[u8; places::ARGUMENTS_ROOM],
    bytes: &[u8],
    nodes: &mut [u16],
    edges: &mut [u16],
    loops: &mut [u32],
    heads: &mut [u16],
    rows: &mut [u16],
) -> usize
    requires counted { Frames.Counted request.now nodes.old edges.old loops.old heads.old rows.old }
    requires request_in_bounds { Places.lent_at + Frames.bytes_from request.now ≤ length bytes.now }
    ensures rows_after { Frames.content_with request.now nodes.new edges.new loops.new heads.new rows.new ≡ Frames.content_asked request.now (drop Places.lent_at bytes.now) }
    ensures value { result ≡ Places.lent_at + Frames.bytes_from request.now }
{
    let after_nodes = numbers::read_list_at(bytes, places::LENT_AT, nodes);
    let after_edges = numbers::read_list_at(bytes, after_nodes, edges);
    let after_loops = numbers::read_list_at(bytes, after_edges, loops);
    let after_heads = numbers::read_list_at(bytes, after_loops, heads);
    numbers::read_list_at(bytes, after_heads, rows)
}

// The arguments: version, policy, ways, sets, how many numbers each list has. The lent bytes stand from a place on.
fn written(
    request: &[u8; places::ARGUMENTS_ROOM],
    bytes: &mut [u8],
    at: usize,
    nodes: &[u16],
    edges: &[u16],
    loops: &[u32],
    heads: &[u16],
    rows: &[u16],
) -> Result<usize, Refusal>
    requires { at ≤ length bytes.old }
    ensures value { result ≡ (Frames.wrote (Frames.content_with request.now nodes.now edges.now loops.now heads.now rows.now) (drop at bytes.old)).answer }
    ensures bytes_after { drop at bytes.new ≡ (Frames.wrote (Frames.content_with request.now nodes.now edges.now loops.now heads.now rows.now) (drop at bytes.old)).after }
{
    bolgverk::write(
        request[0],
        request[places::WRITE_POLICY],
        request[places::WRITE_WAYS],
        request[places::WRITE_SETS],
        nodes,
        edges,
        loops,
        heads,
        rows,
        &mut bytes[at..],
    )
}

// The lists are not wanted any more when the head and the length are put just before the lent bytes, over their end.
fn framed(
    request: &[u8; places::ARGUMENTS_ROOM],
    bytes: &mut [u8],
    nodes: &mut [u16],
    edges: &mut [u16],
    loops: &mut [u32],
    heads: &mut [u16],
    rows: &mut [u16],
) -> usize
    requires counted { Frames.Counted request.now nodes.old edges.old loops.old heads.old rows.old }
    requires request_in_bounds { Places.lent_at + Frames.bytes_from request.now ≤ length bytes.old }
    ensures { Frames.Answered (Frames.write_frame (Frames.write_asked request.now (drop Places.lent_at bytes.old))) result bytes.new }
{
    let lent = read_lists(request, bytes, nodes, edges, loops, heads, rows);
    let head = heads::write(written(request, bytes, lent, nodes, edges, loops, heads, rows));
    frames::front_before(bytes, lent, Operation::Write, places::LENGTH_WIDTH, head)
}

pub fn answer(
    request: &[u8; places::ARGUMENTS_ROOM],
    bytes: &mut [u8],
    nodes: &mut [u16],
    edges: &mut [u16],
    loops: &mut [u32],
    heads: &mut [u16],
    rows: &mut [u16],
) -> usize
    requires request_in_bounds { u32_at request.now Places.write_nodes ≤ length nodes.old }
    requires request_in_bounds_2 { u32_at request.now Places.write_edges ≤ length edges.old }
    requires request_in_bounds_3 { u32_at request.now Places.write_loops ≤ length loops.old }
    requires request_in_bounds_4 { u32_at request.now Places.write_heads ≤ length heads.old }
    requires request_in_bounds_5 { u32_at request.now Places.write_rows ≤ length rows.old }
    requires request_in_bounds_6 { Places.lent_at + Frames.bytes_from request.now ≤ length bytes.old }
    ensures { Frames.Answered (Frames.write_frame (Frames.write_asked request.now (drop Places.lent_at bytes.old))) result bytes.new }
{
    let n = layout::u32_at(request, places::WRITE_NODES) as usize;
    let e = layout::u32_at(request, places::WRITE_EDGES) as usize;
    let l = layout::u32_at(request, places::WRITE_LOOPS) as usize;
    let h = layout::u32_at(request, places::WRITE_HEADS) as usize;
    let r = layout::u32_at(request, places::WRITE_ROWS) as usize;
    framed(
        request,
        bytes,
        &mut nodes[0..n],
        &mut edges[0..e],
        &mut loops[0..l],
        &mut heads[0..h],
        &mut rows[0..r],
    )
}
