// Operation 7, the finder.
ghost use Rattle.std.specs.Prelude.{◌≡◌, ◌+◌, ◌*◌, ◌≤◌, length, drop};
ghost use Rattle.paper.specs.Files.{u32_at};
ghost use Rattle.frames.specs.Frames as Frames;
ghost use Rattle.frames.specs.Places as Places;

use frames::operations::Operation;
use frames::{heads, numbers, places};
use paper::Refusal;

// The arguments: scope, block, the number of bytes, the number of numbers. The lent memory: the file, then the numbers.
fn sought(
    request: &[u8; places::ARGUMENTS_ROOM],
    lent: &[u8],
    rows: &mut [u16],
) -> Result<Option<u16>, Refusal>
    requires rows_len { length rows.old ≡ u32_at request.now Places.find_numbers }
    requires rows_in_bounds { u32_at request.now Places.find_file + 2 * length rows.old ≤ length lent.now }
    ensures { Frames.FindAsked request.now lent.now result rows.new }
{
    let scope = layout::u16_at(request, 0);
    let block = layout::u16_at(request, places::FIND_BLOCK);
    let n = layout::u32_at(request, places::FIND_FILE) as usize;
    numbers::read_list(&lent[n..], rows);
    bolgverk::find(&lent[0..n], scope, block, rows)
}

// The file is not wanted any more when the head and the limit are put just before the rows, over its end.
fn framed(request: &[u8; places::ARGUMENTS_ROOM], bytes: &mut [u8], rows: &mut [u16]) -> usize
    requires rows_len { length rows.old ≡ u32_at request.now Places.find_numbers }
    requires bytes_len { length bytes.old ≡ Places.lent_at + (u32_at request.now Places.find_file + 2 * length rows.old) }
    ensures { Frames.FindAnswered request.now (drop Places.lent_at bytes.old) result bytes.new }
{
    let end = places::LENT_AT + layout::u32_at(request, places::FIND_FILE) as usize;
    let head = heads::find(sought(request, &bytes[places::LENT_AT..], rows));
    let at = frames::front_before(bytes, end, Operation::Find, places::LIMIT_WIDTH, head);
    numbers::put_list(bytes, end, rows);
    at
}

pub fn answer(request: &[u8; places::ARGUMENTS_ROOM], bytes: &mut [u8], rows: &mut [u16]) -> usize
    requires request_in_bounds { u32_at request.now Places.find_numbers ≤ length rows.old }
    requires bytes_len { length bytes.old ≡ Places.lent_at + (u32_at request.now Places.find_file + 2 * u32_at request.now Places.find_numbers) }
    ensures { Frames.FindAnswered request.now (drop Places.lent_at bytes.old) result bytes.new }
{
    let m = layout::u32_at(request, places::FIND_NUMBERS) as usize;
    framed(request, bytes, &mut rows[0..m])
}
