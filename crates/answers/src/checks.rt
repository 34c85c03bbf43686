// Operation 5, the check.
ghost use Rattle.std.specs.Prelude.{◌≡◌, ◌+◌, ◌*◌, ◌≤◌, length, drop};
ghost use Rattle.paper.specs.Files.{u32_at};
ghost use Rattle.paper.specs.Verdicts.{lent_after};
ghost use Rattle.frames.specs.Frames as Frames;
ghost use Rattle.frames.specs.Places as Places;

use frames::operations::Operation;
use frames::{heads, places};
use paper::Refusal;

// The arguments: the number of interruptions, the number of bytes, the number of numbers. The lent memory: the file, then the numbers.
fn checked(
    request: &[u8; places::ARGUMENTS_ROOM],
    lent: &[u8],
    numbers: &mut [u64],
) -> Result<(), Refusal>
    requires numbers_len { length numbers.old ≡ u32_at request.now Places.check_numbers }
    requires numbers_in_bounds { u32_at request.now Places.check_file + 8 * length numbers.old ≤ length lent.now }
    ensures value { result ≡ Frames.check_asked request.now lent.now }
    ensures numbers_after { numbers.new ≡ Frames.numbers_after request.now lent.now }
{
    let interruptions = layout::u16_at(request, 0);
    let n = layout::u32_at(request, places::CHECK_FILE) as usize;
    frames::numbers::read_list(&lent[n..], numbers);
    bolgverk::check(&lent[0..n], interruptions, numbers)
}

// The file is not wanted any more when the head is put just before the numbers, over its end.
fn framed(request: &[u8; places::ARGUMENTS_ROOM], bytes: &mut [u8], numbers: &mut [u64]) -> usize
    requires numbers_len { length numbers.old ≡ u32_at request.now Places.check_numbers }
    requires bytes_len { length bytes.old ≡ Places.lent_at + (u32_at request.now Places.check_file + 8 * length numbers.old) }
    ensures { Frames.Answered (Frames.check_frame (Frames.check_asked request.now (drop Places.lent_at bytes.old)) (Frames.numbers_after request.now (drop Places.lent_at bytes.old))) result bytes.new }
{
    let end = places::LENT_AT + layout::u32_at(request, places::CHECK_FILE) as usize;
    let head = heads::check(checked(request, &bytes[places::LENT_AT..], numbers));
    let at = frames::front_before(bytes, end, Operation::Check, 0, head);
    frames::numbers::put_list(bytes, end, numbers);
    at
}

pub fn answer(
    request: &[u8; places::ARGUMENTS_ROOM],
    bytes: &mut [u8],
    numbers: &mut [u64],
) -> usize
    requires request_in_bounds { u32_at request.now Places.check_numbers ≤ length numbers.old }
    requires bytes_len { length bytes.old ≡ Places.lent_at + (u32_at request.now Places.check_file + 8 * u32_at request.now Places.check_numbers) }
    ensures { Frames.Answered (Frames.check_frame (Frames.check_asked request.now (drop Places.lent_at bytes.old)) (Frames.numbers_after request.now (drop Places.lent_at bytes.old))) result bytes.new }
{
    let m = layout::u32_at(request, places::CHECK_NUMBERS) as usize;
    framed(request, bytes, &mut numbers[0..m])
}
