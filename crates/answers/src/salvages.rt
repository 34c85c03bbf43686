// Operation 8, the salvage. Its file stands by itself: what is written while it is read has other bytes.
ghost use Rattle.std.specs.Prelude.{◌≡◌, ◌++◌, ◌+◌, ◌*◌, ◌≤◌, length, take, drop};
ghost use Rattle.paper.specs.Files.{u32_at};
ghost use Rattle.frames.specs.Frames as Frames;
ghost use Rattle.frames.specs.Places as Places;

use frames::{heads, numbers, places};
use paper::{Refusal, Salvage};

// The arguments: the number of bytes of the file, of lent bytes, of numbers. The lent memory: the file, then the lent bytes, then the numbers.
fn salvaged(
    request: &[u8; places::ARGUMENTS_ROOM],
    file: &[u8],
    bytes: &mut [u8],
    numbers: &mut [u64],
) -> Result<Salvage, Refusal>
    requires file_len { length file.now ≡ u32_at request.now 0 }
    requires numbers_len { length numbers.old ≡ u32_at request.now Places.salvage_numbers }
    requires numbers_in_bounds { Places.lent_at + u32_at request.now Places.salvage_out + 8 * length numbers.old ≤ length bytes.old }
    ensures value { result ≡ (Frames.salvage_asked request.now (file.now ++ drop Places.lent_at bytes.old)).answer }
    ensures bytes_after { take (Places.lent_at + u32_at request.now Places.salvage_out) bytes.new ≡ take Places.lent_at bytes.old ++ (Frames.salvage_asked request.now (file.now ++ drop Places.lent_at bytes.old)).out }
    ensures numbers_after { numbers.new ≡ (Frames.salvage_asked request.now (file.now ++ drop Places.lent_at bytes.old)).list }
{
    let end = places::LENT_AT + layout::u32_at(request, places::SALVAGE_OUT) as usize;
    numbers::read_list(&bytes[end..], numbers);
    bolgverk::salvage(file, &mut bytes[places::LENT_AT..end], numbers)
}

// The numbers are put where they stood, and the head before the lent bytes.
fn framed(
    request: &[u8; places::ARGUMENTS_ROOM],
    file: &[u8],
    bytes: &mut [u8],
    numbers: &mut [u64],
) -> usize
    requires file_len { length file.now ≡ u32_at request.now 0 }
    requires numbers_len { length numbers.old ≡ u32_at request.now Places.salvage_numbers }
    requires bytes_len { length bytes.old ≡ Places.lent_at + u32_at request.now Places.salvage_out + 8 * length numbers.old }
    ensures { Frames.Answered (Frames.salvage_frame (Frames.salvage_asked request.now (file.now ++ drop Places.lent_at bytes.old))) result bytes.new }
{
    let end = places::LENT_AT + layout::u32_at(request, places::SALVAGE_OUT) as usize;
    let head = heads::salvage(salvaged(request, file, bytes, numbers));
    numbers::put_list(bytes, end, numbers);
    frames::salvage_front(bytes, places::SALVAGE_AT, head);
    places::SALVAGE_AT
}

pub fn answer(
    request: &[u8; places::ARGUMENTS_ROOM],
    file: &[u8],
    bytes: &mut [u8],
    numbers: &mut [u64],
) -> usize
    requires file_len { length file.now ≡ u32_at request.now 0 }
    requires request_in_bounds { u32_at request.now Places.salvage_numbers ≤ length numbers.old }
    requires bytes_len { length bytes.old ≡ Places.lent_at + u32_at request.now Places.salvage_out + 8 * u32_at request.now Places.salvage_numbers }
    ensures { Frames.Answered (Frames.salvage_frame (Frames.salvage_asked request.now (file.now ++ drop Places.lent_at bytes.old))) result bytes.new }
{
    let d = layout::u32_at(request, places::SALVAGE_NUMBERS) as usize;
    framed(request, file, bytes, &mut numbers[0..d])
}
