// Bytes to numbers. "Little-endian."
#![tactic(auto, unfolding(paper::specs::Files::u16_at, paper::specs::Files::u32_at))]

ghost use Rattle.std.specs.Prelude.{◌≡◌, ◌+◌, ◌≤◌, length};
ghost use Rattle.paper.specs.Files as Files;

pub fn u16_at(file: &[u8], p: usize) -> u16
    requires { p + 2 ≤ length file.now }
    ensures { result ≡ Files.u16_at file.now p }
{
    file[p] as u16 + 256 * (file[p + 1] as u16)
}

pub fn u32_at(file: &[u8], p: usize) -> u32
    requires { p + 4 ≤ length file.now }
    ensures { result ≡ Files.u32_at file.now p }
{
    let low = u16_at(file, p) as u32;
    let high = u16_at(file, p + 2) as u32;
    low + 65536 * high
}
