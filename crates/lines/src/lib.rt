// The eight lines of a set by value, on plain arrays: looked through, shifted, or one of them replaced. No branch: each of the eight is chosen by a comparison, so that the compiler can take all of them at once.
#![tactic(auto)]

ghost use Rattle.std.specs.Prelude.{◌≡◌, cond, ◌≤◌, eqb, ltb};
ghost use Rattle.lines.specs.Lines.{weighed, kept_after, moved_by, replaced_by};

fn weight_at(x: u16, b: u16, weight: u16) -> u16
    ensures value { result ≡ cond (eqb x b) weight 0 }
    ensures upper_bound { result ≤ weight }
{
    if x == b { weight } else { 0 }
}

// 255 less the value of line j's bit where b stands in line j alone, 0 where it stands in none: a sum of eight, which the compiler takes all at once. The weights fit a byte, fall from line to line,
// and are no powers of two: with 2^j itself it goes from line to line.
pub fn weight(lines: [u16; 8], b: u16) -> u16
    ensures { result ≡ weighed lines b }
{
    let low = weight_at(lines[4], b, 239)
        + (weight_at(lines[5], b, 223)
            + (weight_at(lines[6], b, 191) + weight_at(lines[7], b, 127)));
    weight_at(lines[0], b, 254)
        + (weight_at(lines[1], b, 253)
            + (weight_at(lines[2], b, 251) + (weight_at(lines[3], b, 247) + low)))
}

fn kept_at(least: u16, weight: u16, kept: u16) -> u16
    ensures { result ≡ cond (ltb least weight) 65535 kept }
{
    if least < weight { 65535 } else { kept }
}

// The lines after the one with this weight stay too.
pub fn kept_after(weight: u16, kept: [u16; 8]) -> [u16; 8]
    ensures { result ≡ kept_after weight kept }
{
    [
        kept_at(254, weight, kept[0]),
        kept_at(253, weight, kept[1]),
        kept_at(251, weight, kept[2]),
        kept_at(247, weight, kept[3]),
        kept_at(239, weight, kept[4]),
        kept_at(223, weight, kept[5]),
        kept_at(191, weight, kept[6]),
        kept_at(127, weight, kept[7]),
    ]
}

fn moved_at(kept: u16, above: u16, here: u16) -> u16
    ensures { result ≡ cond (eqb kept 0) above here }
{
    if kept == 0 { above } else { here }
}

// b comes to line 0 and each line one down, but those that are kept stay.
pub fn moved(kept: [u16; 8], lines: [u16; 8], b: u16) -> [u16; 8]
    ensures { result ≡ moved_by kept lines b }
{
    [
        moved_at(kept[0], b, lines[0]),
        moved_at(kept[1], lines[0], lines[1]),
        moved_at(kept[2], lines[1], lines[2]),
        moved_at(kept[3], lines[2], lines[3]),
        moved_at(kept[4], lines[3], lines[4]),
        moved_at(kept[5], lines[4], lines[5]),
        moved_at(kept[6], lines[5], lines[6]),
        moved_at(kept[7], lines[6], lines[7]),
    ]
}

fn replaced_at(own: u16, bit: u16, b: u16, here: u16) -> u16
    ensures { result ≡ cond (eqb bit own) b here }
{
    if bit == own { b } else { here }
}

// b comes to the line whose bit has this value.
pub fn replaced(lines: [u16; 8], bit: u16, b: u16) -> [u16; 8]
    ensures { result ≡ replaced_by lines bit b }
{
    [
        replaced_at(1, bit, b, lines[0]),
        replaced_at(2, bit, b, lines[1]),
        replaced_at(4, bit, b, lines[2]),
        replaced_at(8, bit, b, lines[3]),
        replaced_at(16, bit, b, lines[4]),
        replaced_at(32, bit, b, lines[5]),
        replaced_at(64, bit, b, lines[6]),
        replaced_at(128, bit, b, lines[7]),
    ]
}
