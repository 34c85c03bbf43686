// The case file's versions, and W: "over a whole walk its header is visited at most W times".
ghost use Rattle.std.specs.Prelude.{◌≡◌};
ghost use Rattle.paper.specs.Graphs as Graphs;
ghost use Rattle.paper.specs.Records as Records;

// "Version 1 is read as without W", "Version 2 of the case file gives each loop a further 32-bit number W". `Records` of specs/ has the same names.
pub const WITHOUT_W: u8 = 1;

pub const WITH_W: u8 = 2;

// "4,294,967,295 says no such limit"
pub const UNLIMITED: u32 = 4294967295;

// 2: "versions other than 1 and 2"
pub fn is_bad_version(version: u8) -> bool
    ensures { result ≡ Records.bad_version version }
{
    !((version == WITHOUT_W) | (version == WITH_W))
}

// "the lesser of W and" n, which is n where there is no W
pub fn at_most(visits: u32, n: u64) -> u64
    ensures { result ≡ Graphs.at_most visits n }
{
    if visits == UNLIMITED {
        return n;
    }
    let w = visits as u64;
    if w < n {
        return w;
    }
    n
}
