// "The loops are handed on as a list of records": they are read from the file into an array, anew for each of rules 8 to 10, and lent to the function that counts.
#![tactic(auto)]

ghost use Rattle.std.specs.Prelude.{◌≡◌, suc, ◌<◌, ◌≤◌, cond, length, get_or};
ghost use Rattle.paper.specs.Known.{Laid};
ghost use Rattle.paper.specs.Cases.{inside};
ghost use Rattle.loops.specs.Counts as Counts;
ghost use Rattle.loops.specs.Counts.{stepped, no_loop, count_in};
ghost use Rattle.loops.specs.Handed.{Handed};

use paper::{Loop, MOST_LOOPS, Trailer};

// What is shown as 0 was too large.
fn taken(visits: u32) -> u64
    ensures value { result ≡ Counts.taken visits }
    ensures upper_bound { result ≤ 4294967296 }
{
    if visits == 0 {
        return 4294967296;
    }
    visits as u64
}

// The header visits of the next loop out, and one loop more, if it has the node: 0 where they are too large.
fn step(visits: u32, l: Loop, node: u16) -> u32
    ensures { result ≡ cond (inside l node) (stepped l visits) visits }
{
    if (l.first <= node) & (node <= l.last) {
        let n = paper::at_most(l.visits, (l.bound as u64) * taken(visits));
        if 4294967295 < n {
            return 0;
        }
        return n as u32;
    }
    visits
}

// A node's count over the loops that are lent.
pub fn count(loops: &[Loop], node: u16) -> u32
    ensures { result ≡ count_in loops.now (length loops.now) node }
{
    let mut visits: u32 = 1;
    for one in loops {
        visits = step(visits, *one, node);
    }
    visits
}

// The file's loops.
pub fn loops_of(file: &[u8], trailer: Trailer) -> [Loop; MOST_LOOPS]
    requires { Laid file.now trailer }
    ensures { Handed file.now trailer result }
{
    let mut loops = [Loop {
        first: 0,
        last: 0,
        bound: 0,
        visits: 0,
    }; MOST_LOOPS];
    for j in 0..trailer.loops {
        loops[j as usize] = layout::loop_at(file, trailer, j);
    }
    loops
}

// The count of loop j's header over the loops up to j. Where rule 7 is kept no later loop has that header, and it is the count of each node that j is the innermost loop of.
pub fn header_count(loops: &[Loop], j: u16) -> u32
    requires { j < length loops.now }
    ensures { result ≡ count_in loops.now (suc j) (get_or loops.now j no_loop).first }
{
    let at = j as usize;
    count(&loops[..=at], loops[at].first)
}
