// One step of the search: rows of eight numbers by value, and what an edge makes of the row of its end. `Steps` of crates/search/specs has the definitions.
#![tactic(auto)]

ghost use Rattle.std.specs.Prelude.{◌≡◌, ◌≤◌};
ghost use Rattle.paper.specs.Cases.{Case, Fact};
ghost use Rattle.search.specs.Steps as Steps;
ghost use Rattle.gather.specs.Seeking.{Seeks};

mod rows;
mod sought;

use paper::{MANY, UNFETCHED};
pub use rows::{lowered, plain};
use rows::{opened, put, put_slots};
pub use sought::Sought;

// "u's block where u fetches one of b's set": x counts.
fn counts(q: Sought, x: u16) -> bool
    ensures { (e : Case) → (t : Fact) → Seeks e t q → result ≡ Steps.counts e t x }
{
    (x != 65535) & (q.sets.home(x) == q.home)
}

// The blocks of the set r are put into the row s, and x where it counts.
fn handed(q: Sought, x: u16, r: [u16; 8], s: [u16; 8]) -> [u16; 8]
    requires { Steps.number_of r ≤ 7 }
    ensures { (e : Case) → (t : Fact) → Seeks e t q → result ≡ Steps.handed e t x r s }
{
    let all = put_slots(q.limit, r, s, r[0]);
    if counts(q, x) {
        return put(q.limit, all, x);
    }
    all
}

// For an edge u to v inside the scope, where u fetches x and has row r, and v has row s: v's new row.
pub fn stepped(q: Sought, x: u16, r: [u16; 8], s: [u16; 8]) -> [u16; 8]
    requires { Steps.number_of r ≤ 9 }
    ensures { (e : Case) → (t : Fact) → Seeks e t q → result ≡ Steps.stepped e t x r s }
{
    if s[0] == MANY {
        return s;
    }
    if x == q.block {
        return opened(s);
    }
    if r[0] == UNFETCHED {
        return s;
    }
    if r[0] == MANY {
        return plain(MANY);
    }
    handed(q, x, r, opened(s))
}
