// Rows by value: the number and seven slots. No slot is looked at in turn where all can be taken at once.
ghost use Rattle.std.specs.Prelude.{◌≡◌, true, ◌≤◌, ◌<◌, min, max};
ghost use Rattle.search.specs.Steps as Steps;

use paper::{MANY, UNFETCHED};
// A row without blocks: all slots are free.
pub fn plain(n: u16) -> [u16; 8]
    ensures { result ≡ Steps.plain n }
{
    [n, 65535, 65535, 65535, 65535, 65535, 65535, 65535]
}

fn among(r: [u16; 8], c: u16) -> bool
    ensures { result ≡ Steps.among r c }
{
    ((((((r[1] == c) | (r[2] == c)) | (r[3] == c)) | (r[4] == c)) | (r[5] == c)) | (r[6] == c))
        | (r[7] == c)
}

// A comparison of its own, here and in `middle`: with `min` and `max` of std the finder executes up to 7 in a hundred more instructions.
fn lesser(a: u16, b: u16) -> u16
    ensures { result ≡ min a b }
{
    if a < b { a } else { b }
}

fn middle(before: u16, here: u16, c: u16) -> u16
    ensures { result ≡ max before (min here c) }
{
    let low = lesser(here, c);
    if before < low { low } else { before }
}

// c put in its place: a free slot is greater than every block, so each slot becomes the middle one of c, the slot before it and itself.
fn grown(r: [u16; 8], c: u16) -> [u16; 8]
    requires { Steps.number_of r < 65535 }
    ensures { result ≡ Steps.grown r c }
{
    [
        r[0] + 1,
        lesser(r[1], c),
        middle(r[1], r[2], c),
        middle(r[2], r[3], c),
        middle(r[3], r[4], c),
        middle(r[4], r[5], c),
        middle(r[5], r[6], c),
        middle(r[6], r[7], c),
    ]
}

// b has been fetched.
pub fn opened(s: [u16; 8]) -> [u16; 8]
    ensures { result ≡ Steps.opened s }
{
    if s[0] == UNFETCHED { plain(0) } else { s }
}

// A set of n blocks and one more is still fewer than k. (32 bits hold one more than any 16.)
fn still_fits(k: u16, n: u16) -> bool
    ensures value { result ≡ Steps.fits k n }
    ensures n_bound { result ≡ true → n < 65535 }
{
    (n as u32) + 1 < k as u32
}

// One block more, where k blocks are "many".
pub fn put(k: u16, r: [u16; 8], c: u16) -> [u16; 8]
    ensures { result ≡ Steps.put k r c }
{
    if (r[0] == MANY) | among(r, c) {
        return r;
    }
    if still_fits(k, r[0]) {
        return grown(r, c);
    }
    plain(MANY)
}

// The blocks in the first n slots of r put into s.
pub fn put_slots(k: u16, r: [u16; 8], s: [u16; 8], n: u16) -> [u16; 8]
    requires { n ≤ 7 }
    ensures { result ≡ Steps.put_slots k r s n }
{
    let mut all = s;
    for i in 0..n as usize {
        let next = put(k, all, r[i + 1]);
        all = next;
    }
    all
}

// "'many' where they hold as many blocks as the limit found or more": a row for the limit l.
pub fn lowered(l: u16, r: [u16; 8]) -> [u16; 8]
    ensures { result ≡ Steps.lowered l r }
{
    if (r[0] < MANY) & (l <= r[0]) {
        return plain(MANY);
    }
    r
}
