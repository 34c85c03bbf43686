// The next-bits table for eight ways and the tree's for 2, 4 and 8, as the bytes that lie beside the board manual: one line a pattern, the pattern in binary, the line that the tree's miss takes, and then the next bits for each line.
#![tactic(auto)]

ghost use Rattle.std.specs.Prelude.{◌≡◌, true, ◌-◌, ◌^◌, ◌≤◌, ◌<◌, length};
ghost use Rattle.paper.specs.Machines.{offered};
ghost use Rattle.paper.specs.Patterns as Patterns;
ghost use Rattle.paper.specs.Policies.{tree_policy};
ghost use Rattle.paper.specs.Trees as Trees;
ghost use Rattle.patterns.specs.Shown.{Shown, Shape, after_of, miss_of, line_of};
ghost use Rattle.puts.specs.Put.{Fits, Put};

// 256 lines of 81 bytes.
pub const LENGTH: usize = 20736;

// 2 lines of 8 bytes, 8 of 22 and 128 of 74.
pub const TREE_LENGTH: usize = 9664;

// So many digits of the bits, the highest first.
fn binary(out: &mut [u8], at: usize, bits: u8, w: usize) -> usize
    requires w_bound { w ≤ 8 }
    requires fits { Fits out.old at (Patterns.binary bits w) }
    ensures { Put out.old at (Patterns.binary bits w) result out.new }
{
    let mut to = at;
    for i in (0..w).rev() {
        out[to] = b'0' + (bits >> i) % 2;
        to += 1;
    }
    to
}

// The tree's bits after an access of line j.
fn turned(k: usize, p: usize, j: usize) -> u8
    requires k_value { offered tree_policy k ≡ true }
    requires p_bound { p < 2 ^ (k - 1) }
    requires j_lt_k { j < k }
    ensures { result ≡ Trees.turned k p j }
{
    trees::tables().turn(k, p as u8, 1 << j)
}

// The line that the tree's miss takes.
fn taken(k: usize, p: usize) -> u8
    requires k_value { offered tree_policy k ≡ true }
    requires p_bound { p < 2 ^ (k - 1) }
    ensures { result ≡ Trees.tree_victim k p }
{
    let at_miss = trees::tables().missed(k, p as u8);
    u32::trailing_zeros((at_miss % 256) as u32) as u8
}

// The tree's line at a miss, behind a space; of NMRU the bits alone do not say it.
fn miss(out: &mut [u8], at: usize, tree: bool, k: usize, p: usize) -> usize
    requires shown { Shown tree k p }
    requires fits { Fits out.old at (miss_of tree k p) }
    ensures { Put out.old at (miss_of tree k p) result out.new }
{
    if !tree {
        return at;
    }
    let digit = [b' ', b'0' + taken(k, p)];
    print::word(out, at, &digit)
}

// The bits after an access of line j.
fn after(tree: bool, k: usize, p: usize, j: usize) -> u8
    requires shown { Shown tree k p }
    requires j_lt_k { j < k }
    ensures { result ≡ after_of tree k p j }
{
    if tree {
        return turned(k, p, j);
    }
    next::next_bits().after(p as u8, j)
}

// The next bits for each line, behind a space.
fn next(out: &mut [u8], at: usize, tree: bool, k: usize, w: usize, p: usize) -> usize
    requires w_bound { w ≤ 8 }
    requires shown { Shown tree k p }
    requires fits { Fits out.old at (Patterns.next_from (after_of tree k p) w 0 k) }
    ensures { Put out.old at (Patterns.next_from (after_of tree k p) w 0 k) result out.new }
{
    let mut to = at;
    for j in 0..k {
        let after_space = print::word(out, to, b" ");
        to = binary(out, after_space, after(tree, k, p, j), w);
    }
    to
}

fn line(out: &mut [u8], at: usize, tree: bool, k: usize, w: usize, p: usize) -> usize
    requires w_bound { w ≤ 8 }
    requires shown { Shown tree k p }
    requires fits { Fits out.old at (line_of tree k w p) }
    ensures { Put out.old at (line_of tree k w p) result out.new }
{
    let after_pattern = binary(out, at, p as u8, w);
    let after_miss = miss(out, after_pattern, tree, k, p);
    let after_next = next(out, after_miss, tree, k, w, p);
    print::word(out, after_next, b"\n")
}

// The lines of n patterns, which are all that k ways have.
fn lines(out: &mut [u8], at: usize, tree: bool, k: usize, w: usize, n: usize) -> usize
    requires w_bound { w ≤ 8 }
    requires shape { Shape tree k n }
    requires fits { Fits out.old at (Patterns.patterns_from (line_of tree k w) 0 n) }
    ensures { Put out.old at (Patterns.patterns_from (line_of tree k w) 0 n) result out.new }
{
    let mut to = at;
    for p in 0..n {
        to = line(out, to, tree, k, w, p);
    }
    to
}

// The whole text, which fills the bytes.
pub fn patterns(out: &mut [u8; LENGTH])
    ensures out_after { out.new ≡ Patterns.patterns }
    ensures out_len { length out.new ≡ 20736 }
{
    lines(out, 0, false, 8, 8, 256);
}

// The tree's, for 2, 4 and 8 ways.
pub fn tree_patterns(out: &mut [u8; TREE_LENGTH])
    ensures out_after { out.new ≡ Patterns.tree_patterns }
    ensures out_len { length out.new ≡ 9664 }
{
    let after_two = lines(out, 0, true, 2, 1, 2);
    let after_four = lines(out, after_two, true, 4, 3, 8);
    lines(out, after_four, true, 8, 7, 128);
}
