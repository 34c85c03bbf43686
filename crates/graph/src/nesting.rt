// Rule 7: the loops, nested or apart.
ghost use Rattle.std.specs.Prelude.{◌≡◌, ◌<◌};
ghost use Rattle.paper.specs.Lists.{some};
ghost use Rattle.layout.specs.Firsts.{first};
ghost use Rattle.paper.specs.Graphs as Graphs;
ghost use Rattle.graph.specs.Wide.{as_loop};

use crate::shape::{Shape, WideLoop};
use paper::MOST_BOUND;

#[tactic(auto, unfolding(paper::specs::Graphs::crosses))]
fn crosses(a: WideLoop, b: WideLoop) -> bool
    ensures { result ≡ Graphs.crosses (as_loop a) (as_loop b) }
{
    (b.first <= a.last) & (a.last < b.last)
}

// Whether l crosses one of the i loops before it.
fn crossed<S: Shape>(shape: &S, i: u16, l: WideLoop) -> bool
    requires { i < (S.told shape.now).loops }
    ensures { result ≡ some (λ j. Graphs.crosses ((S.told shape.now).loop j) (as_loop l)) i }
{
    for j in 0..i {
        if crosses(shape.loop_at(j), l) {
            return true;
        }
    }
    false
}

// Rule 7 for l, loop i; h is the header of the loop before.
fn wrong_loop<S: Shape>(shape: &S, i: u16, h: u32, l: WideLoop) -> bool
    requires { i < (S.told shape.now).loops }
    ensures { result ≡ Graphs.wrong_loop (S.told shape.now).nodes (S.told shape.now).loop i h (as_loop l) }
{
    (l.last < l.first)
        | ((shape.nodes() as u32 <= l.last)
            | ((l.bound < 1)
                | ((MOST_BOUND < l.bound)
                    | ((l.visits < 1) | (((0 < i) & (l.first <= h)) | crossed(shape, i, l))))))
}

// The least loop that breaks rule 7.
pub fn first_bad_loop<S: Shape>(shape: &S) -> Option<u16>
    ensures { result ≡ first (Graphs.bad_loop (S.told shape.now)) (S.told shape.now).loops }
{
    let mut h: u32 = 0;
    for i in 0..shape.loops() {
        let l = shape.loop_at(i);
        if wrong_loop(shape, i, h, l) {
            return Some(i);
        }
        h = l.first;
    }
    None
}
