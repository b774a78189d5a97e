// The graph rules that need no bytes. Each function's answer is the rule's own, for any graph that has these words. The graph itself is not
// handed in, so what is known of it (`Upward`, `IsArm`) stands in each clause and in no type.
ghost use Rattle.std.specs.Prelude.{◌≡◌, true, not, ◌&&◌, ℕ, ◌≤◌, ◌<◌, get_or};
ghost use Rattle.model.specs.Limits.{most_vertices};
ghost use Rattle.model.specs.Graph.{Shape, mate, edge, arms, closes, shut, G1, G3, G4, G5, G6};
ghost use Rattle.vertices.specs.Members.{has, meets};
ghost use Rattle.graph.specs.Words.{Upward, Into, OutOf, LinksOf, IsArm, AreArms};

use crate::links::Links;
use model::limits::MOST_VERTICES;
use vertices::{common, has, insert, lowest, meets, minus, rest, size};

// G1: every vertex but the first has an edge in, every vertex but the last an edge out.
pub fn g1(links: &Links, n: usize) -> bool
    requires { n ≤ most_vertices }
    ensures { (t : Shape) → Upward t n → LinksOf t links.now → result ≡ G1 t }
{
    for v in 0..n {
        if v != 0 && links.into[v] == 0 {
            return false;
        }
        if v + 1 != n && links.out[v] == 0 {
            return false;
        }
    }
    true
}

// G3: the start s has two edges out, none of them to the end, and the end has two edges in.
pub fn g3(links: &Links, s: usize, end: usize) -> bool
    requires { (s < most_vertices) × (end < most_vertices) }
    ensures { (t : Shape) (n : ℕ) → Upward t n → LinksOf t links.now → mate t s ≡ end → result ≡ G3 t s }
{
    let firsts = links.out[s];
    size(firsts) == 2 && !has(firsts, end) && size(links.into[end]) == 2
}

// G4: the two arms share no vertex.
fn g4(pair: [u64; 2]) -> bool
    ensures { (t : Shape) (n s : ℕ) → Upward t n → arms t s ≡ 2 → AreArms t s pair → result ≡ G4 t s }
{
    !meets(pair[0], pair[1])
}

// The vertices of an arm that have no edge to another of it.
fn closing(out: &[u64; MOST_VERTICES], arm: u64) -> u64
    ensures { (v : ℕ) → has result v ≡ (has arm v && not (meets (get_or out.now v 0) arm)) }
{
    let mut last = 0;
    let mut left = arm;
    while left != 0 {
        let v = lowest(left);
        if !meets(out[v], arm) {
            last = insert(last, v);
        }
        left = rest(left);
    }
    last
}

// G5 of one arm, where `before` are the vertices with an edge to the end: one vertex closes it, and that one alone leads to the end.
fn closes(out: &[u64; MOST_VERTICES], before: u64, arm: u64) -> bool
    ensures { (t : Shape) (n s i : ℕ) → Upward t n → OutOf t out.now → IsArm t s i arm
        → ((v : ℕ) → has before v ≡ edge t v (mate t s)) → result ≡ closes t s i }
{
    let last = closing(out, arm);
    size(last) == 1 && common(arm, before) == last
}

// G5: both arms close so.
fn g5(links: &Links, end: usize, pair: [u64; 2]) -> bool
    requires { end < most_vertices }
    ensures { (t : Shape) (n s : ℕ) → Upward t n → LinksOf t links.now → mate t s ≡ end
        → G3 t s ≡ true → AreArms t s pair → result ≡ G5 t s }
{
    let before = links.into[end];
    closes(&links.out, before, pair[0]) && closes(&links.out, before, pair[1])
}

// G6 of one arm of the start s: its first vertex may be entered from s, and no other edge comes from outside. It needs the edges in alone.
fn shut(into: &[u64; MOST_VERTICES], arm: u64, s: usize) -> bool
    requires { s < most_vertices }
    ensures { (t : Shape) (n i : ℕ) → Upward t n → Into t into.now → IsArm t s i arm → result ≡ shut t s i }
{
    let first = lowest(arm);
    let mut left = arm;
    while left != 0 {
        let v = lowest(left);
        let inside = if v == first { insert(arm, s) } else { arm };
        if minus(into[v], inside) != 0 {
            return false;
        }
        left = rest(left);
    }
    true
}

// G6: both arms are shut so, by the edges in alone.
fn g6(into: &[u64; MOST_VERTICES], s: usize, pair: [u64; 2]) -> bool
    requires { s < most_vertices }
    ensures { (t : Shape) (n : ℕ) → Upward t n → Into t into.now → arms t s ≡ 2 → AreArms t s pair → result ≡ G6 t s }
{
    shut(into, pair[0], s) && shut(into, pair[1], s)
}

// G4 to G6 at one choice with two arms.
pub fn choice(links: &Links, s: usize, end: usize, pair: [u64; 2]) -> bool
    requires { (s < most_vertices) × (end < most_vertices) }
    ensures { (t : Shape) (n : ℕ) → Upward t n → LinksOf t links.now → mate t s ≡ end
        → G3 t s ≡ true → AreArms t s pair → result ≡ (G4 t s && G5 t s && G6 t s) }
{
    g4(pair) && g5(links, end, pair) && g6(&links.into, s, pair)
}
