// The arms of choices as vertex sets. The graph is not handed in: what is known of it stands in the clauses, as in `rules`.
ghost use Rattle.std.specs.Prelude.{◌≡◌, not, ◌&&◌, ◌||◌, ℕ, ◌<◌, get_or};
ghost use Rattle.model.specs.Limits.{most_vertices};
ghost use Rattle.model.specs.Range.{count};
ghost use Rattle.model.specs.Graph.{Shape, mate};
ghost use Rattle.vertices.specs.Members.{has};
ghost use Rattle.graph.specs.Words.{Upward, OutOf, IsArm, follows};

use model::limits::MOST_VERTICES;
use vertices::{insert, lowest, minus, rest, union};

// What can be reached from the vertices of `first` without entering one of `shut`: those that are not shut and are of `first` or have
// an edge from one that is reached. Each is entered once, and no other is looked at.
fn arm(out: &[u64; MOST_VERTICES], first: u64, shut: u64) -> u64
    ensures { (v : ℕ) → has result v ≡ (not (has shut v) && (has first v || follows out.now (has result) v)) }
{
    let mut seen = shut;
    let mut next = minus(first, shut);
    while next != 0 {
        let v = lowest(next);
        seen = insert(seen, v);
        next = minus(union(next, out[v]), seen);
    }
    minus(seen, shut)
}

// The two arms of the choice from s to `end`: its first vertices are the two to which s has an edge, the lower one first.
pub fn arm_pair(out: &[u64; MOST_VERTICES], s: usize, end: usize) -> [u64; 2]
    requires { (s < most_vertices) × (count 64 (has (get_or out.now s 0)) ≡ 2) }
    ensures { (t : Shape) (n : ℕ) → Upward t n → OutOf t out.now → mate t s ≡ end
        → (i : ℕ) → IsArm t s i (get_or result i 0) }
{
    let firsts = out[s];
    let second = rest(firsts);
    let shut = if end < MOST_VERTICES {
        insert(0, end)
    } else {
        0
    };
    let lower = arm(out, minus(firsts, second), shut);
    let higher = arm(out, second, shut);
    [lower, higher]
}
