// The latest ends of a task's jobs.
ghost use Rattle.std.specs.Prelude.{◌≡◌, ℕ, ◌≤◌, get_or};
ghost use Rattle.model.specs.Limits.{most_vertices, longest_job};
ghost use Rattle.model.specs.Range.{most, only};
ghost use Rattle.model.specs.Realization.{finish};
ghost use Rattle.vertices.specs.Members.{has};

use model::limits::MOST_VERTICES;
use vertices::{lowest, rest};

// The last end among a set of vertices, 0 where it is empty.
fn last_end(before: u64, ends: &[u64; MOST_VERTICES]) -> u64
    ensures { result ≡ most most_vertices (λ u. only (has before u) (get_or ends.now u 0)) }
{
    let mut last: u64 = 0;
    let mut left = before;
    while left != 0 {
        last = last.max(ends[lowest(left)]);
        left = rest(left);
    }
    last
}

// Fills in when each vertex ends if all that it waits for are present. Edges lead upward, so one pass finds it. It comes before there is a chart, and
// needs the edges in alone.
pub fn latest_ends(
    into: &[u64; MOST_VERTICES],
    times: &[u64; MOST_VERTICES],
    n: usize,
    ends: &mut [u64; MOST_VERTICES],
)
    requires n_le_most_vertices { n ≤ most_vertices }
    requires by_index { (v : ℕ) → get_or times.now v 0 ≤ longest_job }
    ensures { (v : ℕ) → get_or ends.new v 0
        ≡ get_or (finish (λ u w. has (get_or into.now w 0) u) (λ u. get_or times.now u 0) n) v 0 }
{
    *ends = [0; MOST_VERTICES];
    for v in 0..n {
        ends[v] = last_end(into[v], ends) + times[v];
    }
}
