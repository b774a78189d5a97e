// A close look from a tick down, from line to line. Where both ends of a line fit the bound, so does all of it; and because W rises,
// its lower end clears what lies below as far as the bound has room for it.
#![tactic(auto)]

ghost use Rattle.std.specs.Prelude.{ℕ, ◌+◌, ◌*◌, ◌^◌, ◌≤◌, ◌<◌};
ghost use Rattle.model.specs.Limits.{most_tick};
ghost use Rattle.curve.specs.Charts.{curves};
ghost use Rattle.slopes.specs.Lines.{Falls};
ghost use Rattle.slopes.specs.Searches.{Same};
ghost use Rattle.look.specs.Clearing.{Followed, Looked};

use bound::stop::bound_of;
use rough::{clear_roughly, low_tick};
use slopes::lines::{Line, Search};
use units::Ticks;

// A tick that overruns.
#[derive(Clone, Copy)]
pub struct Over(pub Ticks);

// Follows the line that ends at tick `top` down to its lower end, or to `fine` if that comes first. Gives the tick from which on all up to
// `top` is clear, or one of the line that overruns.
fn follow_down(bound: u64, p: u64, top: u64, fine: u64, line: Line) -> Result<u64, Over>
    requires bound_nonzero { (0 < bound) × (fine ≤ top) × (p * line.value.0 + bound < 2 ^ 64) × (bound * top < 2 ^ 64) }
    requires run_bound { line.slope * line.run.0 ≤ line.value.0 }
    ensures { (w : ℕ → ℕ) → ((x y : ℕ) → x ≤ y → w x ≤ w y) → Falls w top line → Followed (λ x. p * w x) bound top fine result }
{
    if bound * top < p * line.value.0 {
        return Err(Over(Ticks(top)));
    }
    let run = line.run.0.min(top - fine);
    let low = top - run;
    let w = line.value.0 - line.slope * run;
    if bound * low < p * w {
        return Err(Over(Ticks(low)));
    }
    Ok(low.min(low_tick(p, bound, w)))
}

// Looks at every tick from `fine` up to, not with, the end: first roughly, and at what is left from line to line. How far ticks go (`most_tick`, and
// one more) stands in the clauses and not in `Ticks`, which also holds what callers hand in, and one tick more.
pub fn look(search: &mut Search, fine: Ticks, end: Ticks) -> Result<(), Over>
    requires le_fine { (1 ≤ fine.0) × (end.0 ≤ most_tick + 1) }
    ensures same { Same search.old search.new }
    ensures found { Looked search.old.load.now.rack (curves search.old.load.now.tasks.now) fine.0 end.0 result }
{
    if end.0 <= fine.0 {
        return Ok(());
    }
    let rack = search.load.rack;
    let bound = bound_of(rack);
    let mut left = clear_roughly(search.load, Ticks(end.0 - 1)).0;
    while fine.0 < left {
        let top = left - 1;
        let line = search.lines_at(Ticks(top));
        left = follow_down(bound, rack.speed.p, top, fine.0, line)?;
    }
    Ok(())
}
