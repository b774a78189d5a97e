// The search forward from mark to mark.
ghost use Rattle.std.specs.Prelude.{◌≡◌, false, ℕ, ◌+◌, ◌≤◌, ◌<◌};
ghost use Rattle.model.specs.Limits.{most_tick};
ghost use Rattle.units.specs.Rack.{overruns_on};
ghost use Rattle.curve.specs.Charts.{curves};
ghost use Rattle.search.specs.Searched.{SearchedBelow};

use crate::Overrun;
use crate::marks::{Mark, reach_of, renew};
use bound::overtake::first_over;
use bound::stop::bound_of;
use model::limits::MOST_TASKS;
use slopes::lines::Search;
use units::{Ticks, Work};

// The first tick below the end that overruns, where none before `from` does. Each task's demand is a line up to its mark, so their sum is
// one up to the nearest mark, and only the tasks at their mark get a new line.
pub fn first_from(search: &mut Search, from: Ticks, end: Ticks) -> Option<Overrun>
    requires le_from { (1 ≤ from.0) × (from.0 ≤ end.0) × (end.0 ≤ most_tick + 1) }
    requires by_index { (y : ℕ) → y < from.0 → overruns_on search.old.load.now.rack (curves search.old.load.now.tasks.now) y ≡ false }
    ensures { SearchedBelow search.old.load.now.rack (curves search.old.load.now.tasks.now) end.0 result }
{
    if end.0 <= from.0 {
        return None;
    }
    let rack = search.load.rack;
    let count = search.load.tasks.len();
    let bound = bound_of(rack);
    let mut x = from.0;
    let mut w = search.lines_at(from).value.0;
    let mut marks = [Mark { at: x, slope: 0 }; MOST_TASKS];
    while x < end.0 {
        renew(search, Ticks(x), &mut marks);
        let line = reach_of(&marks[..count], end.0);
        let run = line.next - x;
        let over = first_over(bound, rack.speed.p, x, w, line.slope, run);
        w += line.slope * over;
        x += over;
        if over < run {
            return Some(Overrun {
                x: Ticks(x),
                w: Work(w),
            });
        }
    }
    None
}
