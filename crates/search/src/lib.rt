// The first tick that overruns, in three moves. Past a last tick nothing can overrun unless something did before (crate `bound`). From
// there down, whole stretches are cleared, because W rises: first by a rough look (crate `rough`), then by a close one (crate `look`).
// Where that finds an overrun, the first one is searched forward from mark to mark (`forward`).
#![tactic(auto)]

ghost use Rattle.std.specs.Prelude.{◌≡◌, true, ◌+◌, ◌≤◌};
ghost use Rattle.model.specs.Limits.{most_tick};
ghost use Rattle.units.specs.Rack.{overruns_on};
ghost use Rattle.curve.specs.Charts.{curves};
ghost use Rattle.search.specs.Searched.{SearchedBelow};

use bound::load::Load;
use curve::chart::Chart;
use forward::first_from;
use look::{Over, look};
use model::limits::MOST_TASKS;
use near::is_near;
use places::Notes;
use rough::clear_roughly;
use slopes::lines::Search;
use units::{Ticks, Work};
use walks::allow_walks;

mod forward;
mod marks;
mod near;
mod walks;

// The first tick that overruns, and the demand there.
#[derive(Clone, Copy)]
pub struct Overrun {
    pub x: Ticks,
    pub w: Work,
}

// The first tick that overruns, where `found` does: parts of what lies below are looked at, larger ones while they are clear and smaller
// ones where they are not, until what is left is near.
fn first_up_to(search: &mut Search, found: Ticks) -> Option<Overrun>
    requires le_found { (1 ≤ found.0) × (found.0 ≤ most_tick) }
    requires found_value { overruns_on search.old.load.now.rack (curves search.old.load.now.tasks.now) found.0 ≡ true }
    ensures { SearchedBelow search.old.load.now.rack (curves search.old.load.now.tasks.now) (found.0 + 1) result }
{
    let mut fine = 1;
    let mut over = found.0;
    let mut part = over / 16 + 1;
    while !is_near(search.load, Ticks(over - fine)) {
        let top = over.min(fine + part);
        let seen = look(search, Ticks(fine), Ticks(top));
        match seen {
            Ok(()) => {
                part = 2 * (top - fine);
                fine = top;
            }
            Err(Over(x)) => {
                over = x.0;
                part = (over - fine) / 2 + 1;
            }
        }
    }
    first_from(search, Ticks(fine), Ticks(over + 1))
}

// The first tick below the end that overruns.
fn first_below(load: &Load<Chart>, end: Ticks) -> Option<Overrun>
    requires { end.0 ≤ most_tick + 1 }
    ensures { SearchedBelow load.now.rack (curves load.now.tasks.now) end.0 result }
{
    let mut search = Search {
        load,
        kept: [Notes::new(); MOST_TASKS],
    };
    allow_walks(load.tasks, load.rack.speed, end, &mut search.kept);
    let seen = look(&mut search, Ticks(1), end);
    match seen {
        Ok(()) => None,
        Err(Over(x)) => first_up_to(&mut search, x),
    }
}

// The first tick up to the last that overruns on m processors.
pub fn first_overrun(load: &Load<Chart>, last: Ticks) -> Option<Overrun>
    requires { last.0 ≤ most_tick }
    ensures { SearchedBelow load.now.rack (curves load.now.tasks.now) (last.0 + 1) result }
{
    let end = clear_roughly(load, last);
    if end.0 <= 1 {
        return None;
    }
    first_below(load, end)
}
