// What is near enough to be searched forward, from mark to mark.
ghost use Rattle.std.specs.Prelude.{◌≡◌, false, ◌*◌, ◌/◌, ◌≤◌, ◌<◌, length, get_or};
ghost use Rattle.model.specs.Limits.{most_tick};
ghost use Rattle.model.specs.Range.{sum};
ghost use Rattle.curve.specs.Charts.{curves, no_curve};

use bound::load::Load;
use curve::chart::Chart;
use units::Ticks;

// More ticks than these are first looked at from above: a part that is clear takes fewer lines than it has marks.
const NEAR: u64 = 2_000;

// So are more periods than these, of all tasks together: each has a mark or more, and a look from above passes many at once.
const NEAR_PERIODS: u64 = 16;

// How many periods of all tasks together end in so many ticks.
fn periods_within(load: &Load<Chart>, ticks: Ticks) -> u64
    requires { ticks.0 ≤ most_tick }
    ensures { result ≡ sum (length load.now.tasks.now) (λ i. ticks.0 / (load.now.rack.speed.p * (get_or (curves load.now.tasks.now) i no_curve).period)) }
{
    let mut periods = 0;
    for chart in load.tasks {
        periods += ticks.0 / load.rack.speed.clock(chart.figures.period).0;
    }
    periods
}

// Whether so many ticks are near. What is not near has a tick, so that there is something to look at.
pub fn is_near(load: &Load<Chart>, ticks: Ticks) -> bool
    ensures { result ≡ false → 0 < ticks.0 }
{
    if NEAR < ticks.0 {
        return false;
    }
    periods_within(load, ticks) <= NEAR_PERIODS
}
