// How the demand of a task goes on from a tick. Chart, speed and notes are lent one by one, as in `stretch`.
ghost use Rattle.std.specs.Prelude.{◌≤◌};
ghost use Rattle.model.specs.Limits.{most_tick};
ghost use Rattle.curve.specs.Charts.{chart_curve};
ghost use Rattle.stretch.specs.Stretches.{AtSpeed, Kept};
ghost use Rattle.slopes.specs.Lines.{Grows};

use crate::around::line_around;
use curve::chart::Chart;
use places::Notes;
use units::{Speed, Ticks};

// How the demand of a task goes on: each tick adds `slope`, for a run of ticks.
#[derive(Clone, Copy)]
pub struct Step {
    pub slope: u64,
    pub run: u64,
}

// How the demand of a task goes on from tick x.
pub fn step_at(chart: &Chart, speed: Speed, x: Ticks, kept: &mut Notes) -> Step
    requires at_speed { AtSpeed speed (chart_curve chart.now) }
    requires x_le_most_tick { x.0 ≤ most_tick }
    requires kept_before { Kept speed (chart_curve chart.now) kept.old }
    ensures step { Grows speed (chart_curve chart.now) x.0 result.slope result.run }
    ensures kept { Kept speed (chart_curve chart.now) kept.new }
{
    let s = line_around(chart, speed, Ticks(x.0 + 1), kept);
    Step {
        slope: s.slope,
        run: s.from.0 + s.run.0 - x.0,
    }
}
