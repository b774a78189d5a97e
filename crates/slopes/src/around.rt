// The line of a task around a tick. It is kept, since the next tick asked for often lies on the same line. Chart, speed and notes are lent one by one,
// as in `stretch`.
ghost use Rattle.std.specs.Prelude.{◌+◌};
ghost use Rattle.model.specs.Limits.{most_tick};
ghost use Rattle.curve.specs.Charts.{chart_curve};
ghost use Rattle.stretch.specs.Stretches.{Somewhere, Kept, Asked, Around};

use curve::chart::Chart;
use places::{Notes, Stretch, covers};
use stretch::kept::stretch_at;
use units::{Speed, Ticks, Work};

// Keeps the line around tick x: whole periods, and the stretch of the broken one.
fn find_line(chart: &Chart, speed: Speed, x: Ticks, kept: &mut Notes)
    requires { Asked speed (chart_curve chart.now) x.0 (most_tick + 1) kept.old }
    ensures around { Around x.0 kept.new.line }
    ensures kept { Kept speed (chart_curve chart.now) kept.new }
{
    let period = speed.clock(chart.figures.period);
    let volume = speed.holds(chart.figures.volume);
    let whole = (x.0 - 1) / period.0;
    let gone = period.0 * whole;
    let s = stretch_at(chart, speed, Ticks(x.0 - gone), kept);
    kept.line = Stretch {
        from: Ticks(gone + s.from.0),
        value: Work(volume.0 * whole + s.value.0),
        slope: s.slope,
        run: s.run,
    };
}

// The line around tick x.
pub fn line_around(chart: &Chart, speed: Speed, x: Ticks, kept: &mut Notes) -> Stretch
    requires { Asked speed (chart_curve chart.now) x.0 (most_tick + 1) kept.old }
    ensures around { Around x.0 result }
    ensures line { Somewhere speed (chart_curve chart.now) result }
    ensures kept { Kept speed (chart_curve chart.now) kept.new }
{
    if !covers(kept.line.from.0, kept.line.run.0, x.0) {
        find_line(chart, speed, x, kept);
    }
    kept.line
}
