// The demand of a task over its chart, and the first task that does not fit its deadline.
#![tactic(auto)]

ghost use Rattle.std.specs.Prelude.{◌≡◌, not, ◌≤◌, length, get_or};
ghost use Rattle.model.specs.Limits.{most_tick};
ghost use Rattle.model.specs.Range.{least};
ghost use Rattle.units.specs.Rack.{SpeedInRange, fits_at, demand_at};
ghost use Rattle.curve.specs.Charts.{chart_curve, curves, no_curve};

use curve::chart::Chart;
use curve::walk::remaining;
use units::{Speed, Ticks, Work};

// Whether a task fits its deadline at the speed.
pub fn fits_deadline(chart: &Chart, speed: Speed) -> bool
    requires { SpeedInRange speed }
    ensures { result ≡ fits_at speed (chart_curve chart.now) }
{
    let runs = speed.runs(chart.figures.length);
    let due = speed.clock(chart.figures.deadline);
    runs.0 <= due.0
}

// The first task that does not fit its deadline, their number where each does.
pub fn first_dense(charts: &[Chart], speed: Speed) -> usize
    requires { SpeedInRange speed }
    ensures { result ≡ least (length charts.now) (λ i. not (fits_at speed (get_or (curves charts.now) i no_curve))) }
{
    for i in 0..charts.len() {
        if !fits_deadline(&charts[i], speed) {
            return i;
        }
    }
    charts.len()
}

// The demand of one task at tick x: whole periods, and the part that the last, broken one holds.
pub fn demand_at(chart: &Chart, speed: Speed, x: Ticks) -> Work
    requires { SpeedInRange speed × (x.0 ≤ most_tick) }
    ensures { result.0 ≡ demand_at speed (chart_curve chart.now) x.0 }
{
    let figures = chart.figures;
    let due = speed.clock(figures.deadline);
    let period = speed.clock(figures.period);
    let volume = speed.holds(figures.volume);
    let whole = volume.0 * (x.0 / period.0);
    let r = x.0 % period.0;
    if due.0 <= r {
        return Work(whole + volume.0);
    }
    let part = remaining(chart, speed, Ticks(due.0 - r));
    Work(whole + part.value.0)
}
