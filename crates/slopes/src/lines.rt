// The line of demand that ends at a tick, of one task and of all.
ghost use Rattle.std.specs.Prelude.{◌≤◌, ◌<◌, length};
ghost use Rattle.model.specs.Limits.{most_tasks, most_tick};
ghost use Rattle.units.specs.Rack.{SpeedInRange, demand_at, total_at};
ghost use Rattle.curve.specs.Charts.{chart_curve, curves};
ghost use Rattle.demand.specs.Rows.{Timely};
ghost use Rattle.stretch.specs.Stretches.{Kept, AllKept, Asked};
ghost use Rattle.slopes.specs.Lines.{Falls};

use crate::around::line_around;
use bound::load::Load;
use curve::chart::Chart;
use model::limits::MOST_TASKS;
use places::Notes;
use units::{Speed, Ticks, Work};

// What the demand is at a tick, and how it falls from there: each tick down takes `slope` off, for a run of ticks. It is no `Piece`, to which each
// tick down adds.
#[derive(Clone, Copy)]
pub struct Line {
    pub value: Work,
    pub slope: u64,
    pub run: Ticks,
}

// The line of one task that ends at tick x. Chart, speed and notes are lent one by one, as in `stretch`.
fn line_at(chart: &Chart, speed: Speed, x: Ticks, kept: &mut Notes) -> Line
    requires { Asked speed (chart_curve chart.now) x.0 most_tick kept.old }
    ensures line { Falls (demand_at speed (chart_curve chart.now)) x.0 result }
    ensures kept { Kept speed (chart_curve chart.now) kept.new }
{
    let s = line_around(chart, speed, x, kept);
    let run = x.0 - s.from.0;
    Line {
        value: Work(s.value.0 + s.slope * run),
        slope: s.slope,
        run: Ticks(run),
    }
}

// The line of all tasks together that ends at tick x, at any speed. A search has it too, on its rack; the loop stands here, since one that
// lends elements of what a lent struct holds is not proved today.
pub fn lines_at(charts: &[Chart], speed: Speed, x: Ticks, kept: &mut [Notes; MOST_TASKS]) -> Line
    requires few { length charts.now ≤ most_tasks }
    requires speed_in_range { SpeedInRange speed × Timely (curves charts.now) speed }
    requires x_nonzero { (0 < x.0) × (x.0 ≤ most_tick) }
    requires kept_before { AllKept (curves charts.now) speed kept.old }
    ensures line { Falls (total_at speed (curves charts.now)) x.0 result }
    ensures kept { AllKept (curves charts.now) speed kept.new }
{
    let mut value = 0;
    let mut slope = 0;
    let mut run = x.0;
    for (i, chart) in charts.iter().enumerate() {
        let line = line_at(chart, speed, x, &mut kept[i]);
        value += line.value.0;
        slope += line.slope;
        run = run.min(line.run.0);
    }
    Line {
        value: Work(value),
        slope,
        run: Ticks(run),
    }
}

// A search on a rack: its tasks there, and what is kept of the stretches of each.
#[derive(Drop)]
pub struct Search<'a> {
    pub load: &'a Load<'a, Chart>,
    pub kept: [Notes; MOST_TASKS],
    ghost all_kept: { AllKept (curves load.now.tasks.now) load.now.rack.speed kept },
}

impl Search<'_> {
    ghost use Rattle.slopes.specs.Searches.{Same};

    // The line of all tasks together that ends at tick x.
    pub fn lines_at(&mut self, x: Ticks) -> Line
        requires { (0 < x.0) × (x.0 ≤ most_tick) }
        ensures same { Same self.old self.new }
        ensures line { Falls (total_at self.old.load.now.rack.speed (curves self.old.load.now.tasks.now)) x.0 result }
    {
        lines_at(self.load.tasks, self.load.rack.speed, x, &mut self.kept)
    }
}
