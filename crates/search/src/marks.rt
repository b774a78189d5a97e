// The marks of tasks: from a tick on, each task's demand is a line up to its mark.
ghost use Rattle.std.specs.Prelude.{◌≡◌, ◌+◌, ◌^◌, ◌≤◌, ◌<◌, length};
ghost use Rattle.model.specs.Limits.{most_tasks, most_tick};
ghost use Rattle.units.specs.Rack.{SpeedInRange};
ghost use Rattle.curve.specs.Charts.{curves};
ghost use Rattle.demand.specs.Rows.{Timely};
ghost use Rattle.stretch.specs.Stretches.{AllKept};
ghost use Rattle.slopes.specs.Searches.{Same};
ghost use Rattle.search.specs.Marks.{Marked, nearest, steepness};

use curve::chart::Chart;
use model::limits::MOST_TASKS;
use places::Notes;
use slopes::lines::Search;
use slopes::steps::step_at;
use units::{Speed, Ticks};

// Up to which tick a task's demand is a line, and what each tick adds to it.
#[derive(Clone, Copy)]
pub struct Mark {
    pub at: u64,
    pub slope: u64,
}

// Gives the tasks whose mark is tick x their next line. It takes what a search holds: a loop that lends elements of what a lent struct holds is
// not proved today.
fn renew_each(
    charts: &[Chart],
    speed: Speed,
    x: Ticks,
    marks: &mut [Mark; MOST_TASKS],
    kept: &mut [Notes; MOST_TASKS],
)
    requires few { length charts.now ≤ most_tasks }
    requires speed_in_range { SpeedInRange speed × Timely (curves charts.now) speed × (x.0 ≤ most_tick) }
    requires marked_before { Marked (curves charts.now) speed x.0 0 marks.old }
    requires kept_before { AllKept (curves charts.now) speed kept.old }
    ensures marked { Marked (curves charts.now) speed x.0 1 marks.new }
    ensures kept { AllKept (curves charts.now) speed kept.new }
{
    for i in 0..charts.len() {
        if marks[i].at == x.0 {
            let step = step_at(&charts[i], speed, x, &mut kept[i]);
            marks[i] = Mark {
                at: x.0 + step.run,
                slope: step.slope,
            };
        }
    }
}

// The same for a search. The other tasks keep their lines.
pub fn renew(search: &mut Search, x: Ticks, marks: &mut [Mark; MOST_TASKS])
    requires x_le_most_tick { x.0 ≤ most_tick }
    requires marked_before { Marked (curves search.old.load.now.tasks.now) search.old.load.now.rack.speed x.0 0 marks.old }
    ensures same { Same search.old search.new }
    ensures marked { Marked (curves search.old.load.now.tasks.now) search.old.load.now.rack.speed x.0 1 marks.new }
{
    renew_each(
        search.load.tasks,
        search.load.rack.speed,
        x,
        marks,
        &mut search.kept,
    );
}

// How far all lines go together, and what a tick adds to their sum.
#[derive(Clone, Copy)]
pub struct Reach {
    pub next: u64,
    pub slope: u64,
}

// The nearest of the marks and the end, and the sum of the slopes.
pub fn reach_of(marks: &[Mark], end: u64) -> Reach
    requires { steepness marks.now < 2 ^ 64 }
    ensures { (result.next ≡ nearest marks.now end) × (result.slope ≡ steepness marks.now) }
{
    let mut next = end;
    let mut slope = 0;
    for mark in marks {
        next = next.min(mark.at);
        slope += mark.slope;
    }
    Reach { next, slope }
}
