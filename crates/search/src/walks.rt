// How many stretches of each task are worked out alone, by a walk over its graph each, before any is kept. Whatever the number is, a
// search finds the same.
ghost use Rattle.std.specs.Prelude.{◌+◌, ◌≤◌, length};
ghost use Rattle.model.specs.Limits.{most_tasks, most_tick};
ghost use Rattle.units.specs.Rack.{SpeedInRange};
ghost use Rattle.curve.specs.Charts.{curves};
ghost use Rattle.stretch.specs.Stretches.{AllKept};

use curve::chart::Chart;
use model::limits::MOST_TASKS;
use places::Notes;
use units::{Speed, Ticks};
use vertices::size;

// The part of the squared number of vertices that a task may make in walks, shared among the periods below the end. Found by measuring
// (docs/BENCHMARKS.md, "Walks before keeping").
const PART: u64 = 16;

// How many walks a task makes alone. Keeping takes a walk for each stretch from the latest start on, and pays only where stretches are
// asked for again: so more walks come first where there are many vertices, and with them many stretches, and fewer where many periods lie
// below the end, since each may ask for the same ones.
fn walks_of(chart: &Chart, speed: Speed, end: Ticks) -> u64
    requires { SpeedInRange speed × (end.0 ≤ most_tick + 1) }
{
    let vertices = size(chart.figures.vertices) as u64;
    let period = speed.clock(chart.figures.period);
    vertices * vertices / PART / (end.0 / period.0 + 1)
}

// Gives each task its walks. What is kept of it stays. It takes what a search is made of, before there is one.
pub fn allow_walks(charts: &[Chart], speed: Speed, end: Ticks, kept: &mut [Notes; MOST_TASKS])
    requires { (length charts.now ≤ most_tasks) × SpeedInRange speed × (end.0 ≤ most_tick + 1) }
    ensures { AllKept (curves charts.now) speed kept.old → AllKept (curves charts.now) speed kept.new }
{
    for i in 0..charts.len() {
        kept[i].walks = walks_of(&charts[i], speed, end);
    }
}
