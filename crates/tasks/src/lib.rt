// The chart of a task: its figures, job times, latest ends and arms.
#![tactic(auto)]

ghost use Rattle.std.specs.Prelude.{◌≡◌};
ghost use Rattle.model.specs.Curve.{curve_of};
ghost use Rattle.model.specs.Records.{shape_at, task_at};
ghost use Rattle.shape.specs.Choices.{ArmTable};
ghost use Rattle.curve.specs.Sheets.{Sheet};
ghost use Rattle.curve.specs.Tables.{table_curve};
ghost use Rattle.curve.specs.Charts.{chart_curve};
ghost use Rattle.tasks.specs.Told.{TimesOf, EndsOf};

use curve::chart::{Chart, Figures, Jobs};
use curve::jobs::latest_ends;
use curve::walk::arm_piece;
use graph::links::Links;
use model::limits::MOST_VERTICES;
use records::record_at;
use records::task::{ReadableTask, TabledTask};
use shape::arms::arm_table;
use shape::links::links_at;
use units::{Speed, Ticks, Time};
use vertices::below;

// Fills in the job times.
fn times_at(task: TabledTask, times: &mut [u64; MOST_VERTICES])
    ensures { TimesOf (task_at task.entry.set.now task.entry.place) times.new }
{
    let n = task.head().b;
    *times = [0; MOST_VERTICES];
    for v in 0..n {
        times[v] = task.vertex(v).c as u64;
    }
}

// The figures. The last vertex ends last. At speed 1/1 a unit of work is one of time, and at tick 0, one below tick 1, all of it is left.
fn figures_of(task: ReadableTask, jobs: &Jobs) -> Figures
    requires times_of { TimesOf (task_at task.set.now task.place) jobs.now.times }
    requires ends_of { EndsOf (task_at task.set.now task.place) jobs.now.ends }
    requires arm_table { ArmTable (shape_at task.set.now task.place) jobs.now.arms }
    ensures sheet { Sheet result jobs.now }
    ensures told { table_curve result jobs.now ≡ curve_of (task_at task.entry.set.now task.entry.place) }
{
    let head = record_at(task.set, task.place);
    let n = head.b;
    let vertices = below(n);
    let whole = Speed { p: 1, q: 1 };
    let first = arm_piece(jobs, whole, Ticks(1), vertices);
    Figures {
        deadline: Time(head.c as u64),
        period: Time(head.d as u64),
        length: Time(jobs.ends[n - 1]),
        volume: Time(first.value.0 + first.slope),
        vertices,
    }
}

// Fills in the jobs of a task, and gives its figures.
fn fill_jobs(task: ReadableTask, jobs: &mut Jobs) -> Figures
    ensures sheet { Sheet result jobs.new }
    ensures told { table_curve result jobs.new ≡ curve_of (task_at task.entry.set.now task.entry.place) }
{
    let tabled = TabledTask {
        set: task.set,
        place: task.place,
    };
    let n = tabled.head().b;
    let mut links = Links {
        into: [0; MOST_VERTICES],
        out: [0; MOST_VERTICES],
    };
    links_at(tabled, &mut links);
    times_at(tabled, &mut jobs.times);
    latest_ends(&links.into, &jobs.times, n, &mut jobs.ends);
    jobs.arms = arm_table(tabled, &links.out);
    figures_of(task, jobs)
}

// Fills in the chart of a task. It is lent, since it is some two thousand bytes, and to copy it would take as long as to fill it.
pub fn chart_at(task: ReadableTask, chart: &mut Chart)
    ensures { chart_curve chart.new ≡ curve_of (task_at task.entry.set.now task.entry.place) }
{
    chart.figures = fill_jobs(task, &mut chart.jobs);
}
