// The stretches of a task: parts of its period over which its demand is a line. Those between the latest start and the deadline take a
// walk over the graph each. A task makes so many walks for single stretches; then they are kept, and worked out as far as they are asked for.
// Chart, speed and notes are lent one by one, and no struct of them: they are elements of two lists and a part of the rack (`Asked` says once what
// is asked of the three).
ghost use Rattle.std.specs.Prelude.{◌≡◌, ◌+◌, ◌*◌, ◌≤◌, ◌<◌};
ghost use Rattle.curve.specs.Charts.{chart_curve};
ghost use Rattle.stretch.specs.Stretches.{AtSpeed, Stretches, Kept, Asked, Found};

use curve::chart::Chart;
use curve::walk::remaining;
use places::{Notes, PLACES, Stretch, covers};
use units::{Speed, Ticks, Work};

// A walk that a kept stretch would have saved counts for so many, another for one. Measured (docs/BENCHMARKS.md, "Walks before keeping").
const AGAIN: u64 = 16;

// The stretch that begins at a tick before the deadline.
fn stretch_from(chart: &Chart, speed: Speed, from: Ticks) -> Stretch
    requires at_speed { AtSpeed speed (chart_curve chart.now) }
    requires from_bound { from.0 < speed.p * chart.now.figures.deadline.0 }
    ensures at { (result.from.0 ≡ from.0) × (0 < result.run.0) × (result.from.0 + result.run.0 ≤ speed.p * chart.now.figures.deadline.0) }
    ensures line { Stretches speed (chart_curve chart.now) result }
{
    let due = speed.clock(chart.figures.deadline);
    let piece = remaining(chart, speed, Ticks(due.0 - from.0));
    Stretch {
        from,
        value: piece.value,
        slope: piece.slope,
        run: piece.run,
    }
}

// Keeps the stretches behind those that are kept, from the latest start on, up to the one that reaches tick r or as far as there are places.
fn keep_up_to(chart: &Chart, speed: Speed, r: Ticks, kept: &mut Notes)
    requires { Asked speed (chart_curve chart.now) r.0 (speed.p * chart.now.figures.deadline.0) kept.old }
    ensures { Kept speed (chart_curve chart.now) kept.new }
{
    let due = speed.clock(chart.figures.deadline);
    let start = due.0 - speed.runs(chart.figures.length).0;
    let used = kept.used.min(PLACES);
    let mut from = if used == 0 {
        start
    } else {
        let last = kept.stretches[used - 1];
        last.from.0 + last.run.0
    };
    while (from < r.0) & (kept.used < PLACES) {
        let s = stretch_from(chart, speed, Ticks(from));
        from += s.run.0;
        kept.keep_next(s);
    }
}

// The place of the last kept stretch that begins below r. Whatever place it is, what stands there is looked at before it is used.
fn place_of(kept: &Notes, r: u64) -> usize
    ensures { result < 64 }
{
    kept.stretches[..kept.used.min(PLACES)]
        .partition_point(|s| s.from.0 < r)
        .saturating_sub(1)
}

// A stretch around tick r, worked out by a walk of its own and not kept. It begins a tick before r, so a look downward learns a single
// tick from it, and may ask for the same stretch again: it did where the line last asked for, which still stands in its place, begins in it.
fn stretch_alone(chart: &Chart, speed: Speed, r: Ticks, kept: &mut Notes) -> Stretch
    requires { Asked speed (chart_curve chart.now) r.0 (speed.p * chart.now.figures.deadline.0) kept.old }
    ensures { Found speed (chart_curve chart.now) r.0 result kept.new }
{
    let s = stretch_from(chart, speed, Ticks(r.0 - 1));
    let period = speed.clock(chart.figures.period);
    let last = kept.line.from.0 % period.0;
    let cost = if covers(s.from.0, s.run.0, last + 1) {
        AGAIN
    } else {
        1
    };
    kept.walks = kept.walks.saturating_sub(cost);
    s
}

// A stretch around tick r that is not kept yet. It is kept once no walks are left, as far as there are places.
fn new_stretch(chart: &Chart, speed: Speed, r: Ticks, kept: &mut Notes) -> Stretch
    requires { Asked speed (chart_curve chart.now) r.0 (speed.p * chart.now.figures.deadline.0) kept.old }
    ensures { Found speed (chart_curve chart.now) r.0 result kept.new }
{
    if 0 < kept.walks {
        return stretch_alone(chart, speed, r, kept);
    }
    keep_up_to(chart, speed, r, kept);
    let s = kept.stretches[place_of(kept, r.0)];
    if covers(s.from.0, s.run.0, r.0) {
        return s;
    }
    stretch_alone(chart, speed, r, kept)
}

// The stretch around tick r between the latest start and the deadline: one that is kept, or a new one.
fn busy_stretch(chart: &Chart, speed: Speed, r: Ticks, kept: &mut Notes) -> Stretch
    requires { Asked speed (chart_curve chart.now) r.0 (speed.p * chart.now.figures.deadline.0) kept.old }
    ensures { Found speed (chart_curve chart.now) r.0 result kept.new }
{
    let s = kept.stretches[place_of(kept, r.0)];
    if covers(s.from.0, s.run.0, r.0) {
        return s;
    }
    new_stretch(chart, speed, r, kept)
}

// The stretch around tick r of the period: before the latest start nothing is due, behind the deadline everything is.
pub fn stretch_at(chart: &Chart, speed: Speed, r: Ticks, kept: &mut Notes) -> Stretch
    requires { Asked speed (chart_curve chart.now) r.0 (speed.p * chart.now.figures.period.0) kept.old }
    ensures { Found speed (chart_curve chart.now) r.0 result kept.new }
{
    let due = speed.clock(chart.figures.deadline);
    if due.0 < r.0 {
        let period = speed.clock(chart.figures.period);
        let volume = speed.holds(chart.figures.volume);
        return Stretch {
            from: due,
            value: volume,
            slope: 0,
            run: Ticks(period.0 - due.0),
        };
    }
    let start = due.0 - speed.runs(chart.figures.length).0;
    if r.0 <= start {
        return Stretch {
            from: Ticks(0),
            value: Work(0),
            slope: 0,
            run: Ticks(start),
        };
    }
    busy_stretch(chart, speed, r, kept)
}
