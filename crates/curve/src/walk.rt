// The work that remains of a task, as pieces: the sum over an arm's vertices, and the larger of two arms.
ghost use Rattle.std.specs.Prelude.{◌*◌, ◌^◌, ◌<◌, max};
ghost use Rattle.units.specs.Rack.{SpeedInRange};
ghost use Rattle.curve.specs.Charts.{chart_curve};
ghost use Rattle.curve.specs.Sheets.{Walks};
ghost use Rattle.curve.specs.Tables.{job_left, work_left};
ghost use Rattle.piece.specs.Piece.{Linear};

use crate::chart::{Chart, Jobs};
use piece::{Piece, larger_of, plus};
use units::{Speed, Ticks, Time, Work};
use vertices::{lowest, minus, rest, union};

// What a job that ends at the latest by `due` still has to run at tick x: nothing behind its end, all of it before its start, and in
// between a unit more for each tick down.
fn job_piece(speed: Speed, time: Time, due: Time, x: Ticks) -> Piece
    requires { (speed.q * time.0 < 2 ^ 64) × (speed.q * due.0 < 2 ^ 64) × (0 < x.0) }
    ensures { Linear (λ y. job_left speed.q y time.0 due.0) x.0 result }
{
    let whole = speed.holds(time);
    let end = speed.runs(due);
    if end.0 < x.0 {
        return Piece {
            value: Work(0),
            slope: 0,
            run: Ticks(x.0 - end.0),
        };
    }
    let left = end.0 - x.0;
    if whole.0 <= left {
        return Piece {
            value: whole,
            slope: 0,
            run: x,
        };
    }
    let run = whole.0 - left;
    Piece {
        value: Work(left),
        slope: 1,
        run: Ticks(run.min(x.0)),
    }
}

// The work that remains from tick x downward in a set of vertices, with the larger arm of each choice in it.
#[cycle(arm_piece_larger)]
pub fn arm_piece(jobs: &Jobs, speed: Speed, x: Ticks, set: u64) -> Piece
    requires walks { Walks jobs.now speed.q set }
    requires x_nonzero { 0 < x.0 }
    ensures { Linear (work_left jobs.now speed.q set) x.0 result }
{
    let mut sum = Piece {
        value: Work(0),
        slope: 0,
        run: x,
    };
    let mut left = set;
    while left != 0 {
        let v = lowest(left);
        left = rest(left);
        sum = plus(
            sum,
            job_piece(speed, Time(jobs.times[v]), Time(jobs.ends[v]), x),
        );
        let a = jobs.arms[v][0];
        let b = jobs.arms[v][1];
        let both = union(a, b);
        if both != 0 {
            sum = plus(sum, larger(jobs, speed, x, a, b));
            left = minus(left, both);
        }
    }
    sum
}

// The larger of what remains in two arms. What the walk asks (`Walks`) is asked of each set: it speaks of jobs, set and q together.
#[cycle(arm_piece_larger)]
fn larger(jobs: &Jobs, speed: Speed, x: Ticks, a: u64, b: u64) -> Piece
    requires walks_a { Walks jobs.now speed.q a }
    requires walks_b { Walks jobs.now speed.q b }
    requires x_nonzero { 0 < x.0 }
    ensures { Linear (λ y. max (work_left jobs.now speed.q a y)
        (work_left jobs.now speed.q b y)) x.0 result }
{
    let first = arm_piece(jobs, speed, x, a);
    let second = arm_piece(jobs, speed, x, b);
    larger_of(first, second)
}

// The work that remains of a task from tick x downward.
pub fn remaining(chart: &Chart, speed: Speed, x: Ticks) -> Piece
    requires { SpeedInRange speed × (0 < x.0) }
    ensures { Linear ((chart_curve chart.now).remains speed.q) x.0 result }
{
    arm_piece(&chart.jobs, speed, x, chart.figures.vertices)
}
