// The core that judges: the tasks at a list of places of a lent set, on a rack as a call names it, with 0/0 for the default speed.
#![tactic(auto)]

ghost use Rattle.std.specs.Prelude.{◌≡◌, map, ℕ, ◌≤◌, ◌<◌, length, get_or, take};
ghost use Rattle.model.specs.Limits.{most_tasks, most_cycle};
ghost use Rattle.model.specs.Curve.{common_cycle};
ghost use Rattle.model.specs.Entries.{curves_at};
ghost use Rattle.records.specs.Rows.{ReadableAt};
ghost use Rattle.curve.specs.Charts.{curves};
ghost use Rattle.speeds.specs.Calls.{Called};
ghost use Rattle.verdict.specs.Stands.{Stands, Judgeable};

use bound::load::Load;
use bound::stop::last_tick;
use curve::chart::Chart;
use cycle::common_cycle;
use demand::first_dense;
use model::limits::MOST_TASKS;
use records::record_at;
use records::task::ReadableTask;
use search::first_overrun;
use speeds::call::{dense_speed, speed_used};
use tasks::chart_at;
use units::{Rack, Speed, Ticks, Work};

// What is found of a list of tasks.
#[derive(Clone, Copy)]
pub enum Judgement {
    // Their common cycle is over the limit.
    LongCycle,
    // No tick overruns, at the speed used.
    Accepted(Speed),
    // The first task that does not fit its deadline, by its index in the list.
    Dense(usize),
    // The first tick that overruns, and the demand there, at the speed used.
    Overrun(Ticks, Work, Speed),
}

// Most sets have no more tasks than this. Charts for so many are cleared sooner, and on a small set that is felt.
const FEW: usize = 12;

// The periods of the tasks, in front of zeros: in memory of a fixed size, since nothing that judges has a heap. An ArrayVec is no plainer: each
// push would ask whether there is room, and here each place is written once by its index.
fn periods_at(set: &[u8], places: &[usize]) -> [u64; MOST_TASKS]
    requires places_len_bound { length places.now ≤ most_tasks }
    requires by_index { (i : ℕ) → i < length places.now → ReadableAt set.now (get_or places.now i 0) }
    ensures { take (length places.now) result ≡ map (λ c. c.period) (curves_at set.now places.now) }
{
    let mut periods = [0; MOST_TASKS];
    for i in 0..places.len() {
        periods[i] = record_at(set, places[i]).d as u64;
    }
    periods
}

// Judges tasks by their charts, where h is their common cycle.
fn judge_charts(charts: &[Chart], call: Rack, h: u64) -> Judgement
    requires few { length charts.now ≤ most_tasks }
    requires called { Called call }
    requires h_value { (h ≡ common_cycle (curves charts.now)) × (h ≤ most_cycle) }
    ensures { Stands call (curves charts.now) result }
{
    let dense = first_dense(charts, dense_speed(call.speed));
    if dense < charts.len() {
        return Judgement::Dense(dense);
    }
    let speed = speed_used(charts, call);
    let load = Load {
        tasks: charts,
        rack: Rack { m: call.m, speed },
    };
    let last = last_tick(&load, h);
    let found = first_overrun(&load, last);
    match found {
        None => Judgement::Accepted(speed),
        Some(over) => Judgement::Overrun(over.x, over.w, speed),
    }
}

// Judges tasks by charts for at most N. What a list of places keeps (`Judgeable`) speaks of set, places and call together, so it stands in a clause.
fn judge_up_to<const N: usize>(set: &[u8], places: &[usize], call: Rack, h: u64) -> Judgement
    requires room { (length places.now ≤ N) × (N ≤ most_tasks) }
    requires judgeable { Judgeable set.now places.now call h }
    ensures { Stands call (curves_at set.now places.now) result }
{
    let mut charts = [Chart::empty(); N];
    for i in 0..places.len() {
        let task = ReadableTask {
            set,
            place: places[i],
        };
        chart_at(task, &mut charts[i]);
    }
    judge_charts(&charts[..places.len()], call, h)
}

// Judges tasks whose common cycle is within the limit.
fn judge_cycle(set: &[u8], places: &[usize], call: Rack, h: u64) -> Judgement
    requires places_len_bound { length places.now ≤ most_tasks }
    requires judgeable { Judgeable set.now places.now call h }
    ensures { Stands call (curves_at set.now places.now) result }
{
    if places.len() <= FEW {
        return judge_up_to::<FEW>(set, places, call, h);
    }
    judge_up_to::<MOST_TASKS>(set, places, call, h)
}

// Judges the tasks at a list of places. Set and places are no struct, and `ReadableAt` of each place stands in a clause: the list is the reader's, and
// a struct of both would be made here only to be taken apart.
pub fn judge_places(set: &[u8], places: &[usize], call: Rack) -> Judgement
    requires places_len_bound { length places.now ≤ most_tasks }
    requires by_index { (i : ℕ) → i < length places.now → ReadableAt set.now (get_or places.now i 0) }
    requires called { Called call }
    ensures { Stands call (curves_at set.now places.now) result }
{
    let periods = periods_at(set, places);
    let count = places.len();
    let cycle = common_cycle(&periods[..count]);
    match cycle {
        None => Judgement::LongCycle,
        Some(h) => judge_cycle(set, places, call, h),
    }
}
