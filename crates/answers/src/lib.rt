// What is answered of a task of a set: its figures, its demand and its layers.
#![tactic(auto)]

ghost use Rattle.std.specs.Prelude.{◌≡◌, ◌≤◌};
ghost use Rattle.model.specs.Limits.{most_tick};
ghost use Rattle.model.specs.Entries.{figures_for, demanded_for, layered_for, task_is, no_demand};
ghost use Rattle.units.specs.Rack.{SpeedInRange};
ghost use Rattle.answers.specs.Given.{figures_give, demand_gives, layers_give};

use curve::chart::Chart;
use demand::{demand_at, fits_deadline};
use layer::{pair_count, write_pairs};
use records::task::ReadableTask;
use tasks::chart_at;
use units::{Speed, Ticks, Time, Work};

// What figures gives. This and the next two go to C, so they are laid out as there, with a number for each refusal.
#[repr(C)]
#[derive(Clone, Copy)]
pub struct TaskFigures {
    pub number: usize,
    pub place: usize,
    pub length: Time,
    pub volume: Time,
}

// What demand gives.
#[repr(C)]
#[derive(Clone, Copy)]
pub struct TaskDemand {
    pub number: usize,
    pub place: usize,
    pub work: Work,
}

// What layers gives beside the table.
#[repr(C)]
#[derive(Clone, Copy)]
pub struct TaskLayers {
    pub number: usize,
    pub place: usize,
    pub pairs: usize,
}

// The figures of a task.
pub fn figures_at(task: ReadableTask) -> TaskFigures
    ensures { figures_give result ≡ figures_for task.entry.set.now (task_is task.entry.place) }
{
    let mut chart = Chart::empty();
    chart_at(task, &mut chart);
    TaskFigures {
        number: 0,
        place: 0,
        length: chart.figures.length,
        volume: chart.figures.volume,
    }
}

pub fn no_demand(number: usize, place: usize) -> TaskDemand
    ensures { demand_gives result ≡ no_demand number place }
{
    TaskDemand {
        number,
        place,
        work: Work(0),
    }
}

// The demand of a task, or that it does not fit.
pub fn demand_of(task: ReadableTask, speed: Speed, x: Ticks) -> TaskDemand
    requires { SpeedInRange speed × (x.0 ≤ most_tick) }
    ensures { demand_gives result ≡ demanded_for task.entry.set.now (task_is task.entry.place) speed.p speed.q x.0 }
{
    let mut chart = Chart::empty();
    chart_at(task, &mut chart);
    if !fits_deadline(&chart, speed) {
        return no_demand(8, task.place);
    }
    TaskDemand {
        number: 0,
        place: 0,
        work: demand_at(&chart, speed, x),
    }
}

pub fn no_layers(number: usize, place: usize) -> TaskLayers
    ensures { result ≡ record { number = number; place = place; pairs = 0 } }
{
    TaskLayers {
        number,
        place,
        pairs: 0,
    }
}

// The layers of a task. Nothing is written before it is known that all pairs fit.
pub fn layers_of(task: ReadableTask, speed: Speed, table: &mut [u32]) -> TaskLayers
    requires { SpeedInRange speed }
    ensures { layers_give result table.new ≡ layered_for task.entry.set.now (task_is task.entry.place) speed.q table.old }
{
    let mut chart = Chart::empty();
    chart_at(task, &mut chart);
    let pairs = pair_count(&chart, speed);
    if table.len() < 2 * pairs {
        return no_layers(10, 0);
    }
    write_pairs(&chart, speed, pairs, table);
    TaskLayers {
        number: 0,
        place: 0,
        pairs,
    }
}
