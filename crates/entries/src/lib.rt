// The rack test: judge, figures, demand and layers, for any bytes and numbers. m, p and q come one by one, as C hands them in.
#![tactic(auto)]

ghost use Rattle.std.specs.Prelude.{◌≡◌};
ghost use Rattle.model.specs.Entries.{judge_takes, Judged, refusal, figures, demanded, layered};
ghost use Rattle.answers.specs.Given.{figures_give, demand_gives, layers_give};
ghost use Rattle.entries.specs.Given.{judge_gives};

pub use answers::{TaskDemand, TaskFigures, TaskLayers};
use answers::{demand_of, figures_at, layers_of, no_demand, no_layers};
use ask::find_task;
use model::limits::MOST_TICK;
use reader::read;
use units::{Rack, Speed, Ticks, Time, Work, rack_fits, speed_fits, unnamed};
use verdict::{Judgement, judge_places};

mod ask;

// What judge gives: number, place, the smallest overrunning x and W(x), and the speed used. It goes to C, so it is laid out as there, with
// numbers and no enum.
#[repr(C)]
#[derive(Clone, Copy)]
pub struct SetVerdict {
    pub number: usize,
    pub place: usize,
    pub x: Ticks,
    pub w: Work,
    pub p: u64,
    pub q: u64,
}

// A refusal: all else is 0.
pub fn refuse(number: usize, place: usize) -> SetVerdict
    ensures { judge_gives result ≡ refusal number place }
{
    SetVerdict {
        number,
        place,
        x: Ticks(0),
        w: Work(0),
        p: 0,
        q: 0,
    }
}

// Whether judge takes a call.
pub fn judge_takes(m: u64, p: u64, q: u64) -> bool
    ensures { result ≡ judge_takes m p q }
{
    rack_fits(m) && (unnamed(p, q) || speed_fits(p, q))
}

// Whether a set of any bytes may share a rack of m processors at the speed p/q; 0/0 means the default for its tasks.
pub fn judge(set: &[u8], m: u64, p: u64, q: u64) -> SetVerdict
    ensures { Judged set.now m p q (judge_gives result) }
{
    if !judge_takes(m, p, q) {
        return refuse(1, 0);
    }
    let found = match read(set) {
        Ok(found) => found,
        Err(refusal) => return refuse(refusal.number(), refusal.place()),
    };
    let places = found.list();
    let call = Rack {
        m,
        speed: Speed { p, q },
    };
    match judge_places(set, places, call) {
        Judgement::LongCycle => refuse(7, 0),
        Judgement::Accepted(speed) => SetVerdict {
            number: 0,
            place: 0,
            x: Ticks(0),
            w: Work(0),
            p: speed.p,
            q: speed.q,
        },
        Judgement::Dense(i) => refuse(8, places[i]),
        Judgement::Overrun(x, w, speed) => SetVerdict {
            number: 9,
            place: 0,
            x,
            w,
            p: speed.p,
            q: speed.q,
        },
    }
}

// Length and volume of a task of a set.
pub fn figures(set: &[u8], task: usize) -> TaskFigures
    ensures { figures_give result ≡ figures set.now task }
{
    match find_task(set, task) {
        Ok(found) => figures_at(found),
        Err(unfound) => TaskFigures {
            number: unfound.number(),
            place: unfound.place(),
            length: Time(0),
            volume: Time(0),
        },
    }
}

// The demand of a task of a set at tick x.
pub fn demand(set: &[u8], task: usize, p: u64, q: u64, x: Ticks) -> TaskDemand
    ensures { demand_gives result ≡ demanded set.now task p q x.0 }
{
    if !speed_fits(p, q) || MOST_TICK < x.0 {
        return no_demand(1, 0);
    }
    match find_task(set, task) {
        Ok(found) => demand_of(found, Speed { p, q }, x),
        Err(unfound) => no_demand(unfound.number(), unfound.place()),
    }
}

// The layers of a task of a set, written as pairs to the front of a lent table.
pub fn layers(set: &[u8], task: usize, p: u64, q: u64, table: &mut [u32]) -> TaskLayers
    ensures { layers_give result table.new ≡ layered set.now task p q table.old }
{
    if !speed_fits(p, q) {
        return no_layers(1, 0);
    }
    match find_task(set, task) {
        Ok(found) => layers_of(found, Speed { p, q }, table),
        Err(unfound) => no_layers(unfound.number(), unfound.place()),
    }
}
