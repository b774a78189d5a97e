// The last tick that a search has to look at.
ghost use Rattle.std.specs.Prelude.{◌≡◌, true, List, ◌*◌, ◌≤◌, ◌<◌, map};
ghost use Rattle.model.specs.Limits.{most_cycle};
ghost use Rattle.model.specs.Curve.{Curve, common_cycle};
ghost use Rattle.units.specs.Rack.{SpeedInRange, RackInRange, fits_at, bound_of};
ghost use Rattle.curve.specs.Figured.{outline, InRange, AllFill};
ghost use Rattle.bound.specs.Moves.{Enough};
ghost use Rattle.bound.specs.LineAbove.{work_of, late_of};

use crate::load::Load;
use curve::chart::Figures;
use curve::figured::Figured;
use units::{Rack, Speed, Ticks, Time};

// What a tick adds to the right side of the test for an overrun.
pub fn bound_of(rack: Rack) -> u64
    requires { RackInRange rack }
    ensures { (result ≡ bound_of rack) × (0 < result) }
{
    rack.m * rack.speed.q - (rack.m - 1) * rack.speed.p
}

// A line above the demand of a task: the demand at tick x, times the p·h ticks of a cycle, is at most work·x + late.
#[derive(Clone, Copy)]
struct Above {
    work: u64,
    late: u64,
}

// The line of one task. It is ahead of the demand by what the period has beyond the deadline, and by the length.
fn line_above(figures: Figures, speed: Speed, h: u64) -> Above
    requires in_range { InRange (outline figures) × (h ≤ most_cycle) }
    requires speed_in_range { SpeedInRange speed }
    requires fits { fits_at speed (outline figures) ≡ true }
    ensures { (result.work ≡ work_of speed h (outline figures)) × (result.late ≡ late_of speed h (outline figures)) }
{
    let volume = speed.holds(figures.volume);
    let period = speed.clock(figures.period);
    let due = speed.clock(figures.deadline);
    let length = speed.runs(figures.length);
    let work = volume.0 * (h / figures.period.0);
    let late = work * (period.0 - due.0 + length.0);
    Above { work, late }
}

// The last tick up to which one has to look: where none up to it overruns, none does. The demand of a task lies below a line whose
// slope is that of its volume over its period, so the sum of the lines meets the bound somewhere if it is flatter. One cycle is always enough.
pub fn last_tick<T: Figured>(load: &Load<T>, h: u64) -> Ticks
    requires { (0 < h) × (h ≤ most_cycle) }
    ensures within { result.0 ≤ load.now.rack.speed.p * h }
    ensures enough { (cs : List Curve) → AllFill cs (map T.told load.now.tasks.now) → h ≡ common_cycle cs → Enough load.now.rack cs result.0 }
{
    let speed = load.rack.speed;
    let mut work = 0;
    let mut late = 0;
    for task in load.tasks {
        let above = line_above(task.figures(), speed, h);
        work += above.work;
        late += above.late;
    }
    let cycle = speed.clock(Time(h));
    let room = bound_of(load.rack) * h;
    if room <= work {
        return cycle;
    }
    let last = late / (room - work);
    // an if and no min: it is one of two values of Ticks, and the edit `time_units_for_ticks` names the second
    if last < cycle.0 { Ticks(last) } else { cycle }
}
