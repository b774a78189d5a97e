// A rough look from the last tick down: whole volumes, with no walk over a graph, clear most sets that may be accepted.
#![tactic(auto)]

ghost use Rattle.std.specs.Prelude.{◌≡◌, true, ◌*◌, ◌+◌, ◌-◌, ◌/◌, ◌^◌, ◌≤◌, ◌<◌, List, length, map, get_or};
ghost use Rattle.model.specs.Limits.{most_tick};
ghost use Rattle.model.specs.Range.{sum};
ghost use Rattle.units.specs.Rack.{SpeedInRange, fits_at};
ghost use Rattle.model.specs.Curve.{Curve};
ghost use Rattle.curve.specs.Charts.{no_curve};
ghost use Rattle.curve.specs.Figured.{outline, InRange, AllFill};
ghost use Rattle.rough.specs.Rough.{most_of, Clears};

use bound::load::Load;
use bound::stop::bound_of;
use curve::chart::Figures;
use curve::figured::Figured;
use units::{Speed, Ticks, Work};

// No less than the demand of a task at tick x: the broken period counts in full as soon as any of it is due.
fn most_of(figures: Figures, speed: Speed, x: Ticks) -> Work
    requires in_range { InRange (outline figures) × (x.0 ≤ most_tick) }
    requires speed_in_range { SpeedInRange speed }
    requires fits { fits_at speed (outline figures) ≡ true }
    ensures { result.0 ≡ most_of speed (outline figures) x.0 }
{
    let period = speed.clock(figures.period);
    let volume = speed.holds(figures.volume);
    let start = speed.clock(figures.deadline).0 - speed.runs(figures.length).0;
    let whole = volume.0 * (x.0 / period.0);
    if x.0 % period.0 <= start {
        return Work(whole);
    }
    Work(whole + volume.0)
}

// The same of all tasks.
fn most_at<T: Figured>(load: &Load<T>, x: Ticks) -> Work
    requires { x.0 ≤ most_tick }
    ensures { result.0 ≡ sum (length load.now.tasks.now) (λ i. most_of load.now.rack.speed (get_or (map T.told load.now.tasks.now) i no_curve) x.0) }
{
    let mut sum = 0;
    for task in load.tasks {
        sum += most_of(task.figures(), load.rack.speed, x).0;
    }
    Work(sum)
}

// The lowest tick at which the bound has room for W.
pub fn low_tick(p: u64, bound: u64, w: u64) -> u64
    requires { (0 < bound) × (p * w + bound < 2 ^ 64) }
    ensures { result ≡ (p * w + bound - 1) / bound }
{
    (p * w + bound - 1) / bound
}

// The tick from which on nothing up to the last overruns, as far as the rough look tells. It ends where a jump clears less than a
// thirty-second part of what is left.
pub fn clear_roughly<T: Figured>(load: &Load<T>, last: Ticks) -> Ticks
    requires { last.0 ≤ most_tick }
    ensures { (cs : List Curve) → AllFill cs (map T.told load.now.tasks.now) → Clears load.now.rack cs result.0 (last.0 + 1) }
{
    let bound = bound_of(load.rack);
    let mut left = last.0 + 1;
    let mut jump = left;
    while (0 < left) & (left / 32 <= jump) {
        let w = most_at(load, Ticks(left - 1));
        let low = low_tick(load.rack.speed.p, bound, w.0);
        if left <= low {
            return Ticks(left);
        }
        jump = left - low;
        left = low;
    }
    Ticks(left)
}
