// The speed of a call of judge, in which 0/0 stands for the default. A rack as a call names it stays a `Rack` with the clause `Called`: a type of
// its own would be a second m, p and q beside the rack at the speed used, and every definition would take it apart.
ghost use Rattle.std.specs.Prelude.{◌≡◌, map};
ghost use Rattle.demand.specs.Rows.{Timely};
ghost use Rattle.speeds.specs.Covering.{Dated};
ghost use Rattle.speeds.specs.Calls.{Called, dense_speed, UsedOn};

use crate::default_speed;
use curve::figured::Figured;
use units::{Rack, Speed, unnamed};

// The speed at which each task must fit its deadline before another is looked for.
pub fn dense_speed(speed: Speed) -> Speed
    ensures { result ≡ dense_speed speed }
{
    if unnamed(speed.p, speed.q) {
        return Speed { p: 1, q: 1 };
    }
    speed
}

// The speed that a call uses: the one that it names, or the default for its tasks.
pub fn speed_used<T: Figured>(tasks: &[T], call: Rack) -> Speed
    requires called { Called call }
    requires dated { Dated (map T.told tasks.now) × Timely (map T.told tasks.now) (dense_speed call.speed) }
    ensures { UsedOn call (map T.told tasks.now) result }
{
    if unnamed(call.speed.p, call.speed.q) {
        return default_speed(tasks, call.m);
    }
    call.speed
}
