// Tasks on a rack.
ghost use Rattle.std.specs.Prelude.{◌≤◌, length, map};
ghost use Rattle.model.specs.Limits.{most_tasks};
ghost use Rattle.units.specs.Rack.{RackInRange};
ghost use Rattle.curve.specs.Figured.{AllInRange};
ghost use Rattle.demand.specs.Rows.{Timely};

use curve::figured::Figured;
use units::Rack;

// Tasks on a rack, each of which fits its deadline at the rack's speed. It is lent on: with what T may be it cannot be Copy.
#[derive(Drop)]
pub struct Load<'a, T: Figured> {
    pub tasks: &'a [T],
    pub rack: Rack,
    ghost few: { length tasks.now ≤ most_tasks },
    ghost in_range: { AllInRange (map T.told tasks.now) },
    ghost on_rack: { RackInRange rack },
    ghost timely: { Timely (map T.told tasks.now) rack.speed },
}
