// The arms of all choices of a task.
ghost use Rattle.std.specs.Prelude.{◌≡◌, true};
ghost use Rattle.model.specs.Records.{shape_at};
ghost use Rattle.graph.specs.Words.{OutOf};
ghost use Rattle.shape.specs.Choices.{splits, ArmTable};

use crate::roles::{mate_at, roles_at};
use graph::arms::arm_pair;
use model::limits::MOST_VERTICES;
use records::task::TabledTask;
use vertices::{lowest, rest};

// For every vertex number the two arms of the choice that starts there, none where no choice does.
pub fn arm_table(task: TabledTask, out: &[u64; MOST_VERTICES]) -> [[u64; 2]; MOST_VERTICES]
    requires out_of { OutOf (shape_at task.set.now task.place) out.now }
    requires place_value { splits (shape_at task.set.now task.place) ≡ true }
    ensures { ArmTable (shape_at task.entry.set.now task.entry.place) result }
{
    let none = [0; 2];
    let mut table = [none; MOST_VERTICES];
    let mut left = roles_at(task).starts;
    while left != 0 {
        let s = lowest(left);
        table[s] = arm_pair(out, s, mate_at(task, s));
        left = rest(left);
    }
    table
}
