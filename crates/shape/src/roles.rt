// Where the choices of a task start and end, and the other end of each.
ghost use Rattle.std.specs.Prelude.{◌≡◌, ◌&&◌, ℕ, ◌<◌};
ghost use Rattle.model.specs.Graph.{mate};
ghost use Rattle.model.specs.Records.{fields_at, shape_at};
ghost use Rattle.vertices.specs.Members.{has};
ghost use Rattle.shape.specs.Choices.{AreStarts, AreEnds};

use records::task::TabledTask;
use vertices::{insert, union};

// The vertices that start a choice, and those that end one.
#[derive(Clone, Copy)]
pub struct Roles {
    pub starts: u64,
    pub ends: u64,
}

// The set where the test holds, else none.
fn only(test: bool, w: u64) -> u64
    ensures { (u : ℕ) → has result u ≡ (test && has w u) }
{
    if test { w } else { 0 }
}

// The starts and the ends of a task. Each vertex record is looked at once, and its role is not branched on.
pub fn roles_at(task: TabledTask) -> Roles
    ensures starts { AreStarts (shape_at task.entry.set.now task.entry.place) result.starts }
    ensures ends { AreEnds (shape_at task.entry.set.now task.entry.place) result.ends }
{
    let n = task.head().b;
    let mut starts = 0;
    let mut ends = 0;
    for v in 0..n {
        // A number of the record table: an enum would be made of it only to be asked for its case.
        let role = task.vertex(v).a;
        let here = insert(0, v);
        starts = union(starts, only(role == 1, here));
        ends = union(ends, only(role == 2, here));
    }
    Roles { starts, ends }
}

// The mate of vertex v.
pub fn mate_at(task: TabledTask, v: usize) -> usize
    requires { v < (fields_at task.set.now task.place).b }
    ensures { result ≡ mate (shape_at task.entry.set.now task.entry.place) v }
{
    task.vertex(v).b
}
