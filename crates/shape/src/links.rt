// The edges of a task as two words for each vertex.
ghost use Rattle.std.specs.Prelude.{◌≡◌, ◌+◌, ◌<◌};
ghost use Rattle.model.specs.Limits.{most_vertices};
ghost use Rattle.model.specs.Records.{fields_at, shape_at};
ghost use Rattle.table.specs.Decoded.{fields_of};
ghost use Rattle.graph.specs.Words.{LinksOf};

use graph::links::Links;
use model::limits::MOST_VERTICES;
use records::record_at;
use records::task::TabledTask;
use table::Record;
use vertices::insert;

// The record of edge j of a task of n vertices.
fn edge_at(task: TabledTask, n: usize, j: usize) -> Record
    requires { (n ≡ (fields_at task.set.now task.place).b) × (j < (fields_at task.set.now task.place).e) }
    ensures edge { fields_of result ≡ fields_at task.entry.set.now (task.entry.place + 1 + n + j) }
    ensures ends { (result.c < most_vertices) × (result.d < most_vertices) }
{
    record_at(task.set, task.place + 1 + n + j)
}

// Fills in the edges of a task. That they are its own (`LinksOf`) ties them to the task, so it stands in clauses, here and where they are used.
pub fn links_at(task: TabledTask, links: &mut Links)
    ensures { LinksOf (shape_at task.entry.set.now task.entry.place) links.new }
{
    let head = task.head();
    links.into = [0; MOST_VERTICES];
    links.out = [0; MOST_VERTICES];
    for j in 0..head.e {
        let edge = edge_at(task, head.b, j);
        let from = edge.c;
        let to = edge.d;
        links.into[to] = insert(links.into[to], from);
        links.out[from] = insert(links.out[from], to);
    }
}
