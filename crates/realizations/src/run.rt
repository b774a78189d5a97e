// Runs realizations tick by tick, with a processor for every job, and keeps the largest work that remains at each tick.
use crate::bytes::{B, Bytes};
use crate::members::{below, with};
use crate::task::{Task, Tasks};
use crate::ways::Graph;

// What each vertex still has to run, and what all have.
#[derive(Drop)]
struct Left {
    works: [u64; 64],
    all: u64,
}

impl Left {
    // At the start of a realization; an absent vertex has nothing to run.
    fn new(graph: &Graph, there: u64) -> Left {
        let mut works = [0; 64];
        let mut all: u64 = 0;
        for v in 0..64 {
            let work = graph.at(v).work * (there >> v & 1);
            works[v as usize] = work;
            all = all.wrapping_add(work);
        }
        Left { works, all }
    }

    // One tick: in vertex order, one that no open vertex comes before has begun; it is done if it has nothing left, and else it loses
    // a unit for the next tick. (Edges rise, so what was done before is found done again.)
    fn tick(&mut self, graph: &Graph, there: u64) {
        let mut open = there;
        let mut all: u64 = 0;
        for v in 0..64 {
            let work = self.works[v as usize];
            let begun = graph.at(v).before & open == 0;
            if begun & (work == 0) {
                open = open & !with(0, v);
            }
            let next = work.saturating_sub(u64::from(begun));
            self.works[v as usize] = next;
            all = all.wrapping_add(next);
        }
        self.all = all;
    }
}

// Runs one more realization, in which some vertices are present, until nothing remains.
fn run(graph: &Graph, there: u64, task: &mut Task) {
    let mut left = Left::new(graph, there);
    for x in 0..512 {
        if left.all == 0 {
            break;
        }
        task.raise(x, left.all);
        left.tick(graph, there);
    }
    task.realizations = task.realizations.wrapping_add(1);
}

// Runs every realization of the i-th task, each once.
fn run_task(bytes: &Bytes, i: u64, q: u64) -> Task {
    let mut task = Task::new(i);
    task.head = bytes.head_of(i);
    let graph = Graph::read(bytes, task.head, q);
    task.nesting = graph.nesting();
    let vertices = below(bytes.field(task.head, B));
    for way in 0..graph.ways {
        let there = graph.present(vertices, way);
        if there != 0 {
            run(&graph, there, &mut task);
        }
    }
    task
}

// Runs every task.
pub(crate) fn run_tasks(bytes: &Bytes, q: u64) -> Tasks {
    [
        run_task(bytes, 0, q),
        run_task(bytes, 1, q),
        run_task(bytes, 2, q),
    ]
}
