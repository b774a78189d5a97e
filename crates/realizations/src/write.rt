// Writes a numbered drawing as the records of a task, but for deadline and period. It reads the drawing and changes the bytes, so they are lent apart.
use crate::bytes::{B, Bytes, C, D, E, KIND_A};
use crate::draw::{Drawing, Role};
use crate::members::has;
use crate::seed::Seed;

// Mostly short jobs, now and then a long one. Takes two numbers.
fn job_time(seed: Seed) -> u64 {
    if seed.roll(0, 20) == 0 {
        return seed.roll(1, 20);
    }
    seed.roll(1, 7)
}

fn put_vertex(drawing: &Drawing, v: u64, time: u64, bytes: &mut Bytes, record: u64) {
    let (role, mate) = match drawing.at(v).role {
        Role::Plain => (0, 0),
        Role::Start { end } => (1, drawing.at(end).number),
        Role::End { start } => (2, drawing.at(start).number),
    };
    bytes.put(record, KIND_A, role * 256 + 2);
    bytes.put(record, B, mate);
    bytes.put(record, C, time);
}

// The vertices, by their numbers. Takes two numbers a vertex.
fn put_vertices(seed: Seed, drawing: &Drawing, bytes: &mut Bytes, head: u64) {
    let mut next = seed;
    for i in 0..drawing.count {
        let record = head.wrapping_add(i + 1);
        put_vertex(drawing, drawing.holder(i), job_time(next), bytes, record);
        next = next.later(2);
    }
}

fn put_edge(bytes: &mut Bytes, record: u64, from: u64, to: u64) {
    bytes.put(record, KIND_A, 3);
    bytes.put(record, C, from);
    bytes.put(record, D, to);
}

// All edges in rising order, and their count.
fn put_edges(drawing: &Drawing, bytes: &mut Bytes, head: u64) {
    let first = head.wrapping_add(drawing.count).wrapping_add(1);
    let mut edges: u64 = 0;
    for from in 0..drawing.count {
        let after = drawing.at(drawing.holder(from)).after;
        for to in 0..drawing.count {
            if has(after, drawing.holder(to)) {
                put_edge(bytes, first.wrapping_add(edges), from, to);
                edges = edges.wrapping_add(1);
            }
        }
    }
    bytes.put(head, E, edges);
}

// The task's own record, its vertices and its edges. Takes two numbers a vertex.
pub(crate) fn put_task(seed: Seed, drawing: &Drawing, bytes: &mut Bytes, head: u64) {
    bytes.put(head, KIND_A, head % 40 * 256 + 257);
    bytes.put(head, B, drawing.count);
    put_vertices(seed, drawing, bytes, head);
    put_edges(drawing, bytes, head);
}
