// What the reader finds of a set, one line each: what is special about it, then number and place.
use crate::build::{Change, Edge, Set, Vertex, choice};
use std::io;

pub(crate) fn tell(rt: &impl Print, name: &str, set: Set) -> io::Result<()> {
    let (number, place) = match reader::read(set.bytes()) {
        Ok(_) => (0, 0),
        Err(refusal) => (refusal.number(), refusal.place()),
    };
    println!(rt; "{name}: {number} {place}")
}

// The set with one choice, with other bytes in its records.
pub(crate) fn change(rt: &impl Print, name: &str, changes: &[Change]) -> io::Result<()> {
    tell(rt, name, choice().changed(changes))
}

// A set of one task.
pub(crate) fn draw(
    rt: &impl Print,
    name: &str,
    vertices: &[Vertex],
    edges: &[Edge],
) -> io::Result<()> {
    tell(rt, name, Set::empty().with_task(vertices, edges))
}
