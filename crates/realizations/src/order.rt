// Numbers the vertices of a drawing by a random order in which every edge rises, and adds edges that keep the graph rules.
use crate::draw::{Drawing, Role};
use crate::members::{below, with};
use crate::seed::Seed;

// The first member of a set from some vertex on, round and round: the set is turned so that this vertex comes first.
fn member_from(set: u64, first: u64) -> u64 {
    let turned = set.rotate_right((first % 64) as u32);
    first.wrapping_add(u64::from(turned.trailing_zeros())) % 64
}

// Numbers the vertices, each after those with an edge to it. Takes a number a vertex.
pub(crate) fn number_all(seed: Seed, drawing: &mut Drawing) {
    let mut left = below(drawing.count);
    for i in 0..drawing.count {
        let ready = left & !drawing.after_all(left);
        let v = member_from(ready, seed.roll(i, 64));
        drawing.hold(i, v);
        left = left & !with(0, v);
    }
}

// Whether an edge may lead from u to v: both are in one arm, v comes later, u is no start and v no end. Then every arm, its first and
// its last vertex stay as they are.
fn may_join(drawing: &Drawing, u: u64, v: u64) -> bool {
    let from = drawing.at(u);
    let to = drawing.at(v);
    let start = matches!(from.role, Role::Start { .. });
    let end = matches!(to.role, Role::End { .. });
    (from.arm == to.arm) & (from.number < to.number) & !start & !end
}

// Tries so many more edges. Takes two numbers a try.
pub(crate) fn join_more(seed: Seed, drawing: &mut Drawing, tries: u64) {
    let mut next = seed;
    for _ in 0..tries {
        let u = next.roll(0, drawing.count);
        let v = next.roll(1, drawing.count);
        if may_join(drawing, u, v) {
            let after = with(drawing.at(u).after, v);
            drawing.at_mut(u).after = after;
        }
        next = next.later(2);
    }
}
