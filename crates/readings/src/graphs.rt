// The graph rules, each kept and each broken, and what comes first where a set has two faults.
use crate::build::Vertex::{End, Plain, Start};
use crate::build::{choice, jobs};
use crate::show::{change, draw, tell};
use std::io;

// Graphs that keep every rule: each vertex, then from and to of each edge.
pub(crate) fn readable(rt: &impl Print) -> io::Result<()> {
    draw(
        rt,
        "plain fork and join",
        &[Plain, Plain, Plain, Plain],
        &[(0, 1), (0, 2), (1, 3), (2, 3)],
    )?;
    draw(
        rt,
        "arms that interleave",
        &[Start(5), Plain, Plain, Plain, Plain, End(0)],
        &[(0, 1), (0, 2), (1, 3), (2, 4), (3, 5), (4, 5)],
    )?;
    draw(
        rt,
        "a choice that begins an arm",
        &[Start(6), Start(4), Plain, Plain, End(1), Plain, End(0)],
        &[
            (0, 1),
            (0, 5),
            (1, 2),
            (1, 3),
            (2, 4),
            (3, 4),
            (4, 6),
            (5, 6),
        ],
    )?;
    draw(
        rt,
        "two choices side by side",
        &[
            Plain,
            Start(7),
            Start(8),
            Plain,
            Plain,
            Plain,
            Plain,
            End(1),
            End(2),
            Plain,
        ],
        &[
            (0, 1),
            (0, 2),
            (1, 3),
            (1, 5),
            (2, 4),
            (2, 6),
            (3, 7),
            (4, 8),
            (5, 7),
            (6, 8),
            (7, 9),
            (8, 9),
        ],
    )
}

// Graphs that break a rule, and that rule alone, but for G4 and G5, which follow from the others in a readable graph.
pub(crate) fn broken_g1_g2(rt: &impl Print) -> io::Result<()> {
    draw(
        rt,
        "G1: no edge in",
        &[Plain, Plain, Plain],
        &[(0, 2), (1, 2)],
    )?;
    draw(
        rt,
        "G1: no edge out",
        &[Plain, Plain, Plain],
        &[(0, 1), (0, 2)],
    )?;
    change(rt, "G2: a plain mate", &[(4, 1, 0), (4, 2, 0)])?;
    draw(
        rt,
        "G2: a start as mate",
        &[Start(3), Plain, Plain, Start(6), Plain, Plain, End(3)],
        &[
            (0, 1),
            (0, 2),
            (1, 3),
            (2, 3),
            (3, 4),
            (3, 5),
            (4, 6),
            (5, 6),
        ],
    )?;
    change(rt, "G2: an end that names another", &[(4, 2, 1)])
}

pub(crate) fn broken_g3(rt: &impl Print) -> io::Result<()> {
    draw(
        rt,
        "G3: one edge out",
        &[Start(2), Plain, End(0)],
        &[(0, 1), (1, 2)],
    )?;
    draw(
        rt,
        "G3: three edges out",
        &[Start(4), Plain, Plain, Plain, End(0)],
        &[(0, 1), (0, 2), (0, 3), (1, 4), (2, 4), (3, 4)],
    )?;
    draw(
        rt,
        "G3: an edge to the end",
        &[Start(2), Plain, End(0)],
        &[(0, 1), (0, 2), (1, 2)],
    )?;
    draw(
        rt,
        "G3: three edges into the end",
        &[Plain, Start(4), Plain, Plain, End(1)],
        &[(0, 1), (0, 4), (1, 2), (1, 3), (2, 4), (3, 4)],
    )
}

pub(crate) fn broken_g4_to_g6(rt: &impl Print) -> io::Result<()> {
    draw(
        rt,
        "G4: a vertex in both arms",
        &[Start(4), Plain, Plain, Plain, End(0)],
        &[(0, 1), (0, 2), (1, 3), (2, 3), (2, 4), (3, 4)],
    )?;
    draw(
        rt,
        "G5: an arm that closes twice",
        &[Start(4), Plain, Plain, Plain, End(0), Plain],
        &[(0, 1), (0, 2), (1, 3), (1, 4), (2, 4), (3, 5), (4, 5)],
    )?;
    draw(
        rt,
        "G6: an edge from outside into an arm",
        &[Plain, Start(5), Plain, Plain, Plain, End(1), Plain],
        &[
            (0, 1),
            (0, 4),
            (1, 2),
            (1, 3),
            (2, 5),
            (3, 4),
            (4, 5),
            (5, 6),
        ],
    )
}

// What comes first.
pub(crate) fn many(rt: &impl Print) -> io::Result<()> {
    tell(rt, "32 tasks", jobs(32))?;
    tell(rt, "33 tasks", jobs(33))?;
    tell(rt, "a 33rd task of mill 0", jobs(33).changed(&[(64, 1, 0)]))?;
    tell(
        rt,
        "a vertex record where a 33rd task is due",
        jobs(33).changed(&[(64, 0, 2)]),
    )
}

pub(crate) fn order(rt: &impl Print) -> io::Result<()> {
    tell(
        rt,
        "a broken graph, then a bad record",
        choice().changed(&[(4, 2, 1)]).with_record(9, 0, 0, [0; 3]),
    )?;
    change(
        rt,
        "a bad edge record in a broken graph",
        &[(4, 2, 1), (8, 15, 1)],
    )?;
    tell(
        rt,
        "a task, then one without its vertex",
        choice().with_task_record(1, 0),
    )?;
    tell(
        rt,
        "a task, then a broken graph",
        choice().with_task(&[Plain, Plain, Plain], &[(0, 2), (1, 2)]),
    )
}
