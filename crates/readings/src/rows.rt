// The record table, row by row: what each field may hold, and what it may not.
use crate::build::{Set, choice, jobs, row};
use crate::show::{change, tell};
use std::io;

pub(crate) fn lengths(rt: &impl Print) -> io::Result<()> {
    tell(rt, "no bytes", Set::empty())?;
    tell(rt, "one byte", choice().cut(1))?;
    tell(rt, "a byte short of a record", choice().cut(15))?;
    tell(
        rt,
        "a byte behind the last record",
        choice().with_bytes(&[1]),
    )
}

pub(crate) fn missing(rt: &impl Print) -> io::Result<()> {
    tell(rt, "a whole set", choice())?;
    tell(rt, "vertex records missing", choice().cut(16))?;
    tell(rt, "the last edge record missing", choice().cut(128))
}

pub(crate) fn mills(rt: &impl Print) -> io::Result<()> {
    change(rt, "task of kind 0", &[(0, 0, 0)])?;
    change(rt, "task of kind 2", &[(0, 0, 2)])?;
    change(rt, "mill 0", &[(0, 1, 0)])?;
    change(rt, "mill 1", &[(0, 1, 1)])?;
    change(rt, "mill 40", &[(0, 1, 40)])?;
    change(rt, "mill 41", &[(0, 1, 41)])
}

pub(crate) fn vertex_counts(rt: &impl Print) -> io::Result<()> {
    change(rt, "0 vertices", &[(0, 2, 0)])?;
    tell(rt, "1 vertex", jobs(1))?;
    tell(rt, "64 vertices, 63 edges", row(63, 1, 0))?;
    tell(rt, "64 vertices, 256 edges", row(256, 4, 10))
}

pub(crate) fn edge_counts(rt: &impl Print) -> io::Result<()> {
    change(rt, "65 vertices", &[(0, 2, 65)])?;
    change(rt, "260 vertices", &[(0, 3, 1)])?;
    tell(rt, "257 edges", row(257, 4, 11))?;
    change(rt, "16,777,220 edges", &[(0, 15, 1)])
}

pub(crate) fn deadlines(rt: &impl Print) -> io::Result<()> {
    change(rt, "deadline 0", &[(0, 4, 0)])?;
    change(rt, "deadline 1", &[(0, 4, 1)])?;
    tell(rt, "deadline 9, period 9", choice())?;
    change(rt, "deadline 10, period 9", &[(0, 4, 10)])?;
    change(rt, "deadline above 2^24", &[(0, 7, 1)])
}

pub(crate) fn periods(rt: &impl Print) -> io::Result<()> {
    change(rt, "deadline and period 0", &[(0, 4, 0), (0, 8, 0)])?;
    change(rt, "period 10,000", &[(0, 8, 16), (0, 9, 39)])?;
    change(rt, "period 10,001", &[(0, 8, 17), (0, 9, 39)])?;
    change(rt, "period above 2^24", &[(0, 11, 1)])
}

pub(crate) fn roles(rt: &impl Print) -> io::Result<()> {
    change(rt, "task record where a vertex is due", &[(1, 0, 1)])?;
    change(rt, "edge record where a vertex is due", &[(4, 0, 3)])?;
    change(rt, "role 3", &[(2, 1, 3)])?;
    change(rt, "plain with mate 1", &[(2, 2, 1)])?;
    change(rt, "plain with mate 256", &[(2, 3, 1)])
}

pub(crate) fn mates(rt: &impl Print) -> io::Result<()> {
    change(rt, "start with itself as mate", &[(1, 2, 0)])?;
    change(rt, "start with mate 4 of 4", &[(1, 2, 4)])?;
    change(rt, "end with itself as mate", &[(4, 2, 3)])?;
    change(rt, "vertex 0 an end", &[(1, 1, 2), (1, 2, 0)])
}

pub(crate) fn job_times(rt: &impl Print) -> io::Result<()> {
    change(rt, "job time 0", &[(2, 4, 0)])?;
    change(rt, "job time 1,001", &[(2, 4, 233), (2, 5, 3)])?;
    change(rt, "job time 10,000", &[(2, 4, 16), (2, 5, 39)])?;
    change(rt, "job time 10,001", &[(2, 4, 17), (2, 5, 39)])?;
    change(rt, "job time above 2^24", &[(2, 7, 1)])?;
    change(rt, "vertex with a D", &[(3, 11, 1)])?;
    change(rt, "vertex with an E", &[(3, 12, 1)])
}

pub(crate) fn edges(rt: &impl Print) -> io::Result<()> {
    change(rt, "vertex record where an edge is due", &[(5, 0, 2)])?;
    change(rt, "edge with an A", &[(5, 1, 1)])?;
    change(rt, "edge with a B", &[(6, 3, 1)])?;
    change(rt, "edge with an E", &[(7, 15, 1)])?;
    change(rt, "edge from 2 to 2", &[(8, 8, 2)])
}

pub(crate) fn ends(rt: &impl Print) -> io::Result<()> {
    change(rt, "edge from 2 to 1", &[(8, 8, 1)])?;
    change(rt, "edge to 4 of 4", &[(8, 8, 4)])?;
    change(rt, "edge to 259", &[(8, 9, 1)])?;
    change(rt, "edge from 258", &[(8, 5, 1)])
}

pub(crate) fn edge_order(rt: &impl Print) -> io::Result<()> {
    change(rt, "the same edge twice", &[(6, 8, 1)])?;
    change(rt, "edges of one vertex falling", &[(5, 8, 2), (6, 8, 1)])?;
    change(rt, "edges of two vertices falling", &[(7, 4, 2), (8, 4, 1)])
}
