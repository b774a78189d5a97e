// Reads sets that break each rule of the record table and of the graph one at a time, and sets at both ends of each range, and prints
// the number and the place that the reader gives for each.
#![tactic(auto)]

mod build;
mod graphs;
mod rows;
mod show;

use std::io;

fn main(rt: HostRuntime) -> io::Result<()> {
    record_rules(&rt)?;
    graph_rules(&rt)
}

fn record_rules(rt: &impl Print) -> io::Result<()> {
    rows::lengths(rt)?;
    rows::missing(rt)?;
    rows::mills(rt)?;
    rows::vertex_counts(rt)?;
    rows::edge_counts(rt)?;
    rows::deadlines(rt)?;
    rows::periods(rt)?;
    rows::roles(rt)?;
    rows::mates(rt)?;
    rows::job_times(rt)?;
    rows::edges(rt)?;
    rows::ends(rt)?;
    rows::edge_order(rt)
}

fn graph_rules(rt: &impl Print) -> io::Result<()> {
    graphs::readable(rt)?;
    graphs::broken_g1_g2(rt)?;
    graphs::broken_g3(rt)?;
    graphs::broken_g4_to_g6(rt)?;
    graphs::many(rt)?;
    graphs::order(rt)
}
