// Draws sets of tasks, runs every realization of each task tick by tick, and compares the four entries of the library with what the
// definitions of document 01 make of these runs. Nothing is shared with the library but its number types.
#![tactic(auto)]

mod bytes;
mod compare;
mod draw;
mod expect;
mod layers;
mod members;
mod order;
mod run;
mod seed;
mod sets;
mod speed;
mod tally;
mod task;
mod ways;
mod write;

use bytes::{B, Bytes, C, D, E, KIND_A};
use compare::Asked;
use run::run_tasks;
use seed::Seed;
use sets::{draw_all_loose, draw_both_tight, draw_tasks};
use speed::Speed;
use std::io;
use std::io::Stdout;
use tally::Tally;
use task::Tasks;

// Two sets a round.
const ROUNDS: u64 = 300;

const FIRST_SEED: u64 = 20_011;

// The first records, one to a line: kind and A, B, C, D, E.
fn show(out: Stdout, bytes: &Bytes, records: u64) -> io::Result<()> {
    for r in 0..records {
        let a = bytes.field(r, KIND_A);
        let b = bytes.field(r, B);
        let c = bytes.field(r, C);
        let d = bytes.field(r, D);
        let e = bytes.field(r, E);
        println!(out; "record {a} {b} {c} {d} {e}")?;
    }
    Ok(())
}

// Compares the first records and counts; where something differs, the speed and the records are shown. Its six are what a round holds, and travel
// no further together.
fn compare_set(
    out: Stdout,
    bytes: &Bytes,
    records: u64,
    tasks: &mut Tasks,
    speed: Speed,
    tally: &mut Tally,
) -> io::Result<()> {
    for task in tasks.iter_mut() {
        task.read_times(bytes, speed.p);
    }
    tally.note(tasks, speed);
    let asked = Asked {
        out,
        set: bytes.first(records),
        tasks,
        speed,
    };
    if !asked.agrees()? {
        tally.note_disagreed();
        let Speed { p, q } = speed;
        println!(out; "speed {p} {q} 0 0 {records}")?;
        show(out, bytes, records)?;
    }
    Ok(())
}

// Draws a set of one to three tasks with times that suit their lengths, and compares.
fn try_loose(out: Stdout, seed: &mut Seed, tally: &mut Tally, count: u64) -> io::Result<()> {
    let mut bytes = draw_tasks(seed, count, 30);
    let next = *seed;
    let records = bytes.head_of(count);
    let speed = Speed::draw(next, records);
    let mut tasks = run_tasks(&bytes, speed.q);
    draw_all_loose(next.later(4), &mut bytes, &tasks, speed.p);
    *seed = next.later(5).later(count.wrapping_mul(3));
    compare_set(out, &bytes, records, &mut tasks, speed, tally)
}

// Draws a set of two small tasks that load m processors fully, and compares.
fn try_tight(out: Stdout, seed: &mut Seed, tally: &mut Tally, m: u64) -> io::Result<()> {
    let mut bytes = draw_tasks(seed, 2, 4);
    let next = *seed;
    let speed = Speed::draw(next, 30);
    let mut tasks = run_tasks(&bytes, speed.q);
    draw_both_tight(
        next.later(4),
        &mut bytes,
        &tasks,
        speed.p,
        speed.promise(m, 1),
    );
    *seed = next.later(6);
    compare_set(out, &bytes, bytes.head_of(2), &mut tasks, speed, tally)
}

fn main(rt: HostRuntime) -> io::Result<()> {
    let out = rt.stdout();
    let mut seed = Seed(FIRST_SEED);
    let mut tally = Tally::default();
    for i in 0..ROUNDS {
        try_loose(out, &mut seed, &mut tally, i % 3 + 1)?;
        try_tight(out, &mut seed, &mut tally, i % 2 + 1)?;
    }
    print!(out; "{tally}")
}
