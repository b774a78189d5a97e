// Makes a set: draws its tasks, and picks deadlines and periods that suit their lengths. Seed, bytes and p are lent one by one: each function changes
// one of them and reads another.
use crate::bytes::{Bytes, C, D};
use crate::draw::grow;
use crate::order::{join_more, number_all};
use crate::seed::Seed;
use crate::task::{Task, Tasks};
use crate::write::put_task;

// The periods of a set divide one of these or are its multiples, so that their common cycle is short.
const BASES: [u64; 8] = [24, 30, 36, 40, 48, 60, 72, 84];

// No fair period is longer.
const MOST_FAIR: u64 = 40;

// Draws a task and writes its records at a record, but for deadline and period.
fn draw_task(seed: &mut Seed, bytes: &mut Bytes, head: u64, most_steps: u64) {
    let first = *seed;
    let steps = first.roll(1, most_steps);
    let tries = first.roll(2, 12);
    let mut drawing = grow(first.later(3), first.roll(0, 9), steps);
    let n = drawing.count;
    let ordered = first.later(3).later(steps.wrapping_mul(4));
    let joined = ordered.later(n);
    let written = joined.later(tries.wrapping_mul(2));
    number_all(ordered, &mut drawing);
    join_more(joined, &mut drawing, tries);
    put_task(written, &drawing, bytes, head);
    *seed = written.later(n.wrapping_mul(2));
}

// Draws the tasks of a set.
pub(crate) fn draw_tasks(seed: &mut Seed, count: u64, most_steps: u64) -> Bytes {
    let mut bytes = Bytes::new();
    for i in 0..count {
        let head = bytes.head_of(i);
        draw_task(seed, &mut bytes, head, most_steps);
    }
    bytes
}

// The least deadline that the length of a task allows.
fn least_deadline(task: &Task, p: u64) -> u64 {
    let up = task.length.wrapping_add(p.saturating_sub(1));
    up.checked_div(p).unwrap_or(0).max(1)
}

// The least deadline or somewhat more, now and then one that is too short. Takes two numbers.
fn draw_deadline(seed: Seed, least: u64) -> u64 {
    if seed.roll(0, 12) == 0 {
        return least.saturating_sub(1).max(1);
    }
    least.wrapping_add(seed.roll(1, least / 2 + 3))
}

// The least number from a point on that divides the base or is a multiple of it.
fn period_from(point: u64, base: u64) -> u64 {
    (point..point.saturating_add(100))
        .find(|period| base.is_multiple_of(*period) || period.is_multiple_of(base))
        .unwrap_or(point)
}

fn put_times(bytes: &mut Bytes, head: u64, deadline: u64, period: u64) {
    bytes.put(head, C, deadline);
    bytes.put(head, D, period);
}

// A deadline near what the length of a task allows and a period somewhat longer; nothing where there is no task. Takes three numbers.
fn draw_loose(seed: Seed, bytes: &mut Bytes, task: &Task, p: u64, base: u64) {
    if task.realizations != 0 {
        let deadline = draw_deadline(seed, least_deadline(task, p));
        let period = period_from(deadline.wrapping_add(seed.roll(2, 12)), base);
        put_times(bytes, task.head, deadline, period);
    }
}

// Gives every task such times. Takes a number, and three a task.
pub(crate) fn draw_all_loose(seed: Seed, bytes: &mut Bytes, tasks: &Tasks, p: u64) {
    let base = BASES[(seed.roll(0, 8) % 8) as usize];
    let mut next = seed.later(1);
    for task in tasks {
        draw_loose(next, bytes, task, p, base);
        next = next.later(3);
    }
}

// The period at which a task takes half of what is promised for a tick, less a cut; 0 where that would be long.
fn fair_period(volume: u64, promised: u64, cut: u64) -> u64 {
    let fair = volume.wrapping_mul(2).checked_div(promised).unwrap_or(0);
    if MOST_FAIR <= fair {
        return 0;
    }
    if cut < fair { fair - cut } else { fair }
}

// A period that is the deadline too, about a fair one: two such tasks load the processors fully, and overrun late or just not.
// Takes a number.
fn draw_tight(seed: Seed, bytes: &mut Bytes, task: &Task, p: u64, promised: u64) {
    let fair = fair_period(task.rdem(0), promised, seed.roll(0, 3));
    let period = least_deadline(task, p).max(fair);
    put_times(bytes, task.head, period, period);
}

// Gives both tasks of a set such times. Takes two numbers.
pub(crate) fn draw_both_tight(seed: Seed, bytes: &mut Bytes, tasks: &Tasks, p: u64, promised: u64) {
    let mut next = seed;
    for task in &tasks[..2] {
        draw_tight(next, bytes, task, p, promised);
        next = next.later(1);
    }
}
