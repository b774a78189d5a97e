// What the four entries owe, by the definitions of demand, layers and verdict over the largest remaining work at each tick.
use crate::speed::Speed;
use crate::task::{Task, Tasks};
use std::fmt;
use std::fmt::Display;

// What an entry answers, with its numbers, which go to C: what was asked of (a task, or so many processors), number and place, and two more that are the entry's own.
#[derive(Clone, Copy, PartialEq)]
pub struct Reply {
    pub asked: u64,
    pub number: u64,
    pub place: u64,
    pub first: u64,
    pub second: u64,
}

impl Display for Reply {
    fn fmt<W: fmt::Write>(&self, f: &mut fmt::Formatter<W>) -> fmt::Result {
        write!(
            f,
            "{} {} {} {} {}",
            self.asked, self.number, self.place, self.first, self.second
        )
    }
}

pub(crate) fn answer(asked: u64, number: u64, place: u64, first: u64, second: u64) -> Reply {
    Reply {
        asked,
        number,
        place,
        first,
        second,
    }
}

// No set has a longer cycle, in ticks.
const MOST_CYCLE: u64 = 20_000;

fn dense(task: &Task) -> bool {
    task.deadline < task.length
}

// Demand of a task that is not dense: a volume for each whole period, and of the rest what is not left for after the deadline.
fn demand(task: &Task, x: u64) -> u64 {
    let periods = x.checked_div(task.period).unwrap_or(0);
    let rest = x.checked_rem(task.period).unwrap_or(0);
    let due = task.deadline.saturating_sub(rest);
    task.rdem(0)
        .wrapping_mul(periods)
        .wrapping_add(task.rdem(due))
}

// W(x).
fn total(tasks: &Tasks, x: u64) -> u64 {
    let mut sum: u64 = 0;
    for task in tasks {
        sum = sum.wrapping_add(demand(task, x));
    }
    sum
}

// The first dense task.
fn first_dense(tasks: &Tasks) -> Option<&Task> {
    tasks.iter().find(|task| dense(task))
}

// The least number of ticks that every period divides.
fn cycle(tasks: &Tasks) -> u64 {
    (1u64..MOST_CYCLE)
        .find(|h| tasks
            .iter()
            .all(|task| h.checked_rem(task.period).unwrap_or(0) == 0))
        .unwrap_or(MOST_CYCLE)
}

// The least tick below a limit that overruns.
fn first_overrun(tasks: &Tasks, m: u64, speed: Speed, limit: u64) -> Option<u64> {
    (0..limit).find(|x| speed.promise(m, *x) < speed.p.wrapping_mul(total(tasks, *x)))
}

// What a set comes to: it fits, a task is dense, or a tick overruns, with its W.
#[derive(Clone, Copy)]
pub enum Verdict {
    Fits,
    Dense { head: u64 },
    Overrun { x: u64, w: u64 },
}

impl Verdict {
    // What judge owes, asked of m processors.
    pub(crate) fn reply(self, m: u64) -> Reply {
        match self {
            Verdict::Fits => answer(m, 0, 0, 0, 0),
            Verdict::Dense { head } => answer(m, 8, head, 0, 0),
            Verdict::Overrun { x, w } => answer(m, 9, 0, x, w),
        }
    }
}

// The verdict on m processors. Three cycles are searched, beyond one on purpose.
pub(crate) fn judge(tasks: &Tasks, m: u64, speed: Speed) -> Verdict {
    if let Some(task) = first_dense(tasks) {
        return Verdict::Dense { head: task.head };
    }
    let limit = cycle(tasks).wrapping_mul(3).wrapping_add(1);
    match first_overrun(tasks, m, speed, limit) {
        Some(x) => Verdict::Overrun {
            x,
            w: total(tasks, x),
        },
        None => Verdict::Fits,
    }
}

// What demand owes of a task at a tick, with work and tick.
pub(crate) fn demand_owed(task: &Task, x: u64) -> Reply {
    if dense(task) {
        return answer(task.index, 8, task.head, 0, x);
    }
    answer(task.index, 0, 0, demand(task, x), x)
}

// The ticks at which a task's demand is compared: two periods and one more.
pub(crate) fn ticks(task: &Task) -> u64 {
    task.period.wrapping_mul(2).wrapping_add(1)
}
