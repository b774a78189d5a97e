// Sets of single jobs, and the set of no task, on one processor at 1/1.
use crate::named::{
    NO_TASK, ONE_JOB, ONE_JOB_DENSE, ONE_JOB_OF_0, PERIODS_10000_6250, PERIODS_10000_6250_DENSE,
    PERIODS_10000_9999, PERIODS_10000_9999_DENSE, TWO_JOBS_DEADLINE_1, TWO_JOBS_DEADLINE_2,
};
use crate::show::UNTOUCHED;
use std::io;

// The 32-byte set fills a processor; with job time 2 its job is longer than its deadline.
pub(crate) fn one_job(rt: &impl Print) -> io::Result<()> {
    ONE_JOB.figures(rt, 0)?;
    ONE_JOB.judge(rt, 1, 1, 1)?;
    ONE_JOB_DENSE.judge(rt, 1, 1, 1)
}

// A task of length 0 has no pairs, for which no words are room enough.
pub(crate) fn no_length(rt: &impl Print) -> io::Result<()> {
    ONE_JOB_OF_0.layers(rt, 1, 1, &mut [UNTOUCHED; 0])
}

// Two jobs of time 1 and period 2: deadline 1 is too soon for both, deadline 2 is not.
pub(crate) fn two_jobs(rt: &impl Print) -> io::Result<()> {
    TWO_JOBS_DEADLINE_1.judge(rt, 1, 1, 1)?;
    TWO_JOBS_DEADLINE_2.judge(rt, 1, 1, 1)
}

// The empty set is accepted, and has no task to ask for.
pub(crate) fn no_task(rt: &impl Print) -> io::Result<()> {
    NO_TASK.judge(rt, 1, 1, 1)?;
    NO_TASK.figures(rt, 0)
}

// A common cycle of 50,000 is allowed, one of 99,990,000 is not.
pub(crate) fn cycles(rt: &impl Print) -> io::Result<()> {
    PERIODS_10000_6250.judge(rt, 1, 1, 1)?;
    PERIODS_10000_9999.judge(rt, 1, 1, 1)
}

// A dense task is named by its record, but a cycle that is too long comes first.
pub(crate) fn dense_jobs(rt: &impl Print) -> io::Result<()> {
    PERIODS_10000_6250_DENSE.judge(rt, 1, 1, 1)?;
    PERIODS_10000_9999_DENSE.judge(rt, 1, 1, 1)
}
