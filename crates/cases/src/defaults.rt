// Calls that name no speed: the smallest that is enough for the rack and for each task is used.
use crate::named::{
    NO_TASK, ONE_JOB, ONE_JOB_DENSE, PERIODS_10000_9999_DENSE, RATIO_20_33, TWO_EXCEED, X,
};
use std::io;

// X needs 11/15, which is more than 2/3, and overruns there.
pub(crate) fn task_x(rt: &impl Print) -> io::Result<()> {
    X.judge(rt, 2, 0, 0)?;
    X.judge(rt, 2, 11, 15)
}

// A ratio of 20/33, which no speed has: the next above it. Few processors ask for more, and one for 1/1.
pub(crate) fn between_speeds(rt: &impl Print) -> io::Result<()> {
    RATIO_20_33.judge(rt, 16, 0, 0)?;
    RATIO_20_33.judge(rt, 2, 0, 0)?;
    RATIO_20_33.judge(rt, 1, 0, 0)
}

// A length that is its deadline needs 1/1. One that exceeds it is refused at any speed, and of two the first is named.
pub(crate) fn length_and_deadline(rt: &impl Print) -> io::Result<()> {
    ONE_JOB.judge(rt, 16, 0, 0)?;
    ONE_JOB_DENSE.judge(rt, 16, 0, 0)?;
    TWO_EXCEED.judge(rt, 4, 0, 0)
}

// A cycle that is too long comes before a length that exceeds its deadline, and a bad m before all.
pub(crate) fn refusals_before(rt: &impl Print) -> io::Result<()> {
    PERIODS_10000_9999_DENSE.judge(rt, 1, 0, 0)?;
    X.judge(rt, 0, 0, 0)?;
    X.judge(rt, 17, 0, 0)
}

// A speed that is named is not reduced.
pub(crate) fn not_reduced(rt: &impl Print) -> io::Result<()> {
    ONE_JOB.judge(rt, 1, 31, 31)?;
    NO_TASK.judge(rt, 3, 2, 4)
}

// The empty set asks for no more than the rack does, whatever its size.
pub(crate) fn no_task(rt: &impl Print) -> io::Result<()> {
    for m in 1..=16 {
        NO_TASK.judge(rt, m, 0, 0)?;
    }
    Ok(())
}
