// The sets with the names that the lines give them.
use crate::sets;
use crate::show::Named;

pub(crate) const X: Named = Named {
    name: "X",
    set: &sets::X,
};

pub(crate) const Y: Named = Named {
    name: "Y",
    set: &sets::Y,
};

pub(crate) const ONE_JOB: Named = Named {
    name: "the 32 bytes",
    set: &sets::ONE_JOB,
};

pub(crate) const ONE_JOB_DENSE: Named = Named {
    name: "the 32 bytes with job time 2",
    set: &sets::ONE_JOB_DENSE,
};

pub(crate) const ONE_JOB_OF_0: Named = Named {
    name: "the 32 bytes with job time 0",
    set: &sets::ONE_JOB_OF_0,
};

pub(crate) const TWO_JOBS_DEADLINE_1: Named = Named {
    name: "two jobs by 1",
    set: &sets::TWO_JOBS_DEADLINE_1,
};

pub(crate) const TWO_JOBS_DEADLINE_2: Named = Named {
    name: "two jobs by 2",
    set: &sets::TWO_JOBS_DEADLINE_2,
};

pub(crate) const PERIODS_10000_6250: Named = Named {
    name: "periods 10,000 and 6,250",
    set: &sets::PERIODS_10000_6250,
};

pub(crate) const PERIODS_10000_9999: Named = Named {
    name: "periods 10,000 and 9,999",
    set: &sets::PERIODS_10000_9999,
};

pub(crate) const PERIODS_10000_6250_DENSE: Named = Named {
    name: "periods 10,000 and 6,250 (dense)",
    set: &sets::PERIODS_10000_6250_DENSE,
};

pub(crate) const PERIODS_10000_9999_DENSE: Named = Named {
    name: "periods 10,000 (dense) and 9,999",
    set: &sets::PERIODS_10000_9999_DENSE,
};

pub(crate) const RATIO_20_33: Named = Named {
    name: "20 by 33",
    set: &sets::RATIO_20_33,
};

pub(crate) const TWO_EXCEED: Named = Named {
    name: "two that exceed",
    set: &sets::TWO_EXCEED,
};

// The set of no task.
pub(crate) const NO_TASK: Named = Named {
    name: "no task",
    set: b"",
};
