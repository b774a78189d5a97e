// The limits of document 01, each number once: the definitions of the same names stand in `specs/Limits`.
pub const MOST_MILLS: usize = 40;

pub const MOST_TASKS: usize = 32;

pub const MOST_VERTICES: usize = 64;

pub const MOST_EDGES: usize = 256;

pub const LONGEST_JOB: usize = 10_000;

pub const LONGEST_PERIOD: usize = 10_000;

pub const MOST_PROCESSORS: usize = 16;

// The largest p and q of a speed.
pub const LARGEST_PART: u64 = 31;

pub const MOST_CYCLE: u64 = 50_000;

pub const MOST_TICK: u64 = 1_550_000;

pub const MOST_BYTES: usize = 65_536;
