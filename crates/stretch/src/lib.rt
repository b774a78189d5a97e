// Where the demand of a task is a line: the stretches of its period, and those that are kept.
#![tactic(auto)]

pub mod kept;
