// How demand goes at a tick: the line of a task around it, the lines of all tasks that end there, and the step of a task that begins there.
#![tactic(auto)]

pub mod around;
pub mod lines;
pub mod steps;
