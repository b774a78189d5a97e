// Charts of tasks, latest ends, and the work that remains of a task as pieces.
#![tactic(auto)]

pub mod chart;
pub mod figured;
pub mod jobs;
pub mod walk;
