// The graph of a task: its edges, choices and arms as vertex sets, and the graph rules.
#![tactic(auto)]

pub mod arms;
pub mod links;
pub mod roles;
pub mod rules;
