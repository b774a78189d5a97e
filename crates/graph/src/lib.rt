// The graph of a task as vertex sets: the arms of its choices, and the graph rules, over words alone.
#![tactic(auto)]

pub mod arms;
pub mod links;
pub mod rules;
