// What the figures of tasks alone tell: the bound, the last tick that has to be looked at, and where a line of demand meets the line of the
// bound.
#![tactic(auto)]

pub mod load;
pub mod overtake;
pub mod stop;
