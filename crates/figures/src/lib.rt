// Whether the figure that a command sets is in its range: each rule in a function of its own.
#![tactic(auto)]

pub mod ranges;
