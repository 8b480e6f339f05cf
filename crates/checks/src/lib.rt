// When a command is refused: each rule in a function of its own, and all of them in their order.
#![tactic(auto)]

mod forming;
mod judging;
mod moves;

pub use judging::judge;
