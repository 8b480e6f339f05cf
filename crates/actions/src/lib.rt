// What an accepted command does.
#![tactic(auto)]

mod collecting;
mod fitting;
mod grouping;
mod moving;
mod narrowing;
mod performing;

pub use performing::perform;
