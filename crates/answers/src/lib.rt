// What an accepted command answers.
#![tactic(auto)]

mod answer;
mod error_texts;
mod found;
mod places;
mod plain;
mod replying;

pub use replying::reply;
