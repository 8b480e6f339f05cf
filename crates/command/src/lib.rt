// A line read as commands: fields that borrow the line, mnemonics, parameters, columns.
#![tactic(auto)]

mod bytes;
pub mod command;
pub mod commands;
pub mod line;
pub mod mnemonic;
pub mod names;
pub mod parameters;
mod parts;
mod reading;
mod span;
mod splitting;
pub mod text;
mod values;
