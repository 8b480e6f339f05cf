// Numbers as text: decimals read, settings and positions written.
#![tactic(auto)]

pub mod decimal;
pub mod digits;
pub mod list;
pub mod texts;
pub mod writer;
