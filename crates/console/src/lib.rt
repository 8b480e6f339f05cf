// The console: opening, line, ticks and error view.
#![tactic(auto)]

mod calls;
mod console;
mod line_done;
mod matching;
mod opening;

pub use console::Console;
pub use line_done::LineDone;
