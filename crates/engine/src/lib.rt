// One command after another: judged, answered and carried out.
#![tactic(auto)]

mod command_step;
mod line_run;

pub use command_step::execute;
pub use line_run::run_line;
