// Runs the trials of a script that it reads from standard input, and prints what came of each.
#![tactic(auto)]

mod case;
mod fault;
mod rig;
mod script;
mod show;

use case::Case;
use fault::Fault;
use script::Directive;
use std::alloc::Global;
use std::io;
use std::process::ExitCode;

fn obey_line(rt: &impl Print, heap: Global, case: &mut Case, line: &str) -> Result<(), Fault> {
    case.obey(rt, Directive::parse(heap, line)?)
}

fn run(rt: &HostRuntime) -> io::Result<ExitCode> {
    let heap = rt.alloc();
    let script = io::read_to_string(heap, rt.stdin())?;
    let mut case = Case::new(heap);
    for (index, line) in script.as_str().lines().enumerate() {
        if let Err(fault) = obey_line(rt, heap, &mut case, line) {
            eprintln!(rt; "line {} of the script: {fault}", index.saturating_add(1))?;
            return Ok(ExitCode::FAILURE);
        }
    }
    Ok(ExitCode::SUCCESS)
}

fn main(rt: HostRuntime) -> io::Result<ExitCode> {
    run(&rt)
}
