// Runs an answer file on a console over a modelled drive, and prints its mark sheet.
#![tactic(auto)]

mod course;
mod drive_choice;
mod flag;
mod input;
mod lines;
mod options;
mod rig;
mod session;
mod sheet;
mod text;
mod totals;
mod trouble;
mod usage;
mod words;

use input::{read_answers, read_setup};
use lines::Lines;
use options::{Options, Request};
use rig::{Rig, rig_of};
use session::Session;
use setup::{Setup, decode};
use sheet::{show_end, show_setup};
use std::process::ExitCode;
use std::{env, io};
use trouble::Trouble;
use usage::USAGE;

/// The drive that the options choose, with an axis for each record of the setup.
fn mounted(options: &Options, setup: &Setup) -> Result<Rig, Trouble> {
    let count = setup.count();
    let reversed = options.settings.reversed.as_slice();
    if let Some(&axis) = reversed.iter().find(|axis| **axis > count) {
        return Err(Trouble::NoSuchAxis { axis, count });
    }
    Ok(rig_of(options.settings.drive, count, reversed))
}

/// Runs every line of the answers.
fn answer_all(rt: &impl Print, session: &mut Session, answers: &[u8]) -> Result<(), Trouble> {
    for line in Lines::of(answers) {
        session.answer(rt, line)?;
    }
    Ok(())
}

fn mark(rt: &HostRuntime, options: &Options) -> Result<(), Trouble> {
    let records = read_setup(rt, options)?;
    let answers = read_answers(rt, options)?;
    let setup = decode(records.as_slice())?;
    let rig = mounted(options, &setup)?;
    let mut session = Session::open(rt.alloc(), rig, records.as_slice())?;
    show_setup(rt, options, &setup)?;
    answer_all(rt, &mut session, answers.as_slice())?;
    show_end(rt, &session.console, &session.rig, session.totals)?;
    Ok(())
}

fn run(rt: &HostRuntime) -> Result<(), Trouble> {
    match Request::parse(rt.alloc(), env::args(rt)?)? {
        Request::Help => println!(rt; "{USAGE}")?,
        Request::Sheet(options) => mark(rt, &options)?,
    }
    Ok(())
}

fn main(rt: HostRuntime) -> io::Result<ExitCode> {
    if let Err(trouble) = run(&rt) {
        eprintln!(rt; "marksheet: {trouble}")?;
        return Ok(ExitCode::FAILURE);
    }
    Ok(ExitCode::SUCCESS)
}
