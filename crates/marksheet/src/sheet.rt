use crate::options::{Options, Settings};
use crate::rig::Rig;
use crate::text::{Shown, Units};
use crate::totals::Totals;
use console::Console;
use drive::Drive;
use queue::{ErrorEntry, Refusal};
use setup::{Setup, SetupRecord, text_length};
use std::io;

fn show_drive(rt: &impl Print, settings: &Settings) -> io::Result<()> {
    print!(rt; "DRIVE    {}", settings.drive)?;
    if settings.reversed.is_empty() {
        return println!(rt; "; no axis reversed");
    }
    print!(rt; "; reversed:")?;
    for axis in settings.reversed.as_slice() {
        print!(rt; " axis {axis}")?;
    }
    println!(rt; "")
}

fn show_record(rt: &impl Print, axis: usize, record: &SetupRecord) -> io::Result<()> {
    let name = Shown(&record.name[0..text_length(&record.name)]);
    let velocity = Units(i64::from(record.max_velocity));
    let acceleration = Units(i64::from(record.max_acceleration));
    let left = Units(i64::from(record.left));
    let right = Units(i64::from(record.right));
    println!(rt; "{axis:>4}  {velocity:>12}  {acceleration:>16}  {left:>12}  {right:>12}  {name}")
}

/// The setup of the axes, and the drive.
pub fn show_setup(rt: &impl Print, options: &Options, setup: &Setup) -> io::Result<()> {
    println!(rt; "MARK SHEET")?;
    println!(rt; "")?;
    match &options.settings.setup {
        Some(name) => println!(rt; "SETUP    {name}")?,
        None => println!(rt; "SETUP    the course's")?,
    }
    show_drive(rt, &options.settings)?;
    println!(rt; "AXIS  MAX VELOCITY  MAX ACCELERATION    LEFT LIMIT   RIGHT LIMIT  STAGE")?;
    for axis in 1..=setup.count() {
        if let Some(record) = setup.record(axis) {
            show_record(rt, axis, &record)?;
        }
    }
    println!(rt; "")?;
    println!(rt; "ANSWERS  {}", options.answers)
}

/// A line of the answers, with its number.
pub fn show_line(rt: &impl Print, number: u64, line: &[u8]) -> io::Result<()> {
    if line.is_empty() {
        return println!(rt; "{number:>4}");
    }
    println!(rt; "{number:>4}  {}", Shown(line))
}

/// The replies of a line, each of which ends with CR and LF.
pub fn show_replies(rt: &impl Print, replies: &[u8]) -> io::Result<()> {
    match std::str::from_utf8(replies) {
        Ok(text) => {
            for reply in text.lines() {
                println!(rt; "        {reply}")?;
            }
            Ok(())
        }
        Err(_) => println!(rt; "        {}", Shown(replies)),
    }
}

/// That the console refused a line by number.
pub fn show_refused(rt: &impl Print, refusal: Refusal) -> io::Result<()> {
    println!(rt; "        refused, {}: {refusal}", refusal.number())
}

/// The errors that wait, oldest first.
fn show_errors(rt: &impl Print, console: &Console) -> io::Result<()> {
    println!(rt; "ERRORS WAITING")?;
    println!(rt; "CODE  COLUMN  MESSAGE")?;
    for entry in (1..=ErrorEntry::MOST).map_while(|n| console.error(n).ok()) {
        let code = entry.fault.code();
        let column = entry.column;
        println!(rt; "{code:>4}  {column:>6}  {}", Shown(entry.fault.message()))?;
    }
    println!(rt; "")
}

/// Where each axis stands, where it goes, and its power.
fn show_axes(rt: &impl Print, rig: &Rig) -> io::Result<()> {
    println!(rt; "AXES AT THE END")?;
    println!(rt; "AXIS      POSITION        TARGET  POWER")?;
    for axis in 1..=rig.axis_count() {
        if let (Ok(position), Ok(target), Ok(powered)) = (
            rig.position(axis),
            rig.target(axis),
            rig.powered(axis),
        ) {
            let position = Units(i64::from(position));
            let target = Units(i64::from(target));
            let power = if powered { "on" } else { "off" };
            println!(rt; "{axis:>4}  {position:>12}  {target:>12}  {power}")?;
        }
    }
    println!(rt; "")
}

/// How it all stands at the end, and the totals.
pub fn show_end(rt: &impl Print, console: &Console, rig: &Rig, totals: Totals) -> io::Result<()> {
    println!(rt; "")?;
    show_errors(rt, console)?;
    show_axes(rt, rig)?;
    let Totals {
        lines,
        replies,
        reply_bytes,
    } = totals;
    let waiting = (1..=ErrorEntry::MOST)
        .take_while(|n| console.error(*n).is_ok())
        .count();
    println!(rt;
        "TOTALS   lines {lines}, replies {replies}, reply bytes {reply_bytes}, errors waiting {waiting}"
    )
}
