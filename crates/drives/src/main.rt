// A tour of the modelled drives: how each travels, how its making settles odd figures, and what every drive refuses.
#![tactic(auto)]

mod account;
mod refusals;
mod tour;
mod visit;

use bank::Bank;
use drive::{Drive, Reversed};
use refusals::show_refusals;
use stage::Ease;
use std::io;
use tour::show_tour;

const REACH: u32 = 2_000_000_000;

// The easing drives: a stride and a share in range, and one of each that acts as 1.
fn show_easing(rt: &impl Print) -> io::Result<()> {
    let drives = [
        ("easing by a stride of 250000", Ease::Stride(250_000.0)),
        (
            "easing by a stride of 0.5, which acts as 1",
            Ease::Stride(0.5),
        ),
        ("easing by a share of 0.1", Ease::Share(0.1)),
        (
            "easing by a share of 1.5, which acts as 1",
            Ease::Share(1.5),
        ),
    ];
    for (name, ease) in drives {
        show_tour(rt, name, &mut Bank::easing(3, REACH, ease))?;
    }
    Ok(())
}

// The position of an axis, seen from here and by the drive below.
fn show_sides<D: Drive>(rt: &impl Print, drive: &Reversed<D>, axis: usize) -> io::Result<()> {
    match (drive.position(axis), drive.below.position(axis)) {
        (Ok(here), Ok(below)) => println!(rt; "axis {axis} at {here}, below at {below}"),
        _ => println!(rt; "axis {axis} is not there"),
    }
}

// The drive reversed at axis 2, and that reversed at axis 2 again.
fn show_reversed(rt: &impl Print) -> io::Result<()> {
    let mut once = Reversed::new(Bank::stepping(3, REACH), 2);
    show_tour(rt, "stepping, axis 2 reversed", &mut once)?;
    show_sides(rt, &once, 1)?;
    show_sides(rt, &once, 2)?;
    let twice = Reversed::new(once, 2);
    println!(rt; "and reversed once more:")?;
    show_sides(rt, &twice, 2)?;
    println!(rt; "")
}

// What a drive that is made with these figures has.
fn show_made(rt: &impl Print, count: usize, reach: u32) -> io::Result<()> {
    let made = Bank::instant(count, reach);
    match made.reach(1) {
        Ok(taken) => println!(rt;
            "count {count}, reach {reach}: {} axes of reach {taken}",
            made.axis_count()
        ),
        Err(refusal) => println!(rt; "count {count}, reach {reach}: {refusal}"),
    }
}

fn main(rt: HostRuntime) -> io::Result<()> {
    show_tour(&rt, "instant", &mut Bank::instant(3, REACH))?;
    show_tour(&rt, "stepping", &mut Bank::stepping(3, REACH))?;
    show_easing(&rt)?;
    show_reversed(&rt)?;
    println!(rt; "made")?;
    for (count, reach) in [(1, 0), (2, 1), (12, 2_000_000_000), (13, 4_000_000_000)] {
        show_made(&rt, count, reach)?;
    }
    println!(rt; "")?;
    show_refusals(&rt, &mut Bank::stepping(3, 1_000))
}
