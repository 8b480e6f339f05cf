use crate::visit::visit;
use drive::{Drive, Profile};
use std::{fmt, io};

// One leg of the tour: an axis is sent to a target at a velocity, for so many ticks at most.
#[derive(Clone, Copy)]
struct Leg {
    axis: usize,
    velocity: u32,
    target: i32,
    limit: u32,
}

const TOUR: [Leg; 8] = [
    Leg {
        axis: 1,
        velocity: 1_999,
        target: 7,
        limit: 1,
    },
    Leg {
        axis: 1,
        velocity: 1_999,
        target: 7,
        limit: 60_000,
    },
    Leg {
        axis: 1,
        velocity: 999,
        target: -2,
        limit: 60_000,
    },
    Leg {
        axis: 2,
        velocity: 2_000_000_000,
        target: 2_000_000_000,
        limit: 1,
    },
    Leg {
        axis: 2,
        velocity: 2_000_000_000,
        target: 2_000_000_000,
        limit: 60_000,
    },
    Leg {
        axis: 2,
        velocity: 2_000_000_000,
        target: -2_000_000_000,
        limit: 60_000,
    },
    Leg {
        axis: 3,
        velocity: 400_000_000,
        target: 5_000_000,
        limit: 60_000,
    },
    Leg {
        axis: 3,
        velocity: 400_000_000,
        target: 5_000_000,
        limit: 60_000,
    },
];

// The first columns of a row of the tour.
impl fmt::Display for Leg {
    fn fmt<W: fmt::Write>(&self, f: &mut fmt::Formatter<W>) -> fmt::Result {
        let Leg {
            axis,
            velocity,
            target,
            limit,
        } = *self;
        write!(f, "{axis:>4} {velocity:>11} {target:>12} {limit:>6}")
    }
}

// Powers three axes, visits the tour's targets in turn and prints a row for each.
pub fn show_tour<D: Drive>(rt: &impl Print, name: &str, drive: &mut D) -> io::Result<()> {
    println!(rt; "{name}")?;
    println!(rt;
        "axis    velocity       target  limit         from     position  ticks         way"
    )?;
    for axis in 1..=3 {
        let _ = drive.power_on(axis);
    }
    for leg in TOUR {
        let profile = Profile {
            velocity: leg.velocity,
            acceleration: 50_000_000,
            deceleration: 50_000_000,
        };
        match visit(drive, leg.axis, leg.target, profile, leg.limit) {
            Ok(visit) => println!(rt; "{leg} {visit}")?,
            Err(refusal) => println!(rt; "{leg} refused: {refusal}")?,
        }
    }
    println!(rt; "")
}
