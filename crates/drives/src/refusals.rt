use drive::{Drive, DriveRefusal, Profile};
use std::io;

const PROFILE: Profile = Profile {
    velocity: 1_000,
    acceleration: 1_000,
    deceleration: 1_000,
};

fn show_answer(rt: &impl Print, call: &str, answer: Result<(), DriveRefusal>) -> io::Result<()> {
    match answer {
        Ok(()) => println!(rt; "{call}: done"),
        Err(refusal) => println!(rt; "{call}: refused, {refusal}"),
    }
}

// Each refusal of a drive of three axes with a reach of 1,000, and which comes first where two apply.
pub fn show_refusals<D: Drive>(rt: &impl Print, drive: &mut D) -> io::Result<()> {
    println!(rt; "refused, three axes of reach 1000")?;
    show_answer(rt, "start axis 0 to 5", drive.start(0, 5, PROFILE))?;
    show_answer(rt, "stop axis 4", drive.stop(4))?;
    show_answer(
        rt,
        "start axis 1 to 1001 without power",
        drive.start(1, 1_001, PROFILE),
    )?;
    show_answer(rt, "power on axis 1", drive.power_on(1))?;
    show_answer(rt, "start axis 1 to 1001", drive.start(1, 1_001, PROFILE))?;
    show_answer(rt, "start axis 1 to -1000", drive.start(1, -1_000, PROFILE))?;
    show_answer(
        rt,
        "set the position of axis 1 to 1001 while it moves",
        drive.set_position(1, 1_001),
    )?;
    show_answer(rt, "stop axis 1", drive.stop(1))?;
    show_answer(
        rt,
        "set the position of axis 1 to 1001",
        drive.set_position(1, 1_001),
    )?;
    show_answer(
        rt,
        "set the position of axis 1 to 1000",
        drive.set_position(1, 1_000),
    )
}
