use setup::{Setup, SetupRecord, encode};
use std::alloc::{AllocError, Global};

/// The bytes of the course setup: three records.
const SIZE: usize = 144;

/// A stage of the course: at most 10 units/s and 50 units/s², from -20 to 20 units.
fn stage(letter: u8) -> SetupRecord {
    let mut name = [0; 32];
    name[0..6].copy_from_slice(b"STAGE ");
    name[6] = letter;
    SetupRecord {
        name,
        max_velocity: 10_000_000,
        max_acceleration: 50_000_000,
        left: -20_000_000,
        right: 20_000_000,
    }
}

/// The setup file of the course: the stages X, Y and Z.
pub fn course_setup(heap: Global) -> Result<Vec<u8>, AllocError> {
    let mut setup = Setup::new();
    for letter in *b"XYZ" {
        let _ = setup.add(stage(letter));
    }
    let mut bytes = [0; SIZE];
    let _ = encode(&setup, &mut bytes);
    Vec::from_slice(heap, &bytes)
}
