use desk::State;
use queue::{ErrorEntry, ErrorQueue, Fault};
use setup::{decode, encode};
use std::test::Fail;

// Two axes: names X and Y, maxima 10 and 50 units, limits -20 and 20.
fn two_axes() -> [u8; 96] {
    let mut bytes = [0; 96];
    bytes[0] = b'X';
    bytes[48] = b'Y';
    for k in 0..2 {
        let at = 48 * k;
        bytes[at + 32] = 0x80;
        bytes[at + 33] = 0x96;
        bytes[at + 34] = 0x98;
        bytes[at + 36] = 0x80;
        bytes[at + 37] = 0xf0;
        bytes[at + 38] = 0xfa;
        bytes[at + 39] = 0x02;
        bytes[at + 41] = 0xd3;
        bytes[at + 42] = 0xce;
        bytes[at + 43] = 0xfe;
        bytes[at + 45] = 0x2d;
        bytes[at + 46] = 0x31;
        bytes[at + 47] = 0x01;
    }
    bytes
}

fn number(bytes: &[u8]) -> u16 {
    match decode(bytes) {
        Ok(_) => 0,
        Err(refusal) => refusal.number(),
    }
}

#[test]
fn records_are_read(rt: HostRuntime) -> Result<(), Fail> {
    let bytes = two_axes();
    let Ok(setup) = decode(&bytes) else {
        return Err(Fail::new("two whole records"));
    };
    let Some(second) = setup.record(2) else {
        return Err(Fail::new("a second record"));
    };
    assert!(rt;
        second.name[0] == b'Y'
            && second.max_velocity == 10_000_000
            && second.max_acceleration == 50_000_000
    );
    assert!(rt; second.left == -20_000_000 && second.right == 20_000_000);
    let mut out = [7; 100];
    assert!(rt; encode(&setup, &mut out) == Some(96));
    assert!(rt; out[48] == b'Y' && out[95] == 0x01 && out[96] == 7);
    Ok(())
}

// The same with a name of n bytes, 32 at most, for the second axis.
fn second_named(n: usize) -> [u8; 96] {
    let mut bytes = two_axes();
    for k in 0..n.min(32) {
        bytes[48 + k] = b'Y';
    }
    bytes
}

#[test]
fn records_are_refused(rt: HostRuntime) {
    let mut bytes = two_axes();
    assert!(rt;
        number(&bytes) == 0 && number(&bytes[0..95]) == 9001 && number(&bytes[0..48]) == 9001
    );
    bytes[47] = 0xfe;
    assert!(rt; number(&bytes) == 9002);
    assert!(rt; number(&second_named(30)) == 0 && number(&second_named(31)) == 9002);
}

#[test]
fn eleventh_error_pushes_out(rt: HostRuntime) -> Result<(), Fail> {
    let mut errors = ErrorQueue::new();
    for column in 1..12 {
        errors.push(ErrorEntry {
            fault: Fault::InGroup(12),
            column,
        });
    }
    assert!(rt; errors.count() == 10);
    let Some(oldest) = errors.take() else {
        return Err(Fail::new("ten wait"));
    };
    assert!(rt; oldest.column == 2 && oldest.fault.code() == 1231 && errors.count() == 9);
    Ok(())
}

#[test]
fn groups_take_the_smallest(rt: HostRuntime) -> Result<(), Fail> {
    let Ok(setup) = decode(&two_axes()) else {
        return Err(Fail::new("two whole records"));
    };
    let mut state = State::opened(&setup);
    assert!(rt;
        state.desk.set_velocity(2, 4_000_000)
            && !state.desk.set_velocity(3, 1)
            && !state.desk.set_digits(1, 7)
    );
    assert!(rt;
        state.desk.form(1, &[1, 2]) && !state.desk.form(1, &[1, 2]) && !state.desk.form(2, &[1, 2])
    );
    assert!(rt;
        state.desk.group_profile(1).velocity == 4_000_000 && state.desk.group_of(2) == Some(1)
    );
    for _ in 0..9 {
        let _ = state.desk.queue_waypoint(1, &[5, -5]);
    }
    assert!(rt;
        state.desk.waypoint_count(1) == 8
            && state.desk.dissolve(1)
            && state.desk.waypoint_count(1) == 0
    );
    Ok(())
}
