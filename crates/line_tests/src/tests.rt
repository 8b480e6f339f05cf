// Examples that are proved safe, and then run.
use crate::walks::{count_known, count_parameters};
use command::commands::Commands;
use command::line::first_line;
use number::decimal::read_decimal;
use number::list::Position;
use number::writer::Writer;
use std::test::Fail;

/// Texts, and what they are worth in millionths.
const DECIMALS: [(&[u8], Option<i64>); 24] = [
    (b"-10", Some(-10_000_000)),
    (b".5", Some(500_000)),
    (b"5.", Some(5_000_000)),
    (b"+5", Some(5_000_000)),
    (b"-0", Some(0)),
    (b"-.000001", Some(-1)),
    (b"000000005", Some(5_000_000)),
    (b"10.000001", Some(10_000_001)),
    (b"+999999999.999999", Some(999_999_999_999_999)),
    (b"-999999999.999999", Some(-999_999_999_999_999)),
    (b"", None),
    (b".", None),
    (b"-", None),
    (b"+.", None),
    (b"1.2.3", None),
    (b"1e3", None),
    (b"--1", None),
    (b"1 2", None),
    (b" 1", None),
    (b"0x1", None),
    (b"1234567890", None),
    (b"0000000005", None),
    (b"1.0000000", None),
    (b"+999999999.9999990", None),
];

#[test]
fn decimals(rt: HostRuntime) {
    for (text, millionths) in DECIMALS {
        assert_eq!(rt; read_decimal(text), millionths);
    }
}

/// Settings in millionths, and their texts.
const SETTINGS: [(i64, &[u8]); 9] = [
    (500_000, b"0.5"),
    (-3_000_000, b"-3"),
    (0, b"0"),
    (10_000_001, b"10.000001"),
    (-1_250_000, b"-1.25"),
    (100_000_000, b"100"),
    (1, b"0.000001"),
    (999_999_999_999_999, b"999999999.999999"),
    (i64::MIN, b"-9223372036854.775808"),
];

/// Writes a setting from an offset on; the offset behind it.
fn end_of_setting(out: &mut [u8], at: usize, millionths: i64) -> usize {
    let mut writer = Writer::at(out, at);
    writer.setting(millionths);
    writer.offset()
}

#[test]
fn settings(rt: HostRuntime) {
    for (millionths, text) in SETTINGS {
        let mut out = [b'_'; 24];
        let end = end_of_setting(&mut out, 1, millionths);
        assert!(rt; 1 <= end && end < 24);
        assert_eq!(rt; &out[1..end], text);
        assert!(rt; out[0] == b'_' && out[end] == b'_');
    }
}

/// Positions in millionths, decimals to show, and their texts.
const POSITIONS: [(i64, usize, &[u8]); 14] = [
    (5_000_050, 4, b"5.0001"),
    (5_000_050, 2, b"5.00"),
    (-4, 4, b"0.0000"),
    (-50, 4, b"-0.0001"),
    (-49, 4, b"0.0000"),
    (49, 4, b"0.0000"),
    (50, 4, b"0.0001"),
    (-500_000, 0, b"-1"),
    (499_999, 0, b"0"),
    (20_000_000, 4, b"20.0000"),
    (-1_234_500, 3, b"-1.235"),
    (1_234_567, 6, b"1.234567"),
    (1_234_567, 9, b"1.234567"),
    (9_999_999, 0, b"10"),
];

#[test]
fn positions(rt: HostRuntime) {
    for (millionths, digits, text) in POSITIONS {
        let mut out = [b'_'; 24];
        let mut writer = Writer::at(&mut out, 1);
        writer.position(digits, millionths);
        let end = writer.offset();
        assert!(rt; 1 <= end && end < 24);
        assert_eq!(rt; &out[1..end], text);
        assert!(rt; out[0] == b'_' && out[end] == b'_');
    }
}

#[test]
fn replies(rt: HostRuntime) {
    let items = [
        Position {
            millionths: -500_000,
            digits: 0,
        },
        Position {
            millionths: 2_000_000,
            digits: 4,
        },
    ];
    let mut out = [b'_'; 16];
    let mut writer = Writer::at(&mut out, 2);
    writer.items(&items);
    writer.line_end();
    assert_eq!(rt; writer.offset(), 13);
    assert_eq!(rt; &out[0..16], b"__-1,2.0000\r\n___".as_slice());
    let mut again = [b'_'; 16];
    let mut writer = Writer::at(&mut again, 2);
    writer.list(items.iter());
    assert_eq!(rt; writer.offset(), 11);
    assert_eq!(rt; &again[0..16], b"__-1,2.0000_____".as_slice());
    let mut small = [b'_'; 4];
    assert_eq!(rt; end_of_setting(&mut small, 1, 1_250_000), 4);
    assert_eq!(rt; &small[0..4], b"_1.2".as_slice());
    assert_eq!(rt; end_of_setting(&mut small, 9, 1_250_000), 9);
}

/// Lines, how many of their commands are known, and of the first command column, number and parameters.
const LINES: [(&[u8], usize, usize, Option<u32>, usize); 14] = [
    (b"1VA10;1VA?", 2, 1, Some(1), 1),
    (b" 1 pa 2.5, ;; ?", 1, 2, Some(1), 2),
    (b"HN1,2", 1, 1, None, 2),
    (b"  ; ;st", 1, 6, None, 0),
    (b"007Pa5", 1, 1, Some(7), 1),
    (b"99999999999999999999PA5", 1, 1, Some(1000), 1),
    (b"1VA,", 1, 1, Some(1), 2),
    (b"1VA ? ", 1, 1, Some(1), 0),
    (b"1VA??", 1, 1, Some(1), 1),
    (b"1QQ;TE", 1, 1, Some(1), 0),
    (b"1 2PA5", 0, 1, Some(1), 1),
    (b"\tTE", 0, 1, None, 1),
    (b"1\nTE", 0, 1, Some(1), 1),
    (b"?", 0, 1, None, 0),
];

#[test]
fn lines(rt: HostRuntime) -> Result<(), Fail> {
    for (line, known, column, number, parameters) in LINES {
        assert_eq!(rt; count_known(line), known);
        let first = Commands::of(line).next_command().ok_or("no command")?;
        assert_eq!(rt; first.column, column);
        assert_eq!(rt; first.prefix_number(), number);
        assert_eq!(rt; count_parameters(&first), parameters);
    }
    assert_eq!(rt; count_known(b"        "), 0);
    let line = first_line(b"1TP\r\n2TP\r").ok_or("no line")?;
    assert_eq!(rt; line.taken, 4);
    assert_eq!(rt; line.bytes, b"1TP".as_slice());
    assert!(rt; first_line(b"1TP\n").is_none());
    Ok(())
}
