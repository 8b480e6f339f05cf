use number::writer::Writer;
use std::fmt;
use std::str::from_utf8;

/// A length, velocity or acceleration in millionths, shown in units.
#[derive(Clone, Copy)]
pub struct Units(pub i64);

impl fmt::Display for Units {
    fn fmt<W: fmt::Write>(&self, f: &mut fmt::Formatter<W>) -> fmt::Result {
        let mut text = [0; 24];
        let mut writer = Writer::at(&mut text, 0);
        writer.setting(self.0);
        let end = writer.offset().min(24);
        match from_utf8(&text[0..end]) {
            Ok(shown) => f.pad(shown),
            Err(_) => Err(fmt::Error),
        }
    }
}

/// Bytes, shown as they are where they can be printed, and else by their number.
#[derive(Clone, Copy)]
pub struct Shown<'a>(pub &'a [u8]);

impl fmt::Display for Shown<'_> {
    fn fmt<W: fmt::Write>(&self, f: &mut fmt::Formatter<W>) -> fmt::Result {
        for b in self.0 {
            if matches!(b, b' '..=b'~') {
                f.write_char(char::from(*b))?;
            } else {
                write!(f, "<{b:02X}>")?;
            }
        }
        Ok(())
    }
}
