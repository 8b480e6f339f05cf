// Settings and positions, in millionths, written as text.
ghost use Rattle.std.specs.Prelude.{◌≡◌, ◌+◌, ◌-◌, ◌%◌, ◌^◌, ◌<◌, ◌≤◌, min, ◌&&◌, ◌++◌, pos, ◌==◌, int_lt, nat_lt};
ghost use Rattle.number.specs.Texts.{whole_text, last_digits, when, fixed, shortened, setting_text, rounded, position_text};
ghost use Rattle.number.specs.Writer.{wrote};
ghost use Rattle.number.specs.Laws.{SettingAgain, PositionAgain};

use crate::digits::power_of_ten;
use crate::writer::Writer;

/// The last digit of a number.
fn last_digit(n: u64) -> u8
    ensures { result ≡ 48 + n % 10 }
{
    b'0' + (n % 10) as u8
}

/// Whether the last of so many decimal places is a zero that can be left out.
fn needless(places: usize, n: u64) -> bool
    ensures { result ≡ (nat_lt 0 places && n % 10 == 0) }
{
    places > 0 && n % 10 == 0
}

/// The fewest decimal places that `n` units of the given place need, and how many units of the last it is.
#[tactic(auto, using(crate::proofs::Spelled::shortened_more, crate::proofs::Spelled::shortened_ends))]
fn shorten(places: usize, n: u64) -> (usize, u64)
    ensures value { result ≡ shortened places n }
    ensures bound { result.0 ≤ places }
{
    if !needless(places, n) {
        return (places, n);
    }
    shorten(places - 1, n / 10)
}

/// Millionths in units of the given decimal place, the nearest, and of two the larger.
fn round(millionths: u64, places: usize) -> u64
    requires places { places ≤ 6 }
    requires size { millionths ≤ 2 ^ 63 }
    ensures { result ≡ rounded places millionths }
{
    let unit = power_of_ten(6 - places);
    (millionths + unit / 2) / unit
}

/// Whether a position is shown with a minus: not where it is rounded to zero.
fn shows_minus(millionths: i64, n: u64) -> bool
    ensures { result ≡ (int_lt millionths (pos 0) && nat_lt 0 n) }
{
    millionths < 0 && n > 0
}

impl Writer<'_> {
    /// Writes a whole number.
    #[tactic(auto, using(crate::proofs::Wrote::wrote_after, crate::proofs::Spelled::whole_digit, crate::proofs::Spelled::whole_step))]
    pub fn whole(&mut self, n: u64)
        ensures { self.new ≡ wrote self.old (whole_text n) }
    {
        if n >= 10 {
            self.whole(n / 10);
        }
        self.byte(last_digit(n));
    }

    /// Writes the last `count` digits of `n`.
    #[tactic(auto, using(crate::proofs::Wrote::wrote_nothing, crate::proofs::Wrote::wrote_after, crate::proofs::Spelled::last_more))]
    fn digits(&mut self, count: usize, n: u64)
        ensures { self.new ≡ wrote self.old (last_digits count n) }
    {
        if count == 0 {
            return;
        }
        self.digits(count - 1, n / 10);
        self.byte(last_digit(n));
    }

    /// Writes `n` units of the given decimal place.
    #[tactic(auto, using(crate::proofs::Wrote::wrote_after, crate::proofs::Spelled::fixed_none, crate::proofs::Spelled::fixed_some))]
    fn fixed(&mut self, places: usize, n: u64)
        requires { places ≤ 6 }
        ensures { self.new ≡ wrote self.old (fixed places n) }
    {
        let unit = power_of_ten(places);
        self.whole(n / unit);
        if places == 0 {
            return;
        }
        self.byte(b'.');
        self.digits(places, n % unit);
    }

    /// Writes a minus where it is wanted, and `n` units of the given decimal place.
    #[tactic(auto, using(crate::proofs::Wrote::wrote_after))]
    fn signed(&mut self, minus: bool, places: usize, n: u64)
        requires { places ≤ 6 }
        ensures { self.new ≡ wrote self.old (when minus 45 ++ fixed places n) }
    {
        self.when(minus, b'-');
        self.fixed(places, n);
    }

    /// Writes a setting with no needless zeros.
    #[tactic(auto, using(crate::proofs::Spelled::setting_is, crate::proofs::Again::setting_again))]
    pub fn setting(&mut self, millionths: i64)
        ensures text { self.new ≡ wrote self.old (setting_text millionths) }
        ensures again { SettingAgain millionths }
    {
        let (places, n) = shorten(6, millionths.unsigned_abs());
        self.signed(millionths < 0, places, n);
    }

    /// Writes a position rounded to a number of decimal places, more than 6 counting as 6.
    #[tactic(auto, using(crate::proofs::Spelled::position_is, crate::proofs::Near::position_again))]
    pub fn position(&mut self, digits: usize, millionths: i64)
        ensures text { self.new ≡ wrote self.old (position_text (min digits 6) millionths) }
        ensures again { PositionAgain (min digits 6) millionths }
    {
        let places = digits.min(6);
        let n = round(millionths.unsigned_abs(), places);
        self.signed(shows_minus(millionths, n), places, n);
    }
}
