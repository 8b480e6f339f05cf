// Decimals, read as whole millionths.
ghost use Rattle.std.specs.Prelude.{◌≡◌, ℕ, ◌+◌, ◌-◌, ◌*◌, ◌^◌, ◌<◌, ◌≤◌, true, length, pos, neg_ℤ, IfSome};
ghost use Rattle.std.specs.Option.{option_map};
ghost use Rattle.number.specs.Digits.{all_digits};
ghost use Rattle.number.specs.Decimals.{fraction_of, fits_decimal, worth, magnitude_of, signed_of, read_decimal};

use crate::digits::{digits_before, power_of_ten, short_number};

/// The most characters that a decimal has: a sign, nine digits, a point and six digits.
const LONGEST: usize = 17;

/// The digits behind the point, of what follows the digits in front of it.
fn fraction(after: &[u8]) -> Option<&[u8]>
    ensures value { option_map (λ x. x.now) result ≡ fraction_of after.now }
    ensures digits { IfSome result (λ x. all_digits x.now ≡ true) }
{
    match after {
        [] => Some(after),
        [b'.', digits @ ..] if digits_before(digits) == digits.len() => Some(digits),
        _ => None,
    }
}

/// Whether a decimal can have these digits in front of the point and behind it.
fn allowed(whole: &[u8], fraction: &[u8]) -> bool
    ensures { result ≡ fits_decimal whole.now fraction.now }
{
    whole.len() <= 9 && fraction.len() <= 6 && whole.len() + fraction.len() > 0
}

/// What the digits in front of the point and behind it are worth, in millionths.
fn in_millionths(whole: &[u8], fraction: &[u8]) -> Option<u64>
    requires whole { all_digits whole.now ≡ true }
    requires fraction { all_digits fraction.now ≡ true }
    ensures value { result ≡ worth whole.now fraction.now }
    ensures bound { IfSome result (λ n. n < 2 ^ 60) }
{
    if !allowed(whole, fraction) {
        return None;
    }
    Some(
        short_number(whole) * 1_000_000 + short_number(fraction) * power_of_ten(6 - fraction.len()),
    )
}

/// A decimal without sign, in millionths.
fn magnitude(text: &[u8]) -> Option<u64>
    ensures value { result ≡ magnitude_of text.now }
    ensures bound { IfSome result (λ n. n < 2 ^ 60) }
{
    let (whole, after) = text.split_at(digits_before(text));
    let digits = fraction(after)?;
    in_millionths(whole, digits)
}

/// A magnitude with a minus in front.
fn negated(magnitude: u64) -> i64
    requires { magnitude < 2 ^ 60 }
    ensures { result ≡ neg_ℤ (pos magnitude) }
{
    -(magnitude as i64)
}

/// A decimal of any length, in millionths.
fn signed(text: &[u8]) -> Option<i64>
    ensures { result ≡ signed_of text.now }
{
    match text {
        [b'-', rest @ ..] => Some(negated(magnitude(rest)?)),
        [b'+', rest @ ..] => Some(magnitude(rest)? as i64),
        _ => Some(magnitude(text)? as i64),
    }
}

/// A decimal, in millionths: a sign or none, up to nine digits, and a point with up to six digits or none.
pub fn read_decimal(text: &[u8]) -> Option<i64>
    ensures { result ≡ read_decimal text.now }
{
    if text.len() > LONGEST {
        return None;
    }
    signed(text)
}
