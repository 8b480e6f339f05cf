// Runs of digits.
ghost use Rattle.std.specs.Prelude.{◌≡◌, ◌^◌, ◌<◌, ◌≤◌, true, length};
ghost use Rattle.number.specs.Digits.{digits_before, all_digits, number};

/// How many digits a text begins with.
pub fn digits_before(text: &[u8]) -> usize
    ensures count { result ≡ digits_before text.now }
    ensures within { result ≤ length text.now }
{
    text.iter().take_while(|c| c.is_ascii_digit()).count()
}

/// The number that up to nine digits write.
pub(crate) fn short_number(digits: &[u8]) -> u64
    requires short { length digits.now ≤ 9 }
    requires digits { all_digits digits.now ≡ true }
    ensures value { result ≡ number digits.now }
    ensures bound { result < 10 ^ length digits.now }
{
    let mut n = 0;
    for c in digits {
        n = n * 10 + u64::from(*c - b'0');
    }
    n
}

/// Ten to a power up to the sixth.
#[tactic(auto, using(crate::proofs::Runs::ten_positive, crate::proofs::Runs::ten_bound))]
pub(crate) fn power_of_ten(k: usize) -> u64
    requires { k ≤ 6 }
    ensures value { result ≡ 10 ^ k }
    ensures positive { 0 < result }
    ensures bound { result ≤ 1000000 }
{
    10u64.pow(k as u32)
}
