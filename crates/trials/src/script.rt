ghost use Rattle.std.specs.Prelude.{◌≡◌, ◌<◌, map, length, IfOk, IfSome, MatchResult, Ok, None, slice_index};
ghost use Rattle.hex.specs.Hex.{hex_digit_value};
ghost use Rattle.trials.specs.Hex.{Spells, Wrong};
ghost use Rattle.trials.specs.Script.{Says};

use crate::fault::Fault;
use bank::Bank;
use stage::Ease;
use std::alloc::Global;
use std::str::FromStr;

/// The bytes of a setup record.
const RECORD: usize = 48;

/// A line of a script.
#[derive(Drop)]
pub enum Directive {
    Case(u64),
    Drive(Bank),
    Reversed(usize),
    Record(Vec<u8>),
    Open,
    Line { room: usize, bytes: Vec<u8> },
    Ticks(u32),
    Error(usize),
}

fn number<N: FromStr>(word: &str) -> Result<N, Fault>
where
    N::Err: Drop,
    ensures { IfOk result (λ n. N.FromStr.from_str_gives word.now (Ok n)) }
{
    word.parse().map_err(|_| Fault::Number)
}

/// The drive that the words behind `drive` name.
fn drive(words: &[&str]) -> Result<Bank, Fault> {
    match words {
        ["instant", count, reach] => Ok(Bank::instant(number(count)?, number(reach)?)),
        ["stepping", count, reach] => Ok(Bank::stepping(number(count)?, number(reach)?)),
        ["stride", count, reach, stride] => Ok(Bank::easing(
            number(count)?,
            number(reach)?,
            Ease::Stride(number(stride)?),
        )),
        ["share", count, reach, share] => Ok(Bank::easing(
            number(count)?,
            number(reach)?,
            Ease::Share(number(share)?),
        )),
        _ => Err(Fault::Words),
    }
}

/// The place of the first byte that is no hex digit.
#[tactic(auto, using(crate::proofs::Digits::no_digit))]
fn first_wrong(text: &[u8]) -> Option<usize>
    ensures { IfSome result (λ at. (at < length text.now) × (hex_digit_value (slice_index text.now at) ≡ None)) }
{
    text.iter().position(|b| !b.is_ascii_hexdigit())
}

/// The bytes that a text of hex digits spells, two digits to a byte. What is no digit is told before memory is asked for, which
/// `hex::decode` would ask for first.
#[tactic(auto, using(crate::proofs::Digits::decoded, crate::proofs::Digits::refused))]
fn hex_bytes(heap: Global, text: &[u8]) -> Result<Vec<u8>, Fault>
    ensures { MatchResult result (λ v. Spells text.now v.items) (λ e. Wrong text.now e) }
{
    if text.len() % 2 == 0 {
        if let Some(at) = first_wrong(text) {
            return Err(Fault::NoDigit(at));
        }
    }
    Ok(hex::decode(heap, text)?)
}

/// The bytes of one setup record.
fn record(heap: Global, digits: &str) -> Result<Vec<u8>, Fault>
    ensures { IfOk result (λ v. Spells digits.now v.items × (length v.items ≡ 48)) }
{
    let bytes = hex_bytes(heap, digits.as_bytes())?;
    if bytes.len() != RECORD {
        return Err(Fault::RecordLength(bytes.len()));
    }
    Ok(bytes)
}

impl Directive {
    /// What the words of a line ask for.
    fn of_words(heap: Global, words: &[&str]) -> Result<Directive, Fault>
        ensures { IfOk result (λ d. Says (map (λ w. w.now) words.now) d) }
    {
        match words {
            ["case", n] => Ok(Directive::Case(number(n)?)),
            ["drive", rest @ ..] => Ok(Directive::Drive(drive(rest)?)),
            ["reversed", axis] => Ok(Directive::Reversed(number(axis)?)),
            ["record", digits] => Ok(Directive::Record(record(heap, digits)?)),
            ["open"] => Ok(Directive::Open),
            ["line", room, digits] => Ok(Directive::Line {
                room: number(room)?,
                bytes: hex_bytes(heap, digits.as_bytes())?,
            }),
            ["ticks", count] => Ok(Directive::Ticks(number(count)?)),
            ["error", n] => Ok(Directive::Error(number(n)?)),
            _ => Err(Fault::Words),
        }
    }

    /// What a line of a script asks for. Its words are parted by one blank.
    // No `FromStr`: its words and bytes need the heap.
    pub fn parse(heap: Global, line: &str) -> Result<Directive, Fault> {
        let words: Vec<&str> = line.split(' ').collect(heap)?;
        Directive::of_words(heap, words.as_slice())
    }
}
