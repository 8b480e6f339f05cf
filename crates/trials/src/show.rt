ghost use Rattle.std.specs.Prelude.{◌≡◌, ℕ, ◌<◌, true, false, length, ◌≢◌, slice_index};

use console::{Console, LineDone};
use queue::{ErrorEntry, Refusal};
use std::io;
use std::str::from_utf8;

/// Each reply on a line of its own, behind two blanks.
fn show_replies(rt: &impl Print, replies: &[u8]) -> io::Result<()> {
    match from_utf8(replies) {
        Ok(text) => {
            for reply in text.lines() {
                println!(rt; "  {reply}")?;
            }
            Ok(())
        }
        Err(_) => println!(rt; "replies that are no text"),
    }
}

/// Whether a byte is another than the buffer was filled with.
fn is_spoiled(bytes: &[u8], filled: u8) -> bool
    ensures spoiled { result ≡ true → (k : ℕ) × (k < length bytes.now) × (slice_index bytes.now k ≢ filled) }
    ensures whole { result ≡ false → (k : ℕ) → k < length bytes.now → slice_index bytes.now k ≡ filled }
{
    bytes.iter().any(|b| *b != filled)
}

/// What a line call answered, its replies, and whether the buffer behind them was spoiled.
pub fn show_line(
    rt: &impl Print,
    answer: Result<LineDone, Refusal>,
    buffer: &[u8],
    filled: u8,
) -> io::Result<()> {
    let written = match answer {
        Ok(done) => {
            println!(rt; "line 0 {} {}", done.taken, done.written)?;
            done.written.min(buffer.len())
        }
        Err(refusal) => {
            println!(rt; "line {}", refusal.number())?;
            0
        }
    };
    let (replies, behind) = buffer.split_at(written);
    show_replies(rt, replies)?;
    if is_spoiled(behind, filled) {
        println!(rt; "buffer spoiled")?;
    }
    Ok(())
}

/// The code and the column of each error that waits, oldest first.
pub fn show_errors(rt: &impl Print, console: &Console) -> io::Result<()> {
    print!(rt; "errors")?;
    for entry in (1..=ErrorEntry::MOST).map_while(|n| console.error(n).ok()) {
        print!(rt; " {}@{}", entry.fault.code(), entry.column)?;
    }
    println!(rt; "")
}
