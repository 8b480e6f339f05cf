ghost use Rattle.std.specs.Prelude.{◌≡◌, ◌≤◌, length};
ghost use Rattle.setup.specs.Records.{printable, text_length, all_zero, name_ok};

fn printable(b: u8) -> bool
    ensures { result ≡ printable b }
{
    (32..=126).contains(&b)
}

// How many bytes stand before the first that is not from 32 to 126.
pub fn text_length(name: &[u8]) -> usize
    ensures value { result ≡ text_length name.now }
    ensures within { result ≤ length name.now }
{
    name.iter().take_while(|b| printable(**b)).count()
}

fn all_zero(bytes: &[u8]) -> bool
    ensures { result ≡ all_zero bytes.now }
{
    bytes.iter().all(|b| *b == 0)
}

// Whether the bytes are a stage name, filled up with zero bytes.
pub(crate) fn name_ok(name: &[u8]) -> bool
    ensures { result ≡ name_ok name.now }
{
    let n = text_length(name);
    (1..=30).contains(&n) && all_zero(&name[n..])
}
