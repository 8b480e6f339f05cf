ghost use Rattle.std.specs.Prelude.{◌≡◌, ◌+◌, ◌≤◌, [], ◌∷◌, length, slice_index};
ghost use Rattle.setup.specs.Records.{record_of, in_range, lawful};
ghost use Rattle.setup.specs.Setups.{count_ok, decoded, listed};

use crate::name::name_ok;
use crate::record::SetupRecord;
use crate::setup_table::Setup;
use queue::Refusal;

// The four bytes from a place on.
fn four_at(bytes: &[u8], at: usize) -> [u8; 4]
    requires { at + 4 ≤ length bytes.now }
    ensures { result ≡ slice_index bytes.now at ∷ slice_index bytes.now (at + 1) ∷ slice_index bytes.now (at + 2) ∷ slice_index bytes.now (at + 3) ∷ [] }
{
    [bytes[at], bytes[at + 1], bytes[at + 2], bytes[at + 3]]
}

// What the first 48 bytes say, lawful or not.
fn read_record(bytes: &[u8]) -> SetupRecord
    requires { 48 ≤ length bytes.now }
    ensures { result ≡ record_of bytes.now }
{
    let mut name = [0; 32];
    name.copy_from_slice(&bytes[0..32]);
    SetupRecord {
        name,
        max_velocity: u32::from_le_bytes(four_at(bytes, 32)),
        max_acceleration: u32::from_le_bytes(four_at(bytes, 36)),
        left: i32::from_le_bytes(four_at(bytes, 40)),
        right: i32::from_le_bytes(four_at(bytes, 44)),
    }
}

fn maximum_ok(n: u32) -> bool
    ensures { result ≡ in_range n }
{
    (1..=2_000_000_000).contains(&n)
}

fn record_ok(found: &SetupRecord) -> bool
    ensures { result ≡ lawful found.now }
{
    name_ok(&found.name)
        && maximum_ok(found.max_velocity)
        && maximum_ok(found.max_acceleration)
        && found.left <= found.right
}

// Whether a file of that many bytes has 2 to 12 whole records.
fn count_ok(size: usize) -> bool
    ensures { result ≡ count_ok size }
{
    (96..=576).contains(&size) && size % 48 == 0
}

// The setup records of a whole file.
pub fn decode(bytes: &[u8]) -> Result<Setup, Refusal>
    ensures { listed result ≡ decoded bytes.now }
{
    if !count_ok(bytes.len()) {
        return Err(Refusal::RecordCount);
    }
    let mut setup = Setup::new();
    for part in bytes.chunks_exact(48) {
        let found = read_record(part);
        if !record_ok(&found) {
            return Err(Refusal::RecordLayout);
        }
        let _ = setup.add(found);
    }
    Ok(setup)
}
