ghost use Rattle.std.specs.Prelude.{◌≡◌, ◌+◌, ◌*◌, ◌≤◌, length, take, Some, None};
ghost use Rattle.std.specs.List.{flat_map};
ghost use Rattle.setup.specs.Records.{bytes_of};
ghost use Rattle.setup.specs.Setups.{records_in};
ghost use Rattle.setup.specs.Encoding.{written, encoded, ReadsBack};

use crate::record::SetupRecord;
use crate::setup_table::Setup;

// Buffer and offset stay two parameters: of two functions, one calls the other.
fn put(out: &mut [u8], at: usize, bytes: &[u8])
    requires { at + length bytes.now ≤ length out.old }
    ensures { out.new ≡ written at bytes.now out.old }
{
    let part = &mut out[at..at + bytes.len()];
    part.copy_from_slice(bytes);
}

fn put_record(out: &mut [u8], at: usize, one: &SetupRecord)
    requires { at + 48 ≤ length out.old }
    ensures bytes { out.new ≡ written at (bytes_of one.now) out.old }
    ensures size { length (bytes_of one.now) ≡ 48 }
{
    put(out, at, &one.name);
    put(out, at + 32, &one.max_velocity.to_le_bytes());
    put(out, at + 36, &one.max_acceleration.to_le_bytes());
    put(out, at + 40, &one.left.to_le_bytes());
    put(out, at + 44, &one.right.to_le_bytes());
}

fn put_all(out: &mut [u8], setup: &Setup)
    requires { 48 * length (records_in setup.now) ≤ length out.old }
    ensures bytes { out.new ≡ written 0 (flat_map bytes_of (records_in setup.now)) out.old }
    ensures back { ReadsBack (records_in setup.now) (take (48 * length (records_in setup.now)) out.new) }
{
    for (k, one) in setup.records().iter().enumerate() {
        put_record(out, 48 * k, one);
    }
}

// Writes the records at the front of `out`, for tools and tests, and answers how many bytes that took. None, and nothing
// written, where `out` is too short. Decoding what was written gives the same records back.
pub fn encode(setup: &Setup, out: &mut [u8]) -> Option<usize>
    ensures bytes { (result, out.new) ≡ encoded (records_in setup.now) out.old }
    ensures back { elim result [ Some n ↦ ReadsBack (records_in setup.now) (take n out.new) | None ↦ Unit {0} ] }
{
    let size = 48 * setup.count();
    if size > out.len() {
        return None;
    }
    put_all(out, setup);
    Some(size)
}
