// Numbers made to fit the types of settings and positions; 0 stands for what does not fit, as the definitions
// have it; what an accepted command says fits.
ghost use Rattle.std.specs.Prelude.{◌≡◌, ◌-◌, ◌^◌, ◌+ℤ◌};
ghost use Rattle.actions.specs.Narrow.{fitting, as_position};

pub(crate) fn narrow_u8(n: u64) -> u8
    ensures { result ≡ fitting (2 ^ 8 - 1) n }
{
    u8::try_from(n).unwrap_or(0)
}

pub(crate) fn narrow_u32(n: u64) -> u32
    ensures { result ≡ fitting (2 ^ 32 - 1) n }
{
    u32::try_from(n).unwrap_or(0)
}

pub(crate) fn narrow_i32(z: i64) -> i32
    ensures { result ≡ as_position z }
{
    i32::try_from(z).unwrap_or(0)
}

/// The position that lies so far from another.
pub(crate) fn moved_by(from: i32, by: i64) -> i32
    ensures { result ≡ as_position (from +ℤ by) }
{
    narrow_i32(by.saturating_add(i64::from(from)))
}
