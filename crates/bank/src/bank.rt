ghost use Rattle.std.specs.Prelude.{◌≡◌, ◌≤◌, length};

use stage::AxisKind;

// A drive of 2 to 12 axes in one array; those past `count` are not there. Not a `FixedList`: an axis is changed in place, and a list
// cannot lend an element of its array as `&mut` (the clause that says what comes back has no proof there yet).
#[derive(Clone, Copy)]
pub struct Bank {
    pub(crate) count: usize,
    pub(crate) axes: [AxisKind; 12],
    ghost room: { length axes ≡ 12 },
    ghost least: { 2 ≤ count },
    ghost most: { count ≤ 12 },
}
