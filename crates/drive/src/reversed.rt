// A drive of which one axis is mounted the other way round: its positions and targets are negated.
// Where the drive below lacks that axis (0 is never one), nothing is.
#[derive(Drop)]
pub struct Reversed<D> {
    pub below: D,
    pub axis: usize,
}
