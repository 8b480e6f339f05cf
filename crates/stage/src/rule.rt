// How an axis in whole numbers travels.
#[derive(Clone, Copy, PartialEq, Eq, Debug)]
pub enum Rule {
    // It is at its target after one tick.
    Instant,
    // It steps by its velocity divided by 1,000.
    Stepping,
}
