// How far an axis goes in a tick: a fixed stride, or a share of the way left.
#[derive(Clone, Copy, Debug)]
pub enum Ease {
    Stride(f64),
    Share(f64),
}
