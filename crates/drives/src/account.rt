use std::fmt;

// What came of a visit: where the axis stood, where it stands, the ticks made and the way between the two.
#[derive(Clone, Copy, PartialEq, Eq, Debug)]
pub struct Visit {
    pub from: i32,
    pub position: i32,
    pub ticks: u32,
    pub way: u32,
}

// The last columns of a row of the tour.
impl fmt::Display for Visit {
    fn fmt<W: fmt::Write>(&self, f: &mut fmt::Formatter<W>) -> fmt::Result {
        let Visit {
            from,
            position,
            ticks,
            way,
        } = *self;
        write!(f, "{from:>12} {position:>12} {ticks:>6} {way:>11}")
    }
}
