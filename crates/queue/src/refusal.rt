// The refusals of a whole call. Each has a number of its own.
#[derive(Clone, Copy, PartialEq, Eq, Debug)]
pub enum Refusal {
    RecordCount,
    RecordLayout,
    DriveMismatch,
    OutsideLimits,
    ReplyTooSmall,
    LineOpen,
    TickCount,
    NoSuchError,
}
