// A list of at most N items that lies in the value itself: it is copied whole, and allocates nothing.
#![tactic(auto)]

mod list;
mod list_calls;

pub use list::FixedList;
