// A first-in, first-out queue over a slice of slots, and what waits in queues: error entries and waypoints; and the
// refusals with their numbers and texts.
#![tactic(auto)]

mod entry;
mod error_entry;
mod error_queue;
mod error_queue_calls;
mod fault;
mod fault_calls;
mod refusal;
mod refusal_calls;
mod route;
mod route_calls;
pub mod slots;
mod waypoint;
mod waypoint_calls;

pub use entry::Entry;
pub use error_entry::ErrorEntry;
pub use error_queue::ErrorQueue;
pub use fault::Fault;
pub use fault_calls::{code_told, message_told};
pub use refusal::Refusal;
pub use route::Route;
pub use waypoint::Waypoint;
