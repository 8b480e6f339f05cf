// A modelled drive: what every drive means, a drive with one axis reversed, and ticks until an axis rests.
#![tactic(auto)]

mod drive;
mod laws;
mod profile;
mod refusal;
mod reversed;
mod reversed_drive;
mod waiting;
mod words;

pub use drive::Drive;
pub use laws::lasting;
pub use profile::Profile;
pub use refusal::DriveRefusal;
pub use reversed::Reversed;
pub use waiting::{at_rest, settle};
