// Setup records: 48 bytes for each axis, read and written.
#![tactic(auto)]

mod name;
mod reading;
mod record;
mod setup_calls;
mod setup_table;
mod writing;

pub use name::text_length;
pub use reading::decode;
pub use record::SetupRecord;
pub use setup_table::Setup;
pub use writing::encode;
