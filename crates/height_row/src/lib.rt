//! The heights that a replica has opened and not retired, each an instance of agreement of its own. What happens at one
//! height leaves the others unchanged.
#![tactic(auto)]

mod open_instances;
mod round_closing;
mod row;
mod slots;

pub use open_instances::OpenInstances;
pub use round_closing::RoundClosing;
pub use row::HeightRow;
