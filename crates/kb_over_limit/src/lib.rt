//! How many entries of a reply say that they are past a limit of their tenant.
//!
//! [`told`] goes over a reply, without memory, and counts its entries that have the code of a limit ([`OverLimit`]). Which codes these are
//! is Kafka's protocol guide, "Error codes": POLICY_VIOLATION, COORDINATOR_NOT_AVAILABLE, GROUP_MAX_SIZE_REACHED. What is counted is a
//! function of what the reply spells (`specs/Over.antt`), in each layout that a tenant is answered in.
#![tactic(auto)]

mod coded;
mod over;
mod replies;
mod tally;

pub use over::OverLimit;
pub use replies::told;
