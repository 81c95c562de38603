//! All tenants of a broker on one shelf, each with its topics and its groups: a call for one of them leaves what every other keeps
//! as it is, byte for byte, whatever it does and whatever is refused to it.
#![tactic(auto)]

mod counts;
mod outcome;
mod promises;
mod tenants;
mod view;

pub use counts::Counts;
pub use outcome::Outcome;
pub use promises::{kept_commits_are_ordered, kept_logs_are_small};
pub use tenants::Tenants;
pub use view::TenantView;
