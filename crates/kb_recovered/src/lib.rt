//! What calls of a store leave of the files of a commit, and what the tenants of a broker have after a loss of power.
//!
//! `kb_loss` says what that means, and has its laws. Each call here does what a store or a broker does, and says what is left then.
#![tactic(auto)]

mod calls;
mod commits;
mod laws;
mod renewals;

pub use calls::{append_keeps, create_keeps, cut_keeps, sync_lasts, sync_leaves};
pub use commits::{
    append_goes_on, create_goes_on, cut_goes_on, losses_are_of_commits, read_goes_on,
    remove_goes_on, sync_begins, sync_goes_on,
};
pub use laws::{commit_lasts, every_tenant_has_what_was_acknowledged, what_was_acknowledged_stays};
pub use renewals::renew_begins_anew;
