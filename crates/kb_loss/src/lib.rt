//! After a loss of power: what an opening finds of what had been made to last. Definitions and their laws, and no code.
//!
//! `specs/Chains.antt` says what a loss leaves of the files of a log, `specs/Known.antt` what a catalog knows after more commands,
//! `specs/Tenant.antt` what a tenant has then, and `specs/Since.antt` what is left of the files of a commit, by what calls did since.
#![tactic(auto)]

mod laws;

pub use laws::{
    a_renewal_begins_anew, catalogs_go_on, chains_go_on, commits_go_on, files_of_a_commit_are_old,
    logs_go_on, logs_in_order_last, named_files_are_the_tenants, nothing_lost_is_written_in_order,
    renewals_follow, renewals_go_on, tenants_go_on, what_is_left_later_is_left,
    what_is_still_there_is_left, what_was_acknowledged_is_there,
};
