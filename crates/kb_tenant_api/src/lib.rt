//! All that one tenant is served: each request by its key, those for topics and their logs by `kb_tenant`, those for consumer groups
//! by `kb_coordinator`.
//!
//! `specs/Hosted.antt` says what a tenant keeps and what a moment leaves of it, `specs/Serve.antt` what each request makes of it and
//! comes to, `specs/Replies.antt` what a connection gets.
#![tactic(auto)]

mod answer;
mod commits;
mod deletions;
mod dispatch;
mod members;
mod promises;
mod replies;
mod tools;

pub use answer::{Answer, Served};
pub use dispatch::serve;
pub use promises::{
    commits_stay_ordered, fetches_give_whole_batches, group_waits_elsewhere, limits_are_kept,
    logs_stay_small, names_stay_apart, one_more_waits, requests_again, requests_elsewhere,
    worlds_stay_tied,
};
pub use replies::tell;
