//! The requests of one tenant for its topics, and what its groups commit: what each does to its world, and answers. Requests of
//! groups' members are not among them: `kb_tenant_api` has these too.
#![tactic(auto)]

mod all_offsets;
mod answer;
mod create_topics;
mod delete_records;
mod delete_topics;
mod describe_configs;
mod dispatch;
mod epochs;
mod fetch;
mod find_coordinator;
mod group_commit;
mod group_offsets;
mod init_producer_id;
mod limits;
mod list_offsets;
mod metadata;
mod node;
mod offset_fetch;
mod produce;
mod promises;
mod repeated;
mod request;
mod within;

pub use answer::{Answer, begin, finish, finish_within, most_bytes};
pub use dispatch::{Served, look, serve};
pub use fetch::WaitingFetch;
pub use group_commit::{offset_commit, read_commit_within};
pub use limits::DataLimits;
pub use node::Node;
pub use promises::{
    before_deadline, commits_stay_ordered, fetches_give_whole_batches, limits_are_kept,
    logs_stay_small, names_stay_apart, requests_again, requests_elsewhere, retention_again,
    retention_elsewhere, worlds_stay_tied,
};
pub use request::{Request, Wait};
pub use within::{Named, read_within};
