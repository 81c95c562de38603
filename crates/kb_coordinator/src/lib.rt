//! All consumer groups of one tenant: what each request to them is answered, and which requests that waited are answered with it.
//!
//! [`Coordinator`] keeps the groups by their ids in byte order, which number the next member gets, and the replies that its last request
//! or moment gave to requests that waited, by which these are told. Member numbers rise from 1, or from the number that an opening
//! chooses ([`Coordinator::number_members_from`]). Contracts see it as `Groups`. Each request to it does to
//! the groups, and answers, what the definition of its API says (`specs/Calls`), of which the group that it names is the only one that
//! changes. A moment ([`Coordinator::pass`]) and a connection that ends ([`Coordinator::left`]) are for all of them.
//! The replies' bodies are written by [`put_join_refusal`], [`put_sync`] and [`put_reply`]. Tools are told of groups by
//! [`Coordinator::put_list`] and [`Coordinator::put_descriptions`], which change none (`specs/Tools`).
//!
//! Kafka protocol guide: JoinGroup, SyncGroup, Heartbeat, LeaveGroup, DescribeGroups, ListGroups, and the check of OffsetCommit's member.
#![tactic(auto)]

mod convert;
mod coordinator;
mod describe;
mod groups;
mod join;
mod limits;
mod list;
mod moment;
mod replies;

pub use coordinator::Coordinator;
pub use groups::Entry;
pub use limits::Limits;
pub use replies::{put_join_refusal, put_reply, put_sync};
