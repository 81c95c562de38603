//! One consumer group, as Kafka's JoinGroup, SyncGroup, Heartbeat, LeaveGroup and OffsetCommit see it: a state machine over moments,
//! without clock, socket or thread.
//!
//! [`Group`] is the machine, which contracts see as its [`State`]: generation, [`Phase`], leader, and [`Members`] in joining order, each
//! with its protocols, timeouts, assignment, waiting request and session. A call is given the clock, and answers its [`Code`] and the
//! requests that wait no longer, each a [`Release`] with its exact [`Reply`], by connection number.
//!
//! The contract: each call answers and leaves what the definitions in `specs/` (`Calls`, `Rebalance`, `Moments`) say, case by case; a
//! call that was refused memory leaves the group as it was; `heartbeat`, `may_commit` and `dropped` take no memory. A moment before the
//! next one at which something is due costs constant time, as a heartbeat does.
//!
//! Kafka protocol guide: JoinGroup, SyncGroup, Heartbeat and LeaveGroup, and the member checks of OffsetCommit. Members are kept by
//! their numbers; [`member_id`] and [`member_number`] go between a number and its id `m-N`.
#![tactic(auto)]

mod answer;
mod assignments;
mod borrowed;
mod bytes;
mod calls;
mod change;
mod choice;
mod code;
mod described;
mod group;
mod ids;
mod join;
mod leave;
mod listed;
mod member;
mod members;
mod moment;
mod protocol;
mod reply;
mod size;
mod state;

pub use borrowed::{Join, JoinProtocol, SyncAssignment};
pub use bytes::{Bytes, SharedBytes};
pub use code::Code;
pub use group::Group;
pub use ids::{member_id, member_number};
pub use member::{Asked, Member, Waiter};
pub use members::Members;
pub use protocol::{Protocol, Protocols};
pub use reply::{Joined, Listed, Listing, Release, Reply, SyncAnswer};
pub use state::{Phase, State};
