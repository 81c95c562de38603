//! What comes off a connection of the Kafka protocol becomes requests: frames, the request header, the greeting's messages
//! and those of consumer groups.
//!
//! [`FrameFeed`] takes a stream in pieces and lends it out by frames; [`RequestHeader`] (and [`RequestStart`], enough for an
//! ApiVersions of any version) stands at the front of each frame; each request and reply of keys 8 to 18, 36 and 42 is a
//! type with `read` and `write` (`kb_wire::Layout`); [`read_plain`] reads the message of SASL PLAIN. The contract in one
//! sentence: bytes are read as what they spell and refused where they spell nothing, what is written is read again, and in
//! whatever pieces a stream came its frames are those of its bytes joined.
//!
//! Kafka protocol guide: requests, headers, the named APIs. RFC 4616: the PLAIN message.
#![tactic(auto)]

mod api_versions;
mod delete_groups;
mod describe_groups;
mod find_coordinator;
mod frames;
pub mod group_key;
mod header;
mod heartbeat;
mod join_group;
mod leave_group;
mod list_groups;
mod offset_commit;
mod offset_fetch;
mod offset_fetch_v2;
mod plain;
mod sasl_authenticate;
mod sasl_handshake;
mod sync_group;

pub use api_versions::{ApiVersion, ApiVersionsReply, ApiVersionsRequest};
pub use delete_groups::{DeleteGroupsReply, DeleteGroupsRequest, DeletedGroup};
pub use describe_groups::{
    DescribeGroupsReply, DescribeGroupsRequest, DescribedGroup, DescribedMember,
};
pub use find_coordinator::{FindCoordinatorReply, FindCoordinatorRequest};
pub use frames::{
    FrameFeed, Next, REPLY_LIMIT, any_pieces, more_bytes, one_front, one_reading, whole_frame,
};
pub use header::{RequestHeader, RequestStart};
pub use heartbeat::{HeartbeatReply, HeartbeatRequest};
pub use join_group::{JoinGroupReply, JoinGroupRequest, JoinMember, JoinProtocol};
pub use leave_group::{LeaveGroupReply, LeaveGroupRequest};
pub use list_groups::{ListGroupsReply, ListGroupsRequest, ListedGroup};
pub use offset_commit::{
    CommitPartition, CommitPartitionReply, CommitTopic, CommitTopicReply, OffsetCommitReply,
    OffsetCommitRequest,
};
pub use offset_fetch::{
    OffsetFetchPartitionReply, OffsetFetchReply, OffsetFetchRequest, OffsetFetchTopic,
    OffsetFetchTopicReply,
};
pub use offset_fetch_v2::{OffsetFetchReplyV2, OffsetFetchRequestV2};
pub use plain::{PlainLogin, read_plain};
pub use sasl_authenticate::{SaslAuthenticateReply, SaslAuthenticateRequest};
pub use sasl_handshake::{SaslHandshakeReply, SaslHandshakeRequest};
pub use sync_group::{SyncAssignment, SyncGroupReply, SyncGroupRequest};
