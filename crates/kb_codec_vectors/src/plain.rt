//! Requests and replies of the greeting, and of groups.

use crate::bodies::{Describe, read_back};
use crate::numbers::read_fixed;
use crate::said::Field::{Count, Letters, Number, Text};
use crate::said::Said;
use kb_api_group::{
    ApiVersionsReply, ApiVersionsRequest, DeleteGroupsReply, DeleteGroupsRequest, DeletedGroup,
    FindCoordinatorReply, FindCoordinatorRequest, HeartbeatReply, HeartbeatRequest, JoinGroupReply,
    JoinGroupRequest, LeaveGroupReply, LeaveGroupRequest, OffsetCommitReply, OffsetCommitRequest,
    OffsetFetchReply, OffsetFetchRequest, SaslAuthenticateReply, SaslAuthenticateRequest,
    SaslHandshakeReply, SaslHandshakeRequest, SyncGroupReply, SyncGroupRequest, read_plain,
};
use std::alloc::{AllocError, Global};

/// What is asked before a group is, and other kinds.
pub fn read_greeting(
    alloc: Global,
    kind: &str,
    longer: &[u8],
    said: &mut Said,
) -> Result<(), AllocError> {
    match kind {
        "ApiVersionsRequest" => read_back::<ApiVersionsRequest>(alloc, longer, said),
        "ApiVersionsReply" => read_back::<ApiVersionsReply>(alloc, longer, said),
        "SaslHandshakeRequest" => read_back::<SaslHandshakeRequest>(alloc, longer, said),
        "SaslHandshakeReply" => read_back::<SaslHandshakeReply>(alloc, longer, said),
        "SaslAuthenticateRequest" => read_back::<SaslAuthenticateRequest>(alloc, longer, said),
        "SaslAuthenticateReply" => read_back::<SaslAuthenticateReply>(alloc, longer, said),
        "FindCoordinatorRequest" => read_back::<FindCoordinatorRequest>(alloc, longer, said),
        "FindCoordinatorReply" => read_back::<FindCoordinatorReply>(alloc, longer, said),
        _ => read_group_request(alloc, kind, longer, said),
    }
}

/// Requests to a group, and other kinds.
fn read_group_request(
    alloc: Global,
    kind: &str,
    longer: &[u8],
    said: &mut Said,
) -> Result<(), AllocError> {
    match kind {
        "JoinGroupRequest" => read_back::<JoinGroupRequest>(alloc, longer, said),
        "SyncGroupRequest" => read_back::<SyncGroupRequest>(alloc, longer, said),
        "HeartbeatRequest" => read_back::<HeartbeatRequest>(alloc, longer, said),
        "LeaveGroupRequest" => read_back::<LeaveGroupRequest>(alloc, longer, said),
        "OffsetCommitRequest" => read_back::<OffsetCommitRequest>(alloc, longer, said),
        "OffsetFetchRequest" => read_back::<OffsetFetchRequest>(alloc, longer, said),
        "DeleteGroupsRequest" => read_back::<DeleteGroupsRequest>(alloc, longer, said),
        _ => read_group_reply(alloc, kind, longer, said),
    }
}

/// Replies of a group, and other kinds.
fn read_group_reply(
    alloc: Global,
    kind: &str,
    longer: &[u8],
    said: &mut Said,
) -> Result<(), AllocError> {
    match kind {
        "JoinGroupReply" => read_back::<JoinGroupReply>(alloc, longer, said),
        "SyncGroupReply" => read_back::<SyncGroupReply>(alloc, longer, said),
        "HeartbeatReply" => read_back::<HeartbeatReply>(alloc, longer, said),
        "LeaveGroupReply" => read_back::<LeaveGroupReply>(alloc, longer, said),
        "OffsetCommitReply" => read_back::<OffsetCommitReply>(alloc, longer, said),
        "OffsetFetchReply" => read_back::<OffsetFetchReply>(alloc, longer, said),
        "DeleteGroupsReply" => read_back::<DeleteGroupsReply>(alloc, longer, said),
        "DeletedGroup" => read_back::<DeletedGroup>(alloc, longer, said),
        _ => read_fixed(alloc, kind, longer, said),
    }
}

impl Describe for ApiVersionsRequest {}

impl Describe for ApiVersionsReply {
    fn describe(&self, said: &mut Said) -> Result<(), AllocError> {
        said.fields(&[
            ("error_code", Number(self.error_code as i64)),
            ("versions", Count(self.versions.len())),
        ])
    }
}

impl Describe for SaslHandshakeRequest<'_> {
    fn describe(&self, said: &mut Said) -> Result<(), AllocError> {
        said.fields(&[("mechanism", Text(self.mechanism.as_str()))])
    }
}

impl Describe for SaslHandshakeReply<'_> {
    fn describe(&self, said: &mut Said) -> Result<(), AllocError> {
        said.fields(&[
            ("error_code", Number(self.error_code as i64)),
            ("mechanisms", Count(self.mechanisms.len())),
        ])
    }
}

impl Describe for SaslAuthenticateRequest<'_> {
    /// By the message of PLAIN in it.
    fn describe(&self, said: &mut Said) -> Result<(), AllocError> {
        match read_plain(self.auth_bytes.as_slice()) {
            Some(login) => said.fields(&[
                ("authcid", Letters(login.authcid.as_slice())),
                ("passwd", Letters(login.passwd.as_slice())),
            ]),
            None => said.line("no message of PLAIN"),
        }
    }
}

impl Describe for SaslAuthenticateReply<'_> {
    fn describe(&self, said: &mut Said) -> Result<(), AllocError> {
        said.fields(&[("error_code", Number(self.error_code as i64))])
    }
}

impl Describe for FindCoordinatorRequest<'_> {
    fn describe(&self, said: &mut Said) -> Result<(), AllocError> {
        said.fields(&[("group_id", Text(self.group_id.as_str()))])
    }
}

impl Describe for FindCoordinatorReply<'_> {
    fn describe(&self, said: &mut Said) -> Result<(), AllocError> {
        said.fields(&[
            ("error_code", Number(self.error_code as i64)),
            ("node_id", Number(self.node_id as i64)),
            ("host", Text(self.host.as_str())),
            ("port", Number(self.port as i64)),
        ])
    }
}

impl Describe for JoinGroupRequest<'_> {
    fn describe(&self, said: &mut Said) -> Result<(), AllocError> {
        said.fields(&[
            ("group_id", Text(self.group_id.as_str())),
            ("session_timeout_ms", Number(self.session_timeout_ms as i64)),
            (
                "rebalance_timeout_ms",
                Number(self.rebalance_timeout_ms as i64),
            ),
            ("protocol_type", Text(self.protocol_type.as_str())),
            ("protocols", Count(self.protocols.len())),
        ])
    }
}

impl Describe for JoinGroupReply<'_> {
    fn describe(&self, said: &mut Said) -> Result<(), AllocError> {
        said.fields(&[
            ("error_code", Number(self.error_code as i64)),
            ("generation_id", Number(self.generation_id as i64)),
            ("protocol_name", Text(self.protocol_name.as_str())),
            ("leader", Text(self.leader.as_str())),
            ("member_id", Text(self.member_id.as_str())),
            ("members", Count(self.members.len())),
        ])
    }
}

impl Describe for SyncGroupRequest<'_> {
    fn describe(&self, said: &mut Said) -> Result<(), AllocError> {
        said.fields(&[
            ("group_id", Text(self.group_id.as_str())),
            ("generation_id", Number(self.generation_id as i64)),
            ("member_id", Text(self.member_id.as_str())),
            ("assignments", Count(self.assignments.len())),
        ])
    }
}

impl Describe for SyncGroupReply<'_> {
    fn describe(&self, said: &mut Said) -> Result<(), AllocError> {
        said.fields(&[
            ("error_code", Number(self.error_code as i64)),
            ("assignment", Letters(self.assignment.as_slice())),
        ])
    }
}

impl Describe for HeartbeatRequest<'_> {
    fn describe(&self, said: &mut Said) -> Result<(), AllocError> {
        said.fields(&[
            ("group_id", Text(self.group_id.as_str())),
            ("generation_id", Number(self.generation_id as i64)),
            ("member_id", Text(self.member_id.as_str())),
        ])
    }
}

impl Describe for HeartbeatReply {
    fn describe(&self, said: &mut Said) -> Result<(), AllocError> {
        said.fields(&[("error_code", Number(self.error_code as i64))])
    }
}

impl Describe for LeaveGroupRequest<'_> {
    fn describe(&self, said: &mut Said) -> Result<(), AllocError> {
        said.fields(&[
            ("group_id", Text(self.group_id.as_str())),
            ("member_id", Text(self.member_id.as_str())),
        ])
    }
}

impl Describe for LeaveGroupReply {
    fn describe(&self, said: &mut Said) -> Result<(), AllocError> {
        said.fields(&[("error_code", Number(self.error_code as i64))])
    }
}

impl Describe for OffsetCommitRequest<'_> {
    fn describe(&self, said: &mut Said) -> Result<(), AllocError> {
        said.fields(&[
            ("group_id", Text(self.group_id.as_str())),
            ("generation_id", Number(self.generation_id as i64)),
            ("member_id", Text(self.member_id.as_str())),
            ("retention_time_ms", Number(self.retention_time_ms as i64)),
            ("topics", Count(self.topics.len())),
        ])
    }
}

impl Describe for OffsetCommitReply<'_> {
    fn describe(&self, said: &mut Said) -> Result<(), AllocError> {
        said.fields(&[("topics", Count(self.topics.len()))])
    }
}

impl Describe for OffsetFetchRequest<'_> {
    fn describe(&self, said: &mut Said) -> Result<(), AllocError> {
        said.fields(&[
            ("group_id", Text(self.group_id.as_str())),
            ("topics", Count(self.topics.len())),
        ])
    }
}

impl Describe for OffsetFetchReply<'_> {
    fn describe(&self, said: &mut Said) -> Result<(), AllocError> {
        said.fields(&[("topics", Count(self.topics.len()))])
    }
}

impl Describe for DeleteGroupsRequest<'_> {
    fn describe(&self, said: &mut Said) -> Result<(), AllocError> {
        said.fields(&[("groups_names", Count(self.group_ids.len()))])
    }
}

impl Describe for DeleteGroupsReply<'_> {
    fn describe(&self, said: &mut Said) -> Result<(), AllocError> {
        said.fields(&[
            ("throttle_time_ms", Number(self.throttle_time_ms as i64)),
            ("results", Count(self.results.len())),
        ])
    }
}

impl Describe for DeletedGroup<'_> {
    fn describe(&self, said: &mut Said) -> Result<(), AllocError> {
        said.fields(&[
            ("group_id", Text(self.group_id.as_str())),
            ("error_code", Number(self.error_code as i64)),
        ])
    }
}
