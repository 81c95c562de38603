//! Kafka's error codes of the group APIs.

ghost use Rattle.std.specs.Prelude.{◌≡◌};
ghost use Rattle.kb_groups.specs.Codes.{number};

use kb_wire::ErrorCode;

/// What a call of a group is answered, by Kafka's names (Kafka protocol guide, "Error Codes").
#[derive(Clone, Copy)]
pub enum Code {
    /// NONE.
    Fine,
    /// ILLEGAL_GENERATION.
    IllegalGeneration,
    /// INCONSISTENT_GROUP_PROTOCOL.
    InconsistentGroupProtocol,
    /// UNKNOWN_MEMBER_ID.
    UnknownMemberId,
    /// INVALID_SESSION_TIMEOUT.
    InvalidSessionTimeout,
    /// REBALANCE_IN_PROGRESS.
    RebalanceInProgress,
    /// GROUP_MAX_SIZE_REACHED.
    GroupMaxSizeReached,
}

impl Code {
    /// Kafka's number of the code.
    pub fn number(self) -> i16
        ensures { result ≡ number self }
    {
        match self {
            Code::Fine => ErrorCode::None.code(),
            Code::IllegalGeneration => ErrorCode::IllegalGeneration.code(),
            Code::InconsistentGroupProtocol => ErrorCode::InconsistentGroupProtocol.code(),
            Code::UnknownMemberId => ErrorCode::UnknownMemberId.code(),
            Code::InvalidSessionTimeout => ErrorCode::InvalidSessionTimeout.code(),
            Code::RebalanceInProgress => ErrorCode::RebalanceInProgress.code(),
            Code::GroupMaxSizeReached => ErrorCode::GroupMaxSizeReached.code(),
        }
    }
}
