//! The keys of the protocol's APIs, as a request header's `api_key` names them (Kafka protocol guide, "API Keys").

/// Produce.
pub const PRODUCE: i16 = 0;

/// Fetch.
pub const FETCH: i16 = 1;

/// ListOffsets.
pub const LIST_OFFSETS: i16 = 2;

/// Metadata.
pub const METADATA: i16 = 3;

/// OffsetCommit.
pub const OFFSET_COMMIT: i16 = 8;

/// OffsetFetch.
pub const OFFSET_FETCH: i16 = 9;

/// FindCoordinator.
pub const FIND_COORDINATOR: i16 = 10;

/// JoinGroup.
pub const JOIN_GROUP: i16 = 11;

/// Heartbeat.
pub const HEARTBEAT: i16 = 12;

/// LeaveGroup.
pub const LEAVE_GROUP: i16 = 13;

/// SyncGroup.
pub const SYNC_GROUP: i16 = 14;

/// SaslHandshake.
pub const SASL_HANDSHAKE: i16 = 17;

/// ApiVersions.
pub const API_VERSIONS: i16 = 18;

/// CreateTopics.
pub const CREATE_TOPICS: i16 = 19;

/// DeleteTopics.
pub const DELETE_TOPICS: i16 = 20;

/// DeleteRecords.
pub const DELETE_RECORDS: i16 = 21;

/// InitProducerId.
pub const INIT_PRODUCER_ID: i16 = 22;

/// SaslAuthenticate.
pub const SASL_AUTHENTICATE: i16 = 36;
