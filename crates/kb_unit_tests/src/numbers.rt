//! The protocol's numbers of APIs and errors, by which all crates above speak of them (Kafka protocol guide, "API Keys" and "Error
//! Codes").

use kb_wire::{ErrorCode, api_key};

#[test]
fn keys_of_apis(rt: HostRuntime) {
    for (key, number) in [
        (api_key::PRODUCE, 0),
        (api_key::FETCH, 1),
        (api_key::LIST_OFFSETS, 2),
        (api_key::METADATA, 3),
        (api_key::OFFSET_COMMIT, 8),
        (api_key::OFFSET_FETCH, 9),
        (api_key::FIND_COORDINATOR, 10),
        (api_key::JOIN_GROUP, 11),
        (api_key::HEARTBEAT, 12),
        (api_key::LEAVE_GROUP, 13),
        (api_key::SYNC_GROUP, 14),
        (api_key::SASL_HANDSHAKE, 17),
        (api_key::API_VERSIONS, 18),
        (api_key::CREATE_TOPICS, 19),
        (api_key::DELETE_TOPICS, 20),
        (api_key::DELETE_RECORDS, 21),
        (api_key::INIT_PRODUCER_ID, 22),
        (api_key::SASL_AUTHENTICATE, 36),
    ] {
        assert_eq!(rt; key, number);
    }
}

#[test]
fn codes_of_errors(rt: HostRuntime) {
    for (code, number) in [
        (ErrorCode::None, 0),
        (ErrorCode::UnknownMemberId, 25),
        (ErrorCode::RebalanceInProgress, 27),
        (ErrorCode::UnsupportedSaslMechanism, 33),
        (ErrorCode::IllegalSaslState, 34),
        (ErrorCode::UnsupportedVersion, 35),
        (ErrorCode::SaslAuthenticationFailed, 58),
    ] {
        assert_eq!(rt; code.code(), number);
    }
}
