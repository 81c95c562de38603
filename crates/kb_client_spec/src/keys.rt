//! The numbers by which both sides of a connection name the APIs.
ghost use Rattle.std.specs.Prelude.{◌≡◌, pos};
ghost use Rattle.kb_wire.specs.declared.api_key.TheConstants.{PRODUCE, FETCH, LIST_OFFSETS, METADATA, OFFSET_COMMIT, OFFSET_FETCH};
ghost use Rattle.kb_wire.specs.declared.api_key.TheConstants.{FIND_COORDINATOR, JOIN_GROUP, HEARTBEAT, LEAVE_GROUP, SYNC_GROUP};
ghost use Rattle.kb_wire.specs.declared.api_key.TheConstants.{SASL_HANDSHAKE, API_VERSIONS, CREATE_TOPICS, DELETE_TOPICS};
ghost use Rattle.kb_wire.specs.declared.api_key.TheConstants.{DELETE_RECORDS, INIT_PRODUCER_ID, SASL_AUTHENTICATE};

/// The keys are those of the Kafka protocol guide ("API Keys"). Definitions and code name an API by its constant alone, so this is
/// what ties both to the protocol.
pub fn keys_are_the_protocols()
    ensures produce { PRODUCE ≡ pos 0 }
    ensures fetch { FETCH ≡ pos 1 }
    ensures list_offsets { LIST_OFFSETS ≡ pos 2 }
    ensures metadata { METADATA ≡ pos 3 }
    ensures offset_commit { OFFSET_COMMIT ≡ pos 8 }
    ensures offset_fetch { OFFSET_FETCH ≡ pos 9 }
    ensures find_coordinator { FIND_COORDINATOR ≡ pos 10 }
    ensures join_group { JOIN_GROUP ≡ pos 11 }
    ensures heartbeat { HEARTBEAT ≡ pos 12 }
    ensures leave_group { LEAVE_GROUP ≡ pos 13 }
    ensures sync_group { SYNC_GROUP ≡ pos 14 }
    ensures sasl_handshake { SASL_HANDSHAKE ≡ pos 17 }
    ensures api_versions { API_VERSIONS ≡ pos 18 }
    ensures create_topics { CREATE_TOPICS ≡ pos 19 }
    ensures delete_topics { DELETE_TOPICS ≡ pos 20 }
    ensures delete_records { DELETE_RECORDS ≡ pos 21 }
    ensures init_producer_id { INIT_PRODUCER_ID ≡ pos 22 }
    ensures sasl_authenticate { SASL_AUTHENTICATE ≡ pos 36 }
{}
