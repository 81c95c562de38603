//! Versions that a tenant is asked in as in another one.

ghost use Rattle.std.specs.Prelude.{◌≡◌, List};
ghost use Rattle.kb_api_group.specs.declared.api_versions.ApiVersion.{ApiVersion as Listed};
ghost use Rattle.kb_isolation_spec.specs.Requests.{request};
ghost use Rattle.kb_isolation_spec.specs.Versions.{base_among, base_of, head_of, is_among};

use kb_api_group::{RequestStart, group_key};
use kb_isolation_spec::{Base, Head};
use kb_wire::api_key;

/// Where nothing of a request was read.
pub const NO_HEAD: Head = Head {
    correlation_id: 0,
    is_throttled: false,
    api_key: 0,
    api_version: 0,
};

/// Versions of an API: its key, the least and the greatest of them, the version that a tenant is asked in, and whether their reply has a
/// throttle time in front which its answer has not.
type Newer = (i16, i16, i16, i16, bool);

/// The versions that a tenant is asked in as in another one, or where a throttle time stands in front of its answer (Kafka protocol
/// guide, "The Messages").
const NEWER: [Newer; 25] = [
    (api_key::PRODUCE, 4, 4, 3, false),
    (api_key::PRODUCE, 6, 6, 5, false),
    (api_key::FETCH, 6, 6, 5, false),
    (api_key::FETCH, 7, 8, 7, true),
    (api_key::FETCH, 9, 9, 9, true),
    (api_key::LIST_OFFSETS, 2, 3, 2, true),
    (api_key::OFFSET_COMMIT, 3, 4, 2, true),
    (api_key::OFFSET_COMMIT, 5, 5, 5, true),
    (api_key::OFFSET_COMMIT, 6, 6, 6, true),
    (api_key::LIST_OFFSETS, 4, 4, 4, true),
    (api_key::OFFSET_FETCH, 5, 5, 5, true),
    (api_key::METADATA, 6, 6, 5, false),
    (api_key::JOIN_GROUP, 2, 3, 1, true),
    (api_key::OFFSET_FETCH, 3, 4, 2, true),
    (api_key::FIND_COORDINATOR, 1, 2, 1, true),
    (api_key::HEARTBEAT, 1, 2, 0, true),
    (api_key::LEAVE_GROUP, 1, 2, 0, true),
    (api_key::SYNC_GROUP, 1, 2, 0, true),
    (group_key::DESCRIBE_GROUPS, 1, 2, 0, true),
    (group_key::LIST_GROUPS, 1, 2, 0, true),
    (api_key::CREATE_TOPICS, 2, 3, 1, true),
    (api_key::DELETE_TOPICS, 2, 3, 1, false),
    (api_key::DELETE_RECORDS, 1, 1, 0, false),
    (api_key::INIT_PRODUCER_ID, 1, 1, 0, false),
    (group_key::DELETE_GROUPS, 1, 1, 0, false),
];

/// The version that a tenant is asked in for a version of an API: itself, unless another one has the same fields, but for a throttle
/// time in front of the reply's.
#[tactic(auto, unfolding(kb_isolation_spec::specs::Versions::base_of))]
pub fn base_of(key: i16, version: i16) -> Base
    ensures { result ≡ base_of key version }
{
    base_among(&NEWER, key, version)
}

/// What the first says that has the version, or the version itself.
fn base_among(newer: &[Newer], key: i16, version: i16) -> Base
    ensures { result ≡ base_among newer.now key version }
{
    for row in newer {
        if is_among(*row, key, version) {
            return base_by(*row);
        }
    }
    Base {
        version,
        is_throttled: false,
    }
}

/// Whether a version of an API is one of those.
fn is_among(newer: Newer, key: i16, version: i16) -> bool
    ensures { result ≡ is_among key version newer }
{
    let (api_key, least, greatest, _, _) = newer;
    api_key == key && least <= version && version <= greatest
}

/// What they are asked in.
fn base_by(newer: Newer) -> Base
    ensures { result ≡ record { version = newer.3; is_throttled = newer.4 } }
{
    let (_, _, _, version, is_throttled) = newer;
    Base {
        version,
        is_throttled,
    }
}

/// What of a request is kept for its reply.
pub fn head_of(start: &RequestStart) -> Head
    ensures { result ≡ head_of start.now }
{
    Head {
        correlation_id: start.correlation_id,
        is_throttled: base_of(start.api_key, start.api_version).is_throttled,
        api_key: start.api_key,
        api_version: start.api_version,
    }
}

/// What of a frame's request is kept for its reply, whatever is listed.
#[tactic(auto, unfolding(kb_isolation_spec::specs::Requests::request))]
pub fn head_of_frame(frame: &[u8]) -> Head
    ensures { (versions : List Listed) → result ≡ (request versions frame.now).head }
{
    match RequestStart::read(frame) {
        Ok((start, _)) => head_of(&start),
        Err(_) => NO_HEAD,
    }
}
