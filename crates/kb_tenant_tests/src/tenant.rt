//! What a tenant answers where memory is refused, which no exchange with a broker shows.
//!
//! How a frame is written is said in `words.rt`.

ghost use Rattle.std.specs.Prelude.{IfOk};
ghost use Rattle.kb_store.specs.Memory.{memory_disk};
ghost use Rattle.kb_log.specs.ListLog.{list_log};
ghost use Rattle.kb_tenant_state.specs.Parts.{scene};

mod steps;

use kb_tenant::DataLimits;
use std::alloc::Global;
use std::test::Fail;
use steps::Tenant;

/// CreateTopics of `t` with one partition.
const CREATE: &str =
    "00000023 0013 0000 0000000a ffff 00000001 0001 't 00000001 0001 00000000 00000000 00001388";

/// It is made.
const CREATED: &str = "0000000d 0000000a 00000001 0001 't 0000";

/// Produce of `hi`.
const APPEND: &str = "produce hi";

/// It is appended at 0.
const APPENDED: &str = "produced 0000 0000000000000000 ffffffffffffffff 00000000";

/// DeleteRecords of `t` to 1.
const DELETE: &str = "00000025 0015 0000 00000046 ffff t/0 0000000000000001 000003e8";

/// It starts at 1.
const DELETED: &str = "00000021 00000046 00000000 t/0 0000000000000001 0000";

/// OffsetCommit: the group `g` commits 5 to `t`, with metadata `m`.
const COMMIT: &str =
    "00000035 0008 0002 0000003c ffff 0001 'g ffffffff 0000 ffffffffffffffff 00000001 0001 't \
    00000001 00000000 0000000000000005 0001 'm";

/// OffsetFetch of that group.
const FETCH_OFFSET: &str =
    "0000001c 0009 0001 0000003d ffff 0001 'g 00000001 0001 't 00000001 00000000";

/// It has committed nothing, and 5.
const NO_OFFSET_OR_5: [&str; 2] = [
    "0000001f 0000003d 00000001 0001 't 00000001 00000000 ffffffffffffffff 0000 0000",
    "00000020 0000003d 00000001 0001 't 00000001 00000000 0000000000000005 0001 'm 0000",
];

/// Requests, each with its reply, and with what is answered where memory is refused.
const REQUESTS: [[&str; 3]; 4] = [
    [CREATE, CREATED, "0000000d 0000000a 00000001 0001 't ffff"],
    [APPEND, APPENDED, "produced ffff nowhere 00000000"],
    [
        DELETE,
        DELETED,
        "00000021 00000046 00000000 t/0 ffffffffffffffff ffff",
    ],
    [
        COMMIT,
        "00000015 0000003c 00000001 0001 't 00000001 00000000 0000",
        "00000015 0000003c 00000001 0001 't 00000001 00000000 ffff",
    ],
];

/// Also where any one allocation is refused, a request is served, or answered -1, or shuts the connection; the last two are
/// counted. A group has the offset that it had, or the one that it commits.
#[test]
fn want_of_memory_is_counted(rt: HostRuntime) -> Result<(), Fail> {
    let mut tenant = Tenant::new(rt.alloc(), DataLimits::none())?;
    if tenant.is_refused(&rt, rt.alloc(), &REQUESTS)? {
        return tenant.has_one_of(&rt, rt.alloc(), FETCH_OFFSET, NO_OFFSET_OR_5);
    }
    Ok(())
}

/// What a tenant is answered that may have two batches of `hi` and one committed offset. A deletion makes room for one batch more.
const AT_LIMITS: [[&str; 3]; 8] = [
    [CREATE, CREATED, "0000000d 0000000a 00000001 0001 't ffff"],
    [APPEND, APPENDED, "produced ffff nowhere 00000000"],
    [
        APPEND,
        "produced 0000 0000000000000001 ffffffffffffffff 00000000",
        "produced ffff nowhere 00000000",
    ],
    [
        APPEND,
        "produced 002c nowhere 00000000",
        "produced ffff nowhere 00000000",
    ],
    [
        DELETE,
        DELETED,
        "00000021 00000046 00000000 t/0 ffffffffffffffff ffff",
    ],
    [
        APPEND,
        "produced 0000 0000000000000002 ffffffffffffffff 00000000",
        "produced ffff nowhere 00000000",
    ],
    [
        COMMIT,
        "00000015 0000003c 00000001 0001 't 00000001 00000000 0000",
        "00000015 0000003c 00000001 0001 't 00000001 00000000 ffff",
    ],
    [
        "00000035 0008 0002 0000003c ffff 0001 'h ffffffff 0000 ffffffffffffffff 00000001 0001 't \
        00000001 00000000 0000000000000005 0001 'm",
        "00000015 0000003c 00000001 0001 't 00000001 00000000 002c",
        "00000015 0000003c 00000001 0001 't 00000001 00000000 ffff",
    ],
];

/// What a tenant may not have is refused, which no store's refusal is, and is not counted as one.
#[test]
fn limits_are_told(rt: HostRuntime) -> Result<(), Fail> {
    let limits = DataLimits {
        topics: None,
        partitions: None,
        offsets: Some(1),
        group_bytes: None,
        bytes: Some(140),
        request_entries: None,
        fetch_bytes: None,
        reply_bytes: None,
    };
    let mut tenant = Tenant::new(rt.alloc(), limits)?;
    tenant.is_refused(&rt, rt.alloc(), &AT_LIMITS)?;
    Ok(())
}

/// A tenant whose replies may be so large.
fn tenant_of(alloc: Global, reply_bytes: u64) -> Result<Tenant, Fail>
    ensures { IfOk result (λ t. (scene list_log (λ s. memory_disk s.files.entries) t.parts t.shelf).sound) }
{
    let limits = DataLimits {
        topics: None,
        partitions: None,
        offsets: None,
        group_bytes: None,
        bytes: None,
        request_entries: None,
        fetch_bytes: None,
        reply_bytes: Some(reply_bytes),
    };
    Tenant::new(alloc, limits)
}

/// A reply of 31 bytes behind its size is sent where it may be so large, and not where it may have 30.
#[test]
fn a_reply_past_its_limit_is_not_sent(rt: HostRuntime) -> Result<(), Fail> {
    let mut tenant = tenant_of(rt.alloc(), 31)?;
    tenant.has_one_of(&rt, rt.alloc(), FETCH_OFFSET, NO_OFFSET_OR_5)?;
    let mut other = tenant_of(rt.alloc(), 30)?;
    other.shuts(&rt, rt.alloc(), FETCH_OFFSET)
}

/// What a tenant is answered whose fetches have fewer bytes than two batches of `hi`: the first, which is given whole.
const AT_FETCH_LIMIT: [[&str; 3]; 4] = [
    [CREATE, CREATED, "0000000d 0000000a 00000001 0001 't ffff"],
    [APPEND, APPENDED, "produced ffff nowhere 00000000"],
    [
        APPEND,
        "produced 0000 0000000000000001 ffffffffffffffff 00000000",
        "produced ffff nowhere 00000000",
    ],
    [
        "00000036 0001 0004 00000015 ffff ffffffff 00000000 00000001 00100000 00 t/0 \
        0000000000000000 00100000",
        "00000077 00000015 00000000 t/0 0000 0000000000000002 0000000000000002 ffffffff 00000046 \
        0000000000000000 0000003a 00000000 02 71a3af2c 0000 00000000 times nobody 00000001 value",
        "00000031 00000015 00000000 t/0 ffff nowhere ffffffff 00000000",
    ],
];

/// A first batch is whole at each limit, and no second one comes with it.
#[test]
fn a_fetch_is_bounded(rt: HostRuntime) -> Result<(), Fail> {
    for limit in [1, 70, 139] {
        let mut limits = DataLimits::none();
        limits.fetch_bytes = Some(limit);
        let mut tenant = Tenant::new(rt.alloc(), limits)?;
        tenant.is_refused(&rt, rt.alloc(), &AT_FETCH_LIMIT)?;
    }
    Ok(())
}
