//! Worked rounds of rebalancing.

use crate::steps::Tenant;
use std::process::Abort;
use std::test::Fail;

fn says(rt: &impl Abort, tenant: &mut Tenant, steps: &[(&str, &str)]) -> Result<(), Fail> {
    for (words, want) in steps {
        let said = tenant.step(rt, words)?;
        assert!(rt; said.as_str() == *want, "{words}: {said}, not {want}");
    }
    Ok(())
}

/// Two members join, get their assignments and are heard of; one of them leaves.
const A_ROUND: [(&str, &str); 22] = [
    ("due", "never"),
    ("heartbeat g 1 m-1 1", "25"),
    ("commit g 1 m-1 -1", "0"),
    ("commit g 1 m-1 1", "25"),
    ("join g 1 ", "0; 1 joined 1 m-1 m-1 lists 1"),
    ("sync g 1 m-1 1", "got 1"),
    ("due", "10000"),
    ("join g 2 ", "0"),
    ("heartbeat g 1 m-1 1", "27"),
    (
        "join g 1 m-1",
        "0; 1 joined 2 m-1 m-1 lists 2; 2 joined 2 m-2 m-1 lists 0",
    ),
    ("sync g 2 m-2 2", "waits"),
    ("commit g 2 m-2 2", "27"),
    ("sync g 1 m-1 2", "got 1; 2 synced 2"),
    ("heartbeat g 2 m-2 2", "0"),
    ("heartbeat g 2 m-2 1", "22"),
    ("heartbeat g 2 m-02 2", "25"),
    ("leave g 0 m-3", "25"),
    ("leave g 0 m-1", "0"),
    ("heartbeat g 1 m-1 2", "25"),
    ("heartbeat g 2 m-2 2", "27"),
    ("join g 2 m-2", "0; 2 joined 3 m-2 m-2 lists 1"),
    ("commit g 2 m-2 2", "22"),
];

#[test]
fn a_round(rt: HostRuntime) -> Result<(), Fail> {
    let mut tenant = Tenant::new(rt.alloc());
    says(&rt, &mut tenant, &A_ROUND)
}

/// Sessions end at their clock and not before, a commit and an answered wait start them, and a deadline ends a round without those who
/// did not join.
const ENDS: [(&str, &str); 24] = [
    ("join b 1 ", "0; 1 joined 1 m-1 m-1 lists 1"),
    ("sync b 1 m-1 1", "got 1"),
    ("join a 2 ", "0; 2 joined 1 m-2 m-2 lists 1"),
    ("sync a 2 m-2 1", "got 2"),
    ("at - 9999", ""),
    ("commit b 1 m-1 1", "0"),
    ("due", "10000"),
    ("at - 10000", ""),
    ("heartbeat a 2 m-2 1", "25"),
    ("due", "19999"),
    ("join b 3 ", "0"),
    ("left - 3", ""),
    ("due", "19999"),
    ("join b 1 m-1", "0"),
    ("due", "20000"),
    ("join b 4 ", "0"),
    ("at - 19999", ""),
    (
        "at - 20000",
        "; 1 joined 2 m-1 m-1 lists 2; 4 joined 2 m-4 m-1 lists 0",
    ),
    ("sync b 4 m-4 2", "waits"),
    ("left - 4", ""),
    ("at - 29999", ""),
    ("at - 30000", ""),
    ("heartbeat b 1 m-1 2", "25"),
    ("due", "never"),
];

#[test]
fn ends(rt: HostRuntime) -> Result<(), Fail> {
    let mut tenant = Tenant::new(rt.alloc());
    says(&rt, &mut tenant, &ENDS)
}

/// 200 members are taken, and one more is not.
#[test]
fn many_members(rt: HostRuntime) -> Result<(), Fail> {
    let alloc = rt.alloc();
    let mut tenant = Tenant::new(alloc);
    for number in 1..201 {
        let words = format!(in alloc; "join g {number} ")?;
        let said = tenant.step(&rt, &words)?;
        assert!(rt; said.as_str().starts_with("0"));
    }
    says(
        &rt,
        &mut tenant,
        &[
            ("join g 201 ", "81"),
            ("join h 201 ", "0; 201 joined 1 m-201 m-201 lists 1"),
        ],
    )
}

/// 1,000 groups are taken, and one more is not.
#[test]
fn many_groups(rt: HostRuntime) -> Result<(), Fail> {
    let alloc = rt.alloc();
    let mut tenant = Tenant::new(alloc);
    for number in 1..1001 {
        let words = format!(in alloc; "join {number} {number} ")?;
        let said = tenant.step(&rt, &words)?;
        assert!(rt; said.as_str().starts_with("0; "));
    }
    says(
        &rt,
        &mut tenant,
        &[
            ("join g 1 ", "15"),
            ("leave 7 0 m-7", "0"),
            ("join 7 7 ", "0; 7 joined 2 m-1001 m-1001 lists 1"),
        ],
    )
}

/// A member of these groups takes 14 bytes, a group one for its id and eight for its type, and an assignment one or two.
const BYTES: [(&str, &str); 21] = [
    ("bytes", "0"),
    ("join g 1 ", "0; 1 joined 1 m-1 m-1 lists 1"),
    ("bytes", "23"),
    ("sync g 1 m-1 1", "got 1"),
    ("bytes", "24"),
    ("join g 2 ", "0"),
    ("bytes", "38"),
    ("join g 3 ", "81"),
    ("join h 3 ", "81"),
    ("bytes", "38"),
    // Who joins again brings no more than before, and counts once.
    (
        "join g 1 m-1",
        "0; 1 joined 2 m-1 m-1 lists 2; 2 joined 2 m-2 m-1 lists 0",
    ),
    ("bytes", "37"),
    ("sync g 2 m-2 2", "waits"),
    // Three bytes of assignments are two too many: nobody is answered.
    ("sync g 1 m-1 2", "81"),
    ("bytes", "37"),
    ("heartbeat g 2 m-2 2", "0"),
    ("leave g 0 m-1", "0; 2 sync 27"),
    ("bytes", "23"),
    ("join g 3 ", "0"),
    ("bytes", "37"),
    (
        "join g 2 m-2",
        "0; 2 joined 3 m-2 m-2 lists 2; 3 joined 3 m-3 m-2 lists 0",
    ),
];

#[test]
fn bytes_of_groups(rt: HostRuntime) -> Result<(), Fail> {
    let mut tenant = Tenant::limited(rt.alloc(), 1_000, 38);
    says(&rt, &mut tenant, &BYTES)
}

/// What a member kept whose session ended is free again; its group keeps its id and type.
const EXPIRES: [(&str, &str); 8] = [
    ("join g 1 ", "0; 1 joined 1 m-1 m-1 lists 1"),
    ("join h 2 ", "81"),
    ("at - 9999", ""),
    ("bytes", "23"),
    ("at - 10000", ""),
    ("bytes", "9"),
    ("join h 2 ", "0; 2 joined 1 m-2 m-2 lists 1"),
    ("bytes", "32"),
];

#[test]
fn expired_bytes(rt: HostRuntime) -> Result<(), Fail> {
    let mut tenant = Tenant::limited(rt.alloc(), 1_000, 32);
    says(&rt, &mut tenant, &EXPIRES)
}

/// One byte fewer, and there is no room.
#[test]
fn too_few_bytes(rt: HostRuntime) -> Result<(), Fail> {
    let mut tenant = Tenant::limited(rt.alloc(), 1_000, 31);
    says(&rt, &mut tenant, &EXPIRES[..6])?;
    says(&rt, &mut tenant, &[("join h 2 ", "81"), ("bytes", "9")])
}

/// Two groups are taken, and a third is not, though there is room in bytes. Where there is none either, the number counts first.
#[test]
fn few_groups(rt: HostRuntime) -> Result<(), Fail> {
    let mut tenant = Tenant::limited(rt.alloc(), 2, 46);
    says(
        &rt,
        &mut tenant,
        &[
            ("join a 1 ", "0; 1 joined 1 m-1 m-1 lists 1"),
            ("join b 2 ", "0; 2 joined 1 m-2 m-2 lists 1"),
            ("join c 3 ", "15"),
            ("join b 3 ", "81"),
            ("join a 1 m-1", "0; 1 joined 2 m-1 m-1 lists 1"),
        ],
    )?;
    let mut tenant = Tenant::limited(rt.alloc(), 0, 46);
    says(&rt, &mut tenant, &[("join a 1 ", "15")])
}
