//! Waits that are parked, found and taken out, and the queue beside a plain list.

mod plain;

use kb_waits::{GroupId, WaitKey, Waits};
use plain::PlainWaits;
use std::alloc::{AllocError, Global};
use std::process::Abort;
use std::test::Fail;

fn partition(tenant: usize, instance: u64, partition: usize) -> WaitKey {
    WaitKey::Partition {
        tenant,
        instance,
        partition,
    }
}

fn group(alloc: Global, tenant: usize, id: &[u8]) -> Result<WaitKey, AllocError> {
    let group = GroupId::new(Vec::from_slice(alloc, id)?);
    Ok(WaitKey::Group { tenant, group })
}

/// Parks the connection unless it is parked, and says whether it did.
fn park_new(
    waits: &mut Waits,
    connection: u64,
    deadline: u64,
    keys: Vec<WaitKey>,
) -> Result<bool, AllocError> {
    if waits.is_parked(connection) {
        return Ok(false);
    }
    waits.park(connection, deadline, keys)?;
    Ok(true)
}

/// Checks what is due at the clock.
fn check_due(
    rt: &impl Abort,
    waits: &Waits,
    clock: u64,
    out: &mut Vec<u64>,
    want: &[u64],
) -> Result<(), AllocError> {
    waits.due(clock, out)?;
    assert_eq!(rt; out.as_slice(), want);
    Ok(())
}

/// Checks what is parked under the key.
fn check_touched(
    rt: &impl Abort,
    waits: &Waits,
    key: &WaitKey,
    out: &mut Vec<u64>,
    want: &[u64],
) -> Result<(), AllocError> {
    waits.touched(key, out)?;
    assert_eq!(rt; out.as_slice(), want);
    Ok(())
}

/// Parks the connection until 100 under a partition of the tenant.
fn park_one(
    waits: &mut Waits,
    alloc: Global,
    connection: u64,
    tenant: usize,
) -> Result<(), AllocError> {
    let keys = vec![in alloc; partition(tenant, 7, 0)]?;
    park_new(waits, connection, 100, keys)?;
    Ok(())
}

/// The later connection is parked first, each under a key of its own tenant.
fn park_two(waits: &mut Waits, alloc: Global) -> Result<(), AllocError> {
    park_one(waits, alloc, 2, 1)?;
    park_one(waits, alloc, 1, 0)
}

fn check_two(rt: &impl Abort, waits: &mut Waits, out: &mut Vec<u64>) -> Result<(), AllocError> {
    check_due(rt, waits, 99, out, &[])?;
    check_due(rt, waits, 100, out, &[1, 2])?;
    check_touched(rt, waits, &partition(1, 7, 0), out, &[2])?;
    waits.forget(1);
    check_due(rt, waits, 100, out, &[2])
}

#[test]
fn equal_deadlines_of_two_tenants(rt: HostRuntime) -> Result<(), Fail> {
    let alloc = rt.alloc();
    let mut waits = Waits::new(alloc);
    let mut out = vec![in alloc; 9, 9, 9]?;
    park_two(&mut waits, alloc)?;
    check_two(&rt, &mut waits, &mut out)?;
    Ok(())
}

/// Two partitions and a group of the tenant 0.
fn three_keys(alloc: Global) -> Result<Vec<WaitKey>, AllocError> {
    let mut keys = one_key(alloc, b"readers")?;
    keys.push(partition(0, 7, 0))?;
    keys.push(partition(0, 7, 1))?;
    Ok(keys)
}

/// Checks what is parked under each of the keys.
fn check_under(
    rt: &impl Abort,
    waits: &Waits,
    keys: &[WaitKey],
    out: &mut Vec<u64>,
    want: &[u64],
) -> Result<(), AllocError> {
    for key in keys {
        check_touched(rt, waits, key, out, want)?;
    }
    Ok(())
}

/// Checks the connection 5 that is parked under the keys and not under the other one, and takes it out.
fn check_three(
    rt: &impl Abort,
    waits: &mut Waits,
    keys: &[WaitKey],
    other: &WaitKey,
    out: &mut Vec<u64>,
) -> Result<(), AllocError> {
    check_under(rt, waits, keys, out, &[5])?;
    check_touched(rt, waits, other, out, &[])?;
    assert_eq!(rt; waits.parked(), 1);
    waits.forget(5);
    assert_eq!(rt; waits.parked(), 0);
    check_under(rt, waits, keys, out, &[])
}

#[test]
fn a_wait_under_three_keys(rt: HostRuntime) -> Result<(), Fail> {
    let alloc = rt.alloc();
    let keys = three_keys(alloc)?;
    let mut waits = Waits::new(alloc);
    park_new(&mut waits, 5, 100, keys)?;
    let asked = three_keys(alloc)?;
    let other = group(alloc, 1, b"readers")?;
    let mut out = Vec::new(alloc);
    check_three(&rt, &mut waits, &asked, &other, &mut out)?;
    Ok(())
}

fn next(seed: u64) -> u64 {
    seed.wrapping_mul(6364136223846793005)
        .wrapping_add(1442695040888963407)
}

/// One of twelve keys, by a number.
fn key_by(alloc: Global, number: u64) -> Result<WaitKey, AllocError> {
    let tenant = (number % 2) as usize;
    match number % 6 {
        0 | 1 => Ok(partition(tenant, number % 4, 0)),
        2 | 3 => Ok(partition(tenant, 1, (number % 3) as usize)),
        _ => group(alloc, tenant, if number % 5 < 2 { b"a" } else { b"b" }),
    }
}

/// Three keys by a number, of which one stands twice.
fn keys_by(alloc: Global, number: u64) -> Result<Vec<WaitKey>, AllocError> {
    let mut keys = Vec::new(alloc);
    for chosen in [number, number / 7, number] {
        let key = key_by(alloc, chosen)?;
        keys.push(key)?;
    }
    Ok(keys)
}

/// Takes the connection out of both where it is parked, and else parks it in both.
fn change(
    waits: &mut Waits,
    plain: &mut PlainWaits,
    alloc: Global,
    connection: u64,
    number: u64,
) -> Result<(), AllocError> {
    if waits.is_parked(connection) {
        waits.forget(connection);
        plain.forget(connection);
        return Ok(());
    }
    let keys = keys_by(alloc, number)?;
    waits.park(connection, number % 50, keys)?;
    let same = keys_by(alloc, number)?;
    plain.park(connection, number % 50, same)
}

/// Checks what the queue finds by what the plain list finds.
fn compare(
    rt: &impl Abort,
    waits: &Waits,
    plain: &PlainWaits,
    clock: u64,
    key: &WaitKey,
    got: &mut Vec<u64>,
    want: &mut Vec<u64>,
) -> Result<(), AllocError> {
    assert_eq!(rt; waits.parked(), plain.parked());
    plain.due(clock, want)?;
    check_due(rt, waits, clock, got, want.as_slice())?;
    plain.touched(key, want)?;
    check_touched(rt, waits, key, got, want.as_slice())
}

/// Checks what the queue finds under several keys by what the plain list finds.
fn compare_any(
    rt: &impl Abort,
    waits: &Waits,
    plain: &PlainWaits,
    keys: &[WaitKey],
    got: &mut Vec<u64>,
    want: &mut Vec<u64>,
) -> Result<(), AllocError> {
    plain.touched_any(keys, want)?;
    waits.touched_any(keys, got)?;
    assert_eq!(rt; got.as_slice(), want.as_slice());
    Ok(())
}

/// Checks all that the queue has by what the plain list has.
fn compare_all(
    rt: &impl Abort,
    waits: &Waits,
    plain: &PlainWaits,
    got: &mut Vec<u64>,
    want: &mut Vec<u64>,
) -> Result<(), AllocError> {
    plain.due(u64::MAX, want)?;
    waits.all(got)?;
    assert_eq!(rt; got.as_slice(), want.as_slice());
    Ok(())
}

/// Changes both and compares them, a thousand times.
fn play(
    rt: &impl Abort,
    waits: &mut Waits,
    plain: &mut PlainWaits,
    alloc: Global,
    got: &mut Vec<u64>,
    want: &mut Vec<u64>,
) -> Result<(), AllocError> {
    let mut seed = 20240229;
    for _ in 0..1000u32 {
        seed = next(seed);
        let number = seed >> 40;
        change(waits, plain, alloc, (seed >> 33) % 40, number)?;
        let key = key_by(alloc, number / 3)?;
        compare(rt, waits, plain, number % 60, &key, got, want)?;
        let mut keys = keys_by(alloc, number / 5)?;
        keys.truncate((number % 4) as usize);
        compare_any(rt, waits, plain, &keys, got, want)?;
        compare_all(rt, waits, plain, got, want)?;
    }
    Ok(())
}

#[test]
fn the_queue_against_the_plain_list(rt: HostRuntime) -> Result<(), Fail> {
    let alloc = rt.alloc();
    let mut waits = Waits::new(alloc);
    let mut plain = PlainWaits::new(alloc);
    let mut got = Vec::new(alloc);
    let mut want = Vec::new(alloc);
    play(&rt, &mut waits, &mut plain, alloc, &mut got, &mut want)?;
    Ok(())
}

/// What a refused growth leaves: 1 is parked as before, and 2 is not, whichever growth it was.
fn check_refused(rt: &impl Abort, waits: &Waits, key: &WaitKey, out: &mut Vec<u64>) {
    let due = check_due(rt, waits, 100, out, &[1]);
    assert!(rt; due.is_ok());
    let touched = check_touched(rt, waits, key, out, &[1]);
    assert!(rt; touched.is_ok());
    assert_eq!(rt; waits.parked(), 1);
}

/// Run with each allocation refused in turn, `park` is met at every growth that it makes.
#[test]
fn a_refused_park_leaves_the_queue(rt: HostRuntime) {
    let alloc = rt.alloc();
    let Ok(mut out) = Vec::with_capacity(alloc, 4) else {
        return;
    };
    let Ok(key) = group(alloc, 0, b"a") else {
        return;
    };
    let (Ok(first), Ok(second)) = (one_key(alloc, b"a"), one_key(alloc, b"b")) else {
        return;
    };
    let mut waits = Waits::new(alloc);
    if park_new(&mut waits, 1, 50, first).is_err() {
        assert_eq!(rt; waits.parked(), 0);
        return;
    }
    if park_new(&mut waits, 2, 50, second).is_err() {
        check_refused(&rt, &waits, &key, &mut out);
    }
}

fn one_key(alloc: Global, id: &[u8]) -> Result<Vec<WaitKey>, AllocError> {
    let key = group(alloc, 0, id)?;
    Ok(vec![in alloc; key]?)
}
