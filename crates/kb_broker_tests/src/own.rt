//! A tenant on a broker that it shares, and on one of its own that opens with a copy of its files. Bytes are written as `words` says.

use crate::host::Host;
use crate::words::bytes_of;
use kb_broker::{Event, Listing, Settings, Written};
use kb_move::copy_tenant;
use kb_restart::run_both_from_files;
use kb_store::MemoryStore;
use std::alloc::Global;
use std::test::Fail;

/// What tenant `a` asks and is told once it has a topic of one record and a committed offset.
const ASKED: &str = "handshake ann create-again fetch ask-offset append yo";

const TOLD: &str = "offered welcome exists fetched hi offset-5 appended-1";

/// A store with files of tenants `a` and `b`.
fn shared_store(alloc: Global) -> Result<MemoryStore, Fail> {
    let mut host = Host::new(alloc)?;
    host.open(1)?;
    host.ask(
        1,
        &bytes_of(alloc, "handshake ann create append hi commit")?,
    );
    host.open(2)?;
    host.ask(
        2,
        &bytes_of(alloc, "handshake bob create append yo append hi")?,
    );
    Ok(host.into_broker().into_store())
}

/// Whether the first connection got just these bytes.
fn is_told(written: &[Written], told: &[u8]) -> bool {
    match written.first() {
        Some(first) => first.bytes.as_slice() == told,
        None => false,
    }
}

#[test]
fn a_tenant_gets_the_same_with_its_files_alone(rt: HostRuntime) -> Result<(), Fail> {
    let alloc = rt.alloc();
    let mut shared = shared_store(alloc)?;
    let mut own = MemoryStore::new(alloc);
    if copy_tenant(alloc, &mut shared, "a", &mut own).is_err() {
        return Err("the files were not copied".into());
    }
    let all = [
        Event::Open(1),
        Event::Open(2),
        Event::In(2, bytes_of(alloc, "handshake bob append hi")?),
        Event::In(1, bytes_of(alloc, ASKED)?),
    ];
    let few = [Event::Open(1), Event::In(1, bytes_of(alloc, ASKED)?)];
    let settings = Settings::standard(alloc)?;
    match run_both_from_files(alloc, &settings, Listing::Served, (shared, own), &all, &few) {
        Ok((both, alone)) => {
            let told = bytes_of(alloc, TOLD)?;
            assert!(rt; is_told(&both.written, &told));
            assert!(rt; is_told(&alone.written, &told));
            Ok(())
        }
        Err(_) => Err("a broker did not open".into()),
    }
}
