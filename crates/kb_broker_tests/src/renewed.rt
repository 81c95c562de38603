//! What starts find behind a renewal of a catalog of which the store refused calls. Bytes are written as `words` says.

use crate::words::bytes_of;
use kb_broker::{Listing, Settings};
use kb_restart::open_broker;
use kb_store::{Fuse, FusedStore, MemoryStore, Store};
use std::alloc::{AllocError, Global};
use std::process::Abort;
use std::test::Fail;

/// A store that refuses two calls. Of the first, where it appends, all but the last byte is kept.
type Twice = FusedStore<FusedStore<MemoryStore>>;

/// What a client asks, and what it is told.
type Exchange = (&'static str, &'static str);

/// A topic, and commands that a snapshot has not.
const BEFORE: Exchange = (
    "handshake ann create begin begin",
    "offered welcome created begun-0 begun-1",
);

const COMMIT: Exchange = ("handshake ann commit", "offered welcome committed");

const LOOK: Exchange = ("handshake ann ask-offset", "offered welcome offset-5");

/// A broker that stopped.
#[derive(Drop)]
struct Stopped {
    store: Twice,
    /// How many files its start left alone.
    strays: usize,
    /// Whether its client was told what it should be.
    is_told: bool,
}

/// What a renewal left beside the catalog in use, where each later start found what was acknowledged.
#[derive(Clone, Copy, PartialEq, Eq)]
enum Left {
    /// Nothing was acknowledged, or a start was refused.
    Unknown,
    /// What was acknowledged was not found.
    Less,
    Nothing,
    /// A file of the former generation.
    Former,
    /// A file of the generation that was not made.
    Later,
}

/// A store of which the outer one refuses that call, and the inner one that one.
fn refusing(alloc: Global, outer: u64, inner: u64) -> Twice {
    let inside = FusedStore::new(MemoryStore::new(alloc), Fuse::Once(inner), 0);
    FusedStore::new(inside, Fuse::Once(outer), u64::MAX)
}

/// A broker that opened with the files, wrote the catalog of tenant `a` anew where that makes it shorter, and served a client. There is
/// none where its opening is refused.
fn served(alloc: Global, store: Twice, exchange: Exchange) -> Result<Option<Stopped>, AllocError> {
    let settings = Settings::standard(alloc)?;
    let Ok(opened) = open_broker(alloc, &settings, Listing::Served, store) else {
        return Ok(None);
    };
    let strays = opened.strays.len();
    let mut broker = opened.broker;
    if broker.tenants_len() > 0 {
        broker.shorten_catalog(alloc, 0);
    }
    if broker.last_connection() > 0 {
        return Err(AllocError);
    }
    let (asked, told) = exchange;
    broker.connect(alloc, 1)?;
    broker.input(alloc, 1, &bytes_of(alloc, asked)?);
    let is_told = broker.take_output(alloc, 1) == bytes_of(alloc, told)?;
    Ok(Some(Stopped {
        store: broker.into_store(),
        strays,
        is_told,
    }))
}

/// Whether there are more files than one.
fn is_beside(alloc: Global, store: &mut Twice) -> bool {
    match store.store.store.list(alloc) {
        Ok(files) => files.len() > 1,
        Err(_) => false,
    }
}

/// What two starts find of a commit behind a renewal, where these calls are refused.
fn tried(alloc: Global, outer: u64, inner: u64) -> Result<Left, AllocError> {
    let Some(before) = served(alloc, refusing(alloc, outer, inner), BEFORE)? else {
        return Ok(Left::Unknown);
    };
    match served(alloc, before.store, COMMIT)? {
        Some(renewed) if renewed.is_told => found(alloc, renewed.store),
        _ => Ok(Left::Unknown),
    }
}

/// What two starts find of the commit.
fn found(alloc: Global, mut store: Twice) -> Result<Left, AllocError> {
    let is_beside = is_beside(alloc, &mut store);
    let Some(first) = served(alloc, store, LOOK)? else {
        return Ok(Left::Unknown);
    };
    let (is_found, is_stray) = (first.is_told, first.strays > 0);
    let Some(second) = served(alloc, first.store, LOOK)? else {
        return Ok(Left::Unknown);
    };
    Ok(if !(is_found && second.is_told) {
        Left::Less
    } else if !is_beside {
        Left::Nothing
    } else if is_stray {
        Left::Later
    } else {
        Left::Former
    })
}

/// Refuses each call in turn, and, where two are refused, the next one that the inner store gets. What was acknowledged is always found,
/// and some of these calls left that.
fn refuses_each(rt: &impl Abort, alloc: Global, is_twice: bool, wanted: Left) -> Result<(), Fail> {
    let mut some = false;
    for call in 2..32u64 {
        let inner = if is_twice { call + 1 } else { 0 };
        let left = tried(alloc, call, inner)?;
        assert!(rt; left != Left::Less, "{call}");
        some |= left == wanted;
    }
    assert!(rt; some);
    Ok(())
}

#[test]
fn a_commit_behind_two_refusals_is_found(rt: HostRuntime) -> Result<(), Fail> {
    refuses_each(&rt, rt.alloc(), true, Left::Later)
}

#[test]
fn a_commit_beside_a_former_catalog_is_found(rt: HostRuntime) -> Result<(), Fail> {
    refuses_each(&rt, rt.alloc(), false, Left::Former)
}
