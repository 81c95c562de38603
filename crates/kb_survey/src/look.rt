//! What files say that are there to be read.
ghost use Rattle.std.specs.Prelude.{◌≡◌, [], drop, map, None, Some, if◌then◌else◌, IfOk};
ghost use Rattle.std.specs.FinMap.{keys};
ghost use Rattle.kb_store.specs.Disk.{bytes_of, HasCause, IsThere, Keeps};
ghost use Rattle.kb_segment.specs.Header.{header_in};
ghost use Rattle.kb_survey.specs.Listed.{is_in};
ghost use Rattle.kb_survey.specs.Stray.{stray_of};
ghost use Rattle.kb_survey.specs.Snapshot.{snapshot_end};
ghost use Rattle.kb_survey.specs.Whole.{no_batches, whole_in};

use crate::snapshot::snapshot_end;
use crate::stray::{Stray, read_stray};
use crate::whole::{Whole, whole_batches};
use kb_segment::{SegmentHeader, read_header};
use kb_store::{Store, StoreFault, read_file};
use std::alloc::Global;

/// The header of a file, by the numbers of all that are there: none where it is unreadable, or the file is not there.
#[tactic(auto, using(crate::proofs::Listed::is_there))]
pub fn header_among<S: Store>(
    alloc: Global,
    store: &mut S,
    listed: &[u64],
    file: u64,
) -> Result<Option<SegmentHeader>, StoreFault>
    requires { listed.now ≡ keys (S.disk store.old).table }
    ensures header { IfOk result (λ found. (S.disk store.new).honest
        → found ≡ (if is_in listed.now file then header_in (bytes_of (S.disk store.old) file) else None)) }
    ensures unchanged { Keeps (S.disk store.old) (S.disk store.new) }
    ensures cause { HasCause (S.disk store.old) result (S.disk store.new) }
{
    if !listed.contains(&file) {
        return Ok(None);
    }
    read_header(alloc, store, file)
}

/// Why a file is of no log, by the numbers of all that are there, as [`read_stray`] tells it: none where the file is not there.
#[tactic(auto, using(crate::proofs::Listed::is_there))]
pub fn stray_among<S: Store>(
    alloc: Global,
    store: &mut S,
    listed: &[u64],
    file: u64,
    names: &[&str],
    next_instances: &[u64],
) -> Result<Option<Stray>, StoreFault>
    requires { listed.now ≡ keys (S.disk store.old).table }
    ensures stray { IfOk result (λ found. (S.disk store.new).honest → found ≡ (if is_in listed.now file
        then Some (stray_of (bytes_of (S.disk store.old) file) (map (λ name. name.now) names.now) next_instances.now)
        else None)) }
    ensures unchanged { Keeps (S.disk store.old) (S.disk store.new) }
    ensures cause { HasCause (S.disk store.old) result (S.disk store.new) }
{
    if !listed.contains(&file) {
        return Ok(None);
    }
    let stray = read_stray(alloc, store, file, names, next_instances)?;
    Ok(Some(stray))
}

/// All bytes of a file, by the numbers of all that are there: none where the file is not there. Room is asked for by the file's length,
/// which the store answers.
#[tactic(auto, using(crate::proofs::Listed::is_there))]
pub fn bytes_among<S: Store>(
    alloc: Global,
    store: &mut S,
    listed: &[u64],
    file: u64,
) -> Result<Vec<u8>, StoreFault>
    requires { listed.now ≡ keys (S.disk store.old).table }
    ensures bytes { IfOk result (λ bytes. (S.disk store.new).honest
        → bytes.items ≡ (if is_in listed.now file then bytes_of (S.disk store.old) file else [])) }
    ensures unchanged { Keeps (S.disk store.old) (S.disk store.new) }
    ensures cause { HasCause (S.disk store.old) result (S.disk store.new) }
{
    if !listed.contains(&file) {
        return Ok(Vec::new(alloc));
    }
    read_file(alloc, store, file)
}

/// The bytes of a file from a place on, by the numbers of all that are there: none where the file is not there, or no longer than that.
/// Room is asked for by how many these are, which the store answers.
#[tactic(auto, using(crate::proofs::Listed::is_there))]
pub fn tail_among<S: Store>(
    alloc: Global,
    store: &mut S,
    listed: &[u64],
    file: u64,
    place: u64,
) -> Result<Vec<u8>, StoreFault>
    requires { listed.now ≡ keys (S.disk store.old).table }
    ensures bytes { IfOk result (λ bytes. (S.disk store.new).honest
        → bytes.items ≡ drop place (if is_in listed.now file then bytes_of (S.disk store.old) file else [])) }
    ensures unchanged { Keeps (S.disk store.old) (S.disk store.new) }
    ensures cause { HasCause (S.disk store.old) result (S.disk store.new) }
{
    if listed.contains(&file) {
        return read_tail(alloc, store, file, place);
    }
    Ok(Vec::new(alloc))
}

/// The bytes of a file from a place on.
fn read_tail<S: Store>(
    alloc: Global,
    store: &mut S,
    file: u64,
    place: u64,
) -> Result<Vec<u8>, StoreFault>
    requires { IsThere (S.disk store.old) file }
    ensures bytes { IfOk result (λ bytes. (S.disk store.new).honest → bytes.items ≡ drop place (bytes_of (S.disk store.old) file)) }
    ensures unchanged { Keeps (S.disk store.old) (S.disk store.new) }
    ensures cause { HasCause (S.disk store.old) result (S.disk store.new) }
{
    let len = store.len(file)?;
    let from = place.min(len);
    let mut bytes = vec![in alloc; 0u8; (len - from) as usize]?;
    store.read_at(file, from, &mut bytes)?;
    Ok(bytes)
}

/// The whole batches that stand in a file from a place on and end above a start, by the numbers of all that are there: none where the
/// file is not there, or no longer than that. Room is asked for by the file's length, which the store answers.
#[tactic(auto, using(crate::proofs::Listed::is_there))]
pub fn whole_among<S: Store>(
    alloc: Global,
    store: &mut S,
    listed: &[u64],
    file: u64,
    place: u64,
    start: u64,
) -> Result<Whole, StoreFault>
    requires { listed.now ≡ keys (S.disk store.old).table }
    ensures whole { IfOk result (λ whole. (S.disk store.new).honest
        → whole ≡ (if is_in listed.now file then whole_in start (drop place (bytes_of (S.disk store.old) file)) else no_batches)) }
    ensures unchanged { Keeps (S.disk store.old) (S.disk store.new) }
    ensures cause { HasCause (S.disk store.old) result (S.disk store.new) }
{
    if !listed.contains(&file) {
        return Ok(Whole::default());
    }
    let bytes = read_file(alloc, store, file)?;
    let from = place.min(bytes.len() as u64) as usize;
    Ok(whole_batches(&bytes[from..], start))
}

/// How far the snapshot reaches whose first batch stands at a place of a file, by the numbers of all that are there, as [`snapshot_end`]
/// tells it: 0 where the file is not there, or no longer than that. Room is asked for by the file's length, which the store answers.
#[tactic(auto, using(crate::proofs::Listed::is_there))]
pub fn snapshot_end_among<S: Store>(
    alloc: Global,
    store: &mut S,
    listed: &[u64],
    file: u64,
    place: u64,
) -> Result<u64, StoreFault>
    requires { listed.now ≡ keys (S.disk store.old).table }
    ensures end { IfOk result (λ end. (S.disk store.new).honest
        → end ≡ (if is_in listed.now file then snapshot_end (drop place (bytes_of (S.disk store.old) file)) else 0)) }
    ensures unchanged { Keeps (S.disk store.old) (S.disk store.new) }
    ensures cause { HasCause (S.disk store.old) result (S.disk store.new) }
{
    if !listed.contains(&file) {
        return Ok(0);
    }
    let bytes = read_file(alloc, store, file)?;
    let from = place.min(bytes.len() as u64) as usize;
    Ok(snapshot_end(&bytes[from..]))
}
