//! How a batch is judged by its producer's last ones.
ghost use Rattle.std.specs.Prelude.{◌≡◌};
ghost use Rattle.std.specs.List.{find};
ghost use Rattle.kb_producers.specs.Verdict as spec;

use crate::kept::Kept;
use crate::verdict::{
    INVALID_PRODUCER_EPOCH, OUT_OF_ORDER_SEQUENCE_NUMBER, UNKNOWN_PRODUCER_ID, Verdict,
};

/// The sequence that follows another: after 2147483647 comes 0.
pub fn next_sequence(last: i32) -> i32
    ensures { result ≡ spec.next_sequence last }
{
    (last as i64 + 1).rem_euclid(2_147_483_648) as i32
}

/// The sequence of the last of `count` records, of which the first has the sequence `base`.
pub fn last_sequence(base: i32, count: u32) -> i32
    ensures { result ≡ spec.last_sequence base count }
{
    (base as i64 + count as i64 - 1).rem_euclid(2_147_483_648) as i32
}

// Whether a batch comes again: with the epoch, and the first and last sequence, of one that is kept.
fn is_repeat(batch: &Kept, kept: &Kept) -> bool
    ensures { result ≡ spec.is_repeat batch.now kept.now }
{
    kept.producer_epoch == batch.producer_epoch
        && kept.base_sequence == batch.base_sequence
        && kept.last_sequence == batch.last_sequence
}

// The first of some batches that comes again.
#[tactic(auto, using(crate::proofs::Finding::find_here, crate::proofs::Finding::find_on))]
fn repeated(batch: Kept, recent: &[Kept]) -> Option<Kept>
    ensures { result ≡ find (spec.is_repeat batch) recent.now }
{
    for kept in recent {
        if is_repeat(&batch, kept) {
            return Some(*kept);
        }
    }
    None
}

// What becomes of the first batch of a producer, or of an epoch: it begins at sequence 0, or is refused so.
fn begins(batch: Kept, fault: i16) -> Verdict
    ensures { result ≡ spec.begins batch fault }
{
    if batch.base_sequence == 0 {
        Verdict::Append
    } else {
        Verdict::Refuse(fault)
    }
}

// What becomes of a batch that is no repeat: it follows the last one, or is refused.
fn following(sequence: i32, next: i32) -> Verdict
    ensures { result ≡ spec.following sequence next }
{
    if sequence == next {
        Verdict::Append
    } else {
        Verdict::Refuse(OUT_OF_ORDER_SEQUENCE_NUMBER)
    }
}

/// What becomes of a batch, by the last batches of its producer, the newest first.
#[tactic(auto, unfolding(crate::specs::Verdict::judged))]
pub fn judged(batch: Kept, recent: &[Kept]) -> Verdict
    ensures { result ≡ spec.judged batch recent.now }
{
    let Some(last) = recent.first() else {
        return begins(batch, UNKNOWN_PRODUCER_ID);
    };
    if batch.producer_epoch < last.producer_epoch {
        return Verdict::Refuse(INVALID_PRODUCER_EPOCH);
    }
    if last.producer_epoch < batch.producer_epoch {
        return begins(batch, OUT_OF_ORDER_SEQUENCE_NUMBER);
    }
    match repeated(batch, recent) {
        Some(kept) => Verdict::Repeat(kept.base_offset),
        None => following(batch.base_sequence, next_sequence(last.last_sequence)),
    }
}
