//! What a loss of power leaves of a store that puts changes off, once it puts nothing off any more, and what damage leaves of a batch.
ghost use Rattle.std.specs.Prelude.{◌≡◌, ℕ, List, false, length, drop, OnOk};
ghost use Rattle.kb_batch.specs.Batch.{size_told, IsBatch};
ghost use Rattle.kb_store.specs.Loss.{Only};
ghost use Rattle.kb_survey.specs.Ending.{is_cut_short};
ghost use Rattle.kb_survey.specs.Lost.{IsMomentLater, loss_with};
ghost use Rattle.kb_survey.specs.Postponed.{HasMade, Postponing};

use crate::postponed::Postponed;
use kb_store::{Store, StoreFault};

/// Where nothing is put off, nor will be, a loss leaves at each moment what it leaves of the store inside.
pub fn a_loss_is_that_inside<S: Store>()
    ensures { (s : Postponing S) → HasMade s → IsMomentLater (S.loss s.store) (loss_with S.loss s) }
{}

/// Syncs, as [`Store::sync`] does. After an `Ok` a loss leaves what it leaves of the store inside, and so its files where that one has
/// put nothing off.
pub fn sync_lasts_inside<S: Store>(store: &mut Postponed<S>) -> Result<(), StoreFault>
    ensures same { OnOk result (IsMomentLater (S.loss store.new.store) (loss_with S.loss store.new)) }
    ensures lasts { OnOk result (S.settled store.new.store → (S.disk store.new.store).honest
        → Only (S.disk store.new.store).files (loss_with S.loss store.new)) }
{
    store.sync()
}

/// A batch that was written whole is never taken for a write that stopped, whichever byte is damaged: while it tells its length all else
/// may be, and where its length is damaged the checksum and all behind it are not.
pub fn a_whole_batch_is_not_cut_short()
    ensures told { (b s : List ℕ) → IsBatch b → length s ≡ length b → size_told s ≡ size_told b → is_cut_short s ≡ false }
    ensures checked { (b s : List ℕ) → IsBatch b → length s ≡ length b → drop 17 s ≡ drop 17 b → is_cut_short s ≡ false }
{}
