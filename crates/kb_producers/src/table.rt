//! The table of a partition's producers.
ghost use Rattle.std.specs.Prelude.{◌≡◌, ◌≤◌, ◌<◌, ◌∷◌, ◌++◌, [], OnOk, drop};
ghost use Rattle.kb_producers.specs.Ids.{ids_kept, least_above};
ghost use Rattle.kb_producers.specs.Verdict.{last_sequence, verdict};
ghost use Rattle.kb_producers.specs.Table.{TableState, newest_place, since};

use crate::ids::next_among;
use crate::judge::judged;
use crate::kept::Kept;
use crate::link::Link;
use crate::verdict::Verdict;
use crate::walk::last_batches;
use std::alloc::{AllocError, Global};
use std::collections::{HashMap, VecDeque};
use std::marker::Model;

/// The batches of idempotent producers that are in a partition's list now.
///
/// A batch takes a link of 32 bytes. Each producer takes an entry beside: 12 bytes, and some 15 to 22 that the map adds, by its load.
/// What both have to grow comes on top.
#[derive(Drop)]
pub struct ProducerTable {
    list: VecDeque<Link>,
    /// How many batches there had been with each producer's newest one. It wraps, as `gone` does.
    newest: HashMap<i64, u32>,
    /// How many batches are gone from the front.
    gone: u32,
}

impl Model for ProducerTable {
    ghost use Rattle.std.specs.Prelude.{◌-◌};
    ghost use Rattle.std.specs.Ordering.{int_eq};
    ghost use Rattle.std.specs.VecDeque.{deque_len, deque_capacity};
    ghost use Rattle.std.specs.HashMap.{get, spare};
    ghost use Rattle.kb_producers.specs.Table.{TableState, IsTable, table_state};

    ghost Value = { TableState };

    ghost view = { λ t. table_state t.list.items (deque_capacity t.list - deque_len t.list) (spare t.newest) };

    ghost invariant = { λ t. IsTable t.list.items (get int_eq t.newest) t.gone };
}

impl ProducerTable {
    /// No batch.
    pub fn new(alloc: Global) -> ProducerTable
        ensures { result.kept ≡ [] }
    {
        ProducerTable {
            list: VecDeque::new(alloc),
            newest: HashMap::new(alloc),
            gone: 0,
        }
    }

    /// What becomes of a batch that is kept so.
    pub(crate) fn judge_kept(&self, batch: Kept) -> Verdict
        ensures { result ≡ verdict self.now.kept batch }
    {
        if batch.producer_id == -1 {
            return Verdict::Append;
        }
        let newest = self.newest_place(batch.producer_id);
        judged(batch, last_batches(&self.list, batch, newest).as_slice())
    }

    /// The place of a producer's newest batch, where the oldest of the list is at 1; 0 where it has none.
    fn newest_place(&self, id: i64) -> u32
        ensures { result ≡ newest_place id self.now.kept }
    {
        match self.newest.get(&id) {
            Some(count) => count.wrapping_sub(self.gone),
            None => 0,
        }
    }

    /// The least number from 0 on that is above the producer id of each of these batches. It goes over all of them.
    pub fn next_id(&self) -> u64
        ensures { result ≡ least_above (ids_kept self.now.kept) }
    {
        let (front, back) = self.list.as_slices();
        next_among(back, next_among(front, 0))
    }

    /// Asks for the memory that one more batch takes.
    pub fn reserve(&mut self) -> Result<(), AllocError>
        ensures ok { OnOk result (1 ≤ self.new.room) }
        ensures unchanged { self.new.kept ≡ self.old.kept }
        ensures room { self.old.room ≤ self.new.room }
    {
        if self.list.len() >= u32::MAX as usize {
            return Err(AllocError);
        }
        self.list.reserve(1)?;
        self.newest.reserve(1)
    }

    /// Adds a batch, which takes no memory.
    pub(crate) fn append_kept(&mut self, batch: Kept)
        requires room { 0 < self.old.room }
        requires whole { batch.last_sequence ≡ last_sequence batch.base_sequence batch.record_count }
        ensures { self.new.kept ≡ self.old.kept ++ batch ∷ [] }
    {
        let newest = self.newest_place(batch.producer_id);
        let place = self.list.len() as u32 + 1;
        let link = Link::of(batch, place - newest);
        self.list.push_back_reserved(link);
        let count = self.gone.wrapping_add(place);
        let _ = self.newest.insert(batch.producer_id, count);
    }

    /// Drops the oldest batch, if there is one.
    fn drop_first(&mut self)
        ensures { self.new.kept ≡ drop 1 self.old.kept }
    {
        let Some(first) = self.list.front() else {
            return;
        };
        let id = first.producer_id;
        let newest = self.newest_place(id);
        let _ = self.list.pop_front();
        self.gone = self.gone.wrapping_add(1);
        if newest == 1 {
            self.newest.remove(&id);
        }
    }

    /// Drops the batches that end at the start or below, as a log drops them from its front. The one that holds the start stays.
    #[tactic(auto, unfolding(crate::specs::Table::since))]
    pub fn dropped_below(&mut self, start: i64)
        ensures { self.new.kept ≡ since start self.old.kept }
    {
        while let Some(first) = self.list.front() {
            if !first.ends_by(start) {
                return;
            }
            self.drop_first();
        }
    }
}
