//! Which connections may take a turn.

ghost use Rattle.std.specs.Prelude.{◌≡◌, ◌≤◌, ◌∷◌, [], All, length, OnOk, IfSome, IfNone, IsPermutation};
ghost use Rattle.std.specs.Bool.{OnTrue, OnFalse};

use std::alloc::{AllocError, Global};
use std::cmp::Reverse;
use std::collections::BinaryHeap;
use std::marker::Model;

/// The numbers of connections that may take a turn, of which the least goes first. What is put in takes no memory: room is made for it
/// before.
#[derive(Drop)]
pub struct Able {
    numbers: BinaryHeap<Reverse<u64>>,
}

impl Model for Able {
    ghost use Rattle.std.specs.Ordering.{nat_cmp};
    ghost use Rattle.std.specs.BinaryHeap.{heap_items, IsHeap};
    ghost use Rattle.kb_broker.specs.Able.{Numbers, heap_numbers};

    ghost Value = { Numbers };

    ghost view = { λ a. heap_numbers a.numbers };

    ghost invariant = { λ a. IsHeap (λ x y. nat_cmp y.0 x.0) (heap_items a.numbers) };
}

impl Able {
    /// Nobody, and no room.
    pub fn new(alloc: Global) -> Able
        ensures { result.items ≡ [] }
    {
        Able {
            numbers: BinaryHeap::new(alloc),
        }
    }

    /// Makes room for so many numbers in all. After an `Err`, which is want of memory, there is the room that there was.
    pub fn reserve(&mut self, count: usize) -> Result<(), AllocError>
        ensures room { OnOk result (count ≤ self.new.room) }
        ensures items { self.new.items ≡ self.old.items }
    {
        self.numbers
            .reserve(count.saturating_sub(self.numbers.len()))
    }

    /// Puts a number in, where there is room for it, and answers whether there was. Takes no memory.
    pub fn put(&mut self, number: u64) -> bool
        ensures put { OnTrue result (IsPermutation (number ∷ self.old.items) self.new.items) }
        ensures full { OnFalse result (self.old.room ≤ length self.old.items) }
    {
        self.numbers.len() < self.numbers.capacity() && self.numbers.push(Reverse(number)).is_ok()
    }

    /// Takes the least number out.
    pub fn take_least(&mut self) -> Option<u64>
        ensures least { IfSome result (λ n. All (λ k. n ≤ k) self.old.items) }
        ensures others { IfSome result (λ n. IsPermutation self.old.items (n ∷ self.new.items)) }
        ensures none { IfNone result (self.old.items ≡ []) }
        ensures room { self.new.room ≡ self.old.room }
    {
        let Reverse(number) = self.numbers.pop()?;
        Some(number)
    }

    /// Takes all numbers out. The room stays.
    pub fn clear(&mut self)
        ensures items { self.new.items ≡ [] }
        ensures room { self.new.room ≡ self.old.room }
    {
        self.numbers.clear();
    }
}
