//! The first ones of a kind, and how many more there were.

ghost use Rattle.std.specs.Prelude.{◌≡◌, ◌≤◌, ◌<◌, ◌+◌, ◌-◌, ◌^◌, ◌++◌, ◌∷◌, [], min, vec_capacity, vec_len, IfOk};

use std::alloc::{AllocError, Global};

/// How many are kept.
const KEPT: usize = 16;

/// The first 16 of a kind, and how many more there were.
#[derive(Drop)]
pub struct Firsts<T: Copy> {
    first: Vec<T>,
    more: u64,
    ghost room: { 16 ≤ vec_capacity first },
}

impl<T: Copy> Firsts<T> {
    /// None so far, with memory for those that are kept.
    pub fn new(alloc: Global) -> Result<Self, AllocError>
        ensures { IfOk result (λ it. (it.first.items ≡ []) × (it.more ≡ 0)) }
    {
        Ok(Firsts {
            first: Vec::with_capacity(alloc, KEPT)?,
            more: 0,
        })
    }

    /// Forgets all of them. The memory stays.
    pub fn clear(&mut self)
        ensures { (self.new.first.items ≡ []) × (self.new.more ≡ 0) }
    {
        self.first.clear();
        self.more = 0;
    }

    /// One more, which is only counted behind the first 16.
    pub fn add(&mut self, it: T)
        ensures kept { vec_len self.old.first < 16 → (self.new.first.items ≡ self.old.first.items ++ it ∷ [])
            × (self.new.more ≡ self.old.more) }
        ensures counted { 16 ≤ vec_len self.old.first → (self.new.first.items ≡ self.old.first.items)
            × (self.new.more ≡ min (self.old.more + 1) (2 ^ 64 - 1)) }
    {
        if self.first.len() < KEPT {
            self.first.push_reserved(it);
        } else {
            self.more = self.more.saturating_add(1);
        }
    }

    /// The first ones.
    pub fn first(&self) -> &[T]
        ensures { result.now ≡ self.now.first.items }
    {
        &self.first
    }

    /// How many more there were.
    pub fn more(&self) -> u64
        ensures { result ≡ self.now.more }
    {
        self.more
    }
}
