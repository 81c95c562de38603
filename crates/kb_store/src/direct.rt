//! Stores that put nothing off.
use crate::{FusedStore, MemoryStore, Store};

/// A store that has done all that it was asked for, whenever a call answers.
pub trait Direct: Store {
    /// Nothing is left to do.
    ghost prompt: { (store : Self) → Self.Store.settled store };
}

impl Direct for MemoryStore {
    ghost prompt = { λ _. tt };
}

impl<S: Direct> Direct for FusedStore<S> {
    ghost prompt = { λ s. S.Direct.prompt s.store };
}
