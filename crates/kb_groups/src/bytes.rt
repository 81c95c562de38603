//! Bytes that a group keeps.

ghost use Rattle.std.specs.Prelude.{◌≡◌, IfOk, []};

use std::alloc::{AllocError, Global};
use std::marker::Model;
use std::rc::Rc;

/// Bytes on the heap, which contracts see as their list.
#[derive(Drop)]
pub struct Bytes {
    items: Vec<u8>,
}

impl Model for Bytes {
    ghost use Rattle.std.specs.Prelude.{List, ℕ};

    ghost Value = { List ℕ };

    ghost view = { λ b. b.items.items };
}

impl Clone for Bytes {
    ghost is_clone = { λ b copy. copy ≡ b };

    fn clone(&self) -> Result<Bytes, AllocError> {
        Ok(Bytes {
            items: self.items.clone()?,
        })
    }
}

impl Bytes {
    /// No bytes.
    pub fn new(alloc: Global) -> Bytes
        ensures { result ≡ [] }
    {
        Bytes {
            items: Vec::new(alloc),
        }
    }

    /// These bytes.
    pub fn from_vec(items: Vec<u8>) -> Bytes
        ensures { result ≡ items.items }
    {
        Bytes { items }
    }

    /// A copy of these bytes.
    pub fn copy_of(alloc: Global, bytes: &[u8]) -> Result<Bytes, AllocError>
        ensures { IfOk result (λ b. b ≡ bytes.now) }
    {
        Ok(Bytes {
            items: Vec::from_slice(alloc, bytes)?,
        })
    }

    pub fn as_slice(&self) -> &[u8]
        ensures { result.now ≡ self.now }
    {
        self.items.as_slice()
    }
}

/// Bytes on the heap that copies share, which contracts see as their list.
pub struct SharedBytes {
    shared: Option<Rc<Bytes>>,
}

impl Drop for SharedBytes {
    fn drop(self) {
        let SharedBytes { shared } = self;
        drop(shared);
    }
}

impl Model for SharedBytes {
    ghost use Rattle.std.specs.Prelude.{List, ℕ, []};
    ghost use Rattle.std.specs.Option.{option_map_or};

    ghost Value = { List ℕ };

    ghost view = { λ b. option_map_or (λ r. r.value) b.shared [] };
}

impl Clone for SharedBytes {
    ghost is_clone = { λ b copy. copy ≡ b };

    fn clone(&self) -> Result<SharedBytes, AllocError> {
        match &self.shared {
            None => Ok(SharedBytes::new()),
            Some(bytes) => Ok(SharedBytes {
                shared: Some(bytes.clone()?),
            }),
        }
    }
}

impl SharedBytes {
    /// No bytes.
    pub fn new() -> SharedBytes
        ensures { result ≡ [] }
    {
        SharedBytes { shared: None }
    }

    /// A copy of these bytes.
    pub fn copy_of(alloc: Global, bytes: &[u8]) -> Result<SharedBytes, AllocError>
        ensures { IfOk result (λ b. b ≡ bytes.now) }
    {
        SharedBytes::from_bytes(alloc, Bytes::copy_of(alloc, bytes)?)
    }

    /// These bytes.
    pub fn from_bytes(alloc: Global, bytes: Bytes) -> Result<SharedBytes, AllocError>
        ensures { IfOk result (λ b. b ≡ bytes) }
    {
        Ok(SharedBytes {
            shared: Some(Rc::new(alloc, bytes)?),
        })
    }

    pub fn as_slice(&self) -> &[u8]
        ensures { result.now ≡ self.now }
    {
        match &self.shared {
            None => &[],
            Some(bytes) => bytes.as_ref().as_slice(),
        }
    }
}
