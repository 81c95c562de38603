//! The protocols that members list.

ghost use Rattle.std.specs.Prelude.{◌≡◌, IfOk, map, List, ℕ};
ghost use Rattle.kb_groups.specs.Calls.{kept};
ghost use Rattle.kb_groups.specs.Protocols.{lists, metadata};
ghost use Rattle.kb_groups.specs.Sizes.{counted, protocol_bytes};

use crate::borrowed::JoinProtocol;
use crate::bytes::Bytes;
use crate::listed::ListedProtocols;
use std::alloc::{AllocError, Global};
use std::marker::Model;
use std::rc::Rc;

/// A protocol that a member lists.
#[derive(Drop)]
pub struct Protocol {
    pub name: Bytes,
    pub metadata: Bytes,
}

impl Clone for Protocol {
    ghost is_clone = { λ p copy. copy ≡ p };

    fn clone(&self) -> Result<Protocol, AllocError> {
        Ok(Protocol {
            name: self.name.clone()?,
            metadata: self.metadata.clone()?,
        })
    }
}

/// What has a protocol's name.
pub(crate) trait Named {
    ghost name_of: { Self → List ℕ };

    fn name(&self) -> &[u8]
        ensures { result.now ≡ name_of self.now };
}

impl Named for Protocol {
    ghost name_of = { λ p. p.name };

    fn name(&self) -> &[u8] {
        self.name.as_slice()
    }
}

impl<'a> Named for JoinProtocol<'a> {
    ghost name_of = { λ p. p.name };

    fn name(&self) -> &[u8] {
        self.name.as_str().as_bytes()
    }
}

/// A member's protocols, in its order of preference. Copies share them.
#[derive(Drop)]
pub struct Protocols {
    shared: Rc<ListedProtocols>,
}

impl Model for Protocols {
    ghost use Rattle.std.specs.Prelude.{List};
    ghost use Rattle.kb_groups.specs.declared.protocol.Protocol.{Protocol};

    ghost Value = { List Protocol };

    ghost view = { λ b. b.shared.value };
}

impl Clone for Protocols {
    ghost is_clone = { λ ps copy. copy ≡ ps };

    fn clone(&self) -> Result<Protocols, AllocError> {
        Ok(Protocols {
            shared: self.shared.clone()?,
        })
    }
}

impl Protocols {
    pub fn as_slice(&self) -> &[Protocol]
        ensures { result.now ≡ self.now }
    {
        self.shared.as_ref().as_slice()
    }

    /// A copy of what a join lists.
    pub(crate) fn copy_of(
        alloc: Global,
        offers: &[JoinProtocol<'_>],
    ) -> Result<Protocols, AllocError>
        ensures { IfOk result (λ r. r ≡ map kept offers.now) }
    {
        let listed = ListedProtocols::copy_of(alloc, offers)?;
        Ok(Protocols {
            shared: Rc::new(alloc, listed)?,
        })
    }

    /// The bytes of their names and metadata; `u64::MAX` for all above. It costs constant time.
    pub(crate) fn bytes(&self) -> u64
        ensures { result ≡ counted (protocol_bytes self.now) }
    {
        self.shared.as_ref().bytes()
    }

    /// Whether the protocol of that name is among these.
    pub(crate) fn lists(&self, name: &[u8]) -> bool
        ensures { result ≡ lists self.now name.now }
    {
        self.shared.as_ref().find(name).is_some()
    }

    /// The first metadata under that name; empty if there is none.
    pub(crate) fn metadata_slice(&self, name: &[u8]) -> &[u8]
        ensures { result.now ≡ metadata self.now name.now }
    {
        match self.shared.as_ref().find(name) {
            Some(protocol) => protocol.metadata.as_slice(),
            None => &[],
        }
    }

    /// A copy of the first metadata under that name; empty if there is none.
    pub(crate) fn metadata(&self, alloc: Global, name: &[u8]) -> Result<Bytes, AllocError>
        ensures { IfOk result (λ b. b ≡ metadata self.now name.now) }
    {
        match self.shared.as_ref().find(name) {
            Some(protocol) => Bytes::copy_of(alloc, protocol.metadata.as_slice()),
            None => Ok(Bytes::new(alloc)),
        }
    }
}
