//! Protocols with an index by name.

ghost use Rattle.std.specs.Prelude.{◌≡◌, ℕ, List, IfOk, OnOk, map, option_copied, bytes_eq, if◌then◌else◌};
ghost use Rattle.kb_groups.specs.Calls.{kept};
ghost use Rattle.kb_groups.specs.Index.{found, place_of, noted};
ghost use Rattle.kb_groups.specs.Sizes.{counted, protocol_bytes};

use crate::borrowed::JoinProtocol;
use crate::bytes::Bytes;
use crate::protocol::Protocol;
use crate::size::protocol_bytes;
use std::alloc::{AllocError, Global};
use std::collections::BTreeMap;
use std::marker::Model;

/// What an index of names is: the place of the first protocol of each name.
type Places = BTreeMap<Vec<u8>, usize>;

/// Protocols in their order, and where the first of each name stands, so that a name is found in logarithmic time.
#[derive(Drop)]
pub(crate) struct ListedProtocols {
    items: Vec<Protocol>,
    places: Places,
    /// The bytes of their names and metadata; `u64::MAX` for all above.
    bytes: u64,
}

impl Model for ListedProtocols {
    ghost use Rattle.std.specs.Prelude.{List};
    ghost use Rattle.kb_groups.specs.declared.protocol.Protocol.{Protocol};
    ghost use Rattle.std.specs.Prelude.{◌≡◌};
    ghost use Rattle.kb_groups.specs.Index.{IsIndex};
    ghost use Rattle.kb_groups.specs.Sizes.{counted, protocol_bytes};

    ghost Value = { List Protocol };

    ghost view = { λ l. l.items.items };

    ghost invariant = { λ l. IsIndex l.places l.items.items × (l.bytes ≡ counted (protocol_bytes l.items.items)) };
}

/// Notes the place of a name, unless the name has one.
fn note_place(
    alloc: Global,
    places: &mut Places,
    name: &[u8],
    place: usize,
) -> Result<(), AllocError>
    ensures { OnOk result ((q : List ℕ) → place_of places.new q
        ≡ (if bytes_eq name.now q then noted (place_of places.old q) place else place_of places.old q)) }
{
    if !places.contains_key(name) {
        places.insert(Vec::from_slice(alloc, name)?, place)?;
    }
    Ok(())
}

impl ListedProtocols {
    /// A copy of what a join lists.
    pub(crate) fn copy_of(
        alloc: Global,
        offers: &[JoinProtocol<'_>],
    ) -> Result<ListedProtocols, AllocError>
        ensures { IfOk result (λ r. r ≡ map kept offers.now) }
    {
        let mut items = Vec::new(alloc);
        let mut places = BTreeMap::new(alloc);
        for offer in offers {
            let name = offer.name.as_str().as_bytes();
            note_place(alloc, &mut places, name, items.len())?;
            items.push(Protocol {
                name: Bytes::copy_of(alloc, name)?,
                metadata: Bytes::copy_of(alloc, offer.metadata.as_slice())?,
            })?;
        }
        let bytes = protocol_bytes(offers);
        Ok(ListedProtocols {
            items,
            places,
            bytes,
        })
    }

    pub(crate) fn bytes(&self) -> u64
        ensures { result ≡ counted (protocol_bytes self.now) }
    {
        self.bytes
    }

    pub(crate) fn as_slice(&self) -> &[Protocol]
        ensures { result.now ≡ self.now }
    {
        self.items.as_slice()
    }

    /// The first protocol of that name.
    ///
    /// Most members put the group's protocol first, so it is looked at before the index.
    pub(crate) fn find(&self, name: &[u8]) -> Option<&Protocol>
        ensures { option_copied result ≡ found self.now name.now }
    {
        if let Some(first) = self.items.first() {
            if first.name.as_slice() == name {
                return Some(first);
            }
        }
        match self.places.get(name) {
            Some(place) => self.items.get(*place),
            None => None,
        }
    }
}
