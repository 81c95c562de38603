//! Groups by their ids.
ghost use Rattle.std.specs.Prelude.{◌≡◌};
ghost use Rattle.kb_coordinator.specs.Groups.{AreSorted, first_above, place_of};

use kb_groups::{Bytes, Group};

/// A group under its id.
#[derive(Drop)]
pub struct Entry {
    pub id: Bytes,
    pub group: Group,
}

/// The place of the group of that id, by halving.
pub(crate) fn place_of(groups: &[Entry], id: &[u8]) -> Option<usize>
    requires { AreSorted groups.now }
    ensures { result ≡ place_of id.now groups.now }
{
    let above = first_above(groups, id);
    if above == 0 {
        return None;
    }
    let place = above - 1;
    let entry = groups.get(place)?;
    if entry.id.as_slice() == id {
        Some(place)
    } else {
        None
    }
}

/// The place of the first group whose id is above that one, in byte order, by halving.
pub(crate) fn first_above(groups: &[Entry], id: &[u8]) -> usize
    requires { AreSorted groups.now }
    ensures { result ≡ first_above id.now groups.now }
{
    groups.partition_point(|entry| entry.id.as_slice().cmp(id).is_le())
}
