//! A group as tools see it.

ghost use Rattle.std.specs.Prelude.{◌≡◌, ◌↔◌, ◌<◌, IsSome, length, option_copied, option_map, slice_get};
ghost use Rattle.std.specs.Map.Iter.{deref_pair};
ghost use Rattle.kb_groups.specs.Described.{assignment_under, metadata_under, protocol_led, protocol_of, state_name};

use crate::member::Member;
use crate::members::Members;
use crate::state::{Phase, State};

impl Phase {
    /// Kafka's name of the state of a group.
    #[tactic(auto, unfolding(crate::specs::Described::state_name))]
    pub fn name(self) -> &'static str
        ensures { result.now ≡ state_name self }
    {
        match self {
            Phase::Empty => "Empty",
            Phase::Joining(_) => "PreparingRebalance",
            Phase::Syncing => "CompletingRebalance",
            Phase::Stable => "Stable",
        }
    }
}

impl Members {
    /// The member at a place in joining order, with its number.
    pub fn get(&self, place: usize) -> Option<(&u64, &Member)>
        ensures entry { option_map deref_pair result ≡ slice_get self.now place }
        ensures found { IsSome result ↔ (place < length self.now) }
    {
        self.map.get_index(place)
    }
}

impl Member {
    /// Its metadata under the protocol that its group tells; empty where it tells none.
    pub fn metadata_under(&self, protocol: Option<&[u8]>) -> &[u8]
        ensures { result.now ≡ metadata_under (option_copied protocol.entry) self.now }
    {
        match protocol {
            Some(name) => self.protocols.metadata_slice(name),
            None => &[],
        }
    }

    /// Its assignment, where its group tells a protocol; else empty.
    pub fn assignment_under(&self, protocol: Option<&[u8]>) -> &[u8]
        ensures { result.now ≡ assignment_under (option_copied protocol.entry) self.now }
    {
        match protocol {
            Some(_) => self.assignment.as_slice(),
            None => &[],
        }
    }
}

impl State {
    /// The protocol of the generation.
    fn protocol_led(&self) -> &[u8]
        ensures { result.now ≡ protocol_led self.now.leader self.now.members }
    {
        match self.leader {
            Some(leader) => self.members.chosen(leader),
            None => &[],
        }
    }

    /// The name of the group's protocol, while the group is Stable.
    pub fn protocol(&self) -> Option<&[u8]>
        ensures { option_copied result ≡ protocol_of self.now }
    {
        match self.phase {
            Phase::Stable => Some(self.protocol_led()),
            Phase::Empty | Phase::Joining(_) | Phase::Syncing => None,
        }
    }
}
