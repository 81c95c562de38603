//! How many bytes a group keeps.

ghost use Rattle.std.specs.Prelude.{◌≡◌, length, map};
ghost use Rattle.kb_groups.specs.Bytes.{brought_bytes, group_bytes, had_bytes, member_bytes, replaced_bytes};
ghost use Rattle.kb_groups.specs.Sizes.{counted, protocol_bytes};
ghost use Rattle.kb_groups.specs.Bytes.{roster_bytes};
ghost use Rattle.kb_groups.specs.Calls.{kept};
ghost use Rattle.kb_groups.specs.MemberId.{member_id};
ghost use Rattle.kb_groups.specs.Members.{member};

use crate::borrowed::{Join, JoinProtocol};
use crate::member::Member;
use crate::members::Members;
use crate::state::State;
use itoa::Buffer;

/// The length of the id of the member of that number.
fn id_len(number: u64) -> u64
    ensures { result ≡ length (member_id number) }
{
    let mut buffer = Buffer::new();
    let digits = buffer.format(number);
    2 + digits.len() as u64
}

/// The names and metadata of the protocols that a join lists.
pub(crate) fn protocol_bytes(offers: &[JoinProtocol<'_>]) -> u64
    ensures { result ≡ counted (protocol_bytes (map kept offers.now)) }
{
    let mut bytes: u64 = 0;
    for offer in offers {
        let name = offer.name.as_str().len() as u64;
        let metadata = offer.metadata.as_slice().len() as u64;
        bytes = bytes.saturating_add(name).saturating_add(metadata);
    }
    bytes
}

impl<'a> Join<'a> {
    /// What it brings: its protocol type, the member's id, and the protocols' names and metadata; `u64::MAX` for all above.
    pub fn bytes(&self) -> u64
        ensures { result ≡ counted (brought_bytes self.now) }
    {
        let kept = protocol_bytes(self.protocols).saturating_add(id_len(self.number()));
        kept.saturating_add(self.protocol_type.as_str().len() as u64)
    }
}

impl Member {
    /// What the group keeps for it under that number; `u64::MAX` for all above.
    fn bytes(&self, number: u64) -> u64
        ensures { result ≡ counted (member_bytes number self.now) }
    {
        let kept = self.protocols.bytes().saturating_add(id_len(number));
        kept.saturating_add(self.assignment.as_slice().len() as u64)
    }
}

impl Members {
    /// What the group keeps for that member, 0 for a stranger; `u64::MAX` for all above.
    fn bytes_of(&self, number: u64) -> u64
        ensures { result ≡ counted (had_bytes number (member self.now number)) }
    {
        match self.find(number) {
            Some(member) => member.bytes(number),
            None => 0,
        }
    }

    /// What the group keeps for its members; `u64::MAX` for all above.
    fn bytes(&self) -> u64
        ensures { result ≡ counted (roster_bytes self.now) }
    {
        let mut bytes: u64 = 0;
        for i in 0..self.map.len() {
            if let Some((number, member)) = self.map.get_index(i) {
                bytes = bytes.saturating_add(member.bytes(*number));
            }
        }
        bytes
    }
}

impl State {
    /// What the group keeps; `u64::MAX` for all above.
    pub(crate) fn bytes(&self) -> u64
        ensures { result ≡ counted (group_bytes self.now) }
    {
        let members = self.members.bytes();
        members.saturating_add(self.protocol_type.as_slice().len() as u64)
    }

    /// What gives way to a join; `u64::MAX` for all above.
    pub(crate) fn replaced_bytes(&self, request: &Join<'_>) -> u64
        ensures { result ≡ counted (replaced_bytes request.now self.now) }
    {
        let member = self.members.bytes_of(request.number());
        member.saturating_add(self.protocol_type.as_slice().len() as u64)
    }
}
