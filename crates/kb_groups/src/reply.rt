//! What the requests to a group are answered.

ghost use Rattle.std.specs.Prelude.{◌≡◌, []};

use crate::bytes::Bytes;
use crate::code::Code;
use std::alloc::Global;
use std::marker::Model;

/// A member in the leader's list.
#[derive(Drop)]
pub struct Listed {
    pub member: u64,
    pub metadata: Bytes,
}

/// The members as the leader gets them, in joining order; none for the others.
#[derive(Drop)]
pub struct Listing {
    pub(crate) items: Vec<Listed>,
}

impl Model for Listing {
    ghost use Rattle.std.specs.Prelude.{List};
    ghost use Rattle.kb_groups.specs.declared.reply.Listed.{Listed};

    ghost Value = { List Listed };

    ghost view = { λ b. b.items.items };
}

impl Listing {
    /// No members.
    pub(crate) fn new(alloc: Global) -> Listing
        ensures { result ≡ [] }
    {
        Listing {
            items: Vec::new(alloc),
        }
    }

    pub fn as_slice(&self) -> &[Listed]
        ensures { result.now ≡ self.now }
    {
        self.items.as_slice()
    }
}

/// The reply to a join that was accepted.
#[derive(Drop)]
pub struct Joined {
    pub generation: i32,
    pub protocol: Bytes,
    pub leader: u64,
    pub member: u64,
    pub members: Listing,
}

/// A reply to a request that waited.
#[derive(Drop)]
pub enum Reply {
    Joined(Joined),
    /// With the member that the join named, if any.
    JoinRefused(Code, Option<u64>),
    /// With the member's assignment.
    Synced(Bytes),
    SyncRefused(Code),
}

/// The reply to the request that waits on a connection.
#[derive(Drop)]
pub struct Release {
    pub connection: u64,
    pub reply: Reply,
}

/// What a sync's own request gets.
#[derive(Drop)]
pub enum SyncAnswer {
    Refused(Code),
    /// The member's assignment.
    Got(Bytes),
    Waits,
}
