//! What requests give, borrowed from their frames.

use kb_wire::{Blob, Text};

/// A protocol, in a request of JoinGroup.
#[derive(Drop)]
pub struct JoinProtocol<'a> {
    pub name: Text<'a>,
    pub metadata: Blob<'a>,
}

/// A request of JoinGroup, and what the tenant knows about it.
#[derive(Drop)]
pub struct Join<'a> {
    /// The connection that asks.
    pub connection: u64,
    /// The number of the member that it names; `None` at a first join.
    pub member: Option<u64>,
    /// The number of the next new member, which a first join takes.
    pub new_member: u64,
    /// In milliseconds.
    pub session_timeout: i32,
    /// In milliseconds; below 0 counts as 0.
    pub rebalance_timeout: i32,
    pub protocol_type: Text<'a>,
    pub protocols: &'a [JoinProtocol<'a>],
}

/// An assignment, in a request of SyncGroup.
#[derive(Drop)]
pub struct SyncAssignment<'a> {
    pub member_id: Text<'a>,
    pub assignment: Blob<'a>,
}
