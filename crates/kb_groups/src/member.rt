//! A member of a group.

ghost use Rattle.std.specs.Prelude.{◌≡◌};
ghost use Rattle.kb_groups.specs.Answers.{waits_join};

use crate::bytes::SharedBytes;
use crate::protocol::Protocols;
use std::alloc::AllocError;

/// A request that waits.
#[derive(Clone, Copy)]
pub enum Asked {
    /// A join that named no member.
    FirstJoin,
    /// A join that named its member.
    Rejoin,
    Sync,
}

/// A member's waiting request.
#[derive(Clone, Copy)]
pub struct Waiter {
    pub connection: u64,
    pub asked: Asked,
}

/// A member of a group. Times are in milliseconds.
#[derive(Drop)]
pub struct Member {
    pub protocols: Protocols,
    pub session_timeout: u32,
    pub rebalance_timeout: u32,
    pub assignment: SharedBytes,
    pub waiter: Option<Waiter>,
    /// When its session started, which counts while no request of it waits.
    pub session_start: u64,
}

impl Clone for Member {
    ghost is_clone = { λ m copy. copy ≡ m };

    fn clone(&self) -> Result<Member, AllocError> {
        Ok(Member {
            protocols: self.protocols.clone()?,
            session_timeout: self.session_timeout,
            rebalance_timeout: self.rebalance_timeout,
            assignment: self.assignment.clone()?,
            waiter: self.waiter,
            session_start: self.session_start,
        })
    }
}

impl Member {
    /// Whether a join of it waits.
    pub(crate) fn waits_join(&self) -> bool
        ensures { result ≡ waits_join self.now.waiter }
    {
        match self.waiter {
            Some(waiter) => match waiter.asked {
                Asked::FirstJoin | Asked::Rejoin => true,
                Asked::Sync => false,
            },
            None => false,
        }
    }
}
