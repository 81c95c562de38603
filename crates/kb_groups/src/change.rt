//! What calls do to a member in its place.

ghost use Rattle.std.specs.Prelude.{◌≡◌, ℕ};
ghost use Rattle.kb_groups.specs.declared.member.Member.{Member};
ghost use Rattle.kb_groups.specs.Calls.{started, hung_up, sync_waiting};
ghost use Rattle.kb_groups.specs.Rebalance.{freed, sync_freed};

use crate::member::{Asked, Member, Waiter};

/// A change that takes no memory.
pub(crate) trait Change {
    ghost changed: { Self → ℕ → Member → Member };

    fn apply(&self, number: u64, member: &mut Member)
        ensures { member.new ≡ changed self.now number member.old };
}

/// Starts the session.
#[derive(Drop)]
pub(crate) struct Start {
    pub clock: u64,
}

impl Change for Start {
    ghost changed = { λ s n m. started s.clock m };

    fn apply(&self, _number: u64, member: &mut Member) {
        member.session_start = self.clock;
    }
}

/// Frees the member of its wait.
#[derive(Drop)]
pub(crate) struct Free {
    pub clock: u64,
}

impl Change for Free {
    ghost changed = { λ s n m. freed s.clock m };

    fn apply(&self, _number: u64, member: &mut Member) {
        member.waiter = None;
        member.session_start = self.clock;
    }
}

/// Drops the wait of a connection.
#[derive(Drop)]
pub(crate) struct HangUp {
    pub connection: u64,
    pub clock: u64,
}

impl Change for HangUp {
    ghost changed = { λ s n m. hung_up s.clock s.connection m };

    fn apply(&self, _number: u64, member: &mut Member) {
        if let Some(waiter) = member.waiter {
            if waiter.connection == self.connection {
                member.waiter = None;
                member.session_start = self.clock;
            }
        }
    }
}

/// Drops a waiting sync.
#[derive(Drop)]
pub(crate) struct FreeSync {
    pub clock: u64,
}

impl Change for FreeSync {
    ghost changed = { λ s n m. sync_freed s.clock m };

    fn apply(&self, _number: u64, member: &mut Member) {
        if let Some(waiter) = member.waiter {
            if let Asked::Sync = waiter.asked {
                member.waiter = None;
                member.session_start = self.clock;
            }
        }
    }
}

/// A sync waits.
#[derive(Drop)]
pub(crate) struct WaitSync {
    pub connection: u64,
}

impl Change for WaitSync {
    ghost changed = { λ s n m. sync_waiting s.connection m };

    fn apply(&self, _number: u64, member: &mut Member) {
        member.waiter = Some(Waiter {
            connection: self.connection,
            asked: Asked::Sync,
        });
    }
}
