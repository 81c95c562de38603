//! What a broker counts of what it refuses.

ghost use Rattle.std.specs.Prelude.{◌≡◌};
ghost use Rattle.kb_operator.specs.Refused.{BrokerCounts};

/// How many requests of a tenant were refused.
#[derive(Clone, Copy, Debug, PartialEq, Eq)]
pub struct TenantRefusals {
    pub all: u64,
    /// How many of those the store refused. The others were refused for want of memory.
    pub by_disk: u64,
}

/// How a tenant waits for those that read its replies.
#[derive(Clone, Copy, Debug, PartialEq, Eq)]
pub struct Unread {
    /// How often a socket of it was not asked, since too many bytes of its replies were not read.
    pub waits: u64,
    /// How many bytes these were the last time.
    pub bytes: u64,
}

/// What a broker counts of what it refuses. Tenants are named by their places in the order of their names.
pub trait RefusalCounts {
    /// What it counts.
    ghost counts: { Self → BrokerCounts };

    /// Whether it refused nothing yet.
    fn is_calm(&self) -> bool
        ensures { result ≡ (counts self.now).calm };

    /// How many requests of the tenant at a place it refused.
    fn of_tenant(&self, place: usize) -> TenantRefusals
        ensures { result ≡ (counts self.now).refused place };

    /// How many sockets it closed since the tenant at a place may have no more.
    fn sockets_of_tenant(&self, place: usize) -> u64
        ensures { result ≡ (counts self.now).closed place };

    /// How the tenant at a place waits for those that read its replies.
    fn unread_of_tenant(&self, place: usize) -> Unread
        ensures { result ≡ (counts self.now).unread place };

    /// How many requests it refused before a login.
    fn before_login(&self) -> u64
        ensures { result ≡ (counts self.now).unbound };

    /// How many calls its store refused.
    fn of_disk(&self) -> u64
        ensures { result ≡ (counts self.now).disk };
}
