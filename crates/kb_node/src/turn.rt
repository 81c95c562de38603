//! What a turn of the edge came to.

ghost use Rattle.std.specs.Prelude.{◌≡◌, ◌↔◌, ◌+◌, ◌-◌, ◌^◌, min, IsTrue};

/// What a turn did.
#[derive(Clone, Copy, Debug, Default, PartialEq, Eq)]
pub struct Turn {
    /// The sockets that were accepted, also those that were closed at once.
    pub accepted: u64,
    /// The bytes that were read.
    pub read: u64,
    /// The bytes that were written.
    pub written: u64,
    /// The sockets that were closed.
    pub closed: u64,
    /// Those of the accepted ones that were closed at once, since as many were open as may be.
    pub turned_away: u64,
    /// The logins that failed.
    pub denied: u64,
    /// Those of the closed ones that had not logged in: not in time, not before others came and as many were open as may be, or with a
    /// request that is too long for that.
    pub strangers: u64,
    /// Those of the closed ones that took nothing of their replies.
    pub unread: u64,
    /// Those of the closed ones that were idle.
    pub idle: u64,
    /// Those of the closed ones whose request was not whole in time.
    pub slow: u64,
    /// Those of the closed ones that logged in for a tenant that has no room for one more.
    pub over_limit: u64,
}

impl Turn {
    /// Whether nothing happened.
    pub fn is_idle(&self) -> bool
        ensures { IsTrue result ↔ (self.now ≡ record {
          accepted = 0;
          read = 0;
          written = 0;
          closed = 0;
          turned_away = 0;
          denied = 0;
          strangers = 0;
          unread = 0;
          idle = 0;
          slow = 0;
          over_limit = 0;
        }) }
    {
        *self == Turn::default()
    }

    /// One more socket was accepted.
    pub(crate) fn count_accepted(&mut self)
        ensures { self.new ≡ record self.old { accepted = min (self.old.accepted + 1) (2 ^ 64 - 1) } }
    {
        self.accepted = self.accepted.saturating_add(1);
    }

    /// More bytes were read.
    pub(crate) fn count_read(&mut self, bytes: usize)
        ensures { self.new ≡ record self.old { read = min (self.old.read + bytes) (2 ^ 64 - 1) } }
    {
        self.read = self.read.saturating_add(bytes as u64);
    }

    /// More bytes were written.
    pub(crate) fn count_written(&mut self, bytes: usize)
        ensures { self.new ≡ record self.old { written = min (self.old.written + bytes) (2 ^ 64 - 1) } }
    {
        self.written = self.written.saturating_add(bytes as u64);
    }

    /// One more socket was closed.
    pub(crate) fn count_closed(&mut self)
        ensures { self.new ≡ record self.old { closed = min (self.old.closed + 1) (2 ^ 64 - 1) } }
    {
        self.closed = self.closed.saturating_add(1);
    }

    /// One more socket was turned away.
    pub(crate) fn count_turned_away(&mut self)
        ensures { self.new ≡ record self.old { turned_away = min (self.old.turned_away + 1) (2 ^ 64 - 1) } }
    {
        self.turned_away = self.turned_away.saturating_add(1);
    }

    /// One more login failed.
    pub(crate) fn count_denied(&mut self)
        ensures { self.new ≡ record self.old { denied = min (self.old.denied + 1) (2 ^ 64 - 1) } }
    {
        self.denied = self.denied.saturating_add(1);
    }

    /// One more socket was closed that had not logged in.
    pub(crate) fn count_stranger(&mut self)
        ensures { self.new ≡ record self.old { strangers = min (self.old.strangers + 1) (2 ^ 64 - 1) } }
    {
        self.strangers = self.strangers.saturating_add(1);
    }

    /// One more socket was closed that took nothing of its reply.
    pub(crate) fn count_unread(&mut self)
        ensures { self.new ≡ record self.old { unread = min (self.old.unread + 1) (2 ^ 64 - 1) } }
    {
        self.unread = self.unread.saturating_add(1);
    }

    /// One more socket was closed that was idle.
    pub(crate) fn count_idle(&mut self)
        ensures { self.new ≡ record self.old { idle = min (self.old.idle + 1) (2 ^ 64 - 1) } }
    {
        self.idle = self.idle.saturating_add(1);
    }

    /// One more socket was closed whose request was not whole in time.
    pub(crate) fn count_slow(&mut self)
        ensures { self.new ≡ record self.old { slow = min (self.old.slow + 1) (2 ^ 64 - 1) } }
    {
        self.slow = self.slow.saturating_add(1);
    }

    /// One more socket was closed whose tenant has no room for it.
    pub(crate) fn count_over_limit(&mut self)
        ensures { self.new ≡ record self.old { over_limit = min (self.old.over_limit + 1) (2 ^ 64 - 1) } }
    {
        self.over_limit = self.over_limit.saturating_add(1);
    }
}
