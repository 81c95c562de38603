//! How tenants wait for those that read their replies.

ghost use Rattle.std.specs.Prelude.{◌≡◌};
ghost use Rattle.kb_node.specs.ReaderWaits.{waited};

/// What was counted of a tenant where a socket of it was not asked, since too many bytes of its replies were not read.
#[derive(Clone, Copy, Debug, Default, PartialEq, Eq)]
pub struct ReaderWaits {
    /// How often that was, in turns and sockets. It stays once it is the greatest number.
    pub times: u64,
    /// How many bytes were not read the last time, or kept free for replies.
    pub bytes: u64,
}

impl ReaderWaits {
    /// Nothing was counted.
    pub fn none() -> ReaderWaits
        ensures { result ≡ record { times = 0; bytes = 0 } }
    {
        ReaderWaits { times: 0, bytes: 0 }
    }

    /// A socket was not asked since so many bytes were not read.
    pub(crate) fn count(&mut self, bytes: u64)
        ensures { self.new ≡ waited bytes self.old }
    {
        self.times = self.times.saturating_add(1);
        self.bytes = bytes;
    }
}
