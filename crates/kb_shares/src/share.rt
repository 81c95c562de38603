//! A holder's share, and what it holds.
ghost use Rattle.std.specs.Prelude.{◌≡◌};
ghost use Rattle.kb_shares.specs.Holder.{above, idle};

/// What a holder may hold of a total.
#[derive(Clone, Copy, Debug, PartialEq, Eq)]
pub struct Share {
    /// The part that is kept free for it.
    pub own: u64,
    /// The most that it may hold, which is no less than its own part.
    pub most: u64,
}

/// One that holds some of a total.
#[derive(Clone, Copy, Debug)]
pub struct Holder {
    pub(crate) share: Share,
    pub(crate) used: u64,
}

impl Holder {
    /// One that holds nothing yet.
    pub(crate) fn idle(share: Share) -> Self
        ensures { result ≡ idle share }
    {
        Holder { share, used: 0 }
    }

    /// What it holds above its own part.
    pub(crate) fn above(&self) -> u64
        ensures { result ≡ above self.now }
    {
        self.used.saturating_sub(self.share.own)
    }
}
