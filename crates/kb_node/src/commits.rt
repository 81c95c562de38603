//! When what was done is made to last, and whether replies may go out.

ghost use Rattle.std.specs.Prelude.{◌≡◌, true, false, None, Some};
ghost use Rattle.kb_node.specs.Commits.{holds_back, is_due, next_commit};

use kb_settings::Sync;
use kb_store::StoreFault;

/// What is known of a broker's commits.
#[derive(Clone, Copy, Debug, PartialEq, Eq)]
pub struct Commits {
    sync: Sync,
    /// With [`Sync::Interval`], after how many milliseconds.
    millis: u64,
    /// The moment of the last commit, 0 before the first.
    last: u64,
    /// Whether it is known that all that was done lasts.
    is_committed: bool,
    /// Why a commit was refused: nothing more may be told then.
    fault: Option<StoreFault>,
}

impl Commits {
    /// None so far.
    pub fn new(sync: Sync, millis: u32) -> Commits
        ensures { result ≡ record { sync = sync; millis = millis; last = 0; is_committed = false; fault = None } }
    {
        Commits {
            sync,
            millis: u64::from(millis),
            last: 0,
            is_committed: false,
            fault: None,
        }
    }

    /// Something was handed on, after which it is known that all lasts, or it is not.
    pub fn note(&mut self, is_committed: bool)
        ensures { self.new ≡ record self.old { is_committed = is_committed } }
    {
        self.is_committed = is_committed;
    }

    /// A commit was answered.
    pub fn note_commit(&mut self, now: u64)
        ensures { self.new ≡ record self.old { last = now; is_committed = true } }
    {
        self.last = now;
        self.is_committed = true;
    }

    /// A commit was refused.
    pub fn note_refusal(&mut self, fault: StoreFault)
        ensures { self.new ≡ record self.old { is_committed = false; fault = Some fault } }
    {
        self.is_committed = false;
        self.fault = Some(fault);
    }

    /// Why a commit was refused, where one was.
    pub fn fault(&self) -> Option<StoreFault>
        ensures { result ≡ self.now.fault }
    {
        self.fault
    }

    /// The moment of the last commit, 0 before the first.
    pub fn last(&self) -> u64
        ensures { result ≡ self.now.last }
    {
        self.last
    }

    /// Whether it is known that all that was done lasts.
    pub fn is_committed(&self) -> bool
        ensures { result ≡ self.now.is_committed }
    {
        self.is_committed
    }

    /// Whether replies wait for a commit.
    pub fn holds_back(&self) -> bool
        ensures { result ≡ holds_back self.now.sync }
    {
        match self.sync {
            Sync::Always => true,
            Sync::Interval => false,
            Sync::Never => false,
        }
    }

    /// The moment of the next commit: the greatest number where none is to come.
    pub fn next_commit(&self) -> u64
        ensures { result ≡ next_commit self.now }
    {
        match self.sync {
            Sync::Interval if !self.is_committed => self.last.saturating_add(self.millis),
            _ => u64::MAX,
        }
    }

    /// Whether a commit is to come at that moment.
    pub fn is_due(&self, now: u64) -> bool
        ensures { result ≡ is_due now self.now }
    {
        match self.sync {
            Sync::Interval => !self.is_committed && self.last.saturating_add(self.millis) <= now,
            _ => false,
        }
    }
}
