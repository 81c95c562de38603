//! Lines that are at least a second apart.

ghost use Rattle.std.specs.Prelude.{◌≡◌, ◌≤◌, ◌+◌, leb, if◌then◌else◌};
ghost use Rattle.kb_wire.specs.declared.clock.TheConstants.{MAX_CLOCK};

/// How far lines are apart, in milliseconds.
const SECOND: u64 = 1000;

/// When the next line may be written.
#[derive(Clone, Copy, Debug, Default, PartialEq, Eq)]
pub struct Pace {
    /// The first moment at which it may.
    pub next: u64,
}

impl Pace {
    /// Whether a line may be written at a moment, at most 2^62: then the next one may a second later.
    pub fn is_due(&mut self, now: u64) -> bool
        requires { now ≤ MAX_CLOCK }
        ensures due { result ≡ leb self.old.next now }
        ensures next { self.new.next ≡ (if result then now + 1000 else self.old.next) }
    {
        let is_due = self.next <= now;
        if is_due {
            self.next = now + SECOND;
        }
        is_due
    }
}
