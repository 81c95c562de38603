//! Entries of a reply, counted one after the other.

ghost use Rattle.std.specs.Prelude.{◌≡◌};
ghost use Rattle.kb_over_limit.specs.Tally.{fresh, noted};

use kb_wire::ErrorCode;

/// How many entries, one after the other, say that they are past a limit. No number goes past its end.
#[derive(Clone, Copy)]
pub(crate) struct Tally {
    /// How many more may be taken in. Each that is takes one.
    pub room: u64,
    /// Those that were past a limit where no room was left.
    pub full: u64,
    /// Those that were past a limit where room was left.
    pub beside: u64,
}

impl Tally {
    /// None yet, where there is so much room.
    pub(crate) fn fresh(room: u64) -> Tally
        ensures { result ≡ fresh room }
    {
        Tally {
            room,
            full: 0,
            beside: 0,
        }
    }

    /// One more entry, with that code.
    pub(crate) fn note(&mut self, code: &i16)
        ensures { self.new ≡ noted code.now self.old }
    {
        let code = *code;
        if code == ErrorCode::PolicyViolation.code() {
            if self.room == 0 {
                self.full = self.full.saturating_add(1);
            } else {
                self.beside = self.beside.saturating_add(1);
            }
        } else if code == 0 {
            self.room = self.room.saturating_sub(1);
        }
    }
}
