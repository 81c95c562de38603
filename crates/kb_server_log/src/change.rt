//! How long ago the last change of a file was.

ghost use Rattle.std.specs.Prelude.{◌≡◌};
ghost use Rattle.kb_server_log.specs.Change.{change_at};

/// A day, in milliseconds.
const DAY: u64 = 86_400_000;

/// Where the last change of a file lies, seen from a clock.
#[derive(Clone, Copy, Debug, PartialEq, Eq)]
pub enum Change {
    /// The clock has not come to it.
    Ahead,
    /// At most a day ago.
    Recent,
    /// More than a day ago.
    Old,
}

impl Change {
    /// Where a change lies: both moments are in milliseconds since the beginning of 1970.
    pub fn at(now: u64, changed: u64) -> Change
        ensures { result ≡ change_at now changed }
    {
        if now < changed {
            Change::Ahead
        } else if now - changed > DAY {
            Change::Old
        } else {
            Change::Recent
        }
    }
}
