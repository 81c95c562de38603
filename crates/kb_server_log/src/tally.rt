//! What is new in a count.

ghost use Rattle.std.specs.Prelude.{◌≡◌, ◌-◌};

/// How much of a count has been told.
#[derive(Clone, Copy, Debug, Default, PartialEq, Eq)]
pub struct Tally {
    /// The count when it was told last.
    pub told: u64,
}

impl Tally {
    /// By how much a count is above what was told: it is told now.
    pub fn grown(&mut self, count: u64) -> u64
        ensures grown { result ≡ count - self.old.told }
        ensures told { self.new.told ≡ count }
    {
        let grown = count.saturating_sub(self.told);
        self.told = count;
        grown
    }
}
