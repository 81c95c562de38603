//! A producer's last batches.
ghost use Rattle.std.specs.Prelude.{◌≡◌, ◌≤◌, ◌<◌, ◌∷◌, ◌++◌, ◌+◌, []};

use crate::kept::Kept;

/// The last batches of a producer, at most five, the newest first.
#[derive(Clone, Copy)]
pub struct Recent {
    pub batches: [Kept; 5],
    pub len: usize,
    ghost bounded: { len ≤ 5 },
}

impl Recent {
    ghost use Rattle.kb_producers.specs.Recent.{recent_of};

    /// No batch; the given one only fills the places.
    pub fn none(filler: Kept) -> Recent
        ensures none { recent_of result ≡ [] }
        ensures len { result.len ≡ 0 }
    {
        Recent {
            batches: [filler; 5],
            len: 0,
        }
    }

    /// With one more, which is older.
    pub fn with_older(self, batch: Kept) -> Recent
        requires { self.len < 5 }
        ensures added { recent_of result ≡ recent_of self ++ batch ∷ [] }
        ensures len { result.len ≡ self.len + 1 }
    {
        let mut batches = self.batches;
        batches[self.len] = batch;
        Recent {
            batches,
            len: self.len + 1,
        }
    }

    /// The newest first.
    pub fn as_slice(&self) -> &[Kept]
        ensures { result.now ≡ recent_of self.now }
    {
        &self.batches[..self.len]
    }
}
