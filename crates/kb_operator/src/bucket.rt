//! Lines of one kind of which only so many are told in a second.

ghost use Rattle.std.specs.Prelude.{◌≡◌};
ghost use Rattle.kb_operator.specs.Bucket.{at_second, due_at, has_room, told_of, with_line, with_more};

/// How many lines of a kind are told in a second at most.
const MOST: u64 = 16;

/// How many lines of a kind were told in a second, and how many were passed over.
#[derive(Clone, Copy, Debug, Default, PartialEq, Eq)]
pub(crate) struct Bucket {
    /// The second of the line that came last.
    pub(crate) second: u64,
    /// How many lines were told in it, at most 16.
    pub(crate) told: u64,
    /// How many were passed over, in it and before, and not told of yet.
    pub(crate) more: u64,
}

impl Bucket {
    /// Whether a line of a second is told, as the first 16 of each are. Else it is passed over, and counted.
    pub(crate) fn takes(&mut self, second: u64) -> bool
        ensures takes { result ≡ has_room (at_second second self.old) }
        ensures bucket { self.new ≡ with_line (at_second second self.old) }
    {
        if second != self.second {
            self.second = second;
            self.told = 0;
        }
        let takes = self.told < MOST;
        if takes {
            self.told += 1;
        } else {
            self.pass(1);
        }
        takes
    }

    /// So many lines were passed over before they came here.
    pub(crate) fn pass(&mut self, more: u64)
        ensures { self.new ≡ with_more more self.old }
    {
        self.more = self.more.saturating_add(more);
    }

    /// How many lines that were passed over are to be told of in a second: all, once their own is over. They are told of then.
    pub(crate) fn due(&mut self, second: u64) -> u64
        ensures due { result ≡ due_at second self.old }
        ensures bucket { self.new ≡ told_of second self.old }
    {
        if second == self.second {
            return 0;
        }
        let more = self.more;
        self.more = 0;
        more
    }
}
