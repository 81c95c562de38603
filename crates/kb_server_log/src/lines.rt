//! Lines for a reader that may not read them.

ghost use Rattle.std.specs.Prelude.{◌≡◌, ℕ, Bool, List};
ghost use Rattle.kb_server_log.specs.Lines.{CatchesUp, TellsLine, one_more_missed};

/// Where lines go, if it takes them at once.
pub trait Sink {
    /// What an offered line comes to.
    ghost offers_line: { Self → List ℕ → Bool → Self → Type 0 };

    /// What an offered count of missed lines comes to.
    ghost offers_count: { Self → ℕ → Bool → Self → Type 0 };

    /// Offers a line, and says whether it was taken.
    fn offer_line(&mut self, line: &str) -> bool
        ensures { offers_line self.old line.now result self.new };

    /// Offers a line that says how many others were missed, and says whether it was taken.
    fn offer_count(&mut self, missed: u64) -> bool
        ensures { offers_count self.old missed result self.new };
}

/// How many lines were not taken, and are not told yet.
#[derive(Clone, Copy, Debug, Default, PartialEq, Eq)]
pub struct Missed {
    /// That many.
    pub lines: u64,
}

impl Missed {
    /// Tells a line. Behind lines that were missed, their count is told first. What is not taken is missed too.
    pub fn tell<S: Sink>(&mut self, sink: &mut S, line: &str)
        ensures { TellsLine S.offers_count S.offers_line line.now self.old.lines sink.old self.new.lines sink.new }
    {
        let is_taken = self.catch_up(sink) && sink.offer_line(line);
        if !is_taken {
            self.miss();
        }
    }

    /// A line is missed that was not offered.
    pub fn miss(&mut self)
        ensures { self.new.lines ≡ one_more_missed self.old.lines }
    {
        self.lines = self.lines.saturating_add(1);
    }

    /// Tells how many lines were missed, if any were, and says whether none are missed now.
    pub fn catch_up<S: Sink>(&mut self, sink: &mut S) -> bool
        ensures { CatchesUp S.offers_count self.old.lines sink.old result self.new.lines sink.new }
    {
        if self.lines == 0 {
            return true;
        }
        let is_taken = sink.offer_count(self.lines);
        if is_taken {
            self.lines = 0;
        }
        is_taken
    }
}
