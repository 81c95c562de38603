//! What an opening leaves of files.

ghost use Rattle.std.specs.Prelude.{◌≡◌};
ghost use Rattle.kb_start.specs.Left.{any_dropped, is_dropped, total_of, with_file};

/// A file before and after an opening.
#[derive(Clone, Copy, Debug, PartialEq, Eq)]
pub struct Left {
    pub file: u64,
    /// How many bytes it had.
    pub before: u64,
    /// How many it has, if it is there.
    pub after: Option<u64>,
}

impl Left {
    /// Whether it is gone, or has another length.
    pub fn is_dropped(&self) -> bool
        ensures { result ≡ is_dropped self.now }
    {
        match self.after {
            Some(after) => after != self.before,
            None => true,
        }
    }
}

/// Whether one of some files is gone, or has another length.
pub(crate) fn any_dropped(files: &[Left]) -> bool
    ensures { result ≡ any_dropped files.now }
{
    for file in files {
        if file.is_dropped() {
            return true;
        }
    }
    false
}

/// How many files are there, and how many bytes they have together. More than each `u64` are told as the greatest.
#[derive(Clone, Copy, Debug, PartialEq, Eq)]
pub struct Total {
    pub files: u64,
    pub bytes: u64,
}

impl Total {
    /// Of some files those that are there.
    pub fn of(files: &[Left]) -> Total
        ensures { result ≡ total_of files.now }
    {
        let mut total = Total { files: 0, bytes: 0 };
        for file in files {
            total.add(file);
        }
        total
    }

    /// Adds a file, if it is there.
    fn add(&mut self, file: &Left)
        ensures { self.new ≡ with_file self.old file.now }
    {
        if let Some(bytes) = file.after {
            self.files = self.files.saturating_add(1);
            self.bytes = self.bytes.saturating_add(bytes);
        }
    }
}
