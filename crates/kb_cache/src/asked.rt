//! Which files are asked for.
ghost use Rattle.std.specs.Prelude.{◌≡◌, [], true, false};
ghost use Rattle.std.specs.BTreeMap.{is_at};
ghost use Rattle.std.specs.List.{list_any};
ghost use Rattle.std.specs.Ordering.{nat_cmp};
ghost use Rattle.std.specs.Set.{remove_key};
ghost use Rattle.kb_cache.specs.Asked.{MayNote};

use std::alloc::Global;
use std::collections::BTreeSet;

/// The files that were read since something was appended to any file.
///
/// What is read before, as at an opening, tells nothing of what is asked for later. To note a file, to look for it and to forget it takes
/// a time logarithmic in how many are noted.
#[derive(Drop)]
pub(crate) struct Asked {
    files: BTreeSet<u64>,
    writes: bool,
}

impl Asked {
    /// Nothing was appended, and no file is noted. It takes no memory.
    pub(crate) fn new(alloc: Global) -> Self
        ensures files { result.files.keys ≡ [] }
        ensures writes { result.writes ≡ false }
    {
        Asked {
            files: BTreeSet::new(alloc),
            writes: false,
        }
    }

    /// Whether a file is noted.
    pub(crate) fn has(&self, file: u64) -> bool
        ensures { result ≡ list_any (is_at (nat_cmp file)) self.now.files.keys }
    {
        self.files.contains(&file)
    }

    /// Notes that something is appended.
    pub(crate) fn note_append(&mut self)
        ensures files { self.new.files.keys ≡ self.old.files.keys }
        ensures writes { self.new.writes ≡ true }
    {
        self.writes = true;
    }

    /// Notes a file as read, where something was appended before and memory lets it.
    pub(crate) fn note_read(&mut self, file: u64)
        ensures noted { MayNote self.old.writes self.old.files.keys file self.new.files.keys }
        ensures writes { self.new.writes ≡ self.old.writes }
    {
        if self.writes {
            let _ = self.files.insert(file);
        }
    }

    /// Forgets a file, which is to be removed.
    pub(crate) fn forget(&mut self, file: u64)
        ensures files { self.new.files.keys ≡ remove_key (is_at (nat_cmp file)) self.old.files.keys }
        ensures writes { self.new.writes ≡ self.old.writes }
    {
        self.files.remove(&file);
    }
}
