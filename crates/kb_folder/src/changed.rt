//! What of a folder has changed since it was made to last.

ghost use Rattle.std.specs.Prelude.{◌≡◌, ℕ, [], false, true, not, cond, None, slice_get, option_copied, IfOk, OnOk, OnErr};
ghost use Rattle.std.specs.BTreeMap.{is_at};
ghost use Rattle.std.specs.BTreeSet.{contains, insert_key, keys_between};
ghost use Rattle.std.specs.declared.ops.Bound.TheVariants.{Included, Unbounded};
ghost use Rattle.std.specs.Ordering.{nat_cmp};
ghost use Rattle.std.specs.Set.{remove_key};
ghost use Rattle.kb_folder.specs.Changed.{IsLasting, first_refused};

use crate::refusal::Refusal;
use std::alloc::{AllocError, Global};
use std::collections::BTreeSet;

/// Which files of a folder have changed since each was made to last, whether its names have, and the first sync that was refused.
///
/// To note a file and to forget it takes a time logarithmic in how many are noted.
#[derive(Drop)]
pub(crate) struct Changed {
    files: BTreeSet<u64>,
    names: bool,
    refused: Option<Refusal>,
}

impl Changed {
    /// Nothing has changed.
    pub(crate) fn new(alloc: Global) -> Self
        ensures { IsLasting result }
    {
        Changed {
            files: BTreeSet::new(alloc),
            names: false,
            refused: None,
        }
    }

    /// Notes a file as changed, and answers whether it was not before. A refusal changes nothing.
    pub(crate) fn note(&mut self, file: u64) -> Result<bool, AllocError>
        ensures noted { OnOk result (self.new.files.keys ≡ insert_key nat_cmp self.old.files.keys file) }
        ensures has { OnOk result ((q : ℕ) → contains nat_cmp self.new.files q
            ≡ cond (is_at (nat_cmp file) q) true (contains nat_cmp self.old.files q)) }
        ensures first { IfOk result (λ first. first ≡ not (contains nat_cmp self.old.files file)) }
        ensures refused { OnErr result (self.new.files.keys ≡ self.old.files.keys) }
        ensures names { self.new.names ≡ self.old.names }
        ensures before { self.new.refused ≡ self.old.refused }
    {
        match self.files.insert(file) {
            Ok(first) => Ok(first),
            Err(_) => Err(AllocError),
        }
    }

    /// Forgets a file, which lasts now or is gone.
    pub(crate) fn forget(&mut self, file: u64)
        ensures files { self.new.files.keys ≡ remove_key (is_at (nat_cmp file)) self.old.files.keys }
        ensures has { (q : ℕ) → contains nat_cmp self.new.files q
            ≡ cond (is_at (nat_cmp file) q) false (contains nat_cmp self.old.files q) }
        ensures names { self.new.names ≡ self.old.names }
        ensures before { self.new.refused ≡ self.old.refused }
    {
        self.files.remove(&file);
    }

    /// Whether a file is noted as changed.
    pub(crate) fn has(&self, file: u64) -> bool
        ensures { result ≡ contains nat_cmp self.now.files file }
    {
        self.files.contains(&file)
    }

    /// How many files are noted.
    pub(crate) fn len(&self) -> usize {
        self.files.len()
    }

    /// The least number of a file that is noted, from a number on.
    pub(crate) fn first_from(&self, least: u64) -> Option<u64>
        ensures { result ≡ slice_get (keys_between nat_cmp (Included least) Unbounded self.now.files) 0 }
    {
        self.files.range(least..).next().copied()
    }

    /// Notes that names have changed, or that they last.
    pub(crate) fn set_names(&mut self, changed: bool)
        ensures { self.new ≡ record self.old { names = changed } }
    {
        self.names = changed;
    }

    /// Whether names have changed.
    pub(crate) fn names(&self) -> bool
        ensures { result ≡ self.now.names }
    {
        self.names
    }

    /// Notes a sync that was refused. The first one stays.
    pub(crate) fn refuse(&mut self, refusal: Refusal)
        ensures { self.new ≡ record self.old { refused = first_refused self.old.refused refusal } }
    {
        if self.refused.is_none() {
            self.refused = Some(refusal);
        }
    }

    /// The first sync that was refused.
    pub(crate) fn refused(&self) -> Option<Refusal>
        ensures { result ≡ self.now.refused }
    {
        self.refused
    }

    /// Whether nothing has changed, and no sync was refused.
    pub(crate) fn all_lasts(&self) -> bool
        ensures lasts { result ≡ true → IsLasting self.now }
        ensures not { IsLasting self.now → result ≡ true }
    {
        self.files.is_empty() && !self.names && self.refused.is_none()
    }
}
