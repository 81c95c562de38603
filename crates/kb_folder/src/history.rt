//! What the system answered of a folder's files so far.

ghost use Rattle.std.specs.Prelude.{◌≡◌, List, [], ◌∷◌};
ghost use Rattle.std.specs.Borrow.{ftrue};
ghost use Rattle.std.specs.FinMap as map;
ghost use Rattle.std.specs.Coded.{coded_ℕ, coded_list};
ghost use Rattle.kb_store.specs.Disk.{Files};
ghost use Rattle.kb_folder.specs.History.{Answer};

mod calls;

pub(crate) use calls::{Handle, names_in};
use std::marker::{Model, PhantomData};

/// What a folder held when it was opened, which nobody knows, and all that the system answered since. Clauses alone read it.
#[derive(Drop)]
pub(crate) struct History {
    marker: PhantomData<u8>,
    pub ghost start: { Files } by { map.code coded_ℕ (coded_list coded_ℕ) },
    pub ghost answers: { List Answer },
}

impl Model for History {
    ghost also_owns = { λ _. ftrue };
}

impl History {
    /// Nothing was asked yet.
    pub(crate) fn new() -> History
        ensures { result.answers ≡ [] }
    {
        History {
            marker: PhantomData,
        }
    }

    /// Notes an answer: numbers, of which the first says what was asked, and bytes. The calls of the system do, and nothing else can.
    fn note(&mut self, _numbers: &[u64], _bytes: &[u8])
        ensures { self.new ≡ record self.old { answers = (_numbers.now, _bytes.now) ∷ self.old.answers } }
    {}
}
