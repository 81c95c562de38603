//! Files with bytes of a refused append at their ends.
ghost use Rattle.std.specs.Prelude.{◌≡◌, ◌≢◌, ◌≤◌, ◌<◌, ◌++◌, ◌∷◌, ◌⊎◌, [], true, vec_len, vec_capacity};
ghost use Rattle.kb_store.specs.Disk.{IsThere, Keeps, len_of};
ghost use Rattle.kb_store.specs.Loss.{Goes, Same};
ghost use Rattle.std.specs.List.{filter};
ghost use Rattle.kb_durable.specs.Durable.{is_torn, stays_torn};

use kb_store::Store;

/// A file with bytes of a refused append behind its end.
#[derive(Clone, Copy)]
pub(crate) struct Torn {
    /// Its number.
    pub(crate) file: u64,
    /// Where its end was before.
    pub(crate) len: u64,
}

/// Whether a file is among them.
pub(crate) fn is_torn(torn: &[Torn], file: u64) -> bool
    ensures { result ≡ is_torn torn.now file }
{
    for it in torn {
        if it.file == file {
            return true;
        }
    }
    false
}

/// Whether a cut of a file to a length leaves one as it is.
fn stays(torn: &Torn, file: u64, len: u64) -> bool
    ensures { result ≡ stays_torn file len torn.now }
{
    torn.file != file || torn.len < len
}

/// Forgets what is mended by a cut of a file to a length.
pub(crate) fn mend(torn: &mut Vec<Torn>, file: u64, len: u64)
    ensures { torn.new.items ≡ filter (stays_torn file len) torn.old.items }
{
    torn.retain(|it| stays(it, file, len));
}

/// Notes a file that is longer than it was, or of which that is not known.
pub(crate) fn note<S: Store>(store: &mut S, torn: &mut Vec<Torn>, file: u64, len: u64)
    requires there { IsThere (S.disk store.old) file }
    requires room { vec_len torn.old < vec_capacity torn.old }
    ensures noted { len_of (S.disk store.old) file ≢ len → is_torn torn.new.items file ≡ true }
    ensures others { (torn.new.items ≡ torn.old.items) ⊎ (torn.new.items ≡ torn.old.items ++ record { file = file; len = len } ∷ []) }
    ensures unchanged { Keeps (S.disk store.old) (S.disk store.new) }
    ensures later { (S.disk store.old).failures ≤ (S.disk store.new).failures }
    ensures loss { Goes Same (S.loss store.old) (S.loss store.new) }
{
    if is_torn(torn, file) {
        return;
    }
    if let Ok(now) = store.len(file)
        && now == len
    {
        return;
    }
    torn.push_reserved(Torn { file, len });
}
