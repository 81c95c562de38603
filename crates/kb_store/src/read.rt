//! A whole file at once.
ghost use Rattle.std.specs.Prelude.{◌≡◌, IfOk};
ghost use Rattle.kb_store.specs.Disk.{IsThere, bytes_of, Keeps, HasCause};

use crate::{Store, StoreFault};
use std::alloc::Global;

/// The bytes of a whole file. Room is asked for by the file's length, which the store answers.
pub fn read_file<S: Store>(alloc: Global, store: &mut S, file: u64) -> Result<Vec<u8>, StoreFault>
    requires { IsThere (S.disk store.old) file }
    ensures bytes { IfOk result (λ bytes. (S.disk store.new).honest → bytes.items ≡ bytes_of (S.disk store.old) file) }
    ensures unchanged { Keeps (S.disk store.old) (S.disk store.new) }
    ensures cause { HasCause (S.disk store.old) result (S.disk store.new) }
{
    let len = store.len(file)?;
    let mut bytes = vec![in alloc; 0u8; len as usize]?;
    store.read_at(file, 0, &mut bytes)?;
    Ok(bytes)
}
