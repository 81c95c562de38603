//! The file 0 of a store: whether it is there, and a torn end of it.
ghost use Rattle.std.specs.Prelude.{◌≡◌, true, None, IfOk};
ghost use Rattle.std.specs.FinMap as map;
ghost use Rattle.kb_store.specs.Disk.{IsThere};

use kb_store::{Store, StoreFault};
use std::alloc::Global;

/// Whether 0 is the only file.
#[tactic(auto, using(crate::proofs::Listed::alone_is_there))]
pub(crate) fn is_alone<S: Store>(alloc: Global, store: &mut S) -> Result<bool, StoreFault>
    ensures { IfOk result (λ yes. yes ≡ true → IsThere (S.disk store.new) 0) }
{
    Ok(store.list(alloc)?.as_slice() == [0].as_slice())
}

/// Whether there is no file.
#[tactic(auto, using(crate::proofs::Listed::none_listed))]
pub(crate) fn is_empty<S: Store>(alloc: Global, store: &mut S) -> Result<bool, StoreFault>
    ensures { IfOk result (λ yes. yes ≡ true → map.get (S.disk store.new).table 0 ≡ None) }
{
    let none: [u64; 0] = [];
    Ok(store.list(alloc)?.as_slice() == none.as_slice())
}

/// Writes bytes behind the end of the file that are no batch, as a write that was cut short does. The store may refuse them.
#[tactic(auto, using(kb_store::proofs::Disks::is_there_put, kb_store::proofs::Disks::is_there_grown))]
pub(crate) fn tear<S: Store>(store: &mut S)
    requires { IsThere (S.disk store.old) 0 }
    ensures { IsThere (S.disk store.new) 0 }
{
    let _ = store.append(0, b"torn");
}
