//! A copy of a tenant's files.
ghost use Rattle.std.specs.Prelude.{◌≡◌, ◌<◌, ◌≤◌, ◌+◌, ◌^◌, ℕ, List, [], length, map, false, bytes_eq, Err, None, IfOk, OnOk, OnErr};
ghost use Rattle.std.specs.FinMap as finmap;
ghost use Rattle.std.specs.List.{All};
ghost use Rattle.kb_store.specs.Disk.{IsThere, Keeps, bytes_of, HasCause};
ghost use Rattle.kb_tenant_state.specs.Logs.{Logs};
ghost use Rattle.kb_topics.specs.Known.{Known};
ghost use Rattle.kb_move.specs.Alike.{Opens};
ghost use Rattle.kb_move.specs.Copied.{IsAlone, KeepsFiles, copied, first_number, owned, with_files_from};

use crate::fault::MoveFault;
use crate::owned::tenant_files;
use kb_store::{Store, StoreFault};
use std::alloc::Global;

/// How many bytes are copied at once.
const PIECE_BYTES: usize = 1_048_576;

/// What was copied.
#[derive(Clone, Copy, Debug, PartialEq, Eq)]
pub struct Copied {
    /// The number of the first file there.
    pub first: u64,
    /// How many files.
    pub files: usize,
    /// How many bytes they have together, or else the greatest number.
    pub bytes: u64,
}

/// Copies all files of a tenant behind those of another store, in order and byte for byte. The first store is only read.
///
/// After a refusal the other store has what it had, and perhaps some of the copies, whose numbers are behind those of all its files.
pub fn copy_tenant<F: Store, T: Store>(
    alloc: Global,
    from: &mut F,
    tenant: &str,
    to: &mut T,
) -> Result<Copied, MoveFault>
    ensures first { IfOk result (λ c. (F.disk from.new).honest → c.first ≡ first_number (F.disk from.old) (T.disk to.old)) }
    ensures files { IfOk result (λ c. (F.disk from.new).honest → c.files ≡ length (owned tenant.now (F.disk from.old))) }
    ensures copied { OnOk result ((F.disk from.new).honest → (T.disk to.new).honest
        → (T.disk to.new).files ≡ copied tenant.now (F.disk from.old) (T.disk to.old)) }
    ensures absent { result ≡ Err MoveFault.Absent → (F.disk from.new).honest → owned tenant.now (F.disk from.old) ≡ [] }
    ensures some { OnOk result ((F.disk from.new).honest → 1 ≤ length (owned tenant.now (F.disk from.old))) }
    ensures occupied { result ≡ Err MoveFault.Occupied → (T.disk to.new).honest → 1 ≤ length (owned tenant.now (T.disk to.old)) }
    ensures alone { OnOk result ((T.disk to.new).honest → owned tenant.now (T.disk to.old) ≡ []) }
    ensures unchanged { Keeps (F.disk from.old) (F.disk from.new) }
    ensures spared { KeepsFiles (T.disk to.old) (T.disk to.new) }
    // The tenant opens there to what it opens to here, and each other tenant to what it had.
    ensures opens { OnOk result ((F.disk from.new).honest → (T.disk to.new).honest → (k : Known) (logs : Logs)
        → Opens (F.disk from.old).files tenant.now k logs → Opens (T.disk to.new).files tenant.now k logs) }
    ensures beside { OnOk result ((F.disk from.new).honest → (T.disk to.new).honest → (other : List ℕ) (k : Known) (logs : Logs)
        → bytes_eq tenant.now other ≡ false → Opens (T.disk to.old).files other k logs → Opens (T.disk to.new).files other k logs) }
{
    let found = tenant_files(alloc, from, tenant)?;
    if found.numbers.is_empty() {
        return Err(MoveFault::Absent);
    }
    let there = tenant_files(alloc, to, tenant)?;
    if !there.numbers.is_empty() {
        return Err(MoveFault::Occupied);
    }
    let (Some(next), Some(next_there)) = (found.next, there.next) else {
        return Err(MoveFault::NumbersUsed);
    };
    let first = next.max(next_there);
    if u64::MAX - first < found.numbers.len() as u64 {
        return Err(MoveFault::NumbersUsed);
    }
    let mut buffer = piece(alloc)?;
    let bytes = copy_all(from, &found.numbers, to, first, &mut buffer)?;
    Ok(Copied {
        first,
        files: found.numbers.len(),
        bytes,
    })
}

/// Room for a piece of a file.
fn piece(alloc: Global) -> Result<Vec<u8>, StoreFault>
    ensures { IfOk result (λ buffer. 1 ≤ length buffer.items) }
{
    Ok(vec![in alloc; 0u8; PIECE_BYTES]?)
}

/// Copies some files under the numbers from one on, and answers how many bytes they have, or else the greatest number.
fn copy_all<F: Store, T: Store>(
    from: &mut F,
    numbers: &[u64],
    to: &mut T,
    first: u64,
    buffer: &mut [u8],
) -> Result<u64, StoreFault>
    requires some { 1 ≤ length buffer.old }
    requires there { All (IsThere (F.disk from.old)) numbers.now }
    requires free { (file : ℕ) → IsThere (T.disk to.old) file → file < first }
    requires room { first + length numbers.now < 2 ^ 64 }
    ensures copied { OnOk result ((F.disk from.new).honest → (T.disk to.new).honest
        → (T.disk to.new).files ≡ with_files_from first (map (bytes_of (F.disk from.old)) numbers.now) (T.disk to.old).files) }
    ensures unchanged { Keeps (F.disk from.old) (F.disk from.new) }
    ensures spared { KeepsFiles (T.disk to.old) (T.disk to.new) }
{
    let mut next = first;
    let mut bytes = 0u64;
    for number in numbers {
        bytes = bytes.saturating_add(copy_file(from, *number, to, next, buffer)?);
        next += 1;
    }
    Ok(bytes)
}

/// Copies a file under another number, and answers its length.
fn copy_file<F: Store, T: Store>(
    from: &mut F,
    file: u64,
    to: &mut T,
    number: u64,
    buffer: &mut [u8],
) -> Result<u64, StoreFault>
    requires some { 1 ≤ length buffer.old }
    requires there { IsThere (F.disk from.old) file }
    requires free { finmap.get (T.disk to.old).table number ≡ None }
    ensures copied { OnOk result ((F.disk from.new).honest → (T.disk to.new).honest
        → (T.disk to.new).files ≡ finmap.insert (T.disk to.old).files number (bytes_of (F.disk from.old) file)) }
    ensures unchanged { Keeps (F.disk from.old) (F.disk from.new) }
    ensures others { IsAlone number (T.disk to.old) (T.disk to.new) }
    ensures buffer { length buffer.new ≡ length buffer.old }
{
    to.create(number)?;
    let len = from.len(file)?;
    let mut at = 0u64;
    while at < len {
        let count = (len - at).min(buffer.len() as u64) as usize;
        from.read_at(file, at, &mut buffer[..count])?;
        to.append(number, &buffer[..count])?;
        at += count as u64;
    }
    Ok(len)
}
