//! What is kept of files: bytes under a file and a place.
ghost use Rattle.std.specs.Prelude.{◌≡◌, ◌∷◌, ◌≤◌, ◌<◌, ◌+◌, ◌-◌, ◌^◌, ◌++◌, ◌&&◌, None, length, take, drop, true, false, not, nat_eq, nat_lt};
ghost use Rattle.std.specs.Map.{lookup};
ghost use Rattle.kb_cache.specs.Kept.{behind_cut, cached_at, is_kept, latest, reads, same_place, seen, total, turned, used, with_bytes, with_room};
ghost use Rattle.kb_cache.specs.Kept.{without_entry};

use lru::LruCache;
use std::alloc::Global;
use std::hash::RandomState;

/// Bytes under a file and a place, those used last at the front.
pub(crate) type Entries = LruCache<(u64, u64), Vec<u8>, RandomState>;

/// Copies the bytes under a place to the front of a buffer, as many as it takes. Answers how many.
fn copy_front(entries: &mut Entries, file: u64, at: u64, buffer: &mut [u8]) -> usize
    ensures count { result ≡ length (take (length buffer.old) (cached_at (seen entries.old.entries) file at)) }
    ensures copied { buffer.new ≡ take (length buffer.old) (cached_at (seen entries.old.entries) file at) ++ drop result buffer.old }
    ensures entries { seen entries.new.entries ≡ used (seen entries.old.entries) file at }
    ensures cap { entries.new.cap ≡ entries.old.cap }
{
    let Some(bytes) = entries.get(&(file, at)) else {
        return 0;
    };
    let n = bytes.len().min(buffer.len());
    buffer[..n].copy_from_slice(&bytes[..n]);
    n
}

/// Fills a buffer with the bytes from a place on, where entries that begin there, and where the one before ends, have them all.
/// Otherwise it may leave anything in the buffer.
pub(crate) fn fill(entries: &mut Entries, file: u64, at: u64, buffer: &mut [u8]) -> bool
    requires { at + length buffer.old < 2 ^ 64 }
    ensures whole { result ≡ is_kept (seen entries.old.entries) file at (length buffer.old) }
    ensures bytes { result ≡ true → buffer.new ≡ (reads (length buffer.old) (seen entries.old.entries) file at (length buffer.old)).0 }
    ensures entries { seen entries.new.entries ≡ (reads (length buffer.old) (seen entries.old.entries) file at (length buffer.old)).1 }
    ensures cap { entries.new.cap ≡ entries.old.cap }
{
    let mut done = 0;
    while done < buffer.len() {
        let n = copy_front(entries, file, at + done as u64, &mut buffer[done..]);
        if n == 0 {
            return false;
        }
        done += n;
    }
    true
}

/// Drops the entry that was used least lately.
fn drop_last(entries: &mut Entries, bytes: &mut u64)
    requires counted { bytes.old ≡ total (seen entries.old.entries) }
    ensures counted { bytes.new ≡ total (seen entries.new.entries) }
    ensures entries { seen entries.new.entries ≡ take (length (seen entries.old.entries) - 1) (seen entries.old.entries) }
    ensures cap { entries.new.cap ≡ entries.old.cap }
{
    if let Some((_, dropped)) = entries.pop_lru() {
        *bytes -= dropped.len() as u64;
    }
}

/// Drops what was used least lately until there is room for one entry of so many bytes more.
fn make_room(entries: &mut Entries, bytes: &mut u64, most_bytes: u64, size: u64)
    requires counted { bytes.old ≡ total (seen entries.old.entries) }
    requires size { size ≤ most_bytes }
    ensures counted { bytes.new ≡ total (seen entries.new.entries) }
    ensures room { bytes.new + size ≤ most_bytes }
    ensures one_more { length (seen entries.new.entries) < entries.new.cap }
    ensures entries { seen entries.new.entries ≡ latest (entries.old.cap - 1) (most_bytes - size) (seen entries.old.entries) }
    ensures cap { entries.new.cap ≡ entries.old.cap }
{
    while entries.len() >= entries.cap().get() || *bytes > most_bytes - size {
        drop_last(entries, bytes);
    }
}

/// Drops what is under a place.
fn forget(entries: &mut Entries, bytes: &mut u64, file: u64, at: u64)
    requires counted { bytes.old ≡ total (seen entries.old.entries) }
    ensures counted { bytes.new ≡ total (seen entries.new.entries) }
    ensures entries { seen entries.new.entries ≡ without_entry (seen entries.old.entries) file at }
    ensures absent { lookup (same_place (file, at)) (seen entries.new.entries) ≡ None }
    ensures cap { entries.new.cap ≡ entries.old.cap }
{
    if entries.len() == 0 {
        return;
    }
    if let Some(dropped) = entries.pop(&(file, at)) {
        *bytes -= dropped.len() as u64;
    }
}

/// Puts a copy of some bytes under a place where nothing is, in front of all others. Answers whether memory let it.
fn insert(
    alloc: Global,
    entries: &mut Entries,
    bytes: &mut u64,
    file: u64,
    at: u64,
    data: &[u8],
) -> bool
    requires counted { bytes.old ≡ total (seen entries.old.entries) }
    requires absent { lookup (same_place (file, at)) (seen entries.old.entries) ≡ None }
    requires one_more { length (seen entries.old.entries) < entries.old.cap }
    requires fits { bytes.old + length data.now < 2 ^ 64 }
    ensures counted { bytes.new ≡ total (seen entries.new.entries) }
    ensures put { result ≡ true → seen entries.new.entries ≡ ((file, at), data.now) ∷ seen entries.old.entries }
    ensures refused { result ≡ false → seen entries.new.entries ≡ seen entries.old.entries }
    ensures cap { entries.new.cap ≡ entries.old.cap }
{
    let Ok(copy) = Vec::from_slice(alloc, data) else {
        return false;
    };
    match entries.put((file, at), copy) {
        Ok(_) => {
            *bytes += data.len() as u64;
            true
        }
        Err(_) => false,
    }
}

/// How many bytes are under a place, 0 where nothing is.
fn length_at(entries: &Entries, file: u64, at: u64) -> usize
    ensures { result ≡ length (cached_at (seen entries.now.entries) file at) }
{
    match entries.peek(&(file, at)) {
        Some(bytes) => bytes.len(),
        None => 0,
    }
}

/// Keeps a copy of some bytes under a place, in front of all others, and drops for it what was used least lately. What is there and
/// is not shorter stays. Answers whether so many bytes are there now: memory may refuse the copy.
pub(crate) fn keep(
    alloc: Global,
    entries: &mut Entries,
    bytes: &mut u64,
    most_bytes: u64,
    file: u64,
    at: u64,
    data: &[u8],
) -> bool
    requires counted { bytes.old ≡ total (seen entries.old.entries) }
    requires within { bytes.old ≤ most_bytes }
    requires size { length data.now ≤ most_bytes }
    ensures counted { bytes.new ≡ total (seen entries.new.entries) }
    ensures within { bytes.new ≤ most_bytes }
    ensures there { length data.now ≤ length (cached_at (seen entries.old.entries) file at)
        → (result ≡ true) × (seen entries.new.entries ≡ used (seen entries.old.entries) file at) }
    ensures kept { length (cached_at (seen entries.old.entries) file at) < length data.now → result ≡ true
        → seen entries.new.entries ≡ with_bytes entries.old.cap most_bytes (seen entries.old.entries) file at data.now }
    ensures refused { length (cached_at (seen entries.old.entries) file at) < length data.now → result ≡ false
        → seen entries.new.entries ≡ with_room entries.old.cap most_bytes (seen entries.old.entries) file at data.now }
    ensures cap { entries.new.cap ≡ entries.old.cap }
{
    if length_at(entries, file, at) >= data.len() {
        entries.promote(&(file, at));
        return true;
    }
    forget(entries, bytes, file, at);
    make_room(entries, bytes, most_bytes, data.len() as u64);
    insert(alloc, entries, bytes, file, at, data)
}

/// Whether bytes under a place stay where those of a file behind a length go.
fn stays(of: u64, at: u64, size: usize, file: u64, len: u64) -> bool
    ensures { result ≡ not (nat_eq of file && nat_lt len (at + size)) }
{
    of != file || u128::from(at) + size as u128 <= u128::from(len)
}

/// Looks at the entry that was used least lately: it is dropped where it is of a file and ends behind a length, and else goes to the
/// front.
fn turn(entries: &mut Entries, bytes: &mut u64, file: u64, len: u64)
    requires counted { bytes.old ≡ total (seen entries.old.entries) }
    ensures counted { bytes.new ≡ total (seen entries.new.entries) }
    ensures entries { seen entries.new.entries ≡ turned file len (seen entries.old.entries) }
    ensures cap { entries.new.cap ≡ entries.old.cap }
{
    if entries.len() == 0 {
        return;
    }
    let Some((place, data)) = entries.peek_lru() else {
        return;
    };
    let (of, at) = *place;
    if stays(of, at, data.len(), file, len) {
        entries.promote(&(of, at));
    } else {
        drop_last(entries, bytes);
    }
}

/// Drops the entries of a file that end behind a length. The others stay in their order.
pub(crate) fn drop_behind(entries: &mut Entries, bytes: &mut u64, file: u64, len: u64)
    requires counted { bytes.old ≡ total (seen entries.old.entries) }
    ensures counted { bytes.new ≡ total (seen entries.new.entries) }
    ensures entries { seen entries.new.entries ≡ behind_cut file len (seen entries.old.entries) }
    ensures cap { entries.new.cap ≡ entries.old.cap }
{
    let count = entries.len();
    for _ in 0..count {
        turn(entries, bytes, file, len);
    }
}
