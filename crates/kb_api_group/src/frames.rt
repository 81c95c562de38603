//! A stream that comes in pieces, given out by frames.

ghost use Rattle.std.specs.Prelude.{◌≡◌, ◌++◌, List, ℕ, [], length, drop, min, vec_len, vec_capacity, OnOk, OnErr, ◌≤◌, ◌<◌, ◌+◌};
ghost use Rattle.kb_api_group.specs.Frames.{Front, Whole, front};
ghost use Rattle.kb_api_group.specs.FrameStream.{answer, behind, with_more, Fronts, IsSize, IsStuck, Splits, Event, Run, joined, taken};

use kb_wire::{Blob, Cursor};
use std::alloc::{AllocError, Global};
use std::marker::Model;

/// The least size of a request: its key, its version and its correlation id.
const LEAST_SIZE: i32 = 8;

/// The greatest size of a reply that the clients here read.
pub const REPLY_LIMIT: u32 = 2_097_152;

/// How many bytes of memory a feed keeps at most where nothing is unread. So many it does keep, for the next frame.
const KEPT: usize = 65_536;

/// What stands in front of the unread bytes.
#[derive(Drop)]
pub enum Next<'a> {
    /// A whole frame: the bytes behind its size.
    Frame(Blob<'a>),
    /// Less than a whole frame.
    More,
    /// A size below 8.
    TooSmall,
    /// A size above the limit.
    TooLarge,
}

/// The bytes of a stream that were not yet read. A clause sees their list.
///
/// Bytes are read by moving a position. What was read makes room where it is at least half of what is kept: so each byte
/// is moved a constant number of times in however many pieces and frames it comes, and at most half of what is kept was
/// read.
///
/// Whatever came before, a feed with nothing unread has at most 65,536 bytes of memory: the invariant says so. It keeps what it
/// has of that, so frames that follow one another take no memory for each. With bytes unread it gives back what is above, where
/// a quarter of it or less is in use. No clause bounds it then: a `Vec` does not say how far it grows, and a smaller block may
/// be refused.
#[derive(Drop)]
pub struct FrameFeed {
    bytes: Vec<u8>,
    start: usize,
}

impl Model for FrameFeed {
    ghost use Rattle.std.specs.Prelude.{◌≡◌, ◌≤◌, ◌+◌, drop, length, vec_capacity, List, ℕ};
    ghost use Rattle.kb_api_group.specs.declared.frames.TheConstants.{KEPT};

    ghost Value = { List ℕ };

    ghost view = { λ a. drop a.start a.bytes.items };

    ghost invariant = { λ a. (a.start + a.start ≤ length a.bytes.items) × (length a.bytes.items ≡ 0 → vec_capacity a.bytes ≤ KEPT) };
}

impl FrameFeed {
    /// A feed with nothing unread.
    pub fn new(alloc: Global) -> FrameFeed
        ensures { result ≡ [] }
    {
        FrameFeed {
            bytes: Vec::new(alloc),
            start: 0,
        }
    }

    /// Adds the next piece of the stream.
    ///
    /// An `Err` leaves what was unread.
    pub fn push(&mut self, piece: &[u8]) -> Result<(), AllocError>
        ensures ok { OnOk result (self.new ≡ self.old ++ piece.now) }
        ensures err { OnErr result (self.new ≡ self.old) }
    {
        grow(&mut self.bytes, piece.len())?;
        let kept = self.bytes.extend_from_slice(piece);
        give_back(&mut self.bytes);
        kept
    }

    /// How many bytes are unread.
    pub fn unread(&self) -> usize
        ensures { result ≡ length self.now }
    {
        self.bytes.len() - self.start
    }

    /// What stands in front, where no size above `limit` is read. A frame is lent and stays unread until `skip`. It takes no memory.
    pub fn next(&self, limit: u32) -> Next<'_>
        ensures { result ≡ answer (front limit self.now) }
    {
        front_of(&self.bytes[self.start..], limit)
    }

    /// Leaves the frame in front behind. Where no whole frame of at most `limit` stands in front nothing changes. It takes no memory
    /// above what there is, and may give some back.
    pub fn skip(&mut self, limit: u32)
        ensures { self.new ≡ behind (front limit self.old) self.old }
    {
        let size = match self.next(limit) {
            Next::Frame(frame) => frame.as_slice().len(),
            _ => return,
        };
        self.start += 4 + size;
        self.start = make_room(&mut self.bytes, self.start);
    }

    /// Drops the unread bytes, and gives their memory back.
    pub fn clear(&mut self)
        ensures { self.new ≡ [] }
    {
        self.bytes.clear();
        self.bytes.shrink_to_fit();
        self.start = 0;
    }
}

/// Drops the bytes before `start` where they are at least half of all, and gives memory back. Returns where the others begin.
fn make_room(bytes: &mut Vec<u8>, start: usize) -> usize
    requires within { start ≤ vec_len bytes.old }
    ensures unread { drop result bytes.new.items ≡ drop start bytes.old.items }
    ensures half { result + result ≤ vec_len bytes.new }
    ensures idle { vec_len bytes.new ≡ 0 → vec_capacity bytes.new ≤ KEPT }
    ensures kept { vec_capacity bytes.old ≤ KEPT → vec_capacity bytes.new ≡ vec_capacity bytes.old }
{
    if start < bytes.len() - start {
        give_back(bytes);
        return start;
    }
    drop_front(bytes, start);
    give_back(bytes);
    0
}

/// Makes room for `more` bytes where there are at most `KEPT` with them. It doubles up to `KEPT` and no further: else what frames
/// of fewer bytes need could be above it, and be given back after each.
fn grow(bytes: &mut Vec<u8>, more: usize) -> Result<(), AllocError>
    ensures items { bytes.new.items ≡ bytes.old.items }
    ensures room { OnOk result (vec_len bytes.old + more ≤ KEPT → vec_len bytes.new + more ≤ vec_capacity bytes.new) }
    ensures kept { vec_capacity bytes.old ≤ KEPT → vec_capacity bytes.new ≤ KEPT }
    ensures no_less { vec_capacity bytes.old ≤ vec_capacity bytes.new }
    ensures err { OnErr result (vec_capacity bytes.new ≡ vec_capacity bytes.old) }
{
    let needed = bytes.len().saturating_add(more);
    if needed <= bytes.capacity() || KEPT < needed {
        return Ok(());
    }
    let doubled = needed.max(2 * bytes.capacity());
    bytes.reserve_exact(KEPT.min(doubled) - bytes.len())
}

/// Gives memory back where it is above `KEPT` bytes and a quarter of it or less is in use: all of it where there are no bytes, and
/// else what is above `KEPT` and twice the bytes. A smaller block may be refused for them: then the one that is there stays.
fn give_back(bytes: &mut Vec<u8>)
    ensures items { bytes.new.items ≡ bytes.old.items }
    ensures idle { vec_len bytes.new ≡ 0 → vec_capacity bytes.new ≤ KEPT }
    ensures kept { vec_capacity bytes.old ≤ KEPT → vec_capacity bytes.new ≡ vec_capacity bytes.old }
    ensures no_more { vec_capacity bytes.new ≤ vec_capacity bytes.old }
    ensures room { 0 < vec_len bytes.old → min KEPT (vec_capacity bytes.old) ≤ vec_capacity bytes.new }
{
    let len = bytes.len();
    let capacity = bytes.capacity();
    if capacity <= KEPT || capacity / 4 < len {
        return;
    }
    let needed = if len == 0 { 0 } else { KEPT.max(len + len) };
    bytes.shrink_to(needed);
}

/// Brings the bytes from `n` on to the front. They are no more than those before them, so each is moved once.
fn drop_front(bytes: &mut Vec<u8>, n: usize)
    requires within { n ≤ vec_len bytes.old }
    requires half { vec_len bytes.old ≤ n + n }
    ensures items { bytes.new.items ≡ drop n bytes.old.items }
    ensures capacity { vec_capacity bytes.new ≡ vec_capacity bytes.old }
{
    let unread = bytes.len() - n;
    let (read, rest) = bytes.as_mut_slice().split_at_mut(n);
    read[..unread].copy_from_slice(rest);
    bytes.truncate(unread);
}

/// What bytes begin with, where no size above `limit` is read.
#[tactic(auto, unfolding(crate::specs::Frames::front, kb_wire::specs::Codec::octets))]
fn front_of(bytes: &[u8], limit: u32) -> Next<'_>
    ensures { result ≡ answer (front limit bytes.now) }
{
    let mut cursor = Cursor::new(bytes);
    let Ok(size) = cursor.i32() else {
        return Next::More;
    };
    if size < LEAST_SIZE {
        return Next::TooSmall;
    }
    if size as u32 > limit {
        return Next::TooLarge;
    }
    match cursor.take(size as usize) {
        Ok(frame) => Next::Frame(frame),
        Err(_) => Next::More,
    }
}

/// What stands in front is what the protocol says and nothing else, so the four answers exclude each other.
pub fn one_front()
    ensures found { (limit : ℕ) (bytes : List ℕ) → Fronts limit bytes (front limit bytes) }
    ensures only { (limit : ℕ) (bytes : List ℕ) (other : Front) → Fronts limit bytes other → front limit bytes ≡ other }
{}

/// How long a whole frame is, and how many bytes it takes from the front.
pub fn whole_frame()
    ensures size { (limit : ℕ) (bytes frame rest : List ℕ) → front limit bytes ≡ Whole frame rest → IsSize limit (length frame) }
    ensures len { (limit : ℕ) (bytes frame rest : List ℕ) → front limit bytes ≡ Whole frame rest
        → length bytes ≡ 4 + length frame + length rest }
{}

/// More bytes behind change no whole frame and no bad size: a bad size stays in front and is answered again.
pub fn more_bytes()
    ensures { (limit : ℕ) (bytes more : List ℕ) → front limit (bytes ++ more) ≡ with_more limit (front limit bytes) bytes more }
{}

/// In whatever pieces the bytes came and whenever frames were taken, those frames are the ones of the bytes joined, and
/// what is unread is what stands behind them.
pub fn any_pieces()
    ensures split { (limit : ℕ) (old new : List ℕ) (events : List Event) → Run limit old events new
        → Splits limit (old ++ joined events) (taken events) new }
    ensures same { (limit : ℕ) (old new other : List ℕ) (events others : List Event) → Run limit old events new
        → Run limit old others other → joined events ≡ joined others → IsStuck limit new → IsStuck limit other
        → (taken events ≡ taken others) × (new ≡ other) }
{}

/// A stream has one reading: where no frame stands in front of either rest, the frames are the same.
pub fn one_reading()
    ensures { (limit : ℕ) (stream rest other : List ℕ) (frames others : List (List ℕ)) → Splits limit stream frames rest
        → Splits limit stream others other → IsStuck limit rest → IsStuck limit other
        → (frames ≡ others) × (rest ≡ other) }
{}
