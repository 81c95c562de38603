//! What was read on a socket and is not the connection's yet.

ghost use Rattle.std.specs.Prelude.{◌≡◌, [], ◌++◌, OnOk, OnErr, ◌≤◌, ◌+◌, ◌-◌, take, true, drop, length, nat_eq, nat_lt, vec_len};
ghost use Rattle.kb_node.specs.Requests.{awaited, gone_on, is_part, is_short, is_under_way, piece_len, request_end};

use std::alloc::{AllocError, Global};

/// How many bytes the request in front still has, its size among them: `left` of one that was begun. 0: its size is not there.
#[tactic(auto, unfolding(crate::specs::Requests::request_end))]
fn end_of_request(left: usize, bytes: &[u8]) -> usize
    ensures { result ≡ request_end left bytes.now }
{
    if left > 0 {
        return left;
    }
    match bytes {
        [a, b, c, d, ..] => 4 + u32::from_be_bytes([*a, *b, *c, *d]) as usize,
        _ => 0,
    }
}

/// How far a connection is in a request.
#[derive(Drop)]
pub struct Progress {
    /// How many bytes of the request are still to be handed on, 0 between two requests.
    left: usize,
    /// How many it has, its size among them.
    size: usize,
}

impl Progress {
    /// Between two requests.
    pub fn new() -> Self
        ensures { (result.left ≡ 0) × (result.size ≡ 0) }
    {
        Progress { left: 0, size: 0 }
    }

    /// Whether some of a request was handed on, and not all of it.
    pub fn is_begun(&self) -> bool
        ensures { result ≡ nat_lt 0 self.now.left }
    {
        self.left > 0
    }

    /// How many bytes the request in front has, its size among them, of which nothing was handed on: 0 where one is begun, or its size is
    /// not there.
    pub fn awaited(&self, bytes: &[u8]) -> usize
        ensures { result ≡ awaited self.now.left bytes.now }
    {
        if self.left > 0 {
            0
        } else {
            end_of_request(0, bytes)
        }
    }

    /// Whether none of the bytes can be handed on before more are there.
    #[tactic(auto, unfolding(crate::specs::Requests::request_end))]
    pub fn is_short(&self, bytes: &[u8]) -> bool
        ensures short { result ≡ is_short self.now.left bytes.now }
        ensures unknown { result ≡ true → awaited self.now.left bytes.now ≡ 0 }
    {
        bytes.is_empty() || end_of_request(self.left, bytes) == 0
    }

    /// Goes on by the bytes at the front that may be handed on, and answers how many they are: none past the end of the request,
    /// nor more than there is room for.
    pub fn advance(&mut self, bytes: &[u8], room: usize) -> usize
        ensures cut { result ≡ piece_len self.old.left room bytes.now }
        ensures progress { self.new ≡ gone_on result bytes.now self.old }
        ensures within { result ≤ length bytes.now }
        ensures fits { result ≤ room }
    {
        let end = end_of_request(self.left, bytes);
        let count = end.min(bytes.len()).min(room);
        let size = if self.left > 0 { self.size } else { end };
        self.left = end - count;
        self.size = if self.left > 0 { size } else { 0 };
        count
    }
}

/// What was read on a socket and is not handed on yet.
#[derive(Drop)]
pub struct Input {
    bytes: Vec<u8>,
    /// How many of the bytes were handed on.
    handed: usize,
    progress: Progress,
    ghost within: { handed ≤ vec_len bytes },
}

impl Input {
    ghost use Rattle.kb_node.specs.Pieces.{unhanded};

    /// Nothing yet.
    pub fn new(alloc: Global) -> Self
        ensures none { drop result.handed result.bytes.items ≡ [] }
        ensures between { (result.progress.left ≡ 0) × (result.progress.size ≡ 0) }
    {
        Input {
            bytes: Vec::new(alloc),
            handed: 0,
            progress: Progress::new(),
        }
    }

    /// Whether all was handed on.
    pub fn is_empty(&self) -> bool
        ensures empty { result ≡ nat_eq (length (unhanded self.now)) 0 }
        ensures none { result ≡ true → unhanded self.now ≡ [] }
    {
        self.handed == self.bytes.len()
    }

    /// Whether some of the request in front was handed on.
    pub fn is_begun(&self) -> bool
        ensures { result ≡ nat_lt 0 self.now.progress.left }
    {
        self.progress.is_begun()
    }

    /// How many bytes the request has of which some was handed on: 0 where there is none.
    pub fn begun(&self) -> usize
        ensures { result ≡ self.now.progress.size }
    {
        self.progress.size
    }

    /// How many bytes of that request are still to be handed on.
    pub fn left(&self) -> usize
        ensures { result ≡ self.now.progress.left }
    {
        self.progress.left
    }

    /// How many bytes the request in front has of which nothing was handed on: 0 where one is begun, or its size is not there.
    pub fn awaited(&self) -> usize
        ensures { result ≡ awaited self.now.progress.left (unhanded self.now) }
    {
        self.progress.awaited(&self.bytes[self.handed..])
    }

    /// The same of a piece where nothing is kept.
    pub fn awaited_in(&self, piece: &[u8]) -> usize
        ensures { result ≡ awaited self.now.progress.left piece.now }
    {
        self.progress.awaited(piece)
    }

    /// Whether some of a request came, and it is to be read on.
    pub fn is_under_way(&self) -> bool
        ensures { result ≡ is_under_way self.now.progress.left (unhanded self.now) }
    {
        self.is_begun() || !self.is_empty() && self.is_short()
    }

    /// Whether the size of the request in front is there, and not all of it, where nothing of it was handed on.
    pub fn is_part(&self) -> bool
        ensures { result ≡ is_part self.now.progress.left (unhanded self.now) }
    {
        self.bytes.len() - self.handed < self.awaited()
    }

    /// Whether nothing can be handed on before more is read.
    pub fn is_short(&self) -> bool
        ensures short { result ≡ is_short self.now.progress.left (unhanded self.now) }
        ensures unknown { result ≡ true → awaited self.now.progress.left (unhanded self.now) ≡ 0 }
    {
        self.progress.is_short(&self.bytes[self.handed..])
    }

    /// Keeps bytes behind the others.
    pub fn push(&mut self, bytes: &[u8]) -> Result<(), AllocError>
        ensures progress { self.new.progress ≡ self.old.progress }
        ensures ok { OnOk result (unhanded self.new ≡ unhanded self.old ++ bytes.now) }
        ensures err { OnErr result (unhanded self.new ≡ unhanded self.old) }
    {
        self.bytes.extend_from_slice(bytes)
    }

    /// The bytes at the front of a piece that are handed on past those that are kept, of which there are none: how many.
    pub fn pass(&mut self, piece: &[u8], room: usize) -> usize
        ensures cut { result ≡ piece_len self.old.progress.left room piece.now }
        ensures progress { self.new.progress ≡ gone_on result piece.now self.old.progress }
        ensures bytes { (self.new.bytes ≡ self.old.bytes) × (self.new.handed ≡ self.old.handed) }
        ensures within { result ≤ length piece.now }
        ensures fits { result ≤ room }
    {
        self.progress.advance(piece, room)
    }

    /// Goes on by the next bytes that are handed on: how many.
    pub fn advance(&mut self, room: usize) -> usize
        ensures cut { result ≡ piece_len self.old.progress.left room (unhanded self.old) }
        ensures progress { self.new.progress ≡ gone_on result (unhanded self.old) self.old.progress }
        ensures fits { result ≤ room }
        ensures handed { self.new.handed ≡ self.old.handed + result }
        ensures bytes { self.new.bytes ≡ self.old.bytes }
    {
        let count = self.progress.advance(&self.bytes[self.handed..], room);
        self.handed += count;
        count
    }

    /// The last bytes that were handed on, so many.
    pub fn passed(&self, count: usize) -> &[u8]
        requires { count ≤ self.now.handed }
        ensures { result.now ≡ take count (drop (self.now.handed - count) self.now.bytes.items) }
    {
        &self.bytes[self.handed - count..self.handed]
    }

    /// Forgets what was handed on, where that is all.
    pub fn tidy(&mut self, alloc: Global)
        ensures progress { self.new.progress ≡ self.old.progress }
        ensures bytes { unhanded self.new ≡ unhanded self.old }
    {
        if self.is_empty() {
            self.bytes = Vec::new(alloc);
            self.handed = 0;
        }
    }
}
