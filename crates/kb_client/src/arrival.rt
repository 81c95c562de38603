//! What came since a request.

ghost use Rattle.std.specs.Prelude.{◌≡◌};
ghost use Rattle.kb_api_group.specs.ClientFrames.{front};
ghost use Rattle.kb_client.specs.Fetched.{arrival_of};

use kb_api_group::REPLY_LIMIT;
use kb_wire::{Blob, Cursor};

/// The least size of a frame.
const LEAST_SIZE: i32 = 8;

/// What the bytes are that came since a request.
#[derive(Drop)]
pub enum Arrival<'a> {
    /// A reply and no more: the bytes behind its size.
    Reply(Blob<'a>),
    /// Less than a reply.
    Part,
    /// A size that no reply has, or more than a reply.
    Fault,
}

impl<'a> Arrival<'a> {
    /// What some bytes are. It takes no memory.
    #[tactic(auto, unfolding(kb_api_group::specs::Frames::front, kb_wire::specs::Codec::octets))]
    pub fn of(bytes: &'a [u8]) -> Arrival<'a>
        ensures { result ≡ arrival_of (front bytes.now) }
    {
        let mut cursor = Cursor::new(bytes);
        let Ok(size) = cursor.i32() else {
            return Arrival::Part;
        };
        if size < LEAST_SIZE || size as u32 > REPLY_LIMIT {
            return Arrival::Fault;
        }
        let Ok(frame) = cursor.take(size as usize) else {
            return Arrival::Part;
        };
        if !cursor.at_end() {
            return Arrival::Fault;
        }
        Arrival::Reply(frame)
    }
}
