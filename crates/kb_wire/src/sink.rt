//! Writing the protocol's primitives one after the other.

ghost use Rattle.std.specs.Prelude.{◌≡◌, ◌↔◌, ◌+◌, ◌≤◌, ◌++◌, [], length, vec_len, vec_capacity, IsTrue, take, IsOk, OnOk, OnErr};
ghost use Rattle.std.specs.Int.{w8, w16, w32, w64};
ghost use Rattle.kb_wire.specs.Codec.{int, boolean, count, nullable_count, string, nullable_string, blob, nullable_blob};
ghost use Rattle.kb_wire.specs.Varint.{groups, varint, varlong};
ghost use Rattle.kb_wire.specs.Sunk.{Puts};

use crate::text::{Blob, Text};
use crate::varint::{groups_len, push_groups, to_zigzag_32, to_zigzag_64};
use std::alloc::{AllocError, Global};
use std::marker::Model;

/// Bytes that were written, and room for more. A clause sees both.
///
/// Each put adds the one spelling that is written of its value (Kafka protocol guide, "Protocol Primitive Types"). Within the
/// room it succeeds and takes no memory. An `Err` leaves the sink as it was.
#[derive(Drop)]
pub struct Sink {
    bytes: Vec<u8>,
}

impl Model for Sink {
    ghost use Rattle.std.specs.Prelude.{◌-◌, vec_len, vec_capacity};
    ghost use Rattle.kb_wire.specs.Sunk.{Sunk};

    ghost Value = { Sunk };

    ghost view = { λ a. record { bytes = a.bytes.items; room = vec_capacity a.bytes - vec_len a.bytes } };
}

impl Sink {
    /// An empty sink. It takes no memory.
    pub fn new(alloc: Global) -> Sink
        ensures bytes { result.bytes ≡ [] }
        ensures room { result.room ≡ 0 }
    {
        Sink {
            bytes: Vec::new(alloc),
        }
    }

    /// A sink that goes on behind the bytes of a vector, in the vector's memory.
    pub fn from_vec(bytes: Vec<u8>) -> Sink
        ensures bytes { result.bytes ≡ bytes.items }
        ensures room { vec_len bytes + result.room ≡ vec_capacity bytes }
    {
        Sink { bytes }
    }

    /// The bytes as a vector, in the sink's memory.
    pub fn into_vec(self) -> Vec<u8>
        ensures bytes { result.items ≡ self.bytes }
        ensures room { vec_len result + self.room ≡ vec_capacity result }
    {
        let Sink { bytes } = self;
        bytes
    }

    /// The bytes that were written.
    pub fn as_slice(&self) -> &[u8]
        ensures { result.now ≡ self.now.bytes }
    {
        self.bytes.as_slice()
    }

    /// How many bytes were written.
    pub fn len(&self) -> usize
        ensures { result ≡ length self.now.bytes }
    {
        self.bytes.len()
    }

    /// Whether nothing was written.
    pub fn is_empty(&self) -> bool
        ensures { IsTrue result ↔ (self.now.bytes ≡ []) }
    {
        self.bytes.is_empty()
    }

    /// How many more bytes take no memory.
    pub fn room(&self) -> usize
        ensures { result ≡ self.now.room }
    {
        self.bytes.capacity() - self.bytes.len()
    }

    /// Makes room for `n` more bytes. An `Err` leaves the sink as it was.
    pub fn reserve(&mut self, n: usize) -> Result<(), AllocError>
        ensures bytes { self.new.bytes ≡ self.old.bytes }
        ensures room { OnOk result (n ≤ self.new.room) }
        ensures kept { self.old.room ≤ self.new.room }
        ensures succeeds { n ≤ self.old.room → IsOk result }
        ensures err { OnErr result (self.new ≡ self.old) }
    {
        self.bytes.try_reserve(n)
    }

    /// Takes back all but the first `n` bytes. Their room stays.
    pub fn truncate(&mut self, n: usize)
        ensures bytes { self.new.bytes ≡ take n self.old.bytes }
        ensures room { self.new.room + length self.new.bytes ≡ self.old.room + length self.old.bytes }
    {
        self.bytes.truncate(n);
    }

    /// Adds bytes as they are.
    pub fn put_bytes(&mut self, bytes: &[u8]) -> Result<(), AllocError>
        ensures { Puts self.old bytes.now result self.new }
    {
        self.bytes.try_reserve(bytes.len())?;
        self.bytes.extend_from_slice(bytes)
    }

    /// INT8.
    #[tactic(auto, unfolding(crate::specs::Codec::int))]
    pub fn put_i8(&mut self, value: i8) -> Result<(), AllocError>
        ensures { Puts self.old ((int w8).written value) result self.new }
    {
        self.put_bytes(&value.to_be_bytes())
    }

    /// INT16.
    #[tactic(auto, unfolding(crate::specs::Codec::int))]
    pub fn put_i16(&mut self, value: i16) -> Result<(), AllocError>
        ensures { Puts self.old ((int w16).written value) result self.new }
    {
        self.put_bytes(&value.to_be_bytes())
    }

    /// INT32.
    #[tactic(auto, unfolding(crate::specs::Codec::int))]
    pub fn put_i32(&mut self, value: i32) -> Result<(), AllocError>
        ensures { Puts self.old ((int w32).written value) result self.new }
    {
        self.put_bytes(&value.to_be_bytes())
    }

    /// INT64.
    #[tactic(auto, unfolding(crate::specs::Codec::int))]
    pub fn put_i64(&mut self, value: i64) -> Result<(), AllocError>
        ensures { Puts self.old ((int w64).written value) result self.new }
    {
        self.put_bytes(&value.to_be_bytes())
    }

    /// BOOLEAN: 0 or 1.
    #[tactic(auto, unfolding(crate::specs::Codec::boolean))]
    pub fn put_boolean(&mut self, value: bool) -> Result<(), AllocError>
        ensures { Puts self.old (boolean.written value) result self.new }
    {
        self.put_bytes(&[if value { 1 } else { 0 }])
    }

    /// The count of an array, which must fit an INT32.
    #[tactic(auto, unfolding(crate::specs::Codec::counted, crate::specs::Codec::int))]
    pub fn put_count(&mut self, n: usize) -> Result<(), AllocError>
        requires { (count w32).Fits n }
        ensures { Puts self.old ((count w32).written n) result self.new }
    {
        self.put_i32(n as i32)
    }

    /// The count of an array that may be null, -1 for null.
    #[tactic(auto, unfolding(crate::specs::Codec::nullable_counted, crate::specs::Codec::int))]
    pub fn put_nullable_count(&mut self, n: Option<usize>) -> Result<(), AllocError>
        requires { (nullable_count w32).Fits n }
        ensures { Puts self.old ((nullable_count w32).written n) result self.new }
    {
        match n {
            None => self.put_i32(-1),
            Some(n) => self.put_i32(n as i32),
        }
    }

    // Both or neither.
    fn put_both(&mut self, front: &[u8], back: &[u8]) -> Result<(), AllocError>
        ensures { Puts self.old (front.now ++ back.now) result self.new }
    {
        self.bytes.try_reserve(front.len() + back.len())?;
        self.bytes.extend_from_slice(front)?;
        self.bytes.extend_from_slice(back)
    }

    /// STRING. The length must fit an INT16.
    #[tactic(auto, unfolding(crate::specs::Codec::sized, crate::specs::Codec::counted, crate::specs::Codec::int, crate::specs::Codec::utf8))]
    pub fn put_string(&mut self, text: &str) -> Result<(), AllocError>
        requires { string.Fits text.now }
        ensures { Puts self.old (string.written text.now) result self.new }
    {
        let length = text.len() as i16;
        self.put_both(&length.to_be_bytes(), text.as_bytes())
    }

    /// BYTES. The length must fit an INT32.
    #[tactic(auto, unfolding(crate::specs::Codec::sized, crate::specs::Codec::counted, crate::specs::Codec::int, crate::specs::Codec::octets))]
    pub fn put_blob(&mut self, bytes: &[u8]) -> Result<(), AllocError>
        requires { blob.Fits bytes.now }
        ensures { Puts self.old (blob.written bytes.now) result self.new }
    {
        let length = bytes.len() as i32;
        self.put_both(&length.to_be_bytes(), bytes)
    }

    /// NULLABLE_STRING: the length -1 for null.
    #[tactic(auto, unfolding(crate::specs::Codec::nullable, crate::specs::Codec::nullable_counted, crate::specs::Codec::sized, crate::specs::Codec::counted, crate::specs::Codec::utf8))]
    pub fn put_nullable_string(&mut self, text: &Option<Text<'_>>) -> Result<(), AllocError>
        requires { nullable_string.Fits text.now }
        ensures { Puts self.old (nullable_string.written text.now) result self.new }
    {
        match text {
            None => self.put_i16(-1),
            Some(text) => self.put_string(text.as_str()),
        }
    }

    /// NULLABLE_BYTES: the length -1 for null.
    #[tactic(auto, unfolding(crate::specs::Codec::nullable, crate::specs::Codec::nullable_counted, crate::specs::Codec::sized, crate::specs::Codec::counted, crate::specs::Codec::octets))]
    pub fn put_nullable_blob(&mut self, bytes: &Option<Blob<'_>>) -> Result<(), AllocError>
        requires { nullable_blob.Fits bytes.now }
        ensures { Puts self.old (nullable_blob.written bytes.now) result self.new }
    {
        match bytes {
            None => self.put_i32(-1),
            Some(bytes) => self.put_blob(bytes.as_slice()),
        }
    }

    fn put_groups(&mut self, limit: u32, n: u64) -> Result<(), AllocError>
        ensures { Puts self.old ((groups limit).written n) result self.new }
    {
        self.bytes.try_reserve(groups_len(limit, n))?;
        push_groups(&mut self.bytes, limit, n)
    }

    /// VARINT, in as few bytes as can be.
    #[tactic(auto, unfolding(crate::specs::Varint::zigzag, crate::specs::Codec::refined))]
    pub fn put_varint(&mut self, value: i32) -> Result<(), AllocError>
        ensures { Puts self.old (varint.written value) result self.new }
    {
        self.put_groups(5, to_zigzag_32(value))
    }

    /// VARLONG, in as few bytes as can be.
    #[tactic(auto, unfolding(crate::specs::Varint::zigzag, crate::specs::Codec::refined))]
    pub fn put_varlong(&mut self, value: i64) -> Result<(), AllocError>
        ensures { Puts self.old (varlong.written value) result self.new }
    {
        self.put_groups(10, to_zigzag_64(value))
    }
}
