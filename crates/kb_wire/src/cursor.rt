//! Reading the protocol's primitives one after the other from borrowed bytes.

ghost use Rattle.std.specs.Prelude.{◌≡◌, ◌↔◌, IsTrue, [], length};
ghost use Rattle.std.specs.Int.{w8, w16, w32, w64};
ghost use Rattle.kb_wire.specs.Codec.{int, boolean, count, nullable_count, octets, string, nullable_string, blob, nullable_blob};
ghost use Rattle.kb_wire.specs.Varint.{varint, varlong};
ghost use Rattle.kb_wire.specs.Reads.{Gives};

use crate::fault::WireFault;
use crate::text::{Blob, Text};
use crate::{bytes, varint};
use std::marker::Model;

/// A place in borrowed bytes. A clause sees the bytes that are left.
///
/// Each call reads what stands in front (Kafka protocol guide, "Protocol Primitive Types") and moves behind it. It takes no
/// memory: texts and bytes are borrowed. A fault is `Short` where fewer bytes are left than the front calls for, and else
/// `Bad`; the cursor is then where it was.
#[derive(Drop)]
pub struct Cursor<'a> {
    rest: &'a [u8],
}

impl<'a> Model for Cursor<'a> {
    ghost use Rattle.std.specs.Prelude.{List, ℕ};

    ghost Value = { List ℕ };

    ghost view = { λ a. a.rest.now };
}

impl<'a> Cursor<'a> {
    /// Stands before the first byte.
    #[inline]
    pub fn new(bytes: &'a [u8]) -> Cursor<'a>
        ensures { result ≡ bytes.now }
    {
        Cursor { rest: bytes }
    }

    /// Whether nothing is left.
    #[inline]
    pub fn at_end(&self) -> bool
        ensures { IsTrue result ↔ (self.now ≡ []) }
    {
        self.rest.is_empty()
    }

    /// What is left. The cursor stays.
    #[inline]
    pub fn rest(&self) -> &'a [u8]
        ensures { result.now ≡ self.now }
    {
        self.rest
    }

    /// INT8: one byte, two's complement.
    #[inline]
    pub fn i8(&mut self) -> Result<i8, WireFault>
        ensures { Gives ((int w8).read self.old) self.old result self.new }
    {
        let (value, rest) = bytes::i8_at(self.rest)?;
        self.rest = rest;
        Ok(value)
    }

    /// INT16: two bytes, the high byte first.
    pub fn i16(&mut self) -> Result<i16, WireFault>
        ensures { Gives ((int w16).read self.old) self.old result self.new }
    {
        let (value, rest) = bytes::i16_at(self.rest)?;
        self.rest = rest;
        Ok(value)
    }

    /// INT32: four bytes, the high byte first.
    pub fn i32(&mut self) -> Result<i32, WireFault>
        ensures { Gives ((int w32).read self.old) self.old result self.new }
    {
        let (value, rest) = bytes::i32_at(self.rest)?;
        self.rest = rest;
        Ok(value)
    }

    /// INT64: eight bytes, the high byte first.
    pub fn i64(&mut self) -> Result<i64, WireFault>
        ensures { Gives ((int w64).read self.old) self.old result self.new }
    {
        let (value, rest) = bytes::i64_at(self.rest)?;
        self.rest = rest;
        Ok(value)
    }

    /// BOOLEAN: one byte, where 0 is false and any other byte is true.
    pub fn boolean(&mut self) -> Result<bool, WireFault>
        ensures { Gives (boolean.read self.old) self.old result self.new }
    {
        let (value, rest) = bytes::boolean_at(self.rest)?;
        self.rest = rest;
        Ok(value)
    }

    /// The count of an array: an INT32. A negative one is `Bad`.
    pub fn count(&mut self) -> Result<u32, WireFault>
        ensures { Gives ((count w32).read self.old) self.old result self.new }
    {
        let (value, rest) = bytes::count_at(self.rest)?;
        self.rest = rest;
        Ok(value)
    }

    /// The count of an array that may be null: an INT32, -1 for null. Another negative one is `Bad`.
    pub fn nullable_count(&mut self) -> Result<Option<u32>, WireFault>
        ensures { Gives ((nullable_count w32).read self.old) self.old result self.new }
    {
        let (value, rest) = bytes::nullable_count_at(self.rest)?;
        self.rest = rest;
        Ok(value)
    }

    /// The next `n` bytes as they are.
    #[inline]
    pub fn take(&mut self, n: usize) -> Result<Blob<'a>, WireFault>
        ensures { Gives (octets.read n self.old) self.old result self.new }
    {
        let (value, rest) = bytes::octets_at(n, self.rest)?;
        self.rest = rest;
        Ok(Blob::new(value))
    }

    /// STRING: an INT16 length and so many bytes of UTF-8. A negative length is `Bad`; then missing bytes are `Short`; then bytes
    /// that are not UTF-8 are `Bad`.
    #[tactic(auto, unfolding(crate::specs::Codec::sized))]
    pub fn string(&mut self) -> Result<Text<'a>, WireFault>
        ensures { Gives (string.read self.old) self.old result self.new }
    {
        let (length, rest) = bytes::length_at(self.rest)?;
        let (value, rest) = bytes::utf8_at(length, rest)?;
        self.rest = rest;
        Ok(Text::new(value))
    }

    /// BYTES: an INT32 length and so many bytes. A negative length is `Bad`.
    #[tactic(auto, unfolding(crate::specs::Codec::sized))]
    pub fn blob(&mut self) -> Result<Blob<'a>, WireFault>
        ensures { Gives (blob.read self.old) self.old result self.new }
    {
        let (length, rest) = bytes::count_at(self.rest)?;
        let (value, rest) = bytes::octets_at(length as usize, rest)?;
        self.rest = rest;
        Ok(Blob::new(value))
    }

    /// NULLABLE_STRING: a STRING, or the length -1 for null.
    #[tactic(auto, unfolding(crate::specs::Codec::nullable))]
    pub fn nullable_string(&mut self) -> Result<Option<Text<'a>>, WireFault>
        ensures { Gives (nullable_string.read self.old) self.old result self.new }
    {
        let (length, rest) = bytes::nullable_length_at(self.rest)?;
        match length {
            None => {
                self.rest = rest;
                Ok(None)
            }
            Some(length) => {
                let (value, rest) = bytes::utf8_at(length, rest)?;
                self.rest = rest;
                Ok(Some(Text::new(value)))
            }
        }
    }

    /// NULLABLE_BYTES: BYTES, or the length -1 for null.
    #[tactic(auto, unfolding(crate::specs::Codec::nullable))]
    pub fn nullable_blob(&mut self) -> Result<Option<Blob<'a>>, WireFault>
        ensures { Gives (nullable_blob.read self.old) self.old result self.new }
    {
        let (length, rest) = bytes::nullable_count_at(self.rest)?;
        match length {
            None => {
                self.rest = rest;
                Ok(None)
            }
            Some(length) => {
                let (value, rest) = bytes::octets_at(length as usize, rest)?;
                self.rest = rest;
                Ok(Some(Blob::new(value)))
            }
        }
    }

    /// VARINT: at most 5 bytes of seven bits, the low ones first, the top bit set where more follow, and zigzag. A longer spelling than
    /// need be is read. A number past 32 bits or a sixth byte is `Bad`.
    #[inline]
    pub fn varint(&mut self) -> Result<i32, WireFault>
        ensures { Gives (varint.read self.old) self.old result self.new }
    {
        let (value, rest) = varint::varint_at(self.rest)?;
        self.rest = rest;
        Ok(value)
    }

    /// VARLONG: the same with at most 10 bytes and 64 bits.
    #[inline]
    pub fn varlong(&mut self) -> Result<i64, WireFault>
        ensures { Gives (varlong.read self.old) self.old result self.new }
    {
        let (value, rest) = varint::varlong_at(self.rest)?;
        self.rest = rest;
        Ok(value)
    }
}
