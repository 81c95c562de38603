//! The primitives as layouts.

use crate::cursor::Cursor;
use crate::fault::ReadFault;
use crate::layout::Layout;
use crate::sink::Sink;
use crate::text::{Blob, Text};
use std::alloc::{AllocError, Global};

impl<'a> Layout<'a> for i8 {
    ghost use Rattle.kb_wire.specs.Codec.{int8};
    ghost use Rattle.kb_wire.specs.Laws.{int8_lawful};

    ghost codec = { int8 };

    ghost lawful = { int8_lawful };

    fn read_from(_alloc: Global, cursor: &mut Cursor<'a>) -> Result<i8, ReadFault> {
        Ok(cursor.i8()?)
    }

    #[tactic(auto, using(crate::specs::Sunk::adds_put), unfolding(crate::specs::Codec::int))]
    fn write_to(&self, sink: &mut Sink) -> Result<(), AllocError> {
        sink.put_i8(*self)
    }
}

impl<'a> Layout<'a> for i16 {
    ghost use Rattle.kb_wire.specs.Codec.{int16};
    ghost use Rattle.kb_wire.specs.Laws.{int16_lawful};

    ghost codec = { int16 };

    ghost lawful = { int16_lawful };

    fn read_from(_alloc: Global, cursor: &mut Cursor<'a>) -> Result<i16, ReadFault> {
        Ok(cursor.i16()?)
    }

    #[tactic(auto, using(crate::specs::Sunk::adds_put), unfolding(crate::specs::Codec::int))]
    fn write_to(&self, sink: &mut Sink) -> Result<(), AllocError> {
        sink.put_i16(*self)
    }
}

impl<'a> Layout<'a> for i32 {
    ghost use Rattle.kb_wire.specs.Codec.{int32};
    ghost use Rattle.kb_wire.specs.Laws.{int32_lawful};

    ghost codec = { int32 };

    ghost lawful = { int32_lawful };

    fn read_from(_alloc: Global, cursor: &mut Cursor<'a>) -> Result<i32, ReadFault> {
        Ok(cursor.i32()?)
    }

    #[tactic(auto, using(crate::specs::Sunk::adds_put), unfolding(crate::specs::Codec::int))]
    fn write_to(&self, sink: &mut Sink) -> Result<(), AllocError> {
        sink.put_i32(*self)
    }
}

impl<'a> Layout<'a> for i64 {
    ghost use Rattle.kb_wire.specs.Codec.{int64};
    ghost use Rattle.kb_wire.specs.Laws.{int64_lawful};

    ghost codec = { int64 };

    ghost lawful = { int64_lawful };

    fn read_from(_alloc: Global, cursor: &mut Cursor<'a>) -> Result<i64, ReadFault> {
        Ok(cursor.i64()?)
    }

    #[tactic(auto, using(crate::specs::Sunk::adds_put), unfolding(crate::specs::Codec::int))]
    fn write_to(&self, sink: &mut Sink) -> Result<(), AllocError> {
        sink.put_i64(*self)
    }
}

impl<'a> Layout<'a> for Text<'a> {
    ghost use Rattle.kb_wire.specs.Codec.{string};
    ghost use Rattle.kb_wire.specs.Laws.{string_lawful};

    ghost codec = { string };

    ghost lawful = { string_lawful };

    fn read_from(_alloc: Global, cursor: &mut Cursor<'a>) -> Result<Text<'a>, ReadFault> {
        Ok(cursor.string()?)
    }

    #[tactic(auto, using(crate::specs::Sunk::adds_put), unfolding(crate::specs::Codec::sized, crate::specs::Codec::counted, crate::specs::Codec::utf8))]
    fn write_to(&self, sink: &mut Sink) -> Result<(), AllocError> {
        sink.put_string(self.as_str())
    }
}

impl<'a> Layout<'a> for Option<Text<'a>> {
    ghost use Rattle.kb_wire.specs.Codec.{nullable_string};
    ghost use Rattle.kb_wire.specs.Laws.{nullable_string_lawful};

    ghost codec = { nullable_string };

    ghost lawful = { nullable_string_lawful };

    fn read_from(_alloc: Global, cursor: &mut Cursor<'a>) -> Result<Option<Text<'a>>, ReadFault> {
        Ok(cursor.nullable_string()?)
    }

    #[tactic(auto, using(crate::specs::Sunk::adds_put), unfolding(crate::specs::Codec::nullable, crate::specs::Codec::nullable_counted, crate::specs::Codec::sized, crate::specs::Codec::counted, crate::specs::Codec::utf8))]
    fn write_to(&self, sink: &mut Sink) -> Result<(), AllocError> {
        match self {
            None => sink.put_i16(-1),
            Some(value) => sink.put_string(value.as_str()),
        }
    }
}

impl<'a> Layout<'a> for Blob<'a> {
    ghost use Rattle.kb_wire.specs.Codec.{blob};
    ghost use Rattle.kb_wire.specs.Laws.{blob_lawful};

    ghost codec = { blob };

    ghost lawful = { blob_lawful };

    fn read_from(_alloc: Global, cursor: &mut Cursor<'a>) -> Result<Blob<'a>, ReadFault> {
        Ok(cursor.blob()?)
    }

    #[tactic(auto, using(crate::specs::Sunk::adds_put), unfolding(crate::specs::Codec::sized, crate::specs::Codec::counted, crate::specs::Codec::octets))]
    fn write_to(&self, sink: &mut Sink) -> Result<(), AllocError> {
        sink.put_blob(self.as_slice())
    }
}

impl<'a> Layout<'a> for Option<Blob<'a>> {
    ghost use Rattle.kb_wire.specs.Codec.{nullable_blob};
    ghost use Rattle.kb_wire.specs.Laws.{nullable_blob_lawful};

    ghost codec = { nullable_blob };

    ghost lawful = { nullable_blob_lawful };

    fn read_from(_alloc: Global, cursor: &mut Cursor<'a>) -> Result<Option<Blob<'a>>, ReadFault> {
        Ok(cursor.nullable_blob()?)
    }

    #[tactic(auto, using(crate::specs::Sunk::adds_put), unfolding(crate::specs::Codec::nullable, crate::specs::Codec::nullable_counted, crate::specs::Codec::sized, crate::specs::Codec::counted, crate::specs::Codec::octets))]
    fn write_to(&self, sink: &mut Sink) -> Result<(), AllocError> {
        sink.put_nullable_blob(self)
    }
}

impl<'a> Layout<'a> for bool {
    ghost use Rattle.kb_wire.specs.Codec.{boolean};
    ghost use Rattle.kb_wire.specs.Laws.{boolean_lawful};

    ghost codec = { boolean };

    ghost lawful = { boolean_lawful };

    fn read_from(_alloc: Global, cursor: &mut Cursor<'a>) -> Result<bool, ReadFault> {
        Ok(cursor.boolean()?)
    }

    #[tactic(auto, using(crate::specs::Sunk::adds_put), unfolding(crate::specs::Codec::boolean))]
    fn write_to(&self, sink: &mut Sink) -> Result<(), AllocError> {
        sink.put_boolean(*self)
    }
}
