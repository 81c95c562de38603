//! Values that have a spelling, and what is proved of each at once.

ghost use Rattle.std.specs.Prelude.{◌≡◌, ◌++◌, ◌+◌, ◌≤◌, IsOk, OnOk, OnErr, IfOk, length, take, List, ℕ, Ok};
ghost use Rattle.kb_wire.specs.Codec.{Codec, whole};
ghost use Rattle.kb_wire.specs.Laws.{IsLawful, OneValue, BadStays, ShortEnds};
ghost use Rattle.kb_wire.specs.Reads.{Reads, ReadsWhole};
ghost use Rattle.kb_wire.specs.Sunk.{Writes};

use crate::cursor::Cursor;
use crate::fault::{ReadFault, WireFault};
use crate::sink::Sink;
use std::alloc::{AllocError, Global};

/// A value that is spelled in bytes: a primitive, or fields one after another.
///
/// An `impl` names the codec and gives the proof that it is lawful; it reads and writes field by field. `read` and `write`
/// then hold for the whole value.
pub trait Layout<'a>: Sized + Drop {
    /// How it is spelled.
    ghost codec: { Codec Self };

    /// Reads one from the front of what is left.
    fn read_from(alloc: Global, cursor: &mut Cursor<'a>) -> Result<Self, ReadFault>
        ensures { Reads (codec.read cursor.old) result cursor.new };

    /// Writes it at the end. An `Err` may leave a front of it there.
    fn write_to(&self, sink: &mut Sink) -> Result<(), AllocError>
        requires { codec.Fits self.now }
        ensures { Writes codec sink.old self.now result sink.new };

    /// The codec keeps the laws.
    ghost lawful: { IsLawful codec };

    /// The value that the bytes spell, all of the bytes. Texts and bytes in it are borrowed.
    ///
    /// A refusal is the first fault from left to right; bytes that are left over are `Bad`.
    final fn read(alloc: Global, bytes: &'a [u8]) -> Result<Self, ReadFault>
        // What is read is spelled so.
        ensures found { IfOk result (λ v. codec.Spells bytes.now v) }
        // What is read can be written.
        ensures fits { IfOk result (λ v. codec.Fits v) }
        // What is spelled so is read, unless memory runs out.
        ensures only { (v : Self) → codec.Spells bytes.now v → ReadsWhole (Ok v) result }
        // Which fault it is.
        ensures exact { ReadsWhole (whole codec bytes.now) result }
    {
        read_whole(alloc, bytes)
    }

    /// Writes the spelling at the end. The lengths and counts of the value must fit their fields.
    ///
    /// An `Err` leaves the bytes that were written before.
    final fn write(&self, sink: &mut Sink) -> Result<(), AllocError>
        requires { codec.Fits self.now }
        ensures ok { OnOk result (sink.new.bytes ≡ sink.old.bytes ++ codec.written self.now) }
        // What is written is a spelling of it, so it is read again.
        ensures spelled { OnOk result (codec.Spells (codec.written self.now) self.now) }
        // Within the room it succeeds, and takes no more of it than the spelling.
        ensures succeeds { length (codec.written self.now) ≤ sink.old.room → IsOk result }
        ensures room { OnOk result (sink.old.room ≤ sink.new.room + length (codec.written self.now)) }
        // A refused write leaves the bytes, and no less room.
        ensures err { OnErr result (sink.new.bytes ≡ sink.old.bytes) }
        ensures err_room { OnErr result (sink.old.room ≤ sink.new.room) }
    {
        let start = sink.len();
        let written = self.write_to(sink);
        if written.is_err() {
            sink.truncate(start);
        }
        written
    }
}

fn read_whole<'a, T: Layout<'a>>(alloc: Global, bytes: &'a [u8]) -> Result<T, ReadFault>
    ensures { ReadsWhole (whole T.codec bytes.now) result }
{
    let mut cursor = Cursor::new(bytes);
    let value = T::read_from(alloc, &mut cursor)?;
    if !cursor.at_end() {
        return Err(ReadFault::Wire(WireFault::Bad));
    }
    Ok(value)
}

/// No bytes spell two values, and no spelling begins another: from the front of any bytes at most one value can be read.
pub fn one_value<'a, T: Layout<'a>>()
    ensures { OneValue T.codec }
{}

/// A front that is `Bad` stays so whatever follows it, and `Short` is said only where bytes are missing.
pub fn faults_stand<'a, T: Layout<'a>>()
    ensures bad { BadStays T.codec }
    ensures short { ShortEnds T.codec }
{}

/// Each value that is spelled has the written spelling too: what was read is written so, and read again.
pub fn written_is_spelled<'a, T: Layout<'a>>()
    ensures { (x : List ℕ) (v : T) → T.codec.Spells x v → T.codec.Spells (T.codec.written v) v }
{}
