//! Arrays: a count and the items.

ghost use Rattle.std.specs.Prelude.{◌≡◌, ◌↔◌, [], ◌∷◌, ◌++◌, OnOk, OnErr, length, IsTrue};
ghost use Rattle.kb_wire.specs.Codec.{items};
ghost use Rattle.kb_wire.specs.Reads.{Reads};
ghost use Rattle.kb_wire.specs.Sunk.{Adds};

use crate::cursor::Cursor;
use crate::fault::ReadFault;
use crate::layout::Layout;
use crate::sink::Sink;
use std::alloc::{AllocError, Global};
use std::marker::Model;

/// The items of an array, each a value with a layout of its own. A clause sees their list.
///
/// Reading reserves nothing by the count: memory grows with the items that are there.
#[derive(Drop)]
pub struct Array<T> {
    items: Vec<T>,
}

impl<T> Model for Array<T> {
    ghost use Rattle.std.specs.Prelude.{List};

    ghost Value = { List T };

    ghost view = { λ a. a.items.items };
}

impl<T> Array<T> {
    /// No items. It takes no memory.
    pub fn new(alloc: Global) -> Array<T>
        ensures { result ≡ [] }
    {
        Array {
            items: Vec::new(alloc),
        }
    }

    /// The items of a vector, in its memory.
    pub fn from_vec(items: Vec<T>) -> Array<T>
        ensures { result ≡ items.items }
    {
        Array { items }
    }

    /// The items as a vector, in the array's memory.
    pub fn into_vec(self) -> Vec<T>
        ensures { result.items ≡ self }
    {
        let Array { items } = self;
        items
    }

    /// The items.
    pub fn as_slice(&self) -> &[T]
        ensures { result.now ≡ self.now }
    {
        self.items.as_slice()
    }

    /// How many items there are.
    pub fn len(&self) -> usize
        ensures { result ≡ length self.now }
    {
        self.items.len()
    }

    /// Whether there is no item.
    pub fn is_empty(&self) -> bool
        ensures { IsTrue result ↔ (self.now ≡ []) }
    {
        self.items.is_empty()
    }
}

impl<T: Drop> Array<T> {
    /// Adds an item at the end. An `Err` drops it and leaves the items as they were.
    pub fn push(&mut self, item: T) -> Result<(), AllocError>
        ensures ok { OnOk result (self.new ≡ self.old ++ item ∷ []) }
        ensures err { OnErr result (self.new ≡ self.old) }
    {
        self.items.push(item)?;
        Ok(())
    }
}

impl<'a, T: Layout<'a>> Layout<'a> for Array<T> {
    ghost use Rattle.kb_wire.specs.Codec.{array};
    ghost use Rattle.kb_wire.specs.Laws.{array_lawful};

    ghost codec = { array T.codec };

    ghost lawful = { array_lawful T.codec T.lawful };

    #[tactic(auto, unfolding(crate::specs::Codec::sized))]
    fn read_from(alloc: Global, cursor: &mut Cursor<'a>) -> Result<Array<T>, ReadFault> {
        let count = cursor.count()?;
        read_items(alloc, count, cursor)
    }

    #[tactic(auto, using(crate::specs::Sunk::adds_put, crate::specs::Sunk::adds_both, crate::specs::Sunk::adds_stop), unfolding(crate::specs::Codec::sized, crate::specs::Codec::items, crate::specs::Codec::counted))]
    fn write_to(&self, sink: &mut Sink) -> Result<(), AllocError> {
        sink.put_count(self.items.len())?;
        write_items(&self.items, sink)
    }
}

impl<'a, T: Layout<'a>> Layout<'a> for Option<Array<T>> {
    ghost use Rattle.kb_wire.specs.Codec.{nullable_array};
    ghost use Rattle.kb_wire.specs.Laws.{nullable_array_lawful};

    ghost codec = { nullable_array T.codec };

    ghost lawful = { nullable_array_lawful T.codec T.lawful };

    #[tactic(auto, unfolding(crate::specs::Codec::nullable))]
    fn read_from(alloc: Global, cursor: &mut Cursor<'a>) -> Result<Option<Array<T>>, ReadFault> {
        match cursor.nullable_count()? {
            None => Ok(None),
            Some(count) => Ok(Some(read_items(alloc, count, cursor)?)),
        }
    }

    #[tactic(auto, using(crate::specs::Sunk::adds_put, crate::specs::Sunk::adds_both, crate::specs::Sunk::adds_stop), unfolding(crate::specs::Codec::nullable, crate::specs::Codec::items, crate::specs::Codec::counted, crate::specs::Codec::nullable_counted))]
    fn write_to(&self, sink: &mut Sink) -> Result<(), AllocError> {
        match self {
            None => sink.put_nullable_count(None),
            Some(array) => {
                sink.put_nullable_count(Some(array.items.len()))?;
                write_items(&array.items, sink)
            }
        }
    }
}

fn read_items<'a, T: Layout<'a>>(
    alloc: Global,
    count: u32,
    cursor: &mut Cursor<'a>,
) -> Result<Array<T>, ReadFault>
    ensures { Reads ((items T.codec).read count cursor.old) result cursor.new }
{
    let mut items = Array::new(alloc);
    for _ in 0..count {
        let item = T::read_from(alloc, cursor)?;
        items.push(item)?;
    }
    Ok(items)
}

fn write_items<'a, T: Layout<'a>>(list: &[T], sink: &mut Sink) -> Result<(), AllocError>
    requires { (items T.codec).Fits list.now }
    ensures { Adds ((items T.codec).written list.now) ((items T.codec).InRange list.now) sink.old result sink.new }
{
    for item in list {
        item.write_to(sink)?;
    }
    Ok(())
}
