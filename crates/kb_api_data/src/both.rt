//! Layouts one behind the other: a version that has a field more than another is told by that one and the field.

use kb_wire::{Cursor, Layout, ReadFault, Sink};
use std::alloc::{AllocError, Global};

/// Two values, the second behind the first.
#[derive(Drop)]
pub struct Both<A, B> {
    pub first: A,
    pub second: B,
}

impl<'a, A: Layout<'a>, B: Layout<'a>> Layout<'a> for Both<A, B> {
    ghost use Rattle.kb_api_data.specs.Both.{both, both_lawful};

    ghost codec = { both A.codec B.codec };

    ghost lawful = { both_lawful A.lawful B.lawful };

    #[tactic(auto, unfolding(crate::specs::Both::both))]
    fn read_from(alloc: Global, cursor: &mut Cursor<'a>) -> Result<Both<A, B>, ReadFault> {
        Ok(Both {
            first: A::read_from(alloc, cursor)?,
            second: B::read_from(alloc, cursor)?,
        })
    }

    #[tactic(auto, unfolding(crate::specs::Both::both))]
    fn write_to(&self, sink: &mut Sink) -> Result<(), AllocError> {
        self.first.write_to(sink)?;
        self.second.write_to(sink)
    }
}
