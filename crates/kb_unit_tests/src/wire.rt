//! What is written, and its memory.

use kb_wire::{Array, Layout, Sink, Text};
use std::test::*;

#[test]
fn arrays_grow(rt: HostRuntime) -> Result<(), Fail> {
    let mut names = Array::from_vec(Array::new(rt.alloc()).into_vec());
    names.push(Text::new("b"))?;
    assert_eq!(rt; names.as_slice().len(), 1);
    Ok(())
}

#[test]
#[tactic(auto, unfolding(kb_wire::specs::Codec::nullable, kb_wire::specs::Codec::nullable_counted, kb_wire::specs::Codec::int, kb_wire::specs::Codec::items))]
fn sinks(rt: HostRuntime) -> Result<(), Fail> {
    let mut sink = Sink::from_vec(Vec::new(rt.alloc()));
    assert!(rt; sink.is_empty());
    sink.reserve(8)?;
    assert!(rt; sink.room() >= 8);
    let none: Option<Array<i32>> = None;
    none.write(&mut sink)?;
    7i32.write(&mut sink)?;
    assert!(rt; sink.reserve(usize::MAX).is_err());
    assert_eq!(rt; sink.len(), 8);
    sink.truncate(6);
    assert_eq!(rt;
        sink.into_vec().as_slice(),
        [0xff, 0xff, 0xff, 0xff, 0, 0].as_slice()
    );
    Ok(())
}
