//! Which connections have something to tell, and the room that is made for a new one.

ghost use Rattle.std.specs.Prelude.{◌≡◌, ◌≤◌, ◌++◌, ◌∷◌, [], length, false, OnOk, OnErr};
ghost use Rattle.std.specs.Vec.{vec_capacity};
ghost use Rattle.kb_connection.specs.View.{speaks};
ghost use Rattle.kb_broker.specs.Speakers.{IsHeard, IsRoomy, with_number};

use crate::able::Able;
use kb_connection::Connection;
use std::alloc::{AllocError, Global};

/// Puts a new connection behind the others, and makes room for its number among those that have something to tell, so that none is
/// ever missed for want of memory, and among those that may take a turn. After an `Err` none has changed.
pub fn add(
    connections: &mut Vec<Connection>,
    speakers: &mut Vec<u64>,
    able: &mut Able,
    connection: Connection,
) -> Result<(), AllocError>
    requires heard { IsHeard speakers.old connections.old.items }
    requires silent { speaks connection.session ≡ false }
    ensures ok { OnOk result (connections.new.items ≡ connections.old.items ++ connection ∷ []) }
    ensures err { OnErr result (connections.new.items ≡ connections.old.items) }
    ensures heard { IsHeard speakers.new connections.new.items }
    ensures room { OnOk result (length connections.new.items ≤ able.new.room) }
{
    speakers.reserve(connections.len() + 1)?;
    able.reserve(connections.len() + 1)?;
    match connections.push(connection) {
        Ok(()) => Ok(()),
        Err(e) => Err(AllocError::from(e)),
    }
}

/// Notes whether the connection of a number has something to tell. The numbers rise.
pub fn note(speakers: &mut Vec<u64>, number: u64, has_words: bool)
    requires { IsRoomy number has_words speakers.old }
    ensures items { speakers.new.items ≡ with_number number has_words speakers.old.items }
    ensures capacity { vec_capacity speakers.old ≤ vec_capacity speakers.new }
{
    match speakers.binary_search(&number) {
        Ok(i) if !has_words => {
            speakers.remove(i);
        }
        Err(i) if has_words => {
            let _ = speakers.insert(i, number); // there is room
        }
        _ => {}
    }
}
