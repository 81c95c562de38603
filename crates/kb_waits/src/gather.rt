//! The list that answers are put into.
ghost use Rattle.std.specs.Prelude.{◌≡◌, ◌≤◌, ◌+◌, ◌++◌, OnOk, OnErr, IfOk, IsOk, vec_len, vec_capacity, []};
ghost use Rattle.std.specs.BTreeSet.{btree_set_len, IsOrdered};
ghost use Rattle.std.specs.Ordering.{nat_cmp};
ghost use Rattle.kb_waits.specs.Due.{due_of};
ghost use Rattle.kb_waits.specs.Waiters.{AreWaiting};

use crate::key::WaitKey;
use crate::waiters::Waiters;
use std::alloc::AllocError;
use std::collections::BTreeSet;

/// Empties `out`, and gives it room for so many numbers. After an `Err` it has what it had.
pub(crate) fn clear_with_room(out: &mut Vec<u64>, room: usize) -> Result<(), AllocError>
    ensures cleared { OnOk result (out.new.items ≡ []) }
    ensures room { OnOk result (room ≤ vec_capacity out.new) }
    ensures grown { vec_capacity out.old ≤ vec_capacity out.new }
    ensures succeeds { room ≤ vec_capacity out.old → IsOk result }
    ensures refused { OnErr result (out.new.items ≡ out.old.items) }
{
    if out.capacity() < room {
        out.reserve(room.saturating_sub(out.len()))?;
    }
    out.clear();
    Ok(())
}

/// Puts the connections whose deadline is the clock or earlier behind what is in `out`, which has
/// room.
pub(crate) fn push_due(deadlines: &BTreeSet<(u64, u64)>, clock: u64, out: &mut Vec<u64>)
    requires { vec_len out.old + btree_set_len deadlines.now ≤ vec_capacity out.old }
    ensures pushed { out.new.items ≡ out.old.items ++ due_of clock deadlines.now.keys }
    ensures capacity { vec_capacity out.new ≡ vec_capacity out.old }
{
    for pair in deadlines {
        let (deadline, connection) = *pair;
        if deadline > clock {
            return;
        }
        out.push_reserved(connection);
    }
}

/// Puts the connections of a set behind what is in `out`, which has room.
pub(crate) fn push_all(set: &BTreeSet<u64>, out: &mut Vec<u64>)
    requires { vec_len out.old + btree_set_len set.now ≤ vec_capacity out.old }
    ensures pushed { out.new.items ≡ out.old.items ++ set.now.keys }
    ensures capacity { vec_capacity out.new ≡ vec_capacity out.old }
{
    for connection in set {
        out.push_reserved(*connection);
    }
}

/// The connections that wait for the keys, once for each key that they wait for.
pub(crate) fn collect(waiters: &Waiters, keys: &[WaitKey]) -> Result<Vec<u64>, AllocError>
    ensures { IfOk result (λ found. AreWaiting waiters.now keys.now found.items) }
{
    let mut found = Vec::new(waiters.alloc);
    for key in keys {
        if let Some(set) = waiters.sets.get(key) {
            found.reserve(set.len())?;
            push_all(set, &mut found);
        }
    }
    Ok(found)
}
