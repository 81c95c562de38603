//! Rows, and how they are written one behind the other.

ghost use Rattle.std.specs.Prelude.{◌≡◌, ◌++◌, List, OnOk, map, ℕ};
ghost use Rattle.std.specs.List.{flat_map};

use std::alloc::AllocError;

/// What has a text at a place `P`: in a family of samples, or on a page.
pub(crate) trait Row<P> {
    // what contracts see of it
    ghost Seen: { Type 0 };

    ghost seen: { Self → Seen };

    // the text of what is seen at that place
    ghost text: { P → Seen → List ℕ };

    /// Writes it at that place.
    fn push(&self, out: &mut Vec<u8>, place: P) -> Result<(), AllocError>
        ensures { OnOk result (out.new.items ≡ out.old.items ++ text place (seen self.now)) };
}

/// Writes rows at a place, one behind the other.
pub(crate) fn push_rows<P: Copy, R: Row<P>>(
    out: &mut Vec<u8>,
    place: P,
    rows: &[R],
) -> Result<(), AllocError>
    ensures { OnOk result (out.new.items ≡ out.old.items ++ flat_map (R.text place) (map R.seen rows.now)) }
{
    for row in rows {
        row.push(out, place)?;
    }
    Ok(())
}
