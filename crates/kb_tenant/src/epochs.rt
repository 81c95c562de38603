//! Epochs of leaders, which some versions tell beside a partition (Kafka protocol guide, "The Messages").
ghost use Rattle.std.specs.Prelude.{◌≡◌, ◌++◌, OnOk};
ghost use Rattle.kb_tenant.specs.Epochs.{epoch_in};

use kb_wire::Sink;
use std::alloc::AllocError;

/// Writes that no epoch of a leader is known, in a version that tells one.
pub(crate) fn put_epoch(has_epochs: bool, sink: &mut Sink) -> Result<(), AllocError>
    ensures { OnOk result (sink.new.bytes ≡ sink.old.bytes ++ epoch_in has_epochs) }
{
    if has_epochs {
        return sink.put_i32(-1);
    }
    Ok(())
}
