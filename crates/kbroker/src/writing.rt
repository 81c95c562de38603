//! What the program writes, and hands on.

ghost use Rattle.std.specs.Prelude.{◌≡◌, ◌⊎◌, Err, IfErr, IsOk, OnOk};
ghost use Rattle.std.specs.Io.KnownBytes.{Appends, Keeps};
ghost use Rattle.kbroker.specs.Ended.{unwritten};

use crate::Fault;
use kb_operator::OperatorFault;
use std::io::Write;

/// Writes a text. The fault is that of a refused write.
pub fn write_text<W: Write>(text: &str, writer: &mut W) -> Result<(), Fault>
    ensures ok { OnOk result (Appends (W.contents writer.old) (W.contents writer.new) text.now) }
    ensures err { IfErr result (λ fault. fault ≡ unwritten) }
{
    match writer.write_all(text.as_bytes()) {
        Ok(()) => Ok(()),
        Err(_) => Err(Fault::Operator(OperatorFault::Write)),
    }
}

/// Hands on what was written, before a fault too, and answers what that came to. Where it is refused, that is the fault.
pub fn hand_on<W: Write>(writer: &mut W, written: Result<(), Fault>) -> Result<(), Fault>
    ensures bytes { Keeps (W.contents writer.old) (W.contents writer.new) }
    ensures ok { OnOk result (IsOk written) }
    ensures err { IfErr result (λ fault. (fault ≡ unwritten) ⊎ (written ≡ Err fault)) }
{
    if writer.flush().is_err() {
        return Err(Fault::Operator(OperatorFault::Write));
    }
    written
}
