//! What is written of a text.

ghost use Rattle.std.specs.Prelude.{◌≡◌, IfErr, OnOk, OnErr};
ghost use Rattle.std.specs.Io.KnownBytes.{Appends};
ghost use Rattle.kb_operator.specs.Written.{WritesFront};

use crate::fault::OperatorFault;
use std::io::{ErrorKind, Write};

/// Writes a text. After a fault some front of it has been written.
pub(crate) fn write_text<W: Write>(writer: &mut W, text: &str) -> Result<(), OperatorFault>
    ensures ok { OnOk result (Appends (W.contents writer.old) (W.contents writer.new) text.now) }
    ensures err { OnErr result (WritesFront text.now (W.contents writer.old) (W.contents writer.new)) }
    ensures fault { IfErr result (λ fault. fault ≡ OperatorFault.Write) }
{
    write_bytes(writer, text.as_bytes())
}

/// Writes bytes. After a fault some front of them has been written.
pub(crate) fn write_bytes<W: Write>(writer: &mut W, bytes: &[u8]) -> Result<(), OperatorFault>
    ensures ok { OnOk result (Appends (W.contents writer.old) (W.contents writer.new) bytes.now) }
    ensures err { OnErr result (WritesFront bytes.now (W.contents writer.old) (W.contents writer.new)) }
    ensures fault { IfErr result (λ fault. fault ≡ OperatorFault.Write) }
{
    let mut rest = bytes;
    for _ in 0..u64::MAX {
        if rest.is_empty() {
            return Ok(());
        }
        match writer.write(rest) {
            Ok(0) => return Err(OperatorFault::Write),
            Ok(n) => rest = &rest[n..],
            Err(e) => {
                if e.kind() != ErrorKind::Interrupted {
                    return Err(OperatorFault::Write);
                }
            }
        }
    }
    Err(OperatorFault::Write)
}
