//! What is written of a text.
ghost use Rattle.std.specs.Prelude.{◌≡◌, IfErr, OnOk, OnErr};
ghost use Rattle.std.specs.Io.KnownBytes.{Appends};
ghost use Rattle.kb_dump.specs.Dump.{WritesFront};

use crate::DumpFault;
use std::io::{ErrorKind, Write};

/// Writes a text. After a fault some front of it has been written.
pub fn write_all<W: Write>(writer: &mut W, text: &[u8]) -> Result<(), DumpFault>
    ensures ok { OnOk result (Appends (W.contents writer.old) (W.contents writer.new) text.now) }
    ensures err { OnErr result (WritesFront text.now (W.contents writer.old) (W.contents writer.new)) }
    ensures fault { IfErr result (λ fault. fault ≡ DumpFault.Write) }
{
    let mut rest = text;
    for _ in 0..u64::MAX {
        if rest.is_empty() {
            return Ok(());
        }
        match writer.write(rest) {
            Ok(0) => return Err(DumpFault::Write),
            Ok(n) => rest = &rest[n..],
            Err(e) => {
                if e.kind() != ErrorKind::Interrupted {
                    return Err(DumpFault::Write);
                }
            }
        }
    }
    Err(DumpFault::Write)
}
