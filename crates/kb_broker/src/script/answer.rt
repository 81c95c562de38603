//! What is written of a connection.

ghost use Rattle.std.specs.Prelude.{◌≡◌, ◌++◌, ℕ, List, IfOk, IfErr, OnOk, OnErr};
ghost use Rattle.std.specs.Io.KnownBytes.{Appends};
ghost use Rattle.kb_broker.specs.Script.{out_line, sent_text};

use super::ScriptFault;
use std::alloc::{AllocError, Global};
use std::io::{ErrorKind, Write};

/// What a connection got in a step, and whether it was shut in it.
pub fn answer_of(
    alloc: Global,
    connection: u64,
    output: &[u8],
    is_shut: bool,
) -> Result<Vec<u8>, AllocError>
    ensures { IfOk result (λ text. text.items ≡ sent_text connection output.now is_shut) }
{
    let mut text = out_line(alloc, connection, output)?;
    if !is_shut {
        return Ok(text);
    }
    let line = format!(in alloc; "shut {connection}\n")?;
    text.extend_from_slice(line.as_bytes())?;
    Ok(text)
}

/// What a connection got.
fn out_line(alloc: Global, connection: u64, output: &[u8]) -> Result<Vec<u8>, AllocError>
    ensures { IfOk result (λ text. text.items ≡ out_line connection output.now) }
{
    if output.is_empty() {
        return Ok(Vec::new(alloc));
    }
    let digits = hex::encode(alloc, output)?;
    let line = format!(in alloc; "out {connection} {digits}\n")?;
    Ok(line.into_bytes())
}

/// Writes a text. After a fault the front of it has been written.
pub fn write_all<W: Write>(writer: &mut W, text: &[u8]) -> Result<(), ScriptFault>
    ensures ok { OnOk result (Appends (W.contents writer.old) (W.contents writer.new) text.now) }
    ensures err { IfErr result (λ fault. fault ≡ ScriptFault.Write) }
    ensures front { OnErr result ((front : List ℕ) × (rest : List ℕ) × (text.now ≡ front ++ rest)
        × Appends (W.contents writer.old) (W.contents writer.new) front) }
{
    let mut rest = text;
    for _ in 0..u64::MAX {
        if rest.is_empty() {
            return Ok(());
        }
        match writer.write(rest) {
            Ok(0) => return Err(ScriptFault::Write),
            Ok(n) => rest = &rest[n..],
            Err(e) => {
                if e.kind() != ErrorKind::Interrupted {
                    return Err(ScriptFault::Write);
                }
            }
        }
    }
    Err(ScriptFault::Write)
}
