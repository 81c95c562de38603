//! What is written of all connections.

ghost use Rattle.std.specs.Prelude.{◌≡◌, length, IfOk, IfErr, OnOk};
ghost use Rattle.std.specs.Io.KnownBytes.{Appends};
ghost use Rattle.kb_broker.specs.Hosts.{IsReadyOn};
ghost use Rattle.kb_broker.specs.Script.{step_text};
ghost use Rattle.kb_broker.specs.ScriptRun.{hushed, shut_marks, said_since, IsUnwritten};

use super::ScriptFault;
use super::answer::{answer_of, write_all};
use crate::broker::Broker;
use kb_log::PartitionLog;
use kb_store::Store;
use std::alloc::{AllocError, Global};
use std::io::Write;

/// Whether each connection is shut, by place.
pub fn shut_places<S: Store, L: PartitionLog + Drop>(
    alloc: Global,
    broker: &Broker<S, L>,
) -> Result<Vec<bool>, AllocError>
    ensures { IfOk result (λ marks. marks.items ≡ shut_marks broker.now.state.lines) }
{
    broker
        .connections()
        .iter()
        .map(|connection| connection.is_shut())
        .collect(alloc)
}

/// Takes the output of all connections, and writes what each got and whether it is shut where it was not, by rising number.
pub fn say<S: Store, L: PartitionLog + Drop, W: Write>(
    alloc: Global,
    broker: &mut Broker<S, L>,
    writer: &mut W,
    were_shut: &[bool],
) -> Result<(), ScriptFault>
    requires ready { IsReadyOn S.disk broker.old }
    requires places { length were_shut.now ≡ length broker.old.state.lines }
    ensures store { broker.new.store ≡ broker.old.store }
    ensures state { OnOk result (broker.new.state ≡ hushed broker.old.state) }
    ensures text { OnOk result (Appends (W.contents writer.old) (W.contents writer.new)
        (step_text (said_since were_shut.now broker.old.state.lines))) }
    ensures err { IfErr result (λ fault. IsUnwritten fault (step_text (said_since were_shut.now broker.old.state.lines))
        (W.contents writer.old) (W.contents writer.new)) }
{
    let Ok(text) = take_text(alloc, broker, were_shut) else {
        return Err(ScriptFault::Memory);
    };
    write_all(writer, &text)
}

/// Takes the output of all connections, and spells it.
fn take_text<S: Store, L: PartitionLog + Drop>(
    alloc: Global,
    broker: &mut Broker<S, L>,
    were_shut: &[bool],
) -> Result<Vec<u8>, AllocError>
    requires ready { IsReadyOn S.disk broker.old }
    requires places { length were_shut.now ≡ length broker.old.state.lines }
    ensures store { broker.new.store ≡ broker.old.store }
    ensures state { OnOk result (broker.new.state ≡ hushed broker.old.state) }
    ensures text { IfOk result (λ text. text.items ≡ step_text (said_since were_shut.now broker.old.state.lines)) }
{
    let mut text = Vec::new(alloc);
    for i in 0..broker.connections().len() {
        let connection = &broker.connections()[i];
        if !connection.speaks() {
            continue;
        }
        let number = connection.number();
        let is_shut = connection.is_shut() && !were_shut[i];
        let output = broker.take_output(alloc, number);
        let answer = answer_of(alloc, number, &output, is_shut)?;
        text.extend_from_slice(&answer)?;
    }
    Ok(text)
}
