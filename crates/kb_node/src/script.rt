//! A script of events.

ghost use Rattle.std.specs.Prelude.{◌≡◌, true, IfSome, IfErr, OnOk, IsOk};
ghost use Rattle.std.specs.Io.KnownBytes.{Keeps};
ghost use Rattle.kb_isolation_spec.specs.Broker.{IsReady};
ghost use Rattle.kb_isolation_spec.specs.Calls.{is_calm};
ghost use Rattle.kb_broker.specs.Hosts.{is_honest};
ghost use Rattle.kb_broker.specs.Opening.{opening};
ghost use Rattle.kb_broker.specs.Script.{script};
ghost use Rattle.kb_broker.specs.ScriptRun.{IsPlayed, IsQuiet};
ghost use Rattle.kb_node.specs.Node.{IsHalted, IsHaltedAt, IsScriptPlayed, IsScriptEnded, IsScriptStopped, IsScriptFault};

use crate::fault::NodeFault;
use kb_broker::{Broker, ScriptFault, Settings, run_script, run_script_on};
use kb_log::{ListLog, PartitionLog};
use kb_store::Store;
use std::alloc::Global;
use std::io::{BufRead, Write};

/// Runs a script over a broker with the standard settings, which keeps nothing on a disk.
///
/// What was written before a fault is handed on too; where that is refused, that is the fault. With no memory for the settings
/// nothing is read or written.
pub fn play_script<R: BufRead, W: Write>(
    alloc: Global,
    reader: &mut R,
    writer: &mut W,
) -> Result<(), NodeFault>
    ensures ok { OnOk result (IfSome (R.remaining reader.old) (λ text.
        IsScriptPlayed text (W.contents writer.old) (W.contents writer.new))) }
    ensures err { IfErr result (λ fault. IfSome (R.remaining reader.old) (λ text.
        IsScriptEnded text fault (W.contents writer.old) (W.contents writer.new))) }
    ensures stopped { IfErr result (λ fault. IfSome (R.remaining reader.old) (λ text.
        IsScriptStopped text (R.remaining reader.new) fault (W.contents writer.old) (W.contents writer.new))) }
{
    let settings = Settings::standard(alloc)?;
    play_script_with::<ListLog, _, _>(alloc, &settings, reader, writer)
}

/// Runs a script over a broker of those settings with logs of any kind, which keeps nothing on a disk: what is written is what
/// [`play_script`] says, of that broker.
pub fn play_script_with<L: PartitionLog + Drop, R: BufRead, W: Write>(
    alloc: Global,
    settings: &Settings,
    reader: &mut R,
    writer: &mut W,
) -> Result<(), NodeFault>
    ensures ok { OnOk result (IfSome (R.remaining reader.old) (λ text.
        IsPlayed (opening settings.now) (script (opening settings.now) text) (W.contents writer.old) (W.contents writer.new))) }
    ensures err { IfErr result (λ fault. IfSome (R.remaining reader.old) (λ text.
        IsHalted (opening settings.now) (script (opening settings.now) text) fault (W.contents writer.old) (W.contents writer.new))) }
    ensures stopped { IfErr result (λ fault. IfSome (R.remaining reader.old) (λ text.
        IsHaltedAt (opening settings.now) text (R.remaining reader.new) fault (W.contents writer.old) (W.contents writer.new))) }
{
    let ran = run_script::<L, _, _>(alloc, settings, reader, writer);
    hand_on(writer, ran)
}

/// Runs a script over a broker that is at rest, on any store and with logs of any kind: what is written is what [`play_script`] says,
/// of that broker, while the store is honest.
pub fn play_script_on<S: Store, L: PartitionLog + Drop, R: BufRead, W: Write>(
    alloc: Global,
    broker: &mut Broker<S, L>,
    reader: &mut R,
    writer: &mut W,
) -> Result<(), NodeFault>
    requires calm { is_honest S.disk broker.old → is_calm broker.old.state ≡ true }
    requires quiet { is_honest S.disk broker.old → IsQuiet broker.old.state }
    requires ready { is_honest S.disk broker.old → IsReady broker.old.state }
    ensures honest { is_honest S.disk broker.new → is_honest S.disk broker.old }
    ensures ok { is_honest S.disk broker.new
        → OnOk result (IfSome (R.remaining reader.old) (λ text.
        IsPlayed broker.old.state (script broker.old.state text) (W.contents writer.old) (W.contents writer.new))) }
    ensures err { is_honest S.disk broker.new
        → IfErr result (λ fault. IfSome (R.remaining reader.old) (λ text.
        IsHalted broker.old.state (script broker.old.state text) fault (W.contents writer.old) (W.contents writer.new))) }
    ensures stopped { is_honest S.disk broker.new → IfErr result (λ fault. IfSome (R.remaining reader.old) (λ text.
        IsHaltedAt broker.old.state text (R.remaining reader.new) fault (W.contents writer.old) (W.contents writer.new))) }
{
    let ran = run_script_on(alloc, broker, reader, writer);
    hand_on(writer, ran)
}

/// Hands on what a run has written, and answers what it came to.
fn hand_on<W: Write>(writer: &mut W, ran: Result<(), ScriptFault>) -> Result<(), NodeFault>
    ensures bytes { Keeps (W.contents writer.old) (W.contents writer.new) }
    ensures ok { OnOk result (IsOk ran) }
    ensures err { IfErr result (λ fault. IsScriptFault fault ran) }
{
    if writer.flush().is_err() {
        return Err(NodeFault::Write);
    }
    match ran {
        Ok(()) => Ok(()),
        Err(fault) => Err(NodeFault::Script(fault)),
    }
}
