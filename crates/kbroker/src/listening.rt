//! Where a broker listens, and what it says when clients can connect.

ghost use Rattle.std.specs.Prelude.{◌≡◌, IfOk, None, string_bytes, vec_len};
ghost use Rattle.kbroker.specs.Ended.{memory};
ghost use Rattle.kbroker.specs.Lines.{listening_line};

use crate::Fault;
use crate::writing::write_text;
use kb_broker::Broker;
use kb_log::PartitionLog;
use kb_node::{
    BindRefused, Edge, Limits, Settings, SocketShares, Store, input_shares, reply_shares,
};
use kb_operator::{OperatorFault, address_text, addresses_text, listen_fault};
use kb_version::VERSION;
use std::alloc::{AllocError, Global};
use std::io;
use std::net::Net;

/// Listens in a network on every address of the settings' host. Nobody is connected yet, and the broker is as it was handed over.
pub fn listen<R: Net, S: Store + Drop, L: PartitionLog + Drop>(
    rt: &HostRuntime,
    net: &R,
    broker: Broker<S, L>,
    settings: &Settings,
) -> Result<Edge<R, S, L>, Fault>
    ensures host { IfOk result (λ edge. (edge.host.broker ≡ broker) × (edge.host.tried ≡ broker.state.last)) }
    ensures fault { IfOk result (λ edge. edge.host.commits.fault ≡ None) }
    ensures sync { IfOk result (λ edge. edge.host.commits.sync ≡ settings.now.sync) }
    ensures empty { IfOk result (λ edge. vec_len edge.sockets ≡ 0) }
{
    let alloc = rt.alloc();
    let address = address_text(alloc, &settings.host, settings.port)?;
    let Ok(shares) = SocketShares::of(alloc, settings) else {
        return Err(Fault::Operator(OperatorFault::Memory));
    };
    let Ok(replies) = reply_shares(alloc, settings) else {
        return Err(Fault::Operator(OperatorFault::Memory));
    };
    let Ok(inputs) = input_shares(alloc, settings) else {
        return Err(Fault::Operator(OperatorFault::Memory));
    };
    match Edge::watching(net, alloc, broker, &address, Limits::of(settings)) {
        Ok(mut edge) => {
            edge.share(shares, replies, inputs);
            let tenants = edge.broker().tenants_len();
            edge.count_reader_waits(alloc, tenants)?;
            Ok(edge)
        }
        Err(refused) => Err(not_bound(alloc, &address, &refused)),
    }
}

/// The fault of a broker that cannot listen.
fn not_bound<S: Store, L: PartitionLog>(
    alloc: Global,
    address: &str,
    refused: &BindRefused<S, L>,
) -> Fault
    ensures { refused.now.cause ≡ None → result ≡ memory }
{
    Fault::Operator(match &refused.cause {
        Some(cause) => listen_fault(alloc, address, cause.address, &cause.error),
        // Where nothing stood in the way, memory was refused.
        None => OperatorFault::Memory,
    })
}

/// Prints a line with the addresses, the version and the data folder.
pub fn tell_listening<R: Net, S: Store, L: PartitionLog + Drop>(
    rt: &HostRuntime,
    edge: &Edge<R, S, L>,
    folder: &str,
) -> Result<(), Fault> {
    let alloc = rt.alloc();
    let addresses = addresses_text(alloc, edge.addresses())?;
    let line = listening_line(alloc, &addresses, VERSION, folder)?;
    write_text(&line, &mut io::writer(rt))
}

/// The line of a broker of a version that listens on those addresses, with its data in a folder.
fn listening_line(
    alloc: Global,
    addresses: &str,
    version: &str,
    folder: &str,
) -> Result<String, AllocError>
    ensures { IfOk result (λ line. string_bytes line ≡ listening_line addresses.now version.now folder.now) }
{
    format!(in alloc; "listening on {addresses}: kbroker {version}, data in {folder}\n")
}
