//! How far a client is with its connection.

ghost use Rattle.std.specs.Prelude.{◌≡◌};
ghost use Rattle.kb_client.specs.Stages.{fault_of, ending_fault};

use crate::fault::ClientFault;

/// Under what a broker knows the batches of a producer.
#[derive(Clone, Copy, Debug, PartialEq, Eq)]
pub struct ProducerId {
    pub id: i64,
    pub epoch: i16,
}

/// What a client ended with, for good.
#[derive(Clone, Copy, Debug, PartialEq, Eq)]
pub enum Ending {
    /// The broker does not know the user with that password.
    Denied,
    /// The broker answered a request with this error code.
    Code(i16),
    /// The broker sent what is no reply to the request that waits for one.
    Protocol,
}

impl Ending {
    /// The fault that each call answers from then on.
    pub fn fault(self) -> ClientFault
        ensures { result ≡ ending_fault self }
    {
        match self {
            Ending::Denied => ClientFault::Denied,
            Ending::Code(code) => ClientFault::Code(code),
            Ending::Protocol => ClientFault::Protocol,
        }
    }
}

/// The request whose turn it is on a connection.
#[derive(Clone, Copy, Debug, PartialEq, Eq)]
pub enum Stage {
    /// There was no connection yet.
    Closed,
    /// SaslHandshake.
    Handshake,
    /// SaslAuthenticate.
    Authenticate,
    /// CreateTopics, with so many partitions.
    Create(i32),
    /// InitProducerId.
    Identify,
    /// Produce under this id, while there are lines.
    Produce(ProducerId),
    /// None: it ended.
    Ended(Ending),
}

impl Stage {
    /// The fault that it ended with.
    pub fn fault(self) -> Option<ClientFault>
        ensures { result ≡ fault_of self }
    {
        match self {
            Stage::Ended(ending) => Some(ending.fault()),
            Stage::Closed
            | Stage::Handshake
            | Stage::Authenticate
            | Stage::Create(_)
            | Stage::Identify
            | Stage::Produce(_) => None,
        }
    }
}
