//! Why the program ends early.

use crate::console::LineFault;
use kb_client::ClientFault;
use kb_wire::ErrorCode;
use std::alloc::{AllocError, AllocFailed};
use std::fmt::{Display, Formatter, Write};
use std::{fmt, io};

/// Why the program ends early.
#[derive(Debug, Drop)]
pub enum Fault {
    /// The command line, or a call for help.
    Words(clap::Error),
    /// There is no connection to this address after the retries.
    Connect(String),
    /// What a client ended with.
    Client(ClientFault),
    /// The line of this number has more than 1,000,000 bytes.
    LineTooLong(u64),
    /// A standard stream is closed, and nothing can be opened in its place.
    Streams(io::Error),
    /// Standard input.
    Read,
    /// Standard output.
    Write,
    /// Memory ran out.
    Memory,
}

impl Display for Fault {
    fn fmt<W: Write>(&self, f: &mut Formatter<W>) -> fmt::Result {
        match self {
            Fault::Words(e) => write!(f, "{e}"),
            Fault::Connect(address) => write!(f, "cannot connect to {address}"),
            Fault::Client(fault) => {
                write!(f, "{fault}")?;
                f.write_str(meaning(*fault))
            }
            Fault::LineTooLong(number) => write!(f, "line too long: {number}"),
            Fault::Streams(error) => write!(f, "cannot open /dev/null: {error}"),
            Fault::Read => f.write_str("read fault"),
            Fault::Write => f.write_str("write fault"),
            Fault::Memory => f.write_str("out of memory"),
        }
    }
}

/// What the error codes mean that a user may meet.
const MEANINGS: [(ErrorCode, &str); 6] = [
    (
        ErrorCode::OffsetOutOfRange,
        ": the offset is not in the partition",
    ),
    (
        ErrorCode::UnknownTopicOrPartition,
        ": there is no such topic or partition",
    ),
    (ErrorCode::InvalidTopic, ": the topic's name is not legal"),
    (
        ErrorCode::InvalidPartitions,
        ": the number of partitions is not legal",
    ),
    (
        ErrorCode::PolicyViolation,
        ": the tenant is at a limit of what it may have",
    ),
    (ErrorCode::KafkaStorageError, ": the broker's store failed"),
];

/// What a fault means, where it is an error code that a user may meet.
fn meaning(fault: ClientFault) -> &'static str {
    let ClientFault::Code(code) = fault else {
        return "";
    };
    for (error, meaning) in &MEANINGS {
        if error.code() == code {
            return *meaning;
        }
    }
    ""
}

impl From<AllocError> for Fault {
    fn from(_e: AllocError) -> Fault {
        Fault::Memory
    }
}

impl<T: Drop> From<AllocFailed<T>> for Fault {
    fn from(_e: AllocFailed<T>) -> Fault {
        Fault::Memory
    }
}

impl From<ClientFault> for Fault {
    fn from(e: ClientFault) -> Fault {
        match e {
            ClientFault::Memory => Fault::Memory,
            _ => Fault::Client(e),
        }
    }
}

impl From<LineFault> for Fault {
    fn from(e: LineFault) -> Fault {
        match e {
            LineFault::Words(e) => Fault::Words(e),
            LineFault::Memory => Fault::Memory,
        }
    }
}
