//! Why a task on topics comes to nothing.

ghost use Rattle.std.specs.Prelude.{◌≡◌};

use kb_admin::AdminFault;
use std::alloc::{AllocError, AllocFailed};
use std::fmt;
use std::fmt::{Display, Formatter};

/// Why a task on topics comes to nothing.
#[derive(Debug, Drop)]
pub enum TopicFault {
    /// What is wrong with the words of the command line.
    Words(&'static str),
    /// Memory was refused.
    Memory,
    /// There is no connection to this address: behind it stands why.
    Connect(String),
    /// The connection ended, or nothing came in time.
    Silent,
    /// What the broker answered, and what that says of what was asked.
    Admin(AdminFault, Option<String>),
    /// Standard output.
    Write,
}

impl Display for TopicFault {
    ghost use Rattle.std.specs.Prelude.{Some};
    ghost use Rattle.kb_topic_command.specs.Faults.{fault_text};

    ghost output = { λ fault. Some (fault_text fault) };

    fn fmt<W: fmt::Write>(&self, f: &mut Formatter<W>) -> fmt::Result {
        match self {
            TopicFault::Words(text) => f.write_str(*text),
            TopicFault::Memory => f.write_str("out of memory"),
            TopicFault::Connect(address) => write!(f, "cannot connect to {address}"),
            TopicFault::Silent => f.write_str(
                "the broker closed the connection, or did not answer",
            ),
            TopicFault::Admin(fault, None) => write!(f, "{fault}"),
            TopicFault::Admin(fault, Some(meaning)) => write!(f, "{fault}{meaning}"),
            TopicFault::Write => f.write_str("write fault"),
        }
    }
}

impl From<AllocError> for TopicFault {
    ghost use Rattle.kb_topic_command.specs.declared.fault.TopicFault.TheVariants.{Memory};

    ghost from_gives = { λ _ e. e ≡ Memory };

    fn from(_e: AllocError) -> TopicFault {
        TopicFault::Memory
    }
}

impl<T: Drop> From<AllocFailed<T>> for TopicFault {
    ghost use Rattle.kb_topic_command.specs.declared.fault.TopicFault.TheVariants.{Memory};

    ghost from_gives = { λ _ e. e ≡ Memory };

    fn from(_e: AllocFailed<T>) -> TopicFault {
        TopicFault::Memory
    }
}

impl From<AdminFault> for TopicFault {
    ghost use Rattle.kb_topic_command.specs.Faults.{of_admin};

    ghost from_gives = { λ fault e. e ≡ of_admin fault };

    fn from(e: AdminFault) -> TopicFault {
        match e {
            AdminFault::Memory => TopicFault::Memory,
            AdminFault::Refused(_) | AdminFault::Protocol => TopicFault::Admin(e, None),
        }
    }
}
