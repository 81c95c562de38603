//! Why a session comes to nothing.

ghost use Rattle.std.specs.Prelude.{◌≡◌};

use crate::names::code_name;
use kb_wire::{ReadFault, WireFault};
use std::alloc::AllocError;
use std::fmt;
use std::fmt::{Display, Formatter, Write};

/// Why a session comes to nothing.
#[derive(Clone, Copy, Debug, PartialEq, Eq)]
pub enum AdminFault {
    /// The broker refused what was asked, with this error code.
    Refused(i16),
    /// The broker sent what is no reply to the request that waits for one.
    Protocol,
    /// Memory ran out.
    Memory,
}

impl Display for AdminFault {
    ghost use Rattle.std.specs.Prelude.{Some};
    ghost use Rattle.kb_admin.specs.Faults.{fault_text};

    ghost output = { λ fault. Some (fault_text fault) };

    fn fmt<W: Write>(&self, f: &mut Formatter<W>) -> fmt::Result {
        match self {
            AdminFault::Refused(code) => match code_name(*code) {
                Some(name) => f.write_str(name),
                None => write!(f, "the broker answered error code {code}"),
            },
            AdminFault::Protocol => f.write_str(
                "what the broker sent is no reply to what was asked",
            ),
            AdminFault::Memory => f.write_str("out of memory"),
        }
    }
}

impl From<AllocError> for AdminFault {
    ghost use Rattle.kb_admin.specs.declared.fault.AdminFault.TheVariants.{Memory};

    ghost from_gives = { λ _ e. e ≡ Memory };

    fn from(_error: AllocError) -> AdminFault {
        AdminFault::Memory
    }
}

impl From<WireFault> for AdminFault {
    ghost use Rattle.kb_admin.specs.declared.fault.AdminFault.TheVariants.{Protocol};

    ghost from_gives = { λ _ e. e ≡ Protocol };

    fn from(_error: WireFault) -> AdminFault {
        AdminFault::Protocol
    }
}

impl From<ReadFault> for AdminFault {
    ghost use Rattle.kb_admin.specs.Session.{read_fault};

    ghost from_gives = { λ fault e. e ≡ read_fault fault };

    fn from(error: ReadFault) -> AdminFault {
        match error {
            ReadFault::Memory => AdminFault::Memory,
            ReadFault::Wire(_) => AdminFault::Protocol,
        }
    }
}
