//! Why a program of a broker does not start.

ghost use Rattle.std.specs.Prelude.{◌≡◌, string_bytes};
ghost use Rattle.kb_operator.specs.Logged.{bytes_or_none};

use std::alloc::{AllocError, Global};
use thiserror::Error;

/// Why a program of a broker does not start: its text is the one line that the program tells.
#[derive(Debug, Drop, PartialEq, Eq, Error)]
pub enum OperatorFault {
    /// The file of the settings cannot be read, or it is no TOML document: behind it stands the file, and why.
    #[error("kbroker: cannot read settings{0}")]
    Settings(String),
    /// This key of the settings is wrong: behind it stands why.
    #[error("kbroker: bad settings: {0}{1}")]
    Field(String, String),
    /// The address cannot be listened on: behind it stands the address, and why.
    #[error("kbroker: cannot listen{0}")]
    Listen(String),
    /// The files of the data folder cannot be listed, read or written: behind it stands the file, and why.
    #[error("kbroker: store fault{0}")]
    Store(String),
    /// Another process serves the folder at this path.
    #[error("kbroker: another process serves {0}")]
    Held(String),
    /// No file of the folder at this path names a tenant.
    #[error("kbroker: no file in {0} names a tenant")]
    Nobody(String),
    /// What the system refuses, or has too little of.
    #[error("kbroker: {0}")]
    System(String),
    /// What was written could not be handed on.
    #[error("kbroker: write fault")]
    Write,
    /// Memory was refused.
    #[error("kbroker: out of memory")]
    Memory,
}

impl From<AllocError> for OperatorFault {
    ghost use Rattle.std.specs.Prelude.{◌≡◌};
    ghost use Rattle.kb_operator.specs.declared.fault.OperatorFault.TheVariants.{Memory};

    ghost from_gives = { λ _ e. e ≡ Memory };

    fn from(_e: AllocError) -> OperatorFault {
        OperatorFault::Memory
    }
}

/// What stands behind a fault: nothing where there is no memory for it.
pub fn behind_it(alloc: Global, text: Result<String, AllocError>) -> String
    ensures { string_bytes result ≡ bytes_or_none text }
{
    text.unwrap_or(String::new(alloc))
}
