//! Why a program of the broker ends early.

use crate::edge::{BindFault, BindRefused};
use kb_broker::{OpenFault, ScriptFault};
use kb_log::PartitionLog;
use kb_settings::SettingsFault;
use kb_store::Store;
use std::alloc::AllocError;
use thiserror::Error;

/// Why a program of the broker ends early: its text is the one line that the program prints on standard error.
#[derive(Clone, Copy, Debug, PartialEq, Eq, Error)]
pub enum NodeFault {
    /// A script ended early.
    #[error("kbroker: {0}")]
    Script(ScriptFault),
    /// What was written could not be handed on.
    #[error("kbroker: write fault")]
    Write,
    /// Memory was refused.
    #[error("kbroker: out of memory")]
    Memory,
}

impl From<AllocError> for NodeFault {
    ghost use Rattle.std.specs.Prelude.{◌≡◌};
    ghost use Rattle.kb_node.specs.declared.fault.NodeFault.TheVariants.{Memory};

    ghost from_gives = { λ _ e. e ≡ Memory };

    fn from(_e: AllocError) -> NodeFault {
        NodeFault::Memory
    }
}

/// Why a program of the broker does not start: its text is the one line that the program prints on standard error.
#[derive(Debug, Drop, PartialEq, Eq, Error)]
pub enum StartFault {
    /// The file of the settings cannot be read, or it is no TOML document.
    #[error("kbroker: cannot read settings")]
    Settings,
    /// This key of the settings is wrong.
    #[error("kbroker: bad settings: {0}")]
    Field(String),
    /// The store refused.
    #[error("kbroker: store fault")]
    Store,
    /// The address cannot be listened on.
    #[error("kbroker: cannot listen")]
    Listen,
    /// Memory was refused.
    #[error("kbroker: out of memory")]
    Memory,
}

impl From<AllocError> for StartFault {
    ghost use Rattle.std.specs.Prelude.{◌≡◌};
    ghost use Rattle.kb_node.specs.declared.fault.StartFault.TheVariants.{Memory};

    ghost from_gives = { λ _ e. e ≡ Memory };

    fn from(_e: AllocError) -> StartFault {
        StartFault::Memory
    }
}

impl From<SettingsFault> for StartFault {
    ghost use Rattle.std.specs.Prelude.{◌≡◌};
    ghost use Rattle.kb_node.specs.Start.{of_settings};

    ghost from_gives = { λ f e. e ≡ of_settings f };

    fn from(fault: SettingsFault) -> StartFault {
        match fault {
            SettingsFault::Text => StartFault::Settings,
            SettingsFault::Field(key) => StartFault::Field(key),
            SettingsFault::Memory => StartFault::Memory,
        }
    }
}

impl From<OpenFault> for StartFault {
    ghost use Rattle.std.specs.Prelude.{◌≡◌};
    ghost use Rattle.kb_node.specs.Start.{of_open};

    ghost from_gives = { λ f e. e ≡ of_open f };

    fn from(fault: OpenFault) -> StartFault {
        match fault {
            OpenFault::Store => StartFault::Store,
            OpenFault::Memory => StartFault::Memory,
        }
    }
}

impl<S: Store + Drop, L: PartitionLog + Drop> From<BindRefused<S, L>> for StartFault {
    ghost use Rattle.std.specs.Prelude.{◌≡◌};
    ghost use Rattle.kb_node.specs.Start.{of_bind};

    ghost from_gives = { λ r e. e ≡ of_bind r.fault };

    fn from(refused: BindRefused<S, L>) -> StartFault {
        match refused.fault {
            BindFault::Bind => StartFault::Listen,
            BindFault::Memory => StartFault::Memory,
        }
    }
}
