//! Why a settings text is refused.

use std::alloc::AllocError;
use thiserror::Error;

/// Why a settings text is refused.
#[derive(Debug, Drop, PartialEq, Eq, Error)]
pub enum SettingsFault {
    /// It is no TOML document.
    #[error("cannot read settings")]
    Text,
    /// The value of this key is wrong, or the key is needed and missing, or there is no such key.
    #[error("bad settings: {0}")]
    Field(String),
    /// Memory was refused.
    #[error("out of memory")]
    Memory,
}

impl From<AllocError> for SettingsFault {
    ghost use Rattle.std.specs.Prelude.{◌≡◌};
    ghost use Rattle.kb_settings.specs.declared.fault.SettingsFault.TheVariants.{Memory};

    ghost from_gives = { λ _ e. e ≡ Memory };

    fn from(_e: AllocError) -> SettingsFault {
        SettingsFault::Memory
    }
}
