//! The version of the broker's programs.
#![tactic(auto)]

/// The version that `--version` prints and that the broker tells at its start.
pub const VERSION: &str = "0.1.0";
