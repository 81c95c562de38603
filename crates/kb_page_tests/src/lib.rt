//! What pages show of tenants and of the process, byte for byte, as tables.
//!
//! There is nothing here but tests.
#![tactic(auto)]

#[cfg(test)]
mod metrics;
