//! The worked cases of tenants' worlds, each through its public contract: tables of steps.
//!
//! There is nothing here but tests, a module for each crate under the crate's own name.
#![tactic(auto)]

#[cfg(test)]
mod log;
#[cfg(test)]
mod partitions;
#[cfg(test)]
mod refused;
#[cfg(test)]
mod tenant;
#[cfg(test)]
mod tenants;
#[cfg(test)]
mod topics;
#[cfg(test)]
mod words;
#[cfg(test)]
mod world;
