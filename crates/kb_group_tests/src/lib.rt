//! The groups of a tenant, through the coordinator's public calls: tables of steps, each with what it answers.
//!
//! There is nothing here but tests.
#![tactic(auto)]

#[cfg(test)]
mod steps;
#[cfg(test)]
mod tables;
