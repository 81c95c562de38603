//! Clients against a broker in one process, over connections that end, and tasks on its topics.
//!
//! There is nothing here but tests.
#![tactic(auto)]

#[cfg(test)]
mod consuming;
#[cfg(test)]
mod managing;
#[cfg(test)]
mod producing;
#[cfg(test)]
mod wire;
