//! What is tested of the crates below the tenants and cannot be said as data, each through its public contract.
//!
//! There is nothing here but tests, a module for each crate under the crate's own name. Worked cases of codecs and values are data,
//! in `kb_codec_vectors`.
#![tactic(auto)]

#[cfg(test)]
mod api_data;
#[cfg(test)]
mod journal;
#[cfg(test)]
mod numbers;
#[cfg(test)]
mod settings;
#[cfg(test)]
mod store;
#[cfg(test)]
mod waits;
#[cfg(test)]
mod wire;
