//! What no clause and no exchange says of brokers: how early there is something to do, that a run and an opening do not give up, also
//! with a copy of a tenant's files, that a commit is taken and kept behind a renewal of a catalog in which the store refuses, the texts
//! of faults, and what an edge does with sockets, over the loopback and over a network in memory.
//!
//! There is nothing here but tests. The bytes are those of the Kafka protocol guide's layouts, written down beforehand; the
//! checksums of the record batches are CRC-32C by another program. Exchanges that need nothing of this stand as data in
//! `kb_wire_vectors`.
#![tactic(auto)]

#[cfg(test)]
mod edge;
#[cfg(test)]
mod faults;
#[cfg(test)]
mod hall;
#[cfg(test)]
mod host;
#[cfg(test)]
mod moves;
#[cfg(test)]
mod own;
#[cfg(test)]
mod renewed;
#[cfg(test)]
mod scenes;
#[cfg(test)]
mod steps;
#[cfg(test)]
mod talks;
#[cfg(test)]
mod words;
