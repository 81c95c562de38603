//! Idempotent producers: a batch that comes twice is stored once and answered alike, and a gap is refused.
//!
//! [`ProducerTable`] stands for the batches of idempotent producers that are in a partition's list now, oldest first, and a
//! contract sees it as that list. [`ProducerTable::judge`] says what becomes of a batch, by the producer's batches in it
//! alone (Kafka documentation, "Idempotent Producer"; the codes are those of the protocol guide).
#![tactic(auto)]

mod batch;
mod ids;
mod judge;
mod kept;
mod link;
mod promises;
mod recent;
mod table;
mod verdict;
mod walk;

pub use kept::Kept;
pub use promises::next_id_is_least;
pub use table::ProducerTable;
pub use verdict::Verdict;
