//! The catalog of one tenant: its topics and their settings, the starts of partitions, what groups committed to them, and its producer ids.
//!
//! [`Catalog`] records each change as one [`Command`] in the tenant's meta log before it makes it, so that the catalog is what the
//! commands of its log come to, one after another (`specs/Known.antt`). A refused call leaves the catalog and the list of batches as
//! they were and answers a [`CatalogFault`], which has one of Kafka's error codes. A [`Replay`] takes the commands of a meta log in
//! again, one after another, and [`Catalog::replayed`] goes on from there. A meta log's generations above 0 begin with a snapshot of the
//! catalog: a command that counts those behind it, which make the topics, starts and commits anew (`specs/Reading.antt`). What all of
//! them come to is well formed (`specs/WellFormed.antt`). [`Topic`] and [`Partition`] are what is known of each; [`TopicsByName`] gives
//! the topics in byte order of their names (`specs/ByName.antt`).
//!
//! Names and settings are judged by [`is_legal_name`], [`config_entry`] and [`ConfigReader`] (Apache Kafka's rules for topic names and
//! its names of topic settings). Look-ups by name and by instance take logarithmic time.
#![tactic(auto)]

mod append;
mod apply;
mod batch;
mod by_name;
mod catalog;
mod command;
mod config;
mod contents;
mod fault;
mod name;
mod replay;
mod stage;
mod topic;

pub use append::append_command;
pub use batch::meta_batch;
pub use by_name::TopicsByName;
pub use catalog::Catalog;
pub use command::{BeginSnapshot, Command, CommitOffset, CreateTopic, MoveStart};
pub use config::{ConfigEntry, ConfigReader, TopicConfig, config_entry};
pub use fault::CatalogFault;
pub use name::is_legal_name;
pub use replay::Replay;
pub use topic::{Committed, Partition, Topic};
