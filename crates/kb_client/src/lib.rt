//! The client's side of the Kafka protocol: a producer whose lines arrive once and in order, and a consumer that gives each line
//! once and in order, whatever the network does.
//!
//! [`ProducerCore`] takes lines and the bytes that came from a broker, and gives the bytes that go to it. There is no socket and
//! no clock in it. A connection may end at any point; [`ProducerCore::connected`] begins the next one. Each line is sent as a
//! batch of one record under a producer id and a sequence number, so that a broker knows one that comes again (Kafka
//! documentation, "Idempotent Producer"). One request is under way at a time.
//!
//! [`ConsumerCore`] asks for the records of a partition from an offset on, and gives their values as lines. A new connection
//! goes on where the lines that were found end.
//!
//! The contract: each call is its step in `specs/Producer.antt` or `specs/Consumer.antt`, its answer and its output included.
#![tactic(auto)]

mod arrival;
mod consumer;
mod fault;
mod fetching;
mod found;
mod line;
mod producer;
mod reaction;
mod replies;
mod requests;
mod stage;
mod target;

pub use consumer::ConsumerCore;
pub use fault::ClientFault;
pub use fetching::Fetching;
pub use line::{Line, MAX_LINE_BYTES};
pub use producer::ProducerCore;
pub use stage::{Ending, ProducerId, Stage};
pub use target::{Login, Target};
