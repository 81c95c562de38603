//! A client and the other side of its connections, with a network between them that may cut a connection at any point:
//! definitions and their laws, and no code.
//!
//! `specs/Receiver.antt` says what stores a producer's lines, `specs/Sending.antt` what happens between a producer and that
//! receiver, event by event. The producer's part of each event is the contract of the call of `ProducerCore` (`kb_client`).
//!
//! `specs/Partition.antt` says what a partition is and what a fetch is answered, `specs/Consuming.antt` what happens between a
//! consumer and what keeps that partition, in the same way.
//!
//! Both sides name the APIs by the same constants; [`keys_are_the_protocols`] says that these are Kafka's.
#![tactic(auto)]

mod delivery;
mod keys;

pub use delivery::{
    lines_are_given_once, lines_are_stored_once, no_fault_with_the_right_login,
    no_fault_within_the_partition,
};
pub use keys::keys_are_the_protocols;
