//! The primitives of the Kafka protocol (Kafka protocol guide, "Protocol Primitive Types"), both ways.
//!
//! [`Cursor`] reads them from borrowed bytes and takes no memory; [`Sink`] writes them into a growing buffer. [`Layout`] gives
//! a struct of such fields its `read` and `write`, proved from one definition of its bytes (a codec, in `specs/Codec.antt`);
//! [`Text`], [`Blob`] and [`Array`] are the fields that contracts see as lists. A value is read exactly where the bytes spell
//! it, a refusal is the first fault from left to right, and what is written is read again.
//!
//! [`api_key`] and [`ErrorCode`] are the protocol's numbers for its APIs and its refusals, for every crate above. So is [`MAX_CLOCK`], the
//! latest moment.
#![tactic(auto)]

pub mod api_key;
mod array;
mod bytes;
mod clock;
mod cursor;
mod error_code;
mod fault;
mod layout;
mod primitives;
mod sink;
mod text;
mod varint;

pub use array::Array;
pub use clock::MAX_CLOCK;
pub use cursor::Cursor;
pub use error_code::ErrorCode;
pub use fault::{ReadFault, WireFault};
pub use layout::{Layout, faults_stand, one_value, written_is_spelled};
pub use sink::Sink;
pub use text::{Blob, Text};
pub use varint::{number_faults_stand, one_number, shortest_is_written};
