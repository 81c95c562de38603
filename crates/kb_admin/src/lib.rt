//! What a person does to the topics of a broker that speaks the Kafka protocol: making one, deleting one, listing them.
//!
//! [`Session`] is one such [`Task`] behind a login, as a state machine: it gives the bytes of each request, takes the bytes that
//! come, and comes to what the broker answered or to an [`AdminFault`]. There is no socket in it. [`code_name`] has Kafka's names of
//! the error codes.
//!
//! The contract: each request has the bytes that `specs/Requests.antt` says, and each call of `input` answers and leaves what
//! `specs/Session.antt` makes of the bytes that came.
//!
//! Kafka protocol guide: SaslHandshake 1, SaslAuthenticate 0, CreateTopics 0, DeleteTopics 0 and Metadata 1.
#![tactic(auto)]

mod fault;
mod listed;
mod names;
mod replies;
mod requests;
mod session;
mod short_text;
mod stage;
mod task;

pub use fault::AdminFault;
pub use listed::Listed;
pub use names::code_name;
pub use session::{Heard, Session};
pub use short_text::{MAX_TEXT_BYTES, ShortText};
pub use stage::Stage;
pub use task::{NewTopic, Setting, Task};
