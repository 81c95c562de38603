//! What a broker answers to a consumer's fetch is what the other side of that consumer answers: laws, and no code.
//!
//! `kb_client_spec` says what a consumer gives where its other side answers by `specs/Fetching.antt`. `kb_tenant` says what the
//! broker answers. Here the two are joined: `specs/Served.antt` tells the one in the words of the other.
#![tactic(auto)]

mod laws;

pub use laws::{
    broker_answers_as_the_other_side, errors_are_told, logs_are_as_the_other_side_has_them,
    logs_are_whole,
};
