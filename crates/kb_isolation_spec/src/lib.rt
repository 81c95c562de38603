//! What the broker's headline speaks of: definitions and their laws, and no code but the words
//! [`Head`], [`Base`], [`Login`], [`Known`], [`Name`], [`Shut`] and [`Whom`].
//!
//! `specs/Versions.antt` says which versions are laid out as an earlier one,
//! `specs/Requests.antt` what a connection's bytes ask, `specs/Session.antt` what a connection has,
//! `specs/Greeting.antt` what the requests mean that need no tenant (Kafka protocol guide, "SASL Authentication
//! Sequence"; RFC 4616), `specs/Tenant.antt` what a tenant's requests mean (by `kb_tenant_api`) and what they wait for,
//! `specs/Machine.antt` the machine of one tenant as a function of its events, `specs/Owners.antt` which connections
//! are a tenant's, and `specs/Broker.antt` the broker of all tenants and how each of its steps is a step of each
//! tenant's machine.
#![tactic(auto)]

mod base;
mod head;
mod login;
mod promises;
mod shut;
mod whom;

pub use base::Base;
pub use head::Head;
pub use login::{Known, Login, Name};
pub use promises::{
    alone_is_the_same, batches_are_of_each_turn, bound_connections_have_logged_in, bound_for_good,
    fetches_end_at_their_deadline, fetches_get_batches_in_runs, fetches_get_whole_batches,
    first_event, limits_are_kept, members_wait_no_longer, nodes_are_a_tenants_own,
    nothing_before_login, one_tenants_in_order, others_change_nothing,
    own_events_are_of_own_connections, own_events_stay_own, owners_at_entry,
    requests_have_one_limit, room_is_kept, runs_go_on, strangers_are_greeted,
    throttle_times_stand_in_front, turns_end,
};
pub use shut::Shut;
pub use whom::Whom;
