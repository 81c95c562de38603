//! The broker at work: what its programs do, over any reader and writer, and over any network.
//!
//! [`play_script`] runs a script over a broker with the standard settings, [`play_script_with`] over one with given settings, and
//! [`play_script_on`] over one that is there: what is written is exactly what that broker says to the script, up to the fault that
//! is answered. [`read_settings`] gives the settings of a text, [`data_folder`] the folder that they name, and [`Edge`] puts a broker
//! on a network and is turned by hand.
#![tactic(auto)]

mod closed;
mod commits;
mod committed;
mod deadlines;
mod delays;
mod doors;
mod edge;
mod fault;
mod firsts;
mod input;
mod lanes;
mod limits;
mod news;
mod promises;
mod reader_waits;
mod replies;
mod script;
mod silences;
mod socket;
mod socket_shares;
mod start;
mod tenant_traffic;
mod times;
mod transfer;
mod turn;
mod watch;

pub use closed::{Cause, Closed};
pub use doors::BindCause;
pub use edge::{BindFault, BindRefused, Edge};
pub use fault::{NodeFault, StartFault};
pub use firsts::Firsts;
pub use kb_broker::{Listing, Settings};
pub use kb_settings::{Sync, tenant_names};
pub use kb_store::{Store, StoreFault};
pub use limits::Limits;
pub use news::{LoginAttempt, News};
pub use promises::{
    a_turn_goes_on_with_the_run, clients_are_sent_what_machines_write,
    each_connection_has_one_socket, sockets_stand_by_number, turns_are_a_run,
    turns_keep_tenants_apart,
};
pub use reader_waits::ReaderWaits;
pub use replies::{input_shares, reply_shares};
pub use script::{play_script, play_script_on, play_script_with};
pub use socket::STRANGER_FRAME;
pub use socket_shares::SocketShares;
pub use start::{data_folder, read_settings};
pub use tenant_traffic::{API_KEYS, TenantTraffic};
pub use turn::Turn;
