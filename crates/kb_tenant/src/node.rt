//! What a broker tells a tenant of itself.

use crate::limits::DataLimits;
use kb_wire::Text;

/// Where clients are told to connect to, and what the tenant may have.
#[derive(Drop)]
pub struct Node<'a> {
    pub host: Text<'a>,
    pub port: u16,
    pub limits: DataLimits,
}
