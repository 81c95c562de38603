//! What clients of each tenant are told to connect to, and what the tenant may have, by settings.

ghost use Rattle.std.specs.Prelude.{◌≡◌, IfOk, map};
ghost use Rattle.kb_settings.specs.Values.{values_of};
ghost use Rattle.kb_broker.specs.Nodes.{data_limits, node_named, node_unnamed};

use crate::opening::Listing;
use kb_connection::TenantNode;
use kb_settings::Settings;
use kb_tenant::DataLimits;
use std::alloc::{AllocError, Global};

/// The nodes of the tenants of these names.
pub fn nodes_named(
    alloc: Global,
    settings: &Settings,
    listing: Listing,
    names: &[&str],
) -> Result<Vec<TenantNode>, AllocError>
    ensures { IfOk result (λ nodes. nodes.items ≡ map (λ n. node_named listing (values_of settings.now) n.now) names.now) }
{
    let mut nodes = Vec::with_capacity(alloc, names.len())?;
    for name in names {
        nodes.push(node_named(alloc, settings, listing, name)?)?;
    }
    Ok(nodes)
}

/// The node of the tenant of this name.
fn node_named(
    alloc: Global,
    settings: &Settings,
    listing: Listing,
    name: &str,
) -> Result<TenantNode, AllocError>
    ensures { IfOk result (λ node. node ≡ node_named listing (values_of settings.now) name.now) }
{
    let (host, port) = settings.told_to(name);
    let host = String::from_str(alloc, host)?;
    let texts = settings.groups_of(name).bytes;
    let limits = data_limits(settings, listing, settings.data_of(name), texts);
    Ok(TenantNode::new(host, port, limits))
}

/// The node of a tenant that there is not: the broker's address, and the limits where none are said.
pub fn node_unnamed(
    alloc: Global,
    settings: &Settings,
    listing: Listing,
) -> Result<TenantNode, AllocError>
    ensures { IfOk result (λ node. node ≡ node_unnamed listing (values_of settings.now)) }
{
    let (host, port) = settings.told();
    let host = String::from_str(alloc, host)?;
    let texts = kb_settings::GroupLimits::standard().bytes;
    let standard = kb_settings::DataLimits::standard();
    let limits = data_limits(settings, listing, standard, texts);
    Ok(TenantNode::new(host, port, limits))
}

/// Limits of what a tenant has, with that of its groups for the texts of its committed offsets; of what its requests name, and of what its
/// replies have.
fn data_limits(
    settings: &Settings,
    listing: Listing,
    limits: kb_settings::DataLimits,
    group_bytes: u64,
) -> DataLimits
    ensures { result ≡ data_limits listing (values_of settings.now) limits group_bytes }
{
    DataLimits {
        topics: limits.topics,
        partitions: limits.partitions,
        offsets: Some(limits.offsets),
        group_bytes: Some(group_bytes),
        bytes: limits.bytes,
        request_entries: settings.entries_for(listing.has_stock_clients()),
        fetch_bytes: limits.fetch_bytes,
        reply_bytes: settings.reply_bytes_for(listing.has_stock_clients()),
    }
}
