//! The requests of tools that look at a tenant's groups, from their bodies to their replies: DescribeGroups, ListGroups.
//!
//! Each forgets the last replies first, and changes no group.
ghost use Rattle.std.specs.Prelude.{◌≡◌, []};
ghost use Rattle.kb_api_group.specs.Layouts.{describe_groups_request, list_groups_request};
ghost use Rattle.kb_coordinator.specs.Groups.{silent};
ghost use Rattle.kb_wire.specs.Codec.{whole};
ghost use Rattle.kb_tenant_state.specs.World.{World};
ghost use Rattle.kb_tenant.specs.Entries.{describe_groups_entries, within};
ghost use Rattle.kb_tenant_api.specs.Serve.{if_read, of_describe, of_list, IsServed};

use crate::answer::Answer;
use kb_api_group::{DescribeGroupsRequest, ListGroupsRequest};
use kb_coordinator::Coordinator;
use kb_tenant::{DataLimits, Request, begin, finish_within, most_bytes, read_within};
use kb_wire::{Layout, ReadFault};
use std::alloc::Global;

/// DescribeGroups, of a request that names no more groups than the limits allow, with a reply that is no longer.
pub(crate) fn describe_groups(
    alloc: Global,
    groups: &mut Coordinator,
    limits: DataLimits,
    request: &Request<'_>,
) -> Result<Answer, ReadFault>
    ensures served { (w : World)
        → IsServed request.now.correlation_id
        (if_read w groups.old (within limits.request_entries describe_groups_entries (whole describe_groups_request request.now.body.now))
        (of_describe limits.reply_bytes w groups.old)) w groups.new [] result }
    ensures groups { groups.new ≡ silent groups.old }
{
    groups.silence();
    let entries = limits.request_entries;
    let asked = read_within::<DescribeGroupsRequest<'_>>(alloc, entries, request.body)?;
    let mut sink = begin(alloc, request.correlation_id)?;
    let most = most_bytes(limits.reply_bytes);
    groups.put_descriptions(&asked, most, &mut sink)?;
    Ok(Answer::Plain(finish_within(limits.reply_bytes, sink)))
}

/// ListGroups, with a reply that is no longer than a limit allows.
pub(crate) fn list_groups(
    alloc: Global,
    groups: &mut Coordinator,
    limit: Option<u64>,
    request: &Request<'_>,
) -> Result<Answer, ReadFault>
    ensures served { (w : World)
        → IsServed request.now.correlation_id (if_read w groups.old (whole list_groups_request request.now.body.now)
        (of_list limit w groups.old)) w groups.new [] result }
    ensures groups { groups.new ≡ silent groups.old }
{
    groups.silence();
    let _asked = ListGroupsRequest::read(alloc, request.body)?;
    let mut sink = begin(alloc, request.correlation_id)?;
    groups.put_list(most_bytes(limit), &mut sink)?;
    Ok(Answer::Plain(finish_within(limit, sink)))
}
