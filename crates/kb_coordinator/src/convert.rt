//! What requests give, as groups take it.
ghost use Rattle.std.specs.Prelude.{◌≡◌, IfOk, map};
ghost use Rattle.kb_groups.specs.MemberId.{member_id};
ghost use Rattle.kb_coordinator.specs.Requests.{asked_member, assigned_to, commit_of_none, error_of, named, offered};

use kb_api_group::{JoinProtocol, SyncAssignment};
use kb_groups::{Code, member_number};
use kb_wire::{Blob, ErrorCode, Text};
use std::alloc::{AllocError, Global};

/// The number, whose id that is.
fn own_number(id: &str, number: u64) -> u64
    requires { id.now ≡ member_id number }
    ensures { result ≡ named id.now }
{
    number
}

/// The number of the member of that id; 0, which is no member's, for a text that is no member's id.
pub(crate) fn number_of(id: &str) -> u64
    ensures { result ≡ named id.now }
{
    match member_number(id) {
        Some(number) => own_number(id, number),
        None => 0,
    }
}

/// The number of the member that a join names; none where its id is empty.
pub(crate) fn asked_member(id: &str) -> Option<u64>
    ensures { result ≡ asked_member id.now }
{
    if id.is_empty() {
        return None;
    }
    Some(number_of(id))
}

/// The protocols of a join.
pub(crate) fn offers<'a>(
    alloc: Global,
    protocols: &'a [JoinProtocol<'a>],
) -> Result<Vec<kb_groups::JoinProtocol<'a>>, AllocError>
    ensures { IfOk result (λ v. v.items ≡ map offered protocols.now) }
{
    let mut offers = Vec::new(alloc);
    for protocol in protocols {
        offers.push(kb_groups::JoinProtocol {
            name: Text::new(protocol.name.as_str()),
            metadata: Blob::new(protocol.metadata.as_slice()),
        })?;
    }
    Ok(offers)
}

/// The assignments of a sync.
pub(crate) fn assignments<'a>(
    alloc: Global,
    given: &'a [SyncAssignment<'a>],
) -> Result<Vec<kb_groups::SyncAssignment<'a>>, AllocError>
    ensures { IfOk result (λ v. v.items ≡ map assigned_to given.now) }
{
    let mut assignments = Vec::new(alloc);
    for one in given {
        assignments.push(kb_groups::SyncAssignment {
            member_id: Text::new(one.member_id.as_str()),
            assignment: Blob::new(one.assignment.as_slice()),
        })?;
    }
    Ok(assignments)
}

/// The protocol's error of a group's code.
pub(crate) fn error_of(code: Code) -> ErrorCode
    ensures { result ≡ error_of code }
{
    match code {
        Code::Fine => ErrorCode::None,
        Code::IllegalGeneration => ErrorCode::IllegalGeneration,
        Code::InconsistentGroupProtocol => ErrorCode::InconsistentGroupProtocol,
        Code::UnknownMemberId => ErrorCode::UnknownMemberId,
        Code::InvalidSessionTimeout => ErrorCode::InvalidSessionTimeout,
        Code::RebalanceInProgress => ErrorCode::RebalanceInProgress,
        Code::GroupMaxSizeReached => ErrorCode::GroupMaxSizeReached,
    }
}

/// Whether a commit is taken where no such group ever was.
pub(crate) fn commit_of_none(generation: i32) -> ErrorCode
    ensures { result ≡ error_of (commit_of_none generation) }
{
    if generation < 0 {
        ErrorCode::None
    } else {
        ErrorCode::UnknownMemberId
    }
}
