//! Members join the groups of a tenant.
ghost use Rattle.std.specs.Prelude.{◌≡◌, ◌<◌, ◌≤◌, IfOk, OnErr, OnOk, length, slice_get, None, Some};
ghost use Rattle.kb_wire.specs.declared.clock.TheConstants.{MAX_CLOCK};
ghost use Rattle.kb_coordinator.specs.declared.groups.Entry.{Entry};
ghost use Rattle.kb_coordinator.specs.Groups.{place_of, silent};
ghost use Rattle.kb_coordinator.specs.Calls.{after_join, after_known, after_new, given_with, is_accepted, join_code, known_code};
ghost use Rattle.kb_coordinator.specs.Calls.{lacks_number, left_for, new_code, new_full, new_past, unless_refused};

use crate::convert::{asked_member, error_of, offers};
use crate::coordinator::Coordinator;
use crate::groups::{Entry, first_above};
use kb_api_group::JoinGroupRequest;
use kb_groups::{Bytes, Code, Group, Join};
use kb_wire::{ErrorCode, Text};
use std::alloc::{AllocError, Global};

/// The greatest member number of a tenant.
const MAX_MEMBERS: u64 = 9_223_372_036_854_775_807;

/// The error of a join: the group's refusal, if it refuses; else whether no group, number or bytes are left for it.
fn error_unless(code: Code, is_full: bool, is_past: bool) -> ErrorCode
    ensures { result ≡ unless_refused code (left_for is_full is_past) }
{
    match code {
        Code::Fine => {
            if is_full {
                ErrorCode::CoordinatorNotAvailable
            } else if is_past {
                ErrorCode::GroupMaxSizeReached
            } else {
                ErrorCode::None
            }
        }
        Code::IllegalGeneration
        | Code::InconsistentGroupProtocol
        | Code::UnknownMemberId
        | Code::InvalidSessionTimeout
        | Code::RebalanceInProgress
        | Code::GroupMaxSizeReached => error_of(code),
    }
}

/// Whether it is no error.
fn is_accepted(error: ErrorCode) -> bool
    ensures { result ≡ is_accepted error }
{
    error.code() == 0
}

impl Coordinator {
    /// Whether it is a new member, and no number is left for it.
    fn lacks_number(&self, request: &Join<'_>) -> bool
        ensures { result ≡ lacks_number request.now self.now }
    {
        request.member.is_none() && self.members >= MAX_MEMBERS
    }

    /// The number below that of the next new member, once it has joined.
    fn given_with(&self, request: &Join<'_>) -> u64
        ensures { result ≡ given_with request.now self.now }
    {
        if request.member.is_none() {
            self.members + 1
        } else {
            self.members
        }
    }

    /// The error of a join to the group at a place.
    fn known_error(&self, place: usize, request: &Join<'_>) -> ErrorCode
        requires { place < length self.now.groups }
        ensures { (e : Entry) → slice_get self.now.groups place ≡ Some e → result ≡ known_code request.now e.group self.now }
    {
        let group = &self.groups[place].group;
        let code = group.join_code(request);
        let is_past = group.is_past_with(request, self.room(place));
        error_unless(code, self.lacks_number(request), is_past)
    }

    /// Whether a new group would go past the limit of bytes.
    fn new_past(&self, id: &str, request: &Join<'_>) -> bool
        ensures { result ≡ new_past request.now id.now self.now }
    {
        let bytes = (id.len() as u64).saturating_add(request.bytes());
        bytes > self.limits.bytes - self.bytes
    }

    /// Whether no new group or no number is left.
    fn new_full(&self, request: &Join<'_>) -> bool
        ensures { result ≡ new_full request.now self.now }
    {
        self.groups.len() as u64 >= self.limits.groups || self.lacks_number(request)
    }

    /// The error of a join to a group that is not there.
    fn new_error(&self, id: &str, request: &Join<'_>) -> ErrorCode
        ensures { result ≡ new_code request.now id.now self.now }
    {
        let group = Group::new(self.alloc);
        let code = group.join_code(request);
        error_unless(code, self.new_full(request), self.new_past(id, request))
    }

    /// A join to the group at a place.
    fn join_known(
        &mut self,
        place: usize,
        request: &Join<'_>,
        clock: u64,
    ) -> Result<ErrorCode, AllocError>
        requires below { place < length self.old.groups }
        requires clock { clock ≤ MAX_CLOCK }
        ensures code { (e : Entry) → slice_get self.old.groups place ≡ Some e
            → IfOk result (λ code. code ≡ known_code request.now e.group self.old) }
        ensures after { (e : Entry) → slice_get self.old.groups place ≡ Some e
            → OnOk result (self.new ≡ after_known clock request.now place e self.old) }
        ensures refused { OnErr result (self.new ≡ silent self.old) }
    {
        self.released.clear();
        let error = self.known_error(place, request);
        if !is_accepted(error) {
            return Ok(error);
        }
        let members = self.given_with(request);
        self.released.push(Vec::new(self.alloc))?;
        let entry = &mut self.groups[place];
        let before = entry.group.bytes();
        let (_, replies) = entry.group.join(self.alloc, request, clock)?;
        self.quiet_until = self.quiet_until.min(entry.group.quiet_until());
        self.bytes = self.bytes - before + entry.group.bytes();
        self.released[0] = replies;
        self.members = members;
        Ok(error)
    }

    /// A join to a group that is not there.
    fn join_new(
        &mut self,
        id: &str,
        request: &Join<'_>,
        clock: u64,
    ) -> Result<ErrorCode, AllocError>
        requires absent { place_of id.now self.old.groups ≡ None }
        requires clock { clock ≤ MAX_CLOCK }
        ensures code { IfOk result (λ code. code ≡ new_code request.now id.now self.old) }
        ensures after { OnOk result (self.new ≡ after_new clock request.now id.now self.old) }
        ensures refused { OnErr result (self.new ≡ silent self.old) }
    {
        self.released.clear();
        let error = self.new_error(id, request);
        if !is_accepted(error) {
            return Ok(error);
        }
        let members = self.given_with(request);
        let key = Bytes::copy_of(self.alloc, id.as_bytes())?;
        self.released.push(Vec::new(self.alloc))?;
        let mut group = Group::new(self.alloc);
        let (_, replies) = group.join(self.alloc, request, clock)?;
        let quiet_until = group.quiet_until();
        let bytes = id.len() as u64 + group.bytes();
        let place = first_above(&self.groups, id.as_bytes());
        self.groups.insert(place, Entry { id: key, group })?;
        self.quiet_until = self.quiet_until.min(quiet_until);
        self.bytes += bytes;
        self.released[0] = replies;
        self.members = members;
        Ok(error)
    }

    /// Kafka's JoinGroup, of that connection: the error of a join that is refused. One that is accepted, with `ErrorCode::None`, waits:
    /// its own reply is among those of requests that waited, of this call if all members have joined with it.
    pub fn join(
        &mut self,
        request: &JoinGroupRequest<'_>,
        connection: u64,
        clock: u64,
    ) -> Result<ErrorCode, AllocError>
        requires { clock ≤ MAX_CLOCK }
        ensures code { IfOk result (λ code. code ≡ join_code connection request.now self.old) }
        ensures after { OnOk result (self.new ≡ after_join clock connection request.now self.old) }
        ensures refused { OnErr result (self.new ≡ silent self.old) }
    {
        self.released.clear();
        let id = request.group_id.as_str();
        if id.is_empty() {
            return Ok(ErrorCode::InvalidGroupId);
        }
        let protocols = offers(self.alloc, request.protocols.as_slice())?;
        let join = Join {
            connection,
            member: asked_member(request.member_id.as_str()),
            new_member: self.members + 1,
            session_timeout: request.session_timeout_ms,
            rebalance_timeout: request.rebalance_timeout_ms,
            protocol_type: Text::new(request.protocol_type.as_str()),
            protocols: &protocols,
        };
        match self.place(id) {
            Some(place) => self.join_known(place, &join, clock),
            None => self.join_new(id, &join, clock),
        }
    }
}
