//! The groups of a tenant, and what requests do to them.
ghost use Rattle.std.specs.Prelude.{◌≡◌, ◌≤◌, ◌<◌, ◌^◌, [], length, slice_get, Some, IfOk, OnErr, OnOk};
ghost use Rattle.kb_wire.specs.declared.clock.TheConstants.{MAX_CLOCK};
ghost use Rattle.kb_coordinator.specs.Groups.{kept_bytes, limited, none, numbered_from, place_of, silent};
ghost use Rattle.kb_coordinator.specs.Calls.{after_heartbeat, after_leave, after_may_commit, after_sync, heartbeat_code, leave_code};
ghost use Rattle.kb_coordinator.specs.Calls.{deleted, has_members, is_there, may_commit, room, sync_answer};
ghost use Rattle.kb_coordinator.specs.declared.groups.Entry.{Entry};

use crate::convert::{assignments, commit_of_none, error_of, number_of};
use crate::groups::{Entry, place_of};
use crate::limits::Limits;
use kb_api_group::{HeartbeatRequest, LeaveGroupRequest, SyncGroupRequest};
use kb_groups::{Code, Release, SyncAnswer};
use kb_wire::ErrorCode;
use std::alloc::{AllocError, Global};
use std::marker::Model;

/// All consumer groups of one tenant, which contracts see as `Groups`.
///
/// Clocks are in milliseconds, at most 2^62. A call that answers `Err` was refused memory: it left the groups as they were, and
/// answers nobody who waited.
#[derive(Drop)]
pub struct Coordinator {
    pub(crate) alloc: Global,
    pub(crate) groups: Vec<Entry>,
    pub(crate) members: u64,
    pub(crate) released: Vec<Vec<Release>>,
    /// Before this moment no session ends and no deadline comes.
    pub(crate) quiet_until: u64,
    pub(crate) limits: Limits,
    /// What the groups keep, with their ids.
    pub(crate) bytes: u64,
}

impl Model for Coordinator {
    ghost use Rattle.std.specs.Prelude.{◌≤◌};
    ghost use Rattle.std.specs.List.{All, flat_map};
    ghost use Rattle.kb_coordinator.specs.Groups.{AreInOrder};
    ghost use Rattle.kb_coordinator.specs.Groups.{AreSorted, AreWithin, Groups, earliest};

    ghost Value = { Groups };

    ghost view = { λ c. record {
      groups = c.groups.items;
      members = c.members;
      released = flat_map (λ v. v.items) c.released.items;
      limits = c.limits;
    } };

    ghost invariant = { λ c. (c.members ≤ 9223372036854775807) × (c.quiet_until ≤ earliest c.groups.items) × AreSorted c.groups.items
        × AreWithin c.limits c.bytes c.groups.items × All (λ v. AreInOrder v.items) c.released.items };
}

impl Coordinator {
    /// No groups, and the standard limits. It takes no memory.
    pub fn new(alloc: Global) -> Coordinator
        ensures { result ≡ none }
    {
        Coordinator {
            alloc,
            groups: Vec::new(alloc),
            members: 0,
            released: Vec::new(alloc),
            quiet_until: u64::MAX,
            limits: Limits::standard(),
            bytes: 0,
        }
    }

    /// These are the limits from now on. It takes no memory.
    pub fn limit(&mut self, limits: Limits)
        requires within { limits.bytes < 2 ^ 63 }
        requires early { self.old.groups ≡ [] }
        ensures { self.new ≡ limited limits self.old }
    {
        self.limits = limits;
    }

    /// The groups with their ids, in byte order of these, to look at.
    pub fn groups(&self) -> &[Entry]
        ensures { result.now ≡ self.now.groups }
    {
        &self.groups
    }

    /// What the groups keep: each one's id and protocol type, and for each member its id, protocols and assignment. It costs constant
    /// time.
    pub fn bytes(&self) -> u64
        ensures value { result ≡ kept_bytes self.now.groups }
        ensures within { result ≤ self.now.limits.bytes }
    {
        self.bytes
    }

    /// The first new member is to get this number, and each later one the next. It takes no memory.
    ///
    /// Where each opening starts above all numbers of those before, the id of a member of before is no member's.
    pub fn number_members_from(&mut self, first: u64)
        requires some { 1 ≤ first }
        requires within { first < 2 ^ 63 }
        requires early { self.old.groups ≡ [] }
        ensures { self.new ≡ numbered_from first self.old }
    {
        self.members = first - 1;
    }

    /// The replies of the last request or moment are forgotten, as at each request that is not for a group.
    pub fn silence(&mut self)
        ensures { self.new ≡ silent self.old }
    {
        self.released.clear();
    }

    /// The place of the group of that id, by halving.
    pub(crate) fn place(&self, id: &str) -> Option<usize>
        ensures { result ≡ place_of id.now self.now.groups }
    {
        place_of(&self.groups, id.as_bytes())
    }

    /// What the limit leaves to the group at a place, beside all ids and what the other groups keep.
    pub(crate) fn room(&self, place: usize) -> u64
        requires { place < length self.now.groups }
        ensures value { (e : Entry) → slice_get self.now.groups place ≡ Some e → result ≡ room self.now e.group }
        ensures most { result < 2 ^ 63 }
    {
        let others = self.bytes - self.groups[place].group.bytes();
        self.limits.bytes - others
    }

    /// Kafka's Heartbeat. It takes no memory.
    pub fn heartbeat(&mut self, request: &HeartbeatRequest<'_>, clock: u64) -> Code
        ensures code { result ≡ heartbeat_code request.now self.old }
        ensures after { self.new ≡ after_heartbeat clock request.now self.old }
    {
        self.released.clear();
        let Some(place) = self.place(request.group_id.as_str()) else {
            return Code::UnknownMemberId;
        };
        let number = number_of(request.member_id.as_str());
        let generation = request.generation_id;
        let entry = &mut self.groups[place];
        let code = entry.group.heartbeat(number, generation, clock);
        self.quiet_until = self.quiet_until.min(entry.group.quiet_until());
        code
    }

    /// Whether a member may commit offsets: the error of each partition of Kafka's OffsetCommit. It takes no memory.
    pub fn may_commit(&mut self, id: &str, generation: i32, member: &str, clock: u64) -> ErrorCode
        ensures code { result ≡ may_commit id.now member.now generation self.old }
        ensures after { self.new ≡ after_may_commit clock id.now member.now generation self.old }
    {
        self.released.clear();
        if id.is_empty() {
            return ErrorCode::InvalidGroupId;
        }
        let Some(place) = self.place(id) else {
            return commit_of_none(generation);
        };
        let number = number_of(member);
        let entry = &mut self.groups[place];
        let code = entry.group.may_commit(number, generation, clock);
        self.quiet_until = self.quiet_until.min(entry.group.quiet_until());
        error_of(code)
    }

    /// Whether the group of that id is there and has members.
    pub fn has_members(&self, id: &str) -> bool
        ensures { result ≡ has_members id.now self.now }
    {
        match self.place(id) {
            None => false,
            Some(place) => !self.groups[place].group.state().members.is_empty(),
        }
    }

    /// Removes the group of that id, and answers whether it was there. It takes no memory.
    pub fn delete(&mut self, id: &str) -> bool
        ensures there { result ≡ is_there id.now self.old }
        ensures deleted { self.new ≡ deleted id.now self.old }
    {
        let Some(place) = self.place(id) else {
            return false;
        };
        let entry = self.groups.remove(place);
        let bytes = entry.group.bytes() + entry.id.as_slice().len() as u64;
        self.bytes -= bytes;
        true
    }

    /// Kafka's LeaveGroup.
    pub fn leave(&mut self, request: &LeaveGroupRequest<'_>, clock: u64) -> Result<Code, AllocError>
        requires { clock ≤ MAX_CLOCK }
        ensures code { IfOk result (λ code. code ≡ leave_code request.now self.old) }
        ensures after { OnOk result (self.new ≡ after_leave clock request.now self.old) }
        ensures refused { OnErr result (self.new ≡ silent self.old) }
    {
        self.released.clear();
        let Some(place) = self.place(request.group_id.as_str()) else {
            return Ok(Code::UnknownMemberId);
        };
        let number = number_of(request.member_id.as_str());
        self.released.push(Vec::new(self.alloc))?;
        let entry = &mut self.groups[place];
        let before = entry.group.bytes();
        let (code, replies) = entry.group.leave(self.alloc, number, clock)?;
        self.quiet_until = self.quiet_until.min(entry.group.quiet_until());
        self.bytes = self.bytes - before + entry.group.bytes();
        self.released[0] = replies;
        Ok(code)
    }

    /// Kafka's SyncGroup, of that connection.
    pub fn sync(
        &mut self,
        request: &SyncGroupRequest<'_>,
        connection: u64,
        clock: u64,
    ) -> Result<SyncAnswer, AllocError>
        ensures answer { IfOk result (λ answer. answer ≡ sync_answer clock connection request.now self.old) }
        ensures after { OnOk result (self.new ≡ after_sync clock connection request.now self.old) }
        ensures refused { OnErr result (self.new ≡ silent self.old) }
    {
        self.released.clear();
        let Some(place) = self.place(request.group_id.as_str()) else {
            return Ok(SyncAnswer::Refused(Code::UnknownMemberId));
        };
        let number = number_of(request.member_id.as_str());
        let generation = request.generation_id;
        let given = assignments(self.alloc, request.assignments.as_slice())?;
        let most = self.room(place);
        self.released.push(Vec::new(self.alloc))?;
        let entry = &mut self.groups[place];
        let before = entry.group.bytes();
        let (answer, replies) = entry.group.sync_within(
            self.alloc, connection, number, generation, &given, clock, most,
        )?;
        self.quiet_until = self.quiet_until.min(entry.group.quiet_until());
        self.bytes = self.bytes - before + entry.group.bytes();
        self.released[0] = replies;
        Ok(answer)
    }
}
