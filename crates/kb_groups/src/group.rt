//! One consumer group.

ghost use Rattle.std.specs.Prelude.{◌≡◌, ◌<◌, ◌≤◌, ◌^◌, IfOk, OnErr, OnOk};
ghost use Rattle.kb_wire.specs.declared.clock.TheConstants.{MAX_CLOCK};
ghost use Rattle.kb_groups.specs.Bytes.{group_bytes, is_past, joined_bytes, sync_within};
ghost use Rattle.kb_groups.specs.Sizes.{counted};
ghost use Rattle.kb_groups.specs.Calls.{after_heartbeat, after_may_commit, dropped, fresh, fresh_at, heartbeat, join, join_code, leave};
ghost use Rattle.kb_groups.specs.Calls.{leave_code, may_commit, sync};
ghost use Rattle.kb_groups.specs.Moments.{next_due, tick};

use crate::borrowed::{Join, SyncAssignment};
use crate::code::Code;
use crate::reply::{Release, SyncAnswer};
use crate::state::State;
use std::alloc::{AllocError, Global};
use std::marker::Model;

/// One consumer group, which contracts see as its `State`.
///
/// Clocks are in milliseconds, at most 2^62. The calls that allocate answer `Err` for want of memory, and the group is then as before.
#[derive(Drop)]
pub struct Group {
    state: State,
    /// Before this moment no session ends and no deadline comes.
    quiet_until: u64,
    /// Whether a request of some member waits.
    has_waiting: bool,
    /// What the group keeps; `u64::MAX` for all above.
    bytes: u64,
}

impl Model for Group {
    ghost use Rattle.std.specs.Prelude.{◌≡◌, ◌≤◌};
    ghost use Rattle.kb_groups.specs.declared.state.State.{State};
    ghost use Rattle.kb_groups.specs.Answers.{any_waits};
    ghost use Rattle.kb_groups.specs.Bytes.{group_bytes};
    ghost use Rattle.kb_groups.specs.Sizes.{counted};
    ghost use Rattle.kb_groups.specs.Moments.{next_due};

    ghost Value = { State };

    ghost view = { λ g. g.state };

    ghost invariant = { λ g. (g.quiet_until ≤ next_due g.state) × (g.has_waiting ≡ any_waits g.state.members)
        × (g.bytes ≡ counted (group_bytes g.state)) };
}

impl Group {
    /// A group that nobody joined yet.
    pub fn new(alloc: Global) -> Group
        ensures { result ≡ fresh }
    {
        Group::with_generation(alloc, 0)
    }

    /// A group without members, whose last generation was that.
    pub fn with_generation(alloc: Global, generation: i32) -> Group
        ensures { result ≡ fresh_at generation }
    {
        Group {
            state: State::new(alloc, generation),
            quiet_until: 0,
            has_waiting: false,
            bytes: 0,
        }
    }

    /// The group, to be read.
    pub fn state(&self) -> &State
        ensures { result.now ≡ self.now }
    {
        &self.state
    }

    /// Before this moment no session ends and no deadline comes. It costs constant time.
    pub fn quiet_until(&self) -> u64
        ensures { result ≤ next_due self.now }
    {
        self.quiet_until
    }

    /// The next moment at which a session ends or a deadline comes; `u64::MAX` where there is none.
    pub fn next_due(&self) -> u64
        ensures { result ≡ next_due self.now }
    {
        self.state.next_due()
    }

    /// What the group keeps: its protocol type, and its members' ids, protocols and assignments; `u64::MAX` for all above. It costs
    /// constant time.
    pub fn bytes(&self) -> u64
        ensures { result ≡ counted (group_bytes self.now) }
    {
        self.bytes
    }

    /// What the group keeps once the join is in; `u64::MAX` for all above.
    fn joined_bytes(&self, request: &Join<'_>) -> u64
        requires { group_bytes self.now < 2 ^ 63 }
        ensures { result ≡ counted (joined_bytes request.now self.now) }
    {
        let others = self.bytes - self.state.replaced_bytes(request);
        others.saturating_add(request.bytes())
    }

    /// Whether the group, which may keep that many bytes, would go past them by a join that brings more than it keeps for the member.
    pub fn is_past_with(&self, request: &Join<'_>, most: u64) -> bool
        requires most { most < 2 ^ 63 }
        requires there { group_bytes self.now < 2 ^ 63 }
        ensures { result ≡ is_past most (group_bytes self.now) (joined_bytes request.now self.now) }
    {
        let after = self.joined_bytes(request);
        after > most && after > self.bytes
    }

    /// The code of a join, as far as the group decides it: session timeout, protocols and type, member, agreement with the others,
    /// and the greatest number of members, in this order.
    pub fn join_code(&self, request: &Join<'_>) -> Code
        ensures { result ≡ join_code request.now self.now }
    {
        self.state.join_code(request)
    }

    /// Kafka's JoinGroup, with the requests that wait no longer, by connection; the join's own reply is among them if Joining ends.
    pub fn join(
        &mut self,
        alloc: Global,
        request: &Join<'_>,
        clock: u64,
    ) -> Result<(Code, Vec<Release>), AllocError>
        requires { clock ≤ MAX_CLOCK }
        ensures code { IfOk result (λ r. r.0 ≡ join_code request.now self.old) }
        ensures released { IfOk result (λ r. r.1.items ≡ (join clock request.now self.old).released) }
        ensures group { OnOk result (self.new ≡ (join clock request.now self.old).group) }
        ensures refused { OnErr result (self.new ≡ self.old) }
    {
        let result = self.state.join(alloc, request, clock);
        self.quiet_until = self.state.next_due();
        self.has_waiting = self.state.members.any_waits();
        self.bytes = self.state.bytes();
        result
    }

    /// Kafka's SyncGroup, with the requests that wait no longer, by connection.
    pub fn sync(
        &mut self,
        alloc: Global,
        connection: u64,
        number: u64,
        generation: i32,
        assignments: &[SyncAssignment<'_>],
        clock: u64,
    ) -> Result<(SyncAnswer, Vec<Release>), AllocError>
        ensures answer { IfOk result (λ r. r.0 ≡ (sync clock connection number generation assignments.now self.old).0) }
        ensures released { IfOk result (λ r. r.1.items ≡ (sync clock connection number generation assignments.now self.old).1.released) }
        ensures group { OnOk result (self.new ≡ (sync clock connection number generation assignments.now self.old).1.group) }
        ensures refused { OnErr result (self.new ≡ self.old) }
    {
        let result = self
            .state
            .sync(alloc, connection, number, generation, assignments, clock);
        self.quiet_until = self.state.next_due();
        self.has_waiting = self.state.members.any_waits();
        self.bytes = self.state.bytes();
        result
    }

    /// As `sync`, where the group may keep that many bytes: a sync whose assignments would go past them, and past what is there, is
    /// refused with 81, and changes nothing.
    pub fn sync_within(
        &mut self,
        alloc: Global,
        connection: u64,
        number: u64,
        generation: i32,
        assignments: &[SyncAssignment<'_>],
        clock: u64,
        most: u64,
    ) -> Result<(SyncAnswer, Vec<Release>), AllocError>
        requires most { most < 2 ^ 63 }
        requires there { group_bytes self.old < 2 ^ 63 }
        ensures answer { IfOk result (λ r. r.0 ≡ (sync_within most clock connection number generation assignments.now self.old).0) }
        ensures released { IfOk result (λ r. r.1.items
            ≡ (sync_within most clock connection number generation assignments.now self.old).1.released) }
        ensures group { OnOk result (self.new ≡ (sync_within most clock connection number generation assignments.now self.old).1.group) }
        ensures refused { OnErr result (self.new ≡ self.old) }
    {
        let mut next = self.state.copy()?;
        let (answer, released) = next.sync(
            alloc,
            connection,
            number,
            generation,
            assignments,
            clock,
        )?;
        let bytes = next.bytes();
        if bytes > most && bytes > self.bytes {
            return Ok((
                SyncAnswer::Refused(Code::GroupMaxSizeReached),
                Vec::new(alloc),
            ));
        }
        self.quiet_until = next.next_due();
        self.has_waiting = next.members.any_waits();
        self.bytes = bytes;
        self.state = next;
        Ok((answer, released))
    }

    /// Kafka's Heartbeat: 25, 22, 27 in Joining, else 0. It takes no memory.
    pub fn heartbeat(&mut self, number: u64, generation: i32, clock: u64) -> Code
        ensures code { result ≡ heartbeat number generation self.old }
        ensures after { self.new ≡ after_heartbeat clock number generation self.old }
    {
        self.quiet_until = self.state.sooner_due(self.quiet_until, number, clock);
        self.state.heartbeat(number, generation, clock)
    }

    /// Whether a commit is taken: 25, 22, 27 in Syncing, else 0. It takes no memory.
    pub fn may_commit(&mut self, number: u64, generation: i32, clock: u64) -> Code
        ensures code { result ≡ may_commit number generation self.old }
        ensures after { self.new ≡ after_may_commit clock number generation self.old }
    {
        self.quiet_until = self.state.sooner_due(self.quiet_until, number, clock);
        self.state.may_commit(number, generation, clock)
    }

    /// Kafka's LeaveGroup, with the requests that wait no longer, by connection.
    pub fn leave(
        &mut self,
        alloc: Global,
        number: u64,
        clock: u64,
    ) -> Result<(Code, Vec<Release>), AllocError>
        requires { clock ≤ MAX_CLOCK }
        ensures code { IfOk result (λ r. r.0 ≡ leave_code number self.old) }
        ensures released { IfOk result (λ r. r.1.items ≡ (leave clock number self.old).released) }
        ensures group { OnOk result (self.new ≡ (leave clock number self.old).group) }
        ensures refused { OnErr result (self.new ≡ self.old) }
    {
        let result = self.state.leave(alloc, number, clock);
        self.quiet_until = self.state.next_due();
        self.has_waiting = self.state.members.any_waits();
        self.bytes = self.state.bytes();
        result
    }

    /// The wait of a closed connection goes; the member stays. It takes no memory.
    /// Where no request of a member waits it costs constant time.
    pub fn dropped(&mut self, connection: u64, clock: u64)
        ensures { self.new ≡ dropped clock connection self.old }
    {
        if !self.has_waiting {
            return;
        }
        self.state.dropped(connection, clock);
        self.quiet_until = self.state.next_due();
        self.has_waiting = self.state.members.any_waits();
        self.bytes = self.state.bytes();
    }

    /// A moment: sessions end, and then a deadline comes; with the requests that wait no longer, by connection.
    /// Where nothing is due it costs constant time.
    pub fn tick(&mut self, alloc: Global, clock: u64) -> Result<Vec<Release>, AllocError>
        requires { clock ≤ MAX_CLOCK }
        ensures released { IfOk result (λ v. v.items ≡ (tick clock self.old).released) }
        ensures group { OnOk result (self.new ≡ (tick clock self.old).group) }
        ensures refused { OnErr result (self.new ≡ self.old) }
    {
        if clock < self.quiet_until {
            return Ok(Vec::new(alloc));
        }
        let result = self.state.tick(alloc, clock);
        self.quiet_until = self.state.next_due();
        self.has_waiting = self.state.members.any_waits();
        self.bytes = self.state.bytes();
        result
    }
}
