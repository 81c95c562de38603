//! Members join.

ghost use Rattle.std.specs.Prelude.{◌≡◌, ◌≤◌, ℕ, IfOk, OnErr, OnOk};
ghost use Rattle.kb_wire.specs.declared.clock.TheConstants.{MAX_CLOCK};
ghost use Rattle.kb_groups.specs.Calls.{agrees, is_stranger, join, join_code, joined, joining, at_least_zero, number_of, others};
ghost use Rattle.kb_groups.specs.Rebalance.{ended, looked_at, opened_unless};

use crate::answer::{NewGeneration, SyncsRefused};
use crate::borrowed::Join;
use crate::bytes::SharedBytes;
use crate::code::Code;
use crate::member::{Asked, Member, Waiter};
use crate::protocol::Protocols;
use crate::reply::Release;
use crate::state::State;
use std::alloc::{AllocError, Global};

/// The shortest session timeout that is taken.
const MIN_SESSION_TIMEOUT: i32 = 6_000;
/// The longest session timeout that is taken.
const MAX_SESSION_TIMEOUT: i32 = 1_800_000;
/// How many members a group has at most.
const MAX_MEMBERS: usize = 200;

/// A timeout below 0 counts as 0.
fn at_least_zero(timeout: i32) -> u32
    ensures { result ≡ at_least_zero timeout }
{
    if timeout < 0 { 0 } else { timeout as u32 }
}

impl<'a> Join<'a> {
    /// The number of the member that joins.
    pub(crate) fn number(&self) -> u64
        ensures { result ≡ number_of self.now }
    {
        self.member.unwrap_or(self.new_member)
    }

    /// The member whose join waits.
    fn joining(&self, alloc: Global, clock: u64) -> Result<Member, AllocError>
        ensures { IfOk result (λ m. m ≡ joining clock self.now) }
    {
        let asked = match self.member {
            None => Asked::FirstJoin,
            Some(_) => Asked::Rejoin,
        };
        Ok(Member {
            protocols: Protocols::copy_of(alloc, self.protocols)?,
            session_timeout: at_least_zero(self.session_timeout),
            rebalance_timeout: at_least_zero(self.rebalance_timeout),
            assignment: SharedBytes::new(),
            waiter: Some(Waiter {
                connection: self.connection,
                asked,
            }),
            session_start: clock,
        })
    }
}

impl State {
    /// Whether the other members' type and names agree with the join's.
    fn agrees(&self, request: &Join<'_>) -> bool
        ensures { result ≡ agrees request.now (others request.now.member self.now.members) self.now.protocol_type }
    {
        if self.members.has_none_but(request.member) {
            return true;
        }
        request.protocol_type.as_str().as_bytes() == self.protocol_type.as_slice()
            && self
                .members
                .common(request.protocols, request.member)
                .is_some()
    }

    fn is_stranger(&self, member: Option<u64>) -> bool
        ensures { result ≡ is_stranger member self.now.members }
    {
        match member {
            None => false,
            Some(number) => !self.members.contains(number),
        }
    }

    /// A join's code, by the first test that fails.
    pub(crate) fn join_code(&self, request: &Join<'_>) -> Code
        ensures { result ≡ join_code request.now self.now }
    {
        if request.session_timeout < MIN_SESSION_TIMEOUT
            || request.session_timeout > MAX_SESSION_TIMEOUT
        {
            return Code::InvalidSessionTimeout;
        }
        if request.protocols.is_empty() || request.protocol_type.as_str().is_empty() {
            return Code::InconsistentGroupProtocol;
        }
        if self.is_stranger(request.member) {
            return Code::UnknownMemberId;
        }
        if !self.agrees(request) {
            return Code::InconsistentGroupProtocol;
        }
        if request.member.is_none() && self.members.len() >= MAX_MEMBERS {
            return Code::GroupMaxSizeReached;
        }
        Code::Fine
    }

    /// The answers to waiting joins where Joining ends, each put in its place.
    pub(crate) fn answer_joins(
        &self,
        alloc: Global,
        out: &mut Vec<Release>,
    ) -> Result<(), AllocError>
        ensures { OnOk result ((clock : ℕ) → out.new.items
            ≡ (ended clock (record { group = self.now; released = out.old.items })).released) }
    {
        let Some(leader) = self.members.next_leader(self.leader) else {
            return Ok(());
        };
        let how = NewGeneration {
            generation: self.next_generation(),
            protocol: self.members.chosen(leader),
            leader,
            members: &self.members,
        };
        self.members.answer(alloc, &how, out)
    }

    /// What is answered once the members stand that a join leaves, each put in its place.
    fn answer_entry(&self, alloc: Global, out: &mut Vec<Release>) -> Result<(), AllocError>
        ensures { OnOk result ((clock : ℕ) → out.new.items
            ≡ (looked_at clock (opened_unless clock self.now.phase (record { group = self.now; released = out.old.items }))).released) }
    {
        if !self.is_joining() {
            self.members.answer(alloc, &SyncsRefused {}, out)?;
        }
        if self.members.all_join() {
            self.answer_joins(alloc, out)?;
        }
        Ok(())
    }

    /// A join that is accepted. An `Err` changes nothing.
    fn accept(
        &mut self,
        alloc: Global,
        request: &Join<'_>,
        clock: u64,
    ) -> Result<Vec<Release>, AllocError>
        requires { clock ≤ MAX_CLOCK }
        ensures group { OnOk result (self.new ≡ (joined clock request.now self.old).group) }
        ensures released { IfOk result (λ v. v.items ≡ (joined clock request.now self.old).released) }
        ensures refused { OnErr result (self.new ≡ self.old) }
    {
        let number = request.number();
        let member = request.joining(alloc, clock)?;
        let protocol_type = SharedBytes::copy_of(alloc, request.protocol_type.as_str().as_bytes())?;
        let mut out = Vec::new(alloc);
        self.members
            .turn_away(alloc, Code::RebalanceInProgress, number, &mut out)?;
        let replaced = self.members.put(number, member)?;
        if let Err(error) = self.answer_entry(alloc, &mut out) {
            self.members.take_back(number, replaced);
            return Err(error);
        }
        self.protocol_type = protocol_type;
        if !self.is_joining() {
            self.open_joining(clock);
        }
        self.settle(clock);
        Ok(out)
    }

    /// Kafka's JoinGroup. An `Err` changes nothing.
    pub(crate) fn join(
        &mut self,
        alloc: Global,
        request: &Join<'_>,
        clock: u64,
    ) -> Result<(Code, Vec<Release>), AllocError>
        requires { clock ≤ MAX_CLOCK }
        ensures code { IfOk result (λ r. r.0 ≡ join_code request.now self.old) }
        ensures released { IfOk result (λ r. r.1.items ≡ (join clock request.now self.old).released) }
        ensures group { OnOk result (self.new ≡ (join clock request.now self.old).group) }
        ensures refused { OnErr result (self.new ≡ self.old) }
    {
        let code = self.join_code(request);
        let Code::Fine = code else {
            return Ok((code, Vec::new(alloc)));
        };
        let released = self.accept(alloc, request, clock)?;
        Ok((Code::Fine, released))
    }
}
