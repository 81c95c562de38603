//! What a group is, and how it goes from one generation to the next.

ghost use Rattle.std.specs.Prelude.{◌≡◌, ◌≤◌, List, IfOk};
ghost use Rattle.kb_wire.specs.declared.clock.TheConstants.{MAX_CLOCK};
ghost use Rattle.kb_groups.specs.declared.reply.Release.{Release};
ghost use Rattle.kb_groups.specs.Calls.{fresh_at};
ghost use Rattle.kb_groups.specs.Rebalance.{opened, ended, is_joining, looked_at, next_generation};

use crate::bytes::SharedBytes;
use crate::change::{Free, FreeSync};
use crate::members::Members;
use std::alloc::{AllocError, Global};

#[derive(Clone, Copy)]
pub enum Phase {
    /// No members.
    Empty,
    /// Members join, until all have or the deadline comes.
    Joining(u64),
    /// The leader's assignments are awaited.
    Syncing,
    Stable,
}

/// A group: what contracts see of one.
#[derive(Drop)]
pub struct State {
    pub generation: i32,
    pub phase: Phase,
    pub leader: Option<u64>,
    /// The type that all members' protocols have.
    pub protocol_type: SharedBytes,
    pub members: Members,
}

impl State {
    /// A group without members, whose last generation was that.
    pub(crate) fn new(alloc: Global, generation: i32) -> State
        ensures { result ≡ fresh_at generation }
    {
        State {
            generation,
            phase: Phase::Empty,
            leader: None,
            protocol_type: SharedBytes::new(),
            members: Members::new(alloc),
        }
    }

    /// A copy of the group, which shares the members' protocols and all other bytes.
    pub(crate) fn copy(&self) -> Result<State, AllocError>
        ensures { IfOk result (λ g. g ≡ self.now) }
    {
        Ok(State {
            generation: self.generation,
            phase: self.phase,
            leader: self.leader,
            protocol_type: self.protocol_type.clone()?,
            members: self.members.clone()?,
        })
    }

    pub(crate) fn is_joining(&self) -> bool
        ensures { result ≡ is_joining self.now.phase }
    {
        match self.phase {
            Phase::Joining(_) => true,
            Phase::Empty | Phase::Syncing | Phase::Stable => false,
        }
    }

    /// Joining opens. The answers to waiting syncs are made before.
    pub(crate) fn open_joining(&mut self, clock: u64)
        requires { clock ≤ MAX_CLOCK }
        ensures { (r : List Release) → self.new ≡ (opened clock (record { group = self.old; released = r })).group }
    {
        let longest = self.members.longest();
        self.members.change_each(&FreeSync { clock });
        self.phase = Phase::Joining(clock + longest as u64);
    }

    /// The generation after this one.
    pub(crate) fn next_generation(&self) -> i32
        ensures { result ≡ next_generation self.now.generation }
    {
        if self.generation == i32::MAX {
            1
        } else {
            self.generation + 1
        }
    }

    /// Joining ends. The answers to waiting joins are made before.
    pub(crate) fn end_joining(&mut self, clock: u64)
        ensures { (r : List Release) → self.new ≡ (ended clock (record { group = self.old; released = r })).group }
    {
        match self.members.next_leader(self.leader) {
            None => self.phase = Phase::Empty,
            Some(leader) => {
                self.generation = self.next_generation();
                self.phase = Phase::Syncing;
                self.leader = Some(leader);
                self.members.change_each(&Free { clock });
            }
        }
    }

    /// Joining ends if every member has a waiting join. The answers are made before.
    pub(crate) fn settle(&mut self, clock: u64)
        ensures { (r : List Release) → self.new ≡ (looked_at clock (record { group = self.old; released = r })).group }
    {
        if self.members.all_join() {
            self.end_joining(clock);
        }
    }
}
