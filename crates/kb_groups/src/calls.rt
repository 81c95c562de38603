//! Heartbeats, commits, syncs, and connections that end.

ghost use Rattle.std.specs.Prelude.{◌≡◌, if◌then◌else◌, IfOk, OnOk, OnErr};
ghost use Rattle.kb_groups.specs.Members.{member};
ghost use Rattle.kb_groups.specs.declared.reply.SyncAnswer.TheVariants.{Got, Waits};
ghost use Rattle.kb_groups.specs.Calls.{sync, sync_step, assigned, is_that, waiting_sync, fixed, heartbeat, after_heartbeat, may_commit};
ghost use Rattle.kb_groups.specs.Calls.{after_may_commit, dropped, known};

use crate::assignments::{Assigned, copy_assigned};
use crate::borrowed::SyncAssignment;
use crate::change::{HangUp, Start, WaitSync};
use crate::choice::is_that;
use crate::code::Code;
use crate::reply::{Release, SyncAnswer};
use crate::state::{Phase, State};
use std::alloc::{AllocError, Global};

impl State {
    /// Unknown member, then generation, then the code.
    fn known_code(&self, number: u64, generation: i32, code: Code) -> Code
        ensures { result ≡ known generation self.now.generation (member self.now.members number) code }
    {
        match self.members.find(number) {
            None => Code::UnknownMemberId,
            Some(_) => {
                if generation == self.generation {
                    code
                } else {
                    Code::IllegalGeneration
                }
            }
        }
    }

    /// Kafka's Heartbeat: 25, 22, 27 in Joining, else 0.
    pub(crate) fn heartbeat(&mut self, number: u64, generation: i32, clock: u64) -> Code
        ensures code { result ≡ heartbeat number generation self.old }
        ensures after { self.new ≡ after_heartbeat clock number generation self.old }
    {
        let code = match self.phase {
            Phase::Joining(_) => Code::RebalanceInProgress,
            Phase::Empty | Phase::Syncing | Phase::Stable => Code::Fine,
        };
        let code = self.known_code(number, generation, code);
        if let Code::Fine | Code::RebalanceInProgress = code {
            self.members.change_one(number, &Start { clock });
        }
        code
    }

    /// Whether a commit is taken.
    pub(crate) fn may_commit(&mut self, number: u64, generation: i32, clock: u64) -> Code
        ensures code { result ≡ may_commit number generation self.old }
        ensures after { self.new ≡ after_may_commit clock number generation self.old }
    {
        let code = match self.phase {
            Phase::Syncing => Code::RebalanceInProgress,
            Phase::Empty | Phase::Joining(_) | Phase::Stable => Code::Fine,
        };
        let code = if generation < 0 && self.members.is_empty() {
            Code::Fine
        } else {
            self.known_code(number, generation, code)
        };
        if let Code::Fine = code {
            self.members.change_one(number, &Start { clock });
        }
        code
    }

    /// The wait of a closed connection goes; the member stays.
    pub(crate) fn dropped(&mut self, connection: u64, clock: u64)
        ensures { self.new ≡ dropped clock connection self.old }
    {
        self.members.change_each(&HangUp { connection, clock });
    }

    /// A member's sync waits; its earlier waiting request gets 27. An `Err` changes nothing.
    fn wait_sync(
        &mut self,
        alloc: Global,
        connection: u64,
        number: u64,
    ) -> Result<Vec<Release>, AllocError>
        ensures group { OnOk result (self.new ≡ (waiting_sync connection number self.old).group) }
        ensures released { IfOk result (λ v. v.items ≡ (waiting_sync connection number self.old).released) }
        ensures refused { OnErr result (self.new ≡ self.old) }
    {
        let mut out = Vec::new(alloc);
        self.members
            .turn_away(alloc, Code::RebalanceInProgress, number, &mut out)?;
        self.members.change_one(number, &WaitSync { connection });
        Ok(out)
    }

    /// The leader's sync fixes the assignments and answers all. An `Err` changes nothing.
    fn fix(
        &mut self,
        alloc: Global,
        number: u64,
        assignments: &[SyncAssignment<'_>],
        clock: u64,
    ) -> Result<Vec<Release>, AllocError>
        ensures group { OnOk result (self.new ≡ (fixed clock assignments.now number self.old).group) }
        ensures released { IfOk result (λ v. v.items ≡ (fixed clock assignments.now number self.old).released) }
        ensures refused { OnErr result (self.new ≡ self.old) }
    {
        let gifts = self.members.gifts(alloc, assignments)?;
        let mut out = Vec::new(alloc);
        self.members
            .answer(alloc, &Assigned { assignments }, &mut out)?;
        self.members.give(clock, number, gifts);
        self.phase = Phase::Stable;
        Ok(out)
    }

    /// A sync while the leader's is awaited. An `Err` changes nothing.
    fn sync_step(
        &mut self,
        alloc: Global,
        connection: u64,
        number: u64,
        assignments: &[SyncAssignment<'_>],
        clock: u64,
    ) -> Result<(SyncAnswer, Vec<Release>), AllocError>
        ensures answer { IfOk result (λ r. r.0 ≡ (if is_that self.old.leader number then Got (assigned assignments.now number)
            else Waits)) }
        ensures released { IfOk result (λ r. r.1.items
            ≡ (sync_step clock connection assignments.now number (is_that self.old.leader number) self.old).released) }
        ensures group { OnOk result (self.new ≡ (sync_step clock connection assignments.now number
            (is_that self.old.leader number) self.old).group) }
        ensures refused { OnErr result (self.new ≡ self.old) }
    {
        if is_that(self.leader, number) {
            let own = copy_assigned(alloc, assignments, number)?;
            let released = self.fix(alloc, number, assignments, clock)?;
            Ok((SyncAnswer::Got(own), released))
        } else {
            let released = self.wait_sync(alloc, connection, number)?;
            Ok((SyncAnswer::Waits, released))
        }
    }

    /// Kafka's SyncGroup. An `Err` changes nothing.
    pub(crate) fn sync(
        &mut self,
        alloc: Global,
        connection: u64,
        number: u64,
        generation: i32,
        assignments: &[SyncAssignment<'_>],
        clock: u64,
    ) -> Result<(SyncAnswer, Vec<Release>), AllocError>
        ensures answer { IfOk result (λ r. r.0 ≡ (sync clock connection number generation assignments.now self.old).0) }
        ensures released { IfOk result (λ r. r.1.items ≡ (sync clock connection number generation assignments.now self.old).1.released) }
        ensures group { OnOk result (self.new ≡ (sync clock connection number generation assignments.now self.old).1.group) }
        ensures refused { OnErr result (self.new ≡ self.old) }
    {
        let code = self.known_code(number, generation, Code::Fine);
        let Code::Fine = code else {
            return Ok((SyncAnswer::Refused(code), Vec::new(alloc)));
        };
        match self.phase {
            Phase::Empty => Ok((SyncAnswer::Refused(Code::UnknownMemberId), Vec::new(alloc))),
            Phase::Joining(_) => Ok((
                SyncAnswer::Refused(Code::RebalanceInProgress),
                Vec::new(alloc),
            )),
            Phase::Syncing => self.sync_step(alloc, connection, number, assignments, clock),
            Phase::Stable => {
                let own = self.members.assignment(alloc, number)?;
                self.members.change_one(number, &Start { clock });
                Ok((SyncAnswer::Got(own), Vec::new(alloc)))
            }
        }
    }
}
