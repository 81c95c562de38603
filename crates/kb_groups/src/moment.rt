//! Moments: sessions and deadlines.

ghost use Rattle.std.specs.Prelude.{◌≡◌, ◌≤◌, ◌<◌, ◌+◌, map, min, IfOk, OnErr, OnOk};
ghost use Rattle.kb_wire.specs.declared.clock.TheConstants.{MAX_CLOCK};
ghost use Rattle.kb_groups.specs.Members.{keeping, member};
ghost use Rattle.kb_groups.specs.Answers.{waits_join};
ghost use Rattle.kb_groups.specs.Moments.{at_deadline, closed, earliest, expired, expired_one, expires, has_expired, is_due, next_due};
ghost use Rattle.kb_groups.specs.Moments.{session_due, session_end, tick};
ghost use Rattle.kb_groups.specs.Rebalance.{Step};
ghost use Rattle.kb_groups.specs.Calls.{unmoved};

use crate::member::Member;
use crate::members::Members;
use crate::reply::Release;
use crate::state::{Phase, State};
use std::alloc::{AllocError, Global};

impl Member {
    /// Whether its session has ended.
    fn has_expired(&self, clock: u64) -> bool
        ensures { result ≡ has_expired clock self.now }
    {
        self.waiter.is_none()
            && self.session_start <= clock
            && clock - self.session_start >= self.session_timeout as u64
    }

    /// The sooner of that moment and the end of its session.
    fn sooner_end(&self, moment: u64) -> u64
        ensures { result ≡ min moment (session_end self.now) }
    {
        if self.waiter.is_none() {
            let end = self
                .session_start
                .saturating_add(self.session_timeout as u64);
            moment.min(end)
        } else {
            moment
        }
    }
}

impl Members {
    /// The numbers of the members, in joining order.
    fn numbers(&self, alloc: Global) -> Result<Vec<u64>, AllocError>
        ensures { IfOk result (λ v. v.items ≡ map (λ e. e.0) self.now) }
    {
        let mut numbers = Vec::new(alloc);
        for i in 0..self.map.len() {
            if let Some((number, _)) = self.map.get_index(i) {
                numbers.push(*number)?;
            }
        }
        Ok(numbers)
    }

    /// Whether that member is here and its session has ended.
    fn expires(&self, number: u64, clock: u64) -> bool
        ensures { result ≡ expires clock (member self.now number) }
    {
        match self.find(number) {
            Some(member) => member.has_expired(clock),
            None => false,
        }
    }

    /// Removes the members without a waiting join.
    fn keep_joining(&mut self)
        ensures { self.new ≡ keeping (λ m. waits_join m.waiter) self.old }
    {
        self.map.retain(
            |_, member|
                ensures { (result ≡ waits_join member.old.waiter) × (member.new ≡ member.old) }
            { member.waits_join() },
        );
    }

    /// The first end of a session.
    fn earliest(&self) -> u64
        ensures { result ≡ earliest self.now }
    {
        let mut earliest = u64::MAX;
        for i in 0..self.map.len() {
            if let Some((_, member)) = self.map.get_index(i) {
                earliest = member.sooner_end(earliest);
            }
        }
        earliest
    }
}

impl State {
    /// Before this moment no session ends and no deadline comes.
    pub(crate) fn next_due(&self) -> u64
        ensures { result ≡ next_due self.now }
    {
        let earliest = self.members.earliest();
        match self.phase {
            Phase::Joining(deadline) => earliest.min(deadline),
            Phase::Empty | Phase::Syncing | Phase::Stable => earliest,
        }
    }

    /// The sooner of that moment and the end of that member's session if it starts at the clock; that moment if it is no member.
    pub(crate) fn sooner_due(&self, moment: u64, number: u64, clock: u64) -> u64
        ensures { result ≡ min moment (session_due clock (member self.now.members number)) }
    {
        match self.members.find(number) {
            Some(member) => moment.min(clock.saturating_add(member.session_timeout as u64)),
            None => moment,
        }
    }

    fn is_due(&self, clock: u64) -> bool
        ensures { result ≡ is_due clock self.now.phase }
    {
        match self.phase {
            Phase::Joining(deadline) => deadline <= clock,
            Phase::Empty | Phase::Syncing | Phase::Stable => false,
        }
    }

    /// Joining ends at its deadline. An `Err` may leave anything.
    fn close(&mut self, alloc: Global, clock: u64, out: &mut Vec<Release>) -> Result<(), AllocError>
        ensures { OnOk result (record { group = self.new; released = out.new.items }
            ≡ closed clock (record { group = self.old; released = out.old.items })) }
    {
        self.members.keep_joining();
        self.complete(alloc, clock, out)
    }

    /// The members whose sessions have ended leave. An `Err` may leave anything.
    fn expire(
        &mut self,
        alloc: Global,
        clock: u64,
        out: &mut Vec<Release>,
    ) -> Result<(), AllocError>
        requires { clock ≤ MAX_CLOCK }
        ensures { OnOk result (record { group = self.new; released = out.new.items }
            ≡ expired clock (map (λ e. e.0) self.old.members) (record { group = self.old; released = out.old.items })) }
    {
        let numbers = self.members.numbers(alloc)?;
        for i in 0..numbers.len() {
            self.expire_one(alloc, numbers[i], clock, out)?;
        }
        Ok(())
    }

    /// The member leaves if its session has ended. An `Err` may leave anything.
    fn expire_one(
        &mut self,
        alloc: Global,
        number: u64,
        clock: u64,
        out: &mut Vec<Release>,
    ) -> Result<(), AllocError>
        requires { clock ≤ MAX_CLOCK }
        ensures { OnOk result (record { group = self.new; released = out.new.items }
            ≡ expired_one clock number (record { group = self.old; released = out.old.items })) }
    {
        if self.members.expires(number, clock) {
            self.depart(alloc, number, clock, out)?;
        }
        Ok(())
    }

    /// A moment. An `Err` changes nothing.
    pub(crate) fn tick(&mut self, alloc: Global, clock: u64) -> Result<Vec<Release>, AllocError>
        requires { clock ≤ MAX_CLOCK }
        ensures released { IfOk result (λ v. v.items ≡ (tick clock self.old).released) }
        ensures group { OnOk result (self.new ≡ (tick clock self.old).group) }
        ensures refused { OnErr result (self.new ≡ self.old) }
    {
        let mut next = self.copy()?;
        let mut out = Vec::new(alloc);
        next.expire(alloc, clock, &mut out)?;
        if next.is_due(clock) {
            next.close(alloc, clock, &mut out)?;
        }
        *self = next;
        Ok(out)
    }
}
