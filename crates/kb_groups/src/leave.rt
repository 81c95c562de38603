//! Members leave.

ghost use Rattle.std.specs.Prelude.{◌≡◌, ◌≤◌, IfOk, OnErr, OnOk, []};
ghost use Rattle.kb_wire.specs.declared.clock.TheConstants.{MAX_CLOCK};
ghost use Rattle.kb_groups.specs.Calls.{gone, leave, leave_code};
ghost use Rattle.kb_groups.specs.Rebalance.{ended, opened, Step};

use crate::answer::SyncsRefused;
use crate::code::Code;
use crate::reply::Release;
use crate::state::{Phase, State};
use std::alloc::{AllocError, Global};

impl State {
    /// Joining ends, and its joins are answered. An `Err` may leave anything.
    pub(crate) fn complete(
        &mut self,
        alloc: Global,
        clock: u64,
        out: &mut Vec<Release>,
    ) -> Result<(), AllocError>
        ensures { OnOk result (record { group = self.new; released = out.new.items }
            ≡ ended clock (record { group = self.old; released = out.old.items })) }
    {
        self.answer_joins(alloc, out)?;
        self.end_joining(clock);
        Ok(())
    }

    /// Joining opens, and waiting syncs are answered. An `Err` may leave anything.
    fn reopen(
        &mut self,
        alloc: Global,
        clock: u64,
        out: &mut Vec<Release>,
    ) -> Result<(), AllocError>
        requires { clock ≤ MAX_CLOCK }
        ensures { OnOk result (record { group = self.new; released = out.new.items }
            ≡ opened clock (record { group = self.old; released = out.old.items })) }
    {
        self.members.answer(alloc, &SyncsRefused {}, out)?;
        self.open_joining(clock);
        Ok(())
    }

    /// A member is gone. An `Err` may leave anything.
    pub(crate) fn depart(
        &mut self,
        alloc: Global,
        number: u64,
        clock: u64,
        out: &mut Vec<Release>,
    ) -> Result<(), AllocError>
        requires { clock ≤ MAX_CLOCK }
        ensures { OnOk result (record { group = self.new; released = out.new.items }
            ≡ gone clock number (record { group = self.old; released = out.old.items })) }
    {
        self.members
            .turn_away(alloc, Code::UnknownMemberId, number, out)?;
        self.members.remove(number);
        if self.is_joining() {
            if self.members.all_join() {
                self.complete(alloc, clock, out)?;
            }
        } else if self.members.is_empty() {
            self.phase = Phase::Empty;
        } else {
            self.reopen(alloc, clock, out)?;
        }
        Ok(())
    }

    /// Kafka's LeaveGroup. An `Err` changes nothing.
    pub(crate) fn leave(
        &mut self,
        alloc: Global,
        number: u64,
        clock: u64,
    ) -> Result<(Code, Vec<Release>), AllocError>
        requires { clock ≤ MAX_CLOCK }
        ensures code { IfOk result (λ r. r.0 ≡ leave_code number self.old) }
        ensures released { IfOk result (λ r. r.1.items ≡ (leave clock number self.old).released) }
        ensures group { OnOk result (self.new ≡ (leave clock number self.old).group) }
        ensures refused { OnErr result (self.new ≡ self.old) }
    {
        if !self.members.contains(number) {
            return Ok((Code::UnknownMemberId, Vec::new(alloc)));
        }
        let mut next = self.copy()?;
        let mut out = Vec::new(alloc);
        next.depart(alloc, number, clock, &mut out)?;
        *self = next;
        Ok((Code::Fine, out))
    }
}
