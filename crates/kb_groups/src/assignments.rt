//! Assignments, from the leader to the members.

ghost use Rattle.std.specs.Prelude.{◌≡◌, IfOk, Option, Some, List, length, map, vec_len};
ghost use Rattle.kb_groups.specs.declared.borrowed.SyncAssignment.{SyncAssignment};
ghost use Rattle.kb_groups.specs.Calls.{assigned, assigned_reply, assignment_of, given, handed};
ghost use Rattle.kb_groups.specs.Members.{each, member};

use crate::answer::Answer;
use crate::borrowed::SyncAssignment;
use crate::bytes::{Bytes, SharedBytes};
use crate::ids::member_id;
use crate::member::{Asked, Member};
use crate::members::Members;
use crate::reply::Reply;
use std::alloc::{AllocError, Global};
use std::mem;

/// A copy of a member's assignment: the first entry under its id, or empty.
pub(crate) fn copy_assigned(
    alloc: Global,
    assignments: &[SyncAssignment<'_>],
    number: u64,
) -> Result<Bytes, AllocError>
    ensures { IfOk result (λ b. b ≡ assigned assignments.now number) }
{
    let id = member_id(alloc, number)?;
    for entry in assignments {
        if entry.member_id.as_str().as_bytes() == id.as_slice() {
            return Bytes::copy_of(alloc, entry.assignment.as_slice());
        }
    }
    Ok(Bytes::new(alloc))
}

/// Every waiting sync gets its assignment.
#[derive(Drop)]
pub(crate) struct Assigned<'a> {
    pub assignments: &'a [SyncAssignment<'a>],
}

impl<'a> Answer for Assigned<'a> {
    ghost reply = { λ s. assigned_reply s.assignments.now };

    fn reply_to(
        &self,
        alloc: Global,
        number: u64,
        _member: &Member,
        _asked: Asked,
    ) -> Result<Option<Reply>, AllocError> {
        Ok(Some(Reply::Synced(copy_assigned(alloc, self.assignments, number)?)))
    }
}

impl Member {
    /// Its assignment goes into the member, which has its answer if it waited or leads.
    fn hand(&mut self, clock: u64, leader: u64, number: u64, gift: &mut SharedBytes)
        ensures { self.new ≡ handed clock leader number gift.old self.old }
    {
        mem::swap(&mut self.assignment, gift);
        if self.waiter.is_some() || number == leader {
            self.session_start = clock;
        }
        self.waiter = None;
    }
}

impl Members {
    /// A copy of that member's assignment.
    pub(crate) fn assignment(&self, alloc: Global, number: u64) -> Result<Bytes, AllocError>
        ensures { IfOk result (λ b. b ≡ assignment_of (member self.now number)) }
    {
        match self.find(number) {
            Some(member) => Bytes::copy_of(alloc, member.assignment.as_slice()),
            None => Ok(Bytes::new(alloc)),
        }
    }

    /// Copies of the members' assignments, in joining order.
    pub(crate) fn gifts(
        &self,
        alloc: Global,
        assignments: &[SyncAssignment<'_>],
    ) -> Result<Vec<SharedBytes>, AllocError>
        ensures { IfOk result (λ v. v.items ≡ map (λ e. assigned assignments.now e.0) self.now) }
    {
        let mut gifts = Vec::new(alloc);
        for i in 0..self.map.len() {
            if let Some((number, _)) = self.map.get_index(i) {
                let gift = copy_assigned(alloc, assignments, *number)?;
                gifts.push(SharedBytes::from_bytes(alloc, gift)?)?;
            }
        }
        Ok(gifts)
    }

    /// Each member gets its assignment.
    pub(crate) fn give(&mut self, clock: u64, leader: u64, mut gifts: Vec<SharedBytes>)
        requires { vec_len gifts ≡ length self.old }
        ensures { (as_ : List SyncAssignment) → gifts.items ≡ map (λ e. assigned as_ e.0) self.old
            → self.new ≡ each (given clock as_ leader) self.old }
    {
        for i in 0..self.map.len() {
            let (number, member) = self.map.pair_mut(i);
            member.hand(clock, leader, *number, &mut gifts[i]);
        }
    }
}
