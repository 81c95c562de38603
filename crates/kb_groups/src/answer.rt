//! Requests that wait no longer, with their replies.

ghost use Rattle.std.specs.Prelude.{◌≡◌, ℕ, Option, OnOk, IfOk, Some};
ghost use Rattle.kb_groups.specs.declared.member.Member.{Member};
ghost use Rattle.kb_groups.specs.declared.member.Asked.{Asked};
ghost use Rattle.kb_groups.specs.declared.reply.Reply.{Reply};
ghost use Rattle.kb_groups.specs.Answers.{place, answers, waiter_answered, sync_refused, refusal, turned_away};
ghost use Rattle.kb_groups.specs.Protocols.{listing};
ghost use Rattle.kb_groups.specs.Rebalance.{joined_reply};

use crate::bytes::Bytes;
use crate::code::Code;
use crate::member::{Asked, Member};
use crate::members::Members;
use crate::reply::{Joined, Listed, Listing, Release, Reply};
use std::alloc::{AllocError, Global};

/// Puts an answer in its place by connection.
fn place_release(out: &mut Vec<Release>, release: Release) -> Result<(), AllocError>
    ensures { OnOk result (out.new.items ≡ place release out.old.items) }
{
    let mut at = 0;
    while at < out.len() && out[at].connection < release.connection {
        at += 1;
    }
    out.insert(at, release)?;
    Ok(())
}

/// Which waiting requests are answered, and what.
pub(crate) trait Answer {
    ghost reply: { Self → ℕ → Member → Asked → Option Reply };

    fn reply_to(
        &self,
        alloc: Global,
        number: u64,
        member: &Member,
        asked: Asked,
    ) -> Result<Option<Reply>, AllocError>
        ensures { IfOk result (λ r. r ≡ reply self.now number member.now asked) };
}

/// Waiting syncs get 27.
#[derive(Drop)]
pub(crate) struct SyncsRefused {}

impl Answer for SyncsRefused {
    ghost reply = { λ s. sync_refused };

    fn reply_to(
        &self,
        _alloc: Global,
        _number: u64,
        _member: &Member,
        asked: Asked,
    ) -> Result<Option<Reply>, AllocError> {
        match asked {
            Asked::Sync => Ok(Some(Reply::SyncRefused(Code::RebalanceInProgress))),
            Asked::FirstJoin | Asked::Rejoin => Ok(None),
        }
    }
}

/// A waiting request is refused.
#[derive(Drop)]
pub(crate) struct Refused {
    pub code: Code,
}

impl Answer for Refused {
    ghost reply = { λ s n m asked. Some (refusal s.code n asked) };

    fn reply_to(
        &self,
        _alloc: Global,
        number: u64,
        _member: &Member,
        asked: Asked,
    ) -> Result<Option<Reply>, AllocError> {
        Ok(Some(match asked {
            Asked::FirstJoin => Reply::JoinRefused(self.code, None),
            Asked::Rejoin => Reply::JoinRefused(self.code, Some(number)),
            Asked::Sync => Reply::SyncRefused(self.code),
        }))
    }
}

/// Joins are answered with the new generation.
#[derive(Drop)]
pub(crate) struct NewGeneration<'a> {
    pub generation: i32,
    pub protocol: &'a [u8],
    pub leader: u64,
    pub members: &'a Members,
}

impl<'a> Answer for NewGeneration<'a> {
    ghost reply = { λ s. joined_reply s.generation s.protocol.now s.leader s.members.now };

    fn reply_to(
        &self,
        alloc: Global,
        number: u64,
        _member: &Member,
        _asked: Asked,
    ) -> Result<Option<Reply>, AllocError> {
        let members = if number == self.leader {
            self.members.listing(alloc, self.protocol)?
        } else {
            Listing::new(alloc)
        };
        Ok(Some(Reply::Joined(Joined {
            generation: self.generation,
            protocol: Bytes::copy_of(alloc, self.protocol)?,
            leader: self.leader,
            member: number,
            members,
        })))
    }
}

/// The answer to one member's waiting request, put in its place.
fn answer_one<A: Answer>(
    alloc: Global,
    how: &A,
    number: u64,
    member: &Member,
    out: &mut Vec<Release>,
) -> Result<(), AllocError>
    ensures { OnOk result (out.new.items ≡ waiter_answered member.now.waiter (A.reply how.now number member.now) out.old.items) }
{
    if let Some(waiter) = member.waiter {
        if let Some(reply) = how.reply_to(alloc, number, member, waiter.asked)? {
            place_release(
                out,
                Release {
                    connection: waiter.connection,
                    reply,
                },
            )?;
        }
    }
    Ok(())
}

impl Members {
    /// The members as the leader gets them.
    pub(crate) fn listing(&self, alloc: Global, protocol: &[u8]) -> Result<Listing, AllocError>
        ensures { IfOk result (λ l. l ≡ listing self.now protocol.now) }
    {
        let mut items = Vec::new(alloc);
        for i in 0..self.map.len() {
            if let Some((number, member)) = self.map.get_index(i) {
                items.push(Listed {
                    member: *number,
                    metadata: member.protocols.metadata(alloc, protocol)?,
                })?;
            }
        }
        Ok(Listing { items })
    }

    /// The refusal of that member's waiting request, if it has one, put in its place.
    pub(crate) fn turn_away(
        &self,
        alloc: Global,
        code: Code,
        number: u64,
        out: &mut Vec<Release>,
    ) -> Result<(), AllocError>
        ensures { OnOk result (out.new.items ≡ turned_away code number self.now out.old.items) }
    {
        if let Some(member) = self.find(number) {
            answer_one(alloc, &Refused { code }, number, member, out)?;
        }
        Ok(())
    }

    /// The answers to the waiting requests, each put in its place.
    pub(crate) fn answer<A: Answer>(
        &self,
        alloc: Global,
        how: &A,
        out: &mut Vec<Release>,
    ) -> Result<(), AllocError>
        ensures { OnOk result (out.new.items ≡ answers (A.reply how.now) self.now out.old.items) }
    {
        for i in 0..self.map.len() {
            if let Some((number, member)) = self.map.get_index(i) {
                answer_one(alloc, how, *number, member, out)?;
            }
        }
        Ok(())
    }
}
