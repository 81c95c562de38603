//! Calls on a group.

use crate::said::Field::{Count, Id, Letters, Number};
use crate::said::Said;
use kb_groups::{
    Code, Group, Join, JoinProtocol, Joined, Listed, Release, Reply, SyncAnswer, SyncAssignment,
};
use kb_wire::{Blob, Text};
use std::alloc::{AllocError, Global};

/// A group, how members join it, and the clock.
#[derive(Drop)]
pub struct Members {
    group: Group,
    session_timeout: i32,
    rebalance_timeout: i32,
    next: u64,
    clock: u32,
}

/// Who calls, and the names with letters behind the call.
#[derive(Drop)]
struct Call<'a> {
    connection: u64,
    member: Option<u64>,
    generation: i32,
    pairs: Vec<(&'a str, &'a str)>,
}

impl<'a> Call<'a> {
    /// What a text says, as `connection:1 member:2 generation:3 range=x`.
    fn new(alloc: Global, text: &'a str) -> Result<Call<'a>, AllocError> {
        let mut call = Call {
            connection: 0,
            member: None,
            generation: 0,
            pairs: Vec::new(alloc),
        };
        call.take_all(text)?;
        Ok(call)
    }

    fn take_all(&mut self, text: &'a str) -> Result<(), AllocError> {
        for item in text.split(' ') {
            if let Some((name, value)) = item.split_once(':') {
                self.take(name, value);
            }
            if let Some(pair) = item.split_once('=') {
                self.pairs.push(pair)?;
            }
        }
        Ok(())
    }

    fn take(&mut self, name: &str, value: &str) {
        match name {
            "connection" => self.connection = value.parse::<u64>().unwrap_or(0),
            "member" => self.member = value.parse::<u64>().ok(),
            "generation" => self.generation = value.parse::<i32>().unwrap_or(0),
            _ => {}
        }
    }

    /// The number of the member.
    fn number(&self) -> u64 {
        self.member.unwrap_or(0)
    }
}

impl Members {
    /// A group that nobody joined.
    pub fn new(alloc: Global) -> Members {
        Members {
            group: Group::new(alloc),
            session_timeout: 10000,
            rebalance_timeout: 20000,
            next: 1,
            clock: 0,
        }
    }

    /// A kind is `session-timeout`, `rebalance-timeout` or `at` with a number of milliseconds, `last-generation` with that of a new
    /// group, `joins` with a number of new members, or a call. Whether it is one of these.
    pub fn call(
        &mut self,
        alloc: Global,
        kind: &str,
        rest: &str,
        said: &mut Said,
    ) -> Result<bool, AllocError> {
        match kind {
            "session-timeout" => self.session_timeout = rest.parse::<i32>().unwrap_or(0),
            "rebalance-timeout" => self.rebalance_timeout = rest.parse::<i32>().unwrap_or(0),
            "last-generation" => self.renew(alloc, rest.parse::<i32>().unwrap_or(0)),
            "at" => self.clock = rest.parse::<u32>().unwrap_or(0),
            "joins" => self.joins(alloc, rest.parse::<u32>().unwrap_or(0), said)?,
            _ => return self.call_by_name(alloc, kind, rest, said),
        }
        Ok(true)
    }

    /// The group is one without members, whose last generation was that.
    fn renew(&mut self, alloc: Global, generation: i32) {
        self.group = Group::with_generation(alloc, generation);
    }

    fn call_by_name(
        &mut self,
        alloc: Global,
        kind: &str,
        rest: &str,
        said: &mut Said,
    ) -> Result<bool, AllocError> {
        let call = Call::new(alloc, rest)?;
        self.ask(alloc, kind, &call, said)
    }

    fn ask(
        &mut self,
        alloc: Global,
        kind: &str,
        call: &Call<'_>,
        said: &mut Said,
    ) -> Result<bool, AllocError> {
        match kind {
            "join" => self.join(alloc, call, said)?,
            "sync" => self.sync(alloc, call, said)?,
            "leave" => self.leave(alloc, call.number(), said)?,
            "tick" => self.tick(alloc, said)?,
            _ => return self.ask_at_once(kind, call, said),
        }
        Ok(true)
    }

    /// The calls that take no memory.
    fn ask_at_once(
        &mut self,
        kind: &str,
        call: &Call<'_>,
        said: &mut Said,
    ) -> Result<bool, AllocError> {
        let (number, clock) = (call.number(), self.clock as u64);
        match kind {
            "heartbeat" => say_code(self.group.heartbeat(number, call.generation, clock), said)?,
            "commit" => say_code(self.group.may_commit(number, call.generation, clock), said)?,
            "hang-up" => self.group.dropped(call.connection, clock),
            _ => return Ok(false),
        }
        Ok(true)
    }

    fn join(&mut self, alloc: Global, call: &Call<'_>, said: &mut Said) -> Result<(), AllocError> {
        let mut protocols = Vec::new(alloc);
        add_offers(&mut protocols, &call.pairs)?;
        let (code, released) = self.join_with(
            alloc,
            call.connection,
            call.member,
            protocols.as_slice(),
        )?;
        say_answer(code, &released, said)
    }

    fn join_with(
        &mut self,
        alloc: Global,
        connection: u64,
        member: Option<u64>,
        protocols: &[JoinProtocol<'_>],
    ) -> Result<(Code, Vec<Release>), AllocError> {
        let request = Join {
            connection,
            member,
            new_member: self.next,
            session_timeout: self.session_timeout,
            rebalance_timeout: self.rebalance_timeout,
            protocol_type: Text::new("consumer"),
            protocols,
        };
        if member.is_none() {
            self.next = self.next.saturating_add(1);
        }
        self.group.join(alloc, &request, self.clock as u64)
    }

    /// So many new members join, on connections from 1 on, and it is said how many of them did.
    fn joins(&mut self, alloc: Global, count: u32, said: &mut Said) -> Result<(), AllocError> {
        let mut joined = 0usize;
        for connection in 0..count {
            if self.is_joined(alloc, connection as u64 + 1)? {
                joined = joined.saturating_add(1);
            }
        }
        said.fields(&[("joined", Count(joined))])
    }

    /// A new member joins, and whether it did.
    fn is_joined(&mut self, alloc: Global, connection: u64) -> Result<bool, AllocError> {
        let protocols = [offer("range", "x")];
        let (code, _) = self.join_with(alloc, connection, None, &protocols)?;
        Ok(code.number() == 0)
    }

    fn sync(&mut self, alloc: Global, call: &Call<'_>, said: &mut Said) -> Result<(), AllocError> {
        let mut assignments = Vec::new(alloc);
        add_assigned(&mut assignments, &call.pairs)?;
        let (answer, released) = self.group.sync(
            alloc,
            call.connection,
            call.number(),
            call.generation,
            assignments.as_slice(),
            self.clock as u64,
        )?;
        say_sync(&answer, said)?;
        say_released(&released, said)
    }

    fn leave(&mut self, alloc: Global, number: u64, said: &mut Said) -> Result<(), AllocError> {
        let (code, released) = self.group.leave(alloc, number, self.clock as u64)?;
        say_answer(code, &released, said)
    }

    fn tick(&mut self, alloc: Global, said: &mut Said) -> Result<(), AllocError> {
        let released = self.group.tick(alloc, self.clock as u64)?;
        say_released(&released, said)
    }
}

fn offer<'a>(name: &'a str, metadata: &'a str) -> JoinProtocol<'a> {
    JoinProtocol {
        name: Text::new(name),
        metadata: Blob::new(metadata.as_bytes()),
    }
}

fn assigned<'a>(member_id: &'a str, assignment: &'a str) -> SyncAssignment<'a> {
    SyncAssignment {
        member_id: Text::new(member_id),
        assignment: Blob::new(assignment.as_bytes()),
    }
}

fn add_offers<'a>(
    protocols: &mut Vec<JoinProtocol<'a>>,
    pairs: &[(&'a str, &'a str)],
) -> Result<(), AllocError> {
    for (name, metadata) in pairs {
        protocols.push(offer(name, metadata))?;
    }
    Ok(())
}

fn add_assigned<'a>(
    assignments: &mut Vec<SyncAssignment<'a>>,
    pairs: &[(&'a str, &'a str)],
) -> Result<(), AllocError> {
    for (member_id, assignment) in pairs {
        assignments.push(assigned(member_id, assignment))?;
    }
    Ok(())
}

/// The answer to a call, and each request that waits no longer.
fn say_answer(code: Code, released: &[Release], said: &mut Said) -> Result<(), AllocError> {
    say_code(code, said)?;
    say_released(released, said)
}

fn say_code(code: Code, said: &mut Said) -> Result<(), AllocError> {
    said.fields(&[("error_code", Number(code.number() as i64))])
}

fn say_sync(answer: &SyncAnswer, said: &mut Said) -> Result<(), AllocError> {
    match answer {
        SyncAnswer::Refused(code) => say_code(*code, said),
        SyncAnswer::Got(assignment) => {
            said.fields(&[("assignment", Letters(assignment.as_slice()))])
        }
        SyncAnswer::Waits => said.line("waits"),
    }
}

/// Each request that waits no longer.
fn say_released(released: &[Release], said: &mut Said) -> Result<(), AllocError> {
    for release in released {
        say_release(release, said)?;
    }
    Ok(())
}

fn say_release(release: &Release, said: &mut Said) -> Result<(), AllocError> {
    let connection = release.connection;
    match &release.reply {
        Reply::Joined(reply) => say_joined(connection, reply, said),
        Reply::JoinRefused(code, member) => say_refused(connection, *code, *member, said),
        Reply::Synced(assignment) => said.fields(&[
            ("to", Id(connection)),
            ("assignment", Letters(assignment.as_slice())),
        ]),
        Reply::SyncRefused(code) => said.fields(&[
            ("to", Id(connection)),
            ("sync_refused", Number(code.number() as i64)),
        ]),
    }
}

fn say_refused(
    connection: u64,
    code: Code,
    member: Option<u64>,
    said: &mut Said,
) -> Result<(), AllocError> {
    said.fields(&[
        ("to", Id(connection)),
        ("join_refused", Number(code.number() as i64)),
        ("member", Id(member.unwrap_or(0))),
    ])
}

fn say_joined(connection: u64, reply: &Joined, said: &mut Said) -> Result<(), AllocError> {
    said.fields(&[
        ("to", Id(connection)),
        ("generation", Number(reply.generation as i64)),
        ("leader", Id(reply.leader)),
        ("member", Id(reply.member)),
    ])?;
    say_listed(reply.members.as_slice(), said)
}

fn say_listed(members: &[Listed], said: &mut Said) -> Result<(), AllocError> {
    for listed in members {
        said.fields(&[
            ("listed", Id(listed.member)),
            ("metadata", Letters(listed.metadata.as_slice())),
        ])?;
    }
    Ok(())
}
