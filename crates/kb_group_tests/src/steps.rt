//! Steps on the groups of a tenant, in words, and what they say.

use kb_api_group::{
    HeartbeatRequest, JoinGroupRequest, JoinProtocol, LeaveGroupRequest, SyncAssignment,
    SyncGroupRequest,
};
use kb_coordinator::{Coordinator, Limits};
use kb_groups::{Reply, SyncAnswer};
use kb_wire::{Array, Blob, Text};
use std::alloc::{AllocError, Global};
use std::process::Abort;
use std::test::Fail;

/// The groups of a tenant, and the clock in milliseconds.
#[derive(Drop)]
pub(crate) struct Tenant {
    alloc: Global,
    pub(crate) coordinator: Coordinator,
    pub(crate) clock: u32,
}

/// What a join of that member asks: a session of 10 seconds, and a rebalance of 20.
fn joining<'a>(
    alloc: Global,
    group: &'a str,
    member: &'a str,
) -> Result<JoinGroupRequest<'a>, AllocError> {
    let mut protocols = Vec::new(alloc);
    protocols.push(JoinProtocol {
        name: Text::new("range"),
        metadata: Blob::new(b"topics"),
    })?;
    Ok(JoinGroupRequest {
        group_id: Text::new(group),
        session_timeout_ms: 10_000,
        rebalance_timeout_ms: 20_000,
        member_id: Text::new(member),
        protocol_type: Text::new("consumer"),
        protocols: Array::from_vec(protocols),
    })
}

/// What a sync asks, which gives the first member one byte and the second two.
fn syncing<'a>(
    alloc: Global,
    group: &'a str,
    member: &'a str,
    generation: i32,
) -> Result<SyncGroupRequest<'a>, AllocError> {
    let mut assignments = Vec::new(alloc);
    assignments.push(SyncAssignment {
        member_id: Text::new("m-1"),
        assignment: Blob::new(b"a"),
    })?;
    assignments.push(SyncAssignment {
        member_id: Text::new("m-2"),
        assignment: Blob::new(b"bb"),
    })?;
    Ok(SyncGroupRequest {
        group_id: Text::new(group),
        generation_id: generation,
        member_id: Text::new(member),
        assignments: Array::from_vec(assignments),
    })
}

/// A reply to a request that waited, in words.
fn reply_said(alloc: Global, reply: &Reply) -> Result<String, AllocError> {
    match reply {
        Reply::Joined(joined) => format!(in alloc;
            "joined {} m-{} m-{} lists {}",
            joined.generation,
            joined.member,
            joined.leader,
            joined.members.as_slice().len()
        ),
        Reply::JoinRefused(code, asked) => {
            format!(in alloc; "join {} {}", code.number(), asked.unwrap_or(0))
        }
        Reply::Synced(assignment) => { format!(in alloc; "synced {}", assignment.as_slice().len()) }
        Reply::SyncRefused(code) => format!(in alloc; "sync {}", code.number()),
    }
}

impl Tenant {
    pub(crate) fn new(alloc: Global) -> Tenant {
        Tenant {
            alloc,
            coordinator: Coordinator::new(alloc),
            clock: 0,
        }
    }

    /// A tenant that may have so many groups, which keep so many bytes.
    pub(crate) fn limited(alloc: Global, groups: u64, bytes: u32) -> Tenant {
        let mut coordinator = Coordinator::new(alloc);
        coordinator.limit(Limits {
            groups,
            bytes: u64::from(bytes),
        });
        Tenant {
            alloc,
            coordinator,
            clock: 0,
        }
    }

    /// The replies to requests that waited, each behind its connection.
    pub(crate) fn released_said(&self) -> Result<String, AllocError> {
        let mut said = String::new(self.alloc);
        for replies in self.coordinator.released() {
            for release in replies {
                let reply = reply_said(self.alloc, &release.reply)?;
                let one = format!(in self.alloc; "; {} {reply}", release.connection)?;
                said.push_str(&one)?;
            }
        }
        Ok(said)
    }

    /// A join's code. Where memory is refused it answers nobody, and is asked again.
    fn join(
        &mut self,
        rt: &impl Abort,
        group: &str,
        connection: u64,
        member: &str,
    ) -> Result<i16, Fail> {
        let clock = self.clock as u64;
        let request = joining(self.alloc, group, member)?;
        let error = match self.coordinator.join(&request, connection, clock) {
            Ok(error) => error,
            Err(_) => {
                self.answers_nobody(rt);
                self.coordinator.join(&request, connection, clock)?
            }
        };
        Ok(error.code())
    }

    /// What a sync is answered, asked again where memory is refused.
    fn sync(
        &mut self,
        rt: &impl Abort,
        group: &str,
        connection: u64,
        member: &str,
        generation: i32,
    ) -> Result<SyncAnswer, Fail> {
        let clock = self.clock as u64;
        let request = syncing(self.alloc, group, member, generation)?;
        match self.coordinator.sync(&request, connection, clock) {
            Ok(answer) => Ok(answer),
            Err(_) => {
                self.answers_nobody(rt);
                Ok(self.coordinator.sync(&request, connection, clock)?)
            }
        }
    }

    /// A leave's code, asked again where memory is refused.
    fn leave(&mut self, rt: &impl Abort, group: &str, member: &str) -> Result<i16, Fail> {
        let clock = self.clock as u64;
        let request = LeaveGroupRequest {
            group_id: Text::new(group),
            member_id: Text::new(member),
        };
        let code = match self.coordinator.leave(&request, clock) {
            Ok(code) => code,
            Err(_) => {
                self.answers_nobody(rt);
                self.coordinator.leave(&request, clock)?
            }
        };
        Ok(code.number())
    }

    fn heartbeat(&mut self, group: &str, member: &str, generation: i32) -> i16 {
        let request = HeartbeatRequest {
            group_id: Text::new(group),
            generation_id: generation,
            member_id: Text::new(member),
        };
        self.coordinator
            .heartbeat(&request, self.clock as u64)
            .number()
    }

    /// A moment, which comes again where memory is refused: what was due is due then.
    fn moment(&mut self, rt: &impl Abort) {
        let clock = self.clock as u64;
        let refused = self.coordinator.at_moment(clock);
        if refused > 0 {
            self.answers_nobody(rt);
            assert_eq!(rt; refused, 1);
            assert_eq!(rt; self.coordinator.at_moment(clock), 0);
        }
    }

    fn answers_nobody(&self, rt: &impl Abort) {
        for replies in self.coordinator.released() {
            assert!(rt; replies.is_empty());
        }
    }

    /// What a step says: its own answer, and the replies to requests that waited.
    pub(crate) fn step(&mut self, rt: &impl Abort, words: &str) -> Result<String, Fail> {
        let call = Call::new(words);
        let alloc = self.alloc;
        let own = match call.name {
            "join" => {
                format!(in alloc;
                    "{}",
                    self.join(rt, call.group, call.number as u64, call.member)?
                )?
            }
            "sync" => {
                let answer = self.sync(
                    rt,
                    call.group,
                    call.number as u64,
                    call.member,
                    call.generation,
                )?;
                answer_said(alloc, &answer)?
            }
            "leave" => format!(in alloc; "{}", self.leave(rt, call.group, call.member)?)?,
            "heartbeat" => {
                let code = self.heartbeat(call.group, call.member, call.generation);
                format!(in alloc; "{code}")?
            }
            "commit" => {
                let error = self.coordinator.may_commit(
                    call.group,
                    call.generation,
                    call.member,
                    self.clock as u64,
                );
                format!(in alloc; "{}", error.code())?
            }
            "left" => {
                self.coordinator.left(call.number as u64, self.clock as u64);
                self.coordinator.silence();
                String::new(alloc)
            }
            "at" => {
                self.clock = call.number;
                self.moment(rt);
                String::new(alloc)
            }
            "bytes" => {
                self.coordinator.silence();
                format!(in alloc; "{}", self.coordinator.bytes())?
            }
            _ => due_said(alloc, self.coordinator.next_due())?,
        };
        let released = self.released_said()?;
        Ok(format!(in alloc; "{own}{released}")?)
    }
}

/// A call in words: its name, its group, its connection or clock, its member, and its generation.
#[derive(Drop)]
struct Call<'a> {
    name: &'a str,
    group: &'a str,
    number: u32,
    member: &'a str,
    generation: i32,
}

impl<'a> Call<'a> {
    fn new(words: &'a str) -> Call<'a> {
        let mut words = words.split(' ');
        Call {
            name: words.next().unwrap_or(""),
            group: words.next().unwrap_or(""),
            number: words.next().unwrap_or("").parse::<u32>().unwrap_or(0),
            member: words.next().unwrap_or(""),
            generation: words.next().unwrap_or("").parse::<i32>().unwrap_or(0),
        }
    }
}

fn answer_said(alloc: Global, answer: &SyncAnswer) -> Result<String, AllocError> {
    match answer {
        SyncAnswer::Refused(code) => format!(in alloc; "{}", code.number()),
        SyncAnswer::Got(assignment) => format!(in alloc; "got {}", assignment.as_slice().len()),
        SyncAnswer::Waits => format!(in alloc; "waits"),
    }
}

fn due_said(alloc: Global, due: Option<u64>) -> Result<String, AllocError> {
    match due {
        Some(moment) => format!(in alloc; "{moment}"),
        None => format!(in alloc; "never"),
    }
}
