//! A broker whose replies may wait until what was done lasts.

ghost use Rattle.std.specs.Prelude.{◌≡◌, ◌≤◌, ◌<◌, ◌+◌, ◌-◌, ◌^◌, ◌⊎◌, true, false, max, None, Some, Err, IfSome, IfErr, OnErr, OnOk};
ghost use Rattle.kb_wire.specs.declared.clock.TheConstants.{MAX_CLOCK};
ghost use Rattle.kb_isolation_spec.specs.Machine.{Opens, Comes, Closes, Moment};
ghost use Rattle.kb_isolation_spec.specs.Calls.{closed, output_taken, output_of, opened, IsRefusedUnbound};
ghost use Rattle.kb_broker.specs.Places.{numbers};
ghost use Rattle.kb_broker.specs.Hosts.{is_honest};
ghost use Rattle.kb_node.specs.Traffic.{Happens, IsCommitted};
ghost use Rattle.kb_node.specs.Commits.{holds_back, is_due, may_tell, Lasts};
ghost use Rattle.kb_node.specs.Sockets.{speaks_of};

use crate::commits::Commits;
use kb_broker::Broker;
use kb_log::{ListLog, PartitionLog};
use kb_store::{Store, StoreFault};
use std::alloc::{AllocError, Global};
use std::marker::Model;

/// A broker, and what is known of its commits. It is the one way to the broker: what a connection has to say is taken only while replies
/// may go out.
///
/// Where all that was done is known to be committed, a loss of power leaves the files of the store as they are.
#[derive(Drop)]
pub struct Committed<S: Store, L: PartitionLog = ListLog> {
    broker: Broker<S, L>,
    commits: Commits,
    /// The greatest number that a connection had, those among them that could not be kept.
    tried: u64,
}

impl<S: Store, L: PartitionLog> Model for Committed<S, L> {
    ghost use Rattle.std.specs.Prelude.{◌≡◌, true};
    ghost use Rattle.kb_node.specs.Commits.{Host, Lasts};

    ghost Value = { Host S };

    ghost view = { λ h. record { broker = h.broker; commits = h.commits; tried = h.tried } };

    ghost invariant = { λ h. h.commits.is_committed ≡ true → Lasts S.settled S.disk S.loss h.broker.store };
}

impl<S: Store, L: PartitionLog + Drop> Committed<S, L> {
    /// A broker of which nothing is known to be committed.
    pub fn new(broker: Broker<S, L>, commits: Commits) -> Self
        requires { commits.is_committed ≡ false }
        ensures broker { result.broker ≡ broker }
        ensures commits { result.commits ≡ commits }
        ensures tried { result.tried ≡ broker.state.last }
    {
        let tried = broker.last_connection();
        Committed {
            broker,
            commits,
            tried,
        }
    }

    /// The broker, to look at.
    pub fn broker(&self) -> &Broker<S, L>
        ensures { result.now ≡ self.now.broker }
    {
        &self.broker
    }

    /// What is known of its commits.
    pub fn commits(&self) -> &Commits
        ensures { result.now ≡ self.now.commits }
    {
        &self.commits
    }

    /// The number of the next connection, above all before, also those that could not be kept: none is left where the greatest was tried.
    pub fn next_number(&self) -> Option<u64>
        ensures above { IfSome result (λ n. (self.now.tried < n) × (self.now.broker.state.last < n)) }
        ensures next { IfSome result (λ n. n ≡ max self.now.tried self.now.broker.state.last + 1) }
        ensures none { result ≡ None → max self.now.tried self.now.broker.state.last ≡ 2 ^ 64 - 1 }
    {
        self.tried.max(self.broker.last_connection()).checked_add(1)
    }

    /// A new connection, whose number is above that of each earlier one. It is tried no more where it cannot be kept.
    pub fn connect(&mut self, alloc: Global, number: u64) -> Result<(), AllocError>
        requires last { self.old.broker.state.last < number }
        requires new { self.old.tried < number }
        ensures happens { Happens S.disk (Opens number) self.old.broker self.new.broker }
        ensures commits { self.new.commits ≡ self.old.commits }
        ensures tried { self.new.tried ≡ number }
        ensures ok { OnOk result (self.new.broker.state ≡ opened self.old.broker.state number) }
        ensures err { OnErr result (IsRefusedUnbound self.old.broker.state self.new.broker.state) }
    {
        self.tried = number;
        self.broker.connect(alloc, number)
    }

    /// A piece came on a connection.
    pub fn input(&mut self, alloc: Global, number: u64, piece: &[u8])
        ensures happens { Happens S.disk (Comes number piece.now) self.old.broker self.new.broker }
        ensures commits { self.new.commits ≡ record self.old.commits { is_committed = self.new.commits.is_committed } }
        ensures lasts { self.new.commits.is_committed ≡ true → Lasts S.settled S.disk S.loss self.new.broker.store }
        ensures numbers { numbers self.new.broker.state ≡ numbers self.old.broker.state }
        ensures tried { self.new.tried ≡ self.old.tried }
    {
        self.broker.input(alloc, number, piece);
        self.commits.note(self.broker.is_synced());
    }

    /// A moment of time, in milliseconds, at most 2^62.
    pub fn moment(&mut self, alloc: Global, now: u64)
        requires { now ≤ MAX_CLOCK }
        ensures happens { Happens S.disk (Moment now) self.old.broker self.new.broker }
        ensures commits { self.new.commits ≡ record self.old.commits { is_committed = self.new.commits.is_committed } }
        ensures lasts { self.new.commits.is_committed ≡ true → Lasts S.settled S.disk S.loss self.new.broker.store }
        ensures clock { self.new.broker.state.clock ≡ max self.old.broker.state.clock now }
        ensures numbers { numbers self.new.broker.state ≡ numbers self.old.broker.state }
        ensures tried { self.new.tried ≡ self.old.tried }
    {
        self.broker.moment(alloc, now);
        self.commits.note(self.broker.is_synced());
    }

    /// Closes a connection. What it had to say is dropped, and the store stays as it is.
    pub fn disconnect(&mut self, alloc: Global, number: u64)
        ensures happens { Happens S.disk (Closes number) self.old.broker self.new.broker }
        ensures commits { self.new.commits ≡ self.old.commits }
        ensures broker { self.new.broker ≡ record self.old.broker { state = closed self.old.broker.state number } }
        ensures tried { self.new.tried ≡ self.old.tried }
    {
        self.broker.disconnect(alloc, number);
    }

    /// Takes the output of a connection, while replies may go out.
    pub fn take_output(&mut self, alloc: Global, number: u64) -> Vec<u8>
        requires { may_tell self.old.commits ≡ true }
        ensures commits { self.new.commits ≡ self.old.commits }
        ensures broker { self.new.broker ≡ record self.old.broker { state = output_taken self.old.broker.state number } }
        ensures output { result.items ≡ output_of number self.old.broker.state }
        ensures tried { self.new.tried ≡ self.old.tried }
        // Where replies wait for it, all that was done lasts.
        ensures lasts { holds_back self.old.commits.sync ≡ true → Lasts S.settled S.disk S.loss self.new.broker.store }
    {
        self.broker.take_output(alloc, number)
    }

    /// Whether a connection has something to say, or was shut.
    pub fn speaks(&self, number: u64) -> bool
        ensures { result ≡ speaks_of number self.now.broker.state }
    {
        self.broker.speakers().binary_search(&number).is_ok()
    }

    /// Makes all that was done before last through a loss of power, where that is not known. Once it was refused it is refused for ever.
    pub fn commit(&mut self, now: u64) -> Result<(), StoreFault>
        ensures commits { IsCommitted S.disk self.old.broker self.new.broker }
        ensures ok { OnOk result (self.new.commits.is_committed ≡ true) }
        ensures lasts { OnOk result (Lasts S.settled S.disk S.loss self.new.broker.store) }
        ensures well { OnOk result ((self.old.commits.fault ≡ None) × (self.new.commits.fault ≡ None)) }
        ensures refused { IfErr result (λ fault. self.new.commits.fault ≡ Some fault) }
        ensures dead { IfSome self.old.commits.fault (λ fault. (result ≡ Err fault) × (self.new ≡ self.old)) }
        ensures known { self.old.commits.is_committed ≡ true → self.new ≡ self.old }
        ensures sync { self.new.commits.sync ≡ self.old.commits.sync }
        ensures tried { self.new.tried ≡ self.old.tried }
        ensures state { is_honest S.disk self.new.broker → self.new.broker.state ≡ self.old.broker.state }
    {
        if let Some(fault) = self.commits.fault() {
            return Err(fault);
        }
        if self.commits.is_committed() {
            return Ok(());
        }
        match self.broker.commit() {
            Ok(()) => {
                self.commits.note_commit(now);
                Ok(())
            }
            Err(fault) => {
                self.commits.note_refusal(fault);
                Err(fault)
            }
        }
    }

    /// The same where it is due.
    pub fn commit_in_time(&mut self, now: u64) -> Result<(), StoreFault>
        ensures commits { IsCommitted S.disk self.old.broker self.new.broker }
        ensures sync { self.new.commits.sync ≡ self.old.commits.sync }
        // Where nothing was due nothing was done, and else all that was done before lasts.
        ensures lasts { OnOk result ((self.new ≡ self.old) ⊎ Lasts S.settled S.disk S.loss self.new.broker.store) }
        ensures well { OnOk result (self.new.commits.fault ≡ None) }
        ensures due { OnOk result (is_due now self.new.commits ≡ false) }
        ensures tried { self.new.tried ≡ self.old.tried }
        ensures refused { IfErr result (λ fault. self.new.commits.fault ≡ Some fault) }
        ensures dead { IfSome self.old.commits.fault (λ fault. (result ≡ Err fault) × (self.new ≡ self.old)) }
        ensures state { is_honest S.disk self.new.broker → self.new.broker.state ≡ self.old.broker.state }
    {
        if let Some(fault) = self.commits.fault() {
            return Err(fault);
        }
        if self.commits.is_due(now) {
            self.commit(now)?;
        }
        Ok(())
    }
}
