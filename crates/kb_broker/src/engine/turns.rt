//! What an engine does within an event: turns of connections, and looks at waits that may be over.
ghost use Rattle.std.specs.Prelude.{◌≡◌, ◌+◌, ◌++◌, ◌∷◌, ◌⊎◌, [], ℕ, List, ◌<◌, ◌≤◌, length, get_or, Contains};
ghost use Rattle.kb_wire.specs.declared.clock.TheConstants.{MAX_CLOCK};
ghost use Rattle.std.specs.Prelude.{IfSome, IfNone, true, false, Some, None};
ghost use Rattle.std.specs.Bool.{OnTrue};
ghost use Rattle.std.specs.List.{position};
ghost use Rattle.kb_isolation_spec.specs.Session.{can};
ghost use Rattle.kb_isolation_spec.specs.Machine.{Comes, Line, first_able, work};
ghost use Rattle.kb_isolation_spec.specs.Broker.{BrokerState, AreUnready, AnyWait, InRange, IsSound, Rising};
ghost use Rattle.kb_isolation_spec.specs.Calls.{left_by, output_taken};
ghost use Rattle.kb_isolation_spec.specs.declared.whom.Whom.TheVariants as whoms;
ghost use Rattle.kb_isolation_spec.specs.Turned.{Scope, AreStill, IsFed, IsGoing, SameOthers, Turned, Waked, IsLookedFor, IsPassedOver};
ghost use Rattle.kb_isolation_spec.specs.Machine.{find_line};
ghost use Rattle.kb_isolation_spec.specs.Owners.{whose};
ghost use Rattle.kb_connection.specs.View.{stage_of};
ghost use Rattle.kb_tenant_api.specs.Turns.{HavePassed};
ghost use Rattle.kb_broker.specs.Hosts.{is_honest, IsLater, IsLaterBy, NoneReady};
ghost use Rattle.kb_broker.specs.Truth.{IsTrueMoment, SpeaksAt, SpeaksFor};
ghost use Rattle.kb_broker.specs.Places.{numbers, number_at, any_waits, AreIdle, IsNext, IsScoped, IsCountedAt, AreWaked};
ghost use Rattle.kb_broker.specs.Places.{IsOneMore, LeavesQuietBut};
ghost use Rattle.kb_broker.specs.Parked.{can_in, AreAmong, AreMinded, AreWaitingOn, IsAllOf, IsConfined, IsReadyAmong, IsLeftTo, IsOwnTo};
ghost use Rattle.kb_broker.specs.Parked.{IsServedFor, SameBut};
ghost use Rattle.kb_broker.specs.Speakers.{speakers};

use super::Engine;
use crate::able::Able;
use crate::count::counted;
use crate::serving::{Concerned, look_again, take_turn};
use crate::speakers::note;
use kb_connection::Phase;
use kb_isolation_spec::Whom;
use kb_log::PartitionLog;
use kb_store::Store;
use std::alloc::Global;
use std::mem;

impl<L: PartitionLog + Drop, S: Store> Engine<L, S> {
    /// Takes a piece for the connection at a place. Where it cannot be kept, the connection is shut, with a count. A member of a group
    /// that waited on one that is shut waits no longer.
    pub(super) fn take_piece(&mut self, i: usize, piece: &[u8])
        requires sound { IsSound self.old.state }
        requires settled { first_able self.old.state.lines ≡ None }
        requires within { i < length self.old.state.lines }
        ensures fed { IsFed (number_at i self.old.state) piece.now self.old.state self.new.state }
        ensures spoken { SpeaksAt (Comes (number_at i self.old.state) piece.now) self.old.state self.new.state }
        ensures store { self.new.store ≡ self.old.store }
        ensures strays { self.new.strays ≡ self.old.strays }
        ensures counts { self.new.counts ≡ self.old.counts }
    {
        if self.connections[i].overruns(piece) {
            self.leave(i); // it is shut
        }
        let connection = &mut self.connections[i];
        let phase = connection.phase();
        let number = connection.number();
        let fed = connection.feed(piece);
        note(&mut self.speakers, number, connection.speaks());
        if connection.waiting().is_none() {
            self.parking.forget(number);
        }
        if fed.is_err() {
            self.refuse(phase, number);
        }
    }

    /// A member of a group that waits on the connection at a place waits no longer: it stays a member, and its session starts.
    pub(super) fn leave(&mut self, i: usize)
        requires sound { IsSound self.old.state }
        requires within { i < length self.old.state.lines }
        ensures state { (d : Line) → let l = get_or self.old.state.lines i d in
            self.new.state ≡ record self.old.state {
              tenants = left_by self.old.state.clock l.number l.session.stage
                  self.old.state.tenants;
            } }
        ensures store { self.new.store ≡ self.old.store }
        ensures strays { self.new.strays ≡ self.old.strays }
        ensures counts { self.new.counts ≡ self.old.counts }
        ensures commands { self.new.commands ≡ self.old.commands }
    {
        let connection = &self.connections[i];
        if !connection.has_member() {
            return;
        }
        if let Phase::Bound(tenant) = connection.phase() {
            self.tenants.left(tenant, connection.number(), self.clock);
        }
    }

    /// Turns, until none is left. At first none but the connection at that place can take one, and as long as it concerns no
    /// waiting request no other connection is looked at.
    pub(super) fn run_turns(&mut self, alloc: Global, i: usize)
        requires sound { IsSound self.old.state }
        requires within { i < length self.old.state.lines }
        requires unready { NoneReady S.disk self.old }
        requires idle { AreIdle (number_at i self.old.state) self.old.state }
        ensures continues { IsGoing self.old.state self.new.state }
        ensures later { IsLater S.disk self.old self.new }
        ensures turned { is_honest S.disk self.new → (scope : Scope) → AreStill scope self.old.state
            → Turned scope self.old.state self.new.state }
        ensures settled { first_able self.new.state.lines ≡ None }
    {
        while self.connections[i].can_turn() {
            match self.turn(alloc, i) {
                Concerned::Nobody => {}
                Concerned::These(_, numbers) => {
                    // it stands there itself
                    if numbers.len() > 1 {
                        self.run_among(alloc, &numbers);
                        return;
                    }
                }
                Concerned::All(_) => {
                    self.run_all_turns(alloc);
                    return;
                }
            }
        }
    }

    /// Turns, until none is left, where only connections of these numbers can take one. Where it is not known any more which can, as all of
    /// a tenant were looked at or there was no room for one, all are looked at; no memory is asked for them.
    ///
    /// Beside what the turns themselves cost it takes the logarithm of the number of connections for each number, and for each connection
    /// that a turn concerns.
    pub(super) fn run_among(&mut self, alloc: Global, numbers: &[u64])
        requires sound { IsSound self.old.state }
        requires unready { NoneReady S.disk self.old }
        requires still { is_honest S.disk self.old → IsScoped self.old.state }
        requires among { AreAmong numbers.now self.old.state }
        ensures continues { IsGoing self.old.state self.new.state }
        ensures later { IsLater S.disk self.old self.new }
        ensures turned { is_honest S.disk self.new → (scope : Scope) → AreStill scope self.old.state
            → Turned scope self.old.state self.new.state }
        ensures settled { first_able self.new.state.lines ≡ None }
    {
        let mut able = mem::replace(&mut self.able, Able::new(alloc));
        let mut known = self.join(&mut able, numbers);
        while known {
            let Some(i) = self.next_among(&mut able) else {
                break;
            };
            let number = self.connections[i].number();
            known = match self.turn(alloc, i) {
                Concerned::Nobody => self.join(&mut able, &[number]),
                Concerned::These(_, numbers) => self.join(&mut able, &numbers), // its own is one of them
                Concerned::All(_) => false,
            };
        }
        able.clear();
        self.able = able;
        if !known {
            self.run_all_turns(alloc);
        }
    }

    /// Puts those of the numbers whose connections can take a turn among those that can. The answer is `false` where there was no room
    /// for one; then some may be missing.
    fn join(&self, able: &mut Able, numbers: &[u64]) -> bool
        requires { Rising 0 self.now.state.last self.now.state.lines }
        ensures { OnTrue result ((k : ℕ) → can_in (find_line k self.now.state.lines) ≡ true → Contains able.old.items k
            ⊎ Contains numbers.now k → Contains able.new.items k) }
    {
        for number in numbers {
            if self.can_turn(*number) && !able.put(*number) {
                return false;
            }
        }
        true
    }

    /// Whether the connection of a number can take a turn.
    fn can_turn(&self, number: u64) -> bool
        requires { Rising 0 self.now.state.last self.now.state.lines }
        ensures { result ≡ can_in (find_line number self.now.state.lines) }
    {
        match self.place_of(number) {
            Some(i) => self.connections[i].can_turn(),
            None => false,
        }
    }

    /// The place of the least-numbered connection that can take a turn, where all that can are among those. It and those before it leave
    /// them.
    fn next_among(&self, able: &mut Able) -> Option<usize>
        requires sound { IsSound self.now.state }
        requires among { AreAmong able.old.items self.now.state }
        ensures next { IfSome result (λ i. IsNext i self.now.state) }
        ensures among { IfSome result (λ i. AreAmong (number_at i self.now.state ∷ able.new.items) self.now.state) }
        ensures none { IfNone result (first_able self.now.state.lines ≡ None) }
    {
        while let Some(number) = able.take_least() {
            if let Some(i) = self.place_of(number) {
                if self.connections[i].can_turn() {
                    return Some(i);
                }
            }
        }
        None
    }

    /// Turns of all connections, until none is left.
    pub(super) fn run_all_turns(&mut self, alloc: Global)
        requires sound { IsSound self.old.state }
        requires unready { NoneReady S.disk self.old }
        requires still { is_honest S.disk self.old → IsScoped self.old.state }
        ensures continues { IsGoing self.old.state self.new.state }
        ensures later { IsLater S.disk self.old self.new }
        ensures turned { is_honest S.disk self.new → (scope : Scope) → AreStill scope self.old.state
            → Turned scope self.old.state self.new.state }
        ensures settled { first_able self.new.state.lines ≡ None }
    {
        while let Some(i) = self.next_able() {
            self.turn(alloc, i);
        }
    }

    /// The place of the least-numbered connection that can take a turn.
    fn next_able(&self) -> Option<usize>
        ensures { result ≡ position (λ (l : Line). can l.session) self.now.state.lines }
    {
        self.connections
            .iter()
            .position(|connection| connection.can_turn())
    }

    /// One turn, of the least-numbered connection that can take one. What became ready of its tenant's waiting requests is
    /// answered. The answer says which connections may have changed.
    fn turn(&mut self, alloc: Global, i: usize) -> Concerned
        requires next { IsNext i self.old.state }
        requires unready { NoneReady S.disk self.old }
        ensures continues { IsGoing self.old.state self.new.state }
        ensures later { IsLater S.disk self.old self.new }
        ensures turned { is_honest S.disk self.new → (scope : Scope) → AreStill scope self.old.state
            → Turned scope self.old.state self.new.state }
        ensures confined { IsConfined result (number_at i self.old.state) self.old.state self.new.state }
        ensures shrinks { work self.new.state.lines < work self.old.state.lines }
    {
        let concerned = self.serve(alloc, i);
        match &concerned {
            Concerned::Nobody => {}
            Concerned::These(tenant, numbers) => {
                self.wake_each(alloc, Whom::Tenant(*tenant), numbers);
            }
            Concerned::All(tenant) => self.wake_all(alloc, Whom::Tenant(*tenant)),
        }
        concerned
    }

    /// Serves the request in front of the least-numbered connection that can take a turn, and answers whose waiting requests may be
    /// ready after it.
    fn serve(&mut self, alloc: Global, i: usize) -> Concerned
        requires next { IsNext i self.old.state }
        requires unready { NoneReady S.disk self.old }
        ensures continues { IsGoing self.old.state self.new.state }
        ensures later { IsLater S.disk self.old self.new }
        ensures served { is_honest S.disk self.new → (scope : Scope) → AreStill scope self.old.state
            → IsServedFor result scope self.old.state self.new.state }
        ensures remaining { is_honest S.disk self.new → IsLeftTo result self.new.state }
        ensures includes_itself { IsOwnTo result (number_at i self.old.state) }
        ensures others { SameOthers (number_at i self.old.state) self.old.state self.new.state }
        ensures shrinks { work self.new.state.lines < work self.old.state.lines }
    {
        let connection = &mut self.connections[i];
        let phase = connection.phase();
        let number = connection.number();
        let taken = take_turn(
            alloc,
            &self.setup,
            &mut self.tenants,
            &mut self.parking,
            self.clock,
            connection,
        );
        note(&mut self.speakers, number, connection.speaks());
        match taken {
            Ok(concerned) => concerned,
            Err(_) => {
                self.refuse(phase, number);
                all_of(phase)
            }
        }
    }

    /// The tenants' own parts of a moment: their groups', and retention. Answers the connections of requests that groups answered; `None`:
    /// others may be ready too that are not due. Behind them one tenant's catalog is looked at, and written anew where that is due, which
    /// no tenant sees.
    pub(super) fn pass(&mut self, alloc: Global) -> Option<Vec<u64>>
        requires in_time { self.old.state.clock ≤ MAX_CLOCK }
        requires waiting { is_honest S.disk self.old → AreWaitingOn self.old.state }
        ensures passed { HavePassed self.old.state.clock (is_honest S.disk self.new) self.old.state.tenants self.new.state.tenants }
        ensures only_tenants { self.new.state ≡ record self.old.state { tenants = self.new.state.tenants } }
        ensures later { IsLaterBy S.disk IsTrueMoment self.old self.new }
        ensures leaves { is_honest S.disk self.new → LeavesQuietBut result self.old.state.tenants self.new.state.tenants }
    {
        let answered = self.tenants.pass(alloc, self.clock);
        self.tenants.renew_next(alloc);
        answered
    }

    /// After the tenants' own parts of a moment, looks at waiting requests again, at those that are due and that were answered, or at all,
    /// and answers those that are ready. The answer has the numbers of the connections that may have changed; `None`: any may have.
    pub(super) fn wake(&mut self, alloc: Global, answered: Option<Vec<u64>>) -> Option<Vec<u64>>
        requires { IsSound self.old.state }
        ensures continues { IsGoing self.old.state self.new.state }
        ensures later { IsLaterBy S.disk (SpeaksFor whoms.All) self.old self.new }
        ensures waked { is_honest S.disk self.new → Waked whoms.All self.old.state self.new.state }
        ensures unready { is_honest S.disk self.new → IsReadyAmong answered self.old.state → AreUnready AnyWait self.new.state }
        ensures known { IfSome result (λ ns. SameBut ns.items self.old.state self.new.state) }
    {
        match self.parking.sought(alloc, &answered, self.clock) {
            Some(numbers) => {
                self.wake_each(alloc, Whom::All, &numbers);
                Some(numbers)
            }
            None => {
                self.wake_all(alloc, Whom::All);
                None
            }
        }
    }

    /// Looks again at what connections of these numbers wait for, where it is looked for, and answers what is ready.
    fn wake_each(&mut self, alloc: Global, whom: Whom, numbers: &[u64])
        requires { IsSound self.old.state }
        ensures continues { IsGoing self.old.state self.new.state }
        ensures later { IsLaterBy S.disk (SpeaksFor whom) self.old self.new }
        ensures minded { is_honest S.disk self.new → AreMinded whom self.old.state self.new.state numbers.now }
        ensures same { SameBut numbers.now self.old.state self.new.state }
        ensures work { work self.new.state.lines ≤ work self.old.state.lines }
    {
        for number in numbers {
            if let Some(i) = self.place_of(*number) {
                self.look_at(alloc, whom, i);
            }
        }
    }

    /// Looks at all waiting requests again that are looked for, and answers those that are ready.
    fn wake_all(&mut self, alloc: Global, whom: Whom)
        requires { IsSound self.old.state }
        ensures continues { IsGoing self.old.state self.new.state }
        ensures later { IsLaterBy S.disk (SpeaksFor whom) self.old self.new }
        ensures waked { is_honest S.disk self.new → Waked whom self.old.state self.new.state }
        ensures looked { is_honest S.disk self.new → AreUnready (IsLookedFor whom self.old.state.clock) self.new.state }
        ensures unready { is_honest S.disk self.new → AreUnready (IsPassedOver whom self.old.state.clock) self.old.state
            → AreUnready AnyWait self.new.state }
        ensures work { work self.new.state.lines ≤ work self.old.state.lines }
    {
        if !self.any_waits() {
            return;
        }
        for i in 0..self.connections.len() {
            self.look_at(alloc, whom, i);
        }
    }

    /// Looks at the connection at a place again, where it waits for what is looked for.
    fn look_at(&mut self, alloc: Global, whom: Whom, i: usize)
        requires sound { IsSound self.old.state }
        requires within { i < length self.old.state.lines }
        ensures more { IsOneMore i self.old.state self.new.state }
        ensures later { IsLaterBy S.disk (SpeaksFor whom) self.old self.new }
        ensures waked { is_honest S.disk self.new → (first : BrokerState) → AreWaked whom first self.old.state i
            → AreWaked whom first self.new.state (i + 1) }
        ensures minded { is_honest S.disk self.new → (first : BrokerState) (ns : List ℕ) → AreMinded whom first self.old.state ns
            → AreMinded whom first self.new.state (ns ++ number_at i self.old.state ∷ []) }
    {
        let connection = &mut self.connections[i];
        look_again(alloc, &mut self.tenants, self.clock, whom, connection);
        note(&mut self.speakers, connection.number(), connection.speaks());
        if connection.waiting().is_none() {
            self.parking.forget(connection.number());
        }
    }

    /// Counts a refusal, for which the connection of a number is shut, for its tenant or for none. A member of a group that waited on it
    /// waits no longer: it stays a member, and its session starts.
    fn refuse(&mut self, phase: Phase, number: u64)
        requires { InRange (length self.old.state.tenants) (stage_of phase) }
        ensures counted { IsCountedAt number (stage_of phase) self.old.state self.new.state }
        ensures store { self.new.store ≡ self.old.store }
        ensures strays { self.new.strays ≡ self.old.strays }
        ensures counts { self.new.counts ≡ self.old.counts }
    {
        match phase {
            Phase::Greets(_) => self.unbound_refusals = counted(self.unbound_refusals),
            Phase::Bound(tenant) => {
                self.tenants.left(tenant, number, self.clock);
                self.tenants.refuse(tenant);
            }
        }
    }
}

/// All waiting requests of a connection's tenant.
fn all_of(phase: Phase) -> Concerned
    ensures { IsAllOf result (stage_of phase) }
{
    match phase {
        Phase::Greets(_) => Concerned::Nobody,
        Phase::Bound(tenant) => Concerned::All(tenant),
    }
}
