//! Whole runs: events in, what each connection got out.

ghost use Rattle.std.specs.Prelude.{◌≡◌, ◌+◌, ◌≤◌, ℕ, List, [], ◌∷◌, ◌++◌, map, length, count_by, IfOk, OnErr};
ghost use Rattle.std.specs.Vec.{vec_len, vec_capacity};
ghost use Rattle.kb_isolation_spec.specs.Machine.{Closes, Sent, by_number, sent, leaving};
ghost use Rattle.kb_isolation_spec.specs.Calls.{closed};
ghost use Rattle.kb_isolation_spec.specs.Stranded.{NoneStranded};
ghost use Rattle.kb_tenant_state.specs.Counts.{IsCalm};
ghost use Rattle.kb_isolation_spec.specs.Broker.{IsCalmFor, IsEventRun, IsUnowned, last_after, owned_by, view_of};
ghost use Rattle.kb_isolation_spec.specs.Fetches.{FetchesGetBatches};
ghost use Rattle.kb_isolation_spec.specs.Isolation.{IsIsolated, AreAlike, own_events, own_sent};
ghost use Rattle.kb_isolation_spec.specs.Left.{LeavesWorlds};
ghost use Rattle.kb_isolation_spec.specs.Alone.{HasToItself};
ghost use Rattle.kb_broker.specs.Hosts.{is_honest, IsInFiles, IsLaterBy, IsLaterOn, IsReadyOn, StepsTo};
ghost use Rattle.kb_broker.specs.Truth.{SpeaksAt};
ghost use Rattle.kb_broker.specs.Runs.{happening_of, happenings, sent_of, is_opening, connections_of, emptied};
ghost use Rattle.kb_broker.specs.Runs.{AreOwnRuns, IsPassed, IsStrangersRun, PassesEvents};

use crate::broker::Broker;
use kb_isolation_spec::Shut;
use kb_log::PartitionLog;
use kb_store::Store;
use std::alloc::{AllocError, Global};

/// What may happen to a broker.
#[derive(Drop)]
pub enum Event {
    /// A connection opens, under a number above that of each earlier one.
    Open(u64),
    /// Bytes come on a connection.
    In(u64, Vec<u8>),
    /// A connection closes.
    Close(u64),
    /// A moment of time, in milliseconds, at most 2^62.
    At(u64),
}

/// What a connection got, whether the broker shut it, also where it was closed afterwards, and then why.
#[derive(Drop)]
pub struct Written {
    pub conn: u64,
    pub bytes: Vec<u8>,
    pub shut: bool,
    pub why: Option<Shut>,
}

impl<S: Store, L: PartitionLog + Drop> Broker<S, L> {
    /// A whole run: what each connection got, by rising number.
    ///
    /// To each tenant to which nothing was refused, and nothing to a connection that was not bound, what its connections got is
    /// what the machine of that tenant alone writes, given the tenant's events and the moments. A connection that is never
    /// bound gets what a machine with nothing in it but that connection writes: the greeting's answers to its own pieces. Both
    /// hold where the store is honest to the end, and there each such tenant then has what its machine has in the end, so that a
    /// further run goes on from there.
    ///
    /// In that machine's run each reply to a fetch, at once or after a wait, holds whole batches of each partition that it answers
    /// without an error, as the partition is at that moment, one after the other, from the one that holds the asked offset. The
    /// tenant's logs are within their limits before the run, as they are when a broker opens, and then they are so after it.
    ///
    /// Whatever was refused, to whomever, what a tenant's connections got is what the machine of that tenant alone may write that may be
    /// refused something at each step (`own`): given the tenant's events and the moments, and nothing of others.
    ///
    /// The entry of a connection that could not be kept is empty and shut. In the end the output of the open ones is taken.
    ///
    /// An `Err`, for want of memory, comes before the first event and changes nothing.
    pub fn run(&mut self, alloc: Global, events: &[Event]) -> Result<Vec<Written>, AllocError>
        requires { IsEventRun self.old.state.last (happenings events.now) }
        ensures headline { IfOk result (λ written.
            is_honest S.disk self.new → IsIsolated (happenings events.now) self.old.state self.new.state (map sent_of written.items)) }
        ensures unowned { IfOk result (λ written.
            is_honest S.disk self.new → (n : ℕ) → IsUnowned n (happenings events.now) self.old.state
            → IsCalm self.old.state.unbound_refusals self.new.state.unbound_refusals
            → IsStrangersRun n (happenings events.now) self.old.state (map sent_of written.items)) }
        ensures fetches { is_honest S.disk self.old → (t : ℕ) →
            FetchesGetBatches (own_events t (happenings events.now) self.old.state)
            (view_of t (owned_by t (happenings events.now) self.old.state) self.old.state) }
        ensures worlds { IfOk result (λ written. is_honest S.disk self.new
            → LeavesWorlds (happenings events.now) self.old.state self.new.state (map sent_of written.items)) }
        ensures connections { IfOk result (λ written.
            map (λ (w : Written). w.conn) written.items ≡ connections_of (happenings events.now) self.old.state) }
        ensures history { IfOk result (λ written.
            (got : List Sent) × (map sent_of written.items ≡ by_number got)
            × PassesEvents (is_honest S.disk self.new) (happenings events.now) self.old.state self.new.state got) }
        // Whatever was refused, to the tenant too.
        ensures own { IfOk result (λ written. is_honest S.disk self.new
            → AreOwnRuns (happenings events.now) self.old.state self.new.state (map sent_of written.items)) }
        ensures later { IfOk result (λ written. IsLaterOn S.disk self.old self.new) }
        ensures in_files { IsInFiles L.log S.disk self.new }
        ensures memory { OnErr result (self.new ≡ self.old) }
        ensures held { is_honest S.disk self.new → NoneStranded self.old.state → NoneStranded self.new.state }
    {
        // an entry for each connection that is open or opens, so that no event is left half done for want of memory
        let open = self.connections().len();
        let room = open.checked_add(openings(events)).ok_or(AllocError)?;
        let mut written = Vec::with_capacity(alloc, room)?;
        for event in events {
            self.happen(alloc, event, &mut written);
        }
        self.drain(alloc, &mut written);
        written.sort_unstable_by_key(|entry| entry.conn);
        Ok(written)
    }

    /// One event. What a connection got that ends in it is added.
    fn happen(&mut self, alloc: Global, event: &Event, written: &mut Vec<Written>)
        requires ready { IsReadyOn S.disk self.old }
        requires run { IsEventRun self.old.state.last (happening_of event.now ∷ []) }
        requires room { vec_len written.old + length
            (connections_of (happening_of event.now ∷ []) self.old.state) ≤ vec_capacity written.old }
        ensures ready { IsReadyOn S.disk self.new }
        ensures later { IsLaterBy S.disk (SpeaksAt (happening_of event.now)) self.old self.new }
        ensures last { self.new.state.last ≤ last_after (happening_of event.now) self.old.state.last }
        ensures held { is_honest S.disk self.new → NoneStranded self.old.state → NoneStranded self.new.state }
        ensures passed { (ended : List Sent) × (map sent_of written.new.items ≡ map sent_of written.old.items ++ ended)
            × IsPassed (is_honest S.disk self.new) (happening_of event.now) self.old.state self.new.state ended }
        ensures capacity { vec_capacity written.new ≡ vec_capacity written.old }
    {
        match event {
            Event::Open(number) => {
                if self.connect(alloc, *number).is_err() {
                    written.push_reserved(Written {
                        conn: *number,
                        bytes: Vec::new(alloc),
                        shut: true,
                        why: Some(Shut::Memory),
                    });
                }
            }
            Event::In(number, piece) => self.input(alloc, *number, piece),
            Event::Close(number) => self.close(alloc, *number, written),
            Event::At(now) => self.moment(alloc, *now),
        }
    }

    /// Closes a connection, and adds what it got. On a number that is not open nothing changes.
    fn close(&mut self, alloc: Global, conn: u64, written: &mut Vec<Written>)
        requires ready { IsReadyOn S.disk self.old }
        requires room { vec_len written.old + length self.old.state.lines ≤ vec_capacity written.old }
        ensures step { StepsTo S.disk (Closes conn) self.old self.new }
        ensures state { self.new ≡ record self.old { state = closed self.old.state conn } }
        ensures held { NoneStranded self.old.state → NoneStranded self.new.state }
        ensures written { map sent_of written.new.items ≡ map sent_of written.old.items ++ leaving (Closes conn) self.old.state.lines }
        ensures capacity { vec_capacity written.new ≡ vec_capacity written.old }
    {
        let open = self.is_open(conn);
        let shut = self.shut(conn);
        let why = self.why(conn);
        let bytes = self.disconnect(alloc, conn);
        if open {
            written.push_reserved(Written {
                conn,
                bytes,
                shut,
                why,
            });
        }
    }

    /// Takes what the open connections have not taken yet.
    fn drain(&mut self, alloc: Global, written: &mut Vec<Written>)
        requires ready { IsReadyOn S.disk self.old }
        requires room { vec_len written.old + length self.old.state.lines ≤ vec_capacity written.old }
        ensures state { self.new ≡ record self.old { state = emptied self.old.state } }
        ensures in_files { IsInFiles L.log S.disk self.new }
        ensures written { map sent_of written.new.items ≡ map sent_of written.old.items ++ map sent self.old.state.lines }
    {
        for i in 0..self.connections().len() {
            let connection = &self.connections()[i];
            let conn = connection.number();
            let shut = connection.is_shut();
            let why = connection.why();
            let bytes = self.take_output(alloc, conn);
            written.push_reserved(Written {
                conn,
                bytes,
                shut,
                why,
            });
        }
    }
}

/// How many of the events open a connection.
fn openings(events: &[Event]) -> usize
    ensures { result ≡ count_by is_opening events.now }
{
    events
        .iter()
        .filter(|event| matches!(event, Event::Open(_)))
        .count()
}

/// Two runs, each on a broker of its own: what each connection got in the first, and in the second.
///
/// To a tenant that has the same before both, and whose own events and the moments are the same in both, in the same order, they
/// are the same: its connections got the same bytes, and the same of them were shut, whatever others did in either. This holds
/// where nothing was refused to the tenant, nor to a connection that was not bound, and the stores are honest to the end.
///
/// Where the tenant has the second broker to itself, and nothing but its own events and the moments come to it, all that the second
/// run writes is what the tenant's connections got in the first.
///
/// An `Err`, for want of memory, comes before the first event of a run, and may come after the first run.
pub fn run_both<S: Store, L: PartitionLog + Drop>(
    alloc: Global,
    first: &mut Broker<S, L>,
    second: &mut Broker<S, L>,
    events: &[Event],
    others: &[Event],
) -> Result<(Vec<Written>, Vec<Written>), AllocError>
    requires first { IsEventRun first.old.state.last (happenings events.now) }
    requires second { IsEventRun second.old.state.last (happenings others.now) }
    ensures alike { IfOk result (λ both. is_honest S.disk first.new → is_honest S.disk second.new → (t : ℕ)
        → AreAlike t (happenings events.now) (happenings others.now) first.old.state first.new.state second.old.state second.new.state →
        own_sent t (happenings others.now) second.old.state (map sent_of both.1.items)
        ≡ own_sent t (happenings events.now) first.old.state (map sent_of both.0.items)) }
    ensures alone { IfOk result (λ both. is_honest S.disk first.new → is_honest S.disk second.new → (t : ℕ)
        → HasToItself t (happenings events.now) first.old.state second.old.state →
        happenings others.now ≡ own_events t (happenings events.now) first.old.state → IsCalmFor t first.old.state first.new.state
        → IsCalmFor t second.old.state second.new.state →
        map sent_of both.1.items ≡ own_sent t (happenings events.now) first.old.state (map sent_of both.0.items)) }
{
    let got = first.run(alloc, events)?;
    let others_got = second.run(alloc, others)?;
    Ok((got, others_got))
}
