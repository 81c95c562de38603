//! Which sockets can go on.

ghost use Rattle.std.specs.Prelude.{◌≡◌, ◌≢◌, ◌<◌, not, length, vec_len, slice_get, IfSome};
ghost use Rattle.std.specs.Vec.{vec_capacity};
ghost use Rattle.kb_broker.specs.Speakers.{speakers};
ghost use Rattle.kb_node.specs.Cores.{seen};
ghost use Rattle.kb_node.specs.Ready.{AreCalled, Hears, IsQueued, ready_of};
ghost use Rattle.kb_node.specs.Traffic.{Along};

use crate::edge::{Accepts, Edge};
use kb_log::PartitionLog;
use kb_store::Store;
use std::net::Net;

impl<R: Net, S: Store, L: PartitionLog + Drop> Edge<R, S, L> {
    /// Without a watch every socket may be ready.
    pub(super) fn hear_all(&mut self)
        ensures { seen self.new.host self.new.sockets.items ≡ seen self.old.host self.old.sockets.items }
    {
        if self.watch.is_some() {
            return;
        }
        self.accepts = Accepts::Ready;
        for place in 0..self.sockets.len() {
            self.hear_at(place);
        }
    }

    /// The socket at a place may be ready.
    fn hear_at(&mut self, place: usize)
        ensures { seen self.new.host self.new.sockets.items ≡ seen self.old.host self.old.sockets.items }
    {
        let Some(socket) = self.sockets.get_mut(place) else {
            return;
        };
        socket.hear_any();
        self.queue(place);
    }

    /// The connections that the broker told something can go on, whoever asked for it. One that has still to be written what it was
    /// told before waits for that, and a failed login for its time: those are not gone through where nobody else has something to say.
    pub(super) fn hear_speakers(&mut self)
        ensures seen { seen self.new.host self.new.sockets.items ≡ seen self.old.host self.old.sockets.items }
        ensures lanes { self.new.lanes ≡ self.old.lanes }
        ensures delays { self.new.delays ≡ self.old.delays }
        // Each of them in turn, unless as many failed logins wait.
        ensures heard { length (speakers self.old.host.broker.state.lines) ≢ length self.old.delays.moments.moments.keys
            → Along Hears (speakers self.old.host.broker.state.lines)
            (ready_of self.old.ready self.old.sockets.items) (ready_of self.new.ready self.new.sockets.items) }
        // Then each of them that can hear that can go on, unless the list of those is full.
        ensures called { length (speakers self.old.host.broker.state.lines) ≢ length self.old.delays.moments.moments.keys
            → vec_len self.new.ready < vec_capacity self.new.ready → AreCalled self.old.host.broker.state self.new.sockets.items }
        ensures nobody { length (speakers self.old.host.broker.state.lines) ≡ length self.old.delays.moments.moments.keys
            → self.new ≡ self.old }
    {
        // each failed login that waits is one of them, since its connection is shut
        let count = self.host.broker().speakers().len();
        if count == self.delays.len() {
            return;
        }
        for at in 0..count {
            self.hear_speaker(at);
        }
    }

    /// The same for the one of these connections at a place.
    fn hear_speaker(&mut self, at: usize)
        ensures seen { seen self.new.host self.new.sockets.items ≡ seen self.old.host self.old.sockets.items }
        ensures lanes { self.new.lanes ≡ self.old.lanes }
        ensures delays { self.new.delays ≡ self.old.delays }
        ensures heard { IfSome (slice_get (speakers self.old.host.broker.state.lines) at) (λ n. Hears n
            (ready_of self.old.ready self.old.sockets.items) (ready_of self.new.ready self.new.sockets.items)) }
    {
        let Some(number) = self.host.broker().speakers().get(at).copied() else {
            return;
        };
        let Some(place) = self.place_of(number) else {
            return;
        };
        let Some(socket) = self.sockets.get(place) else {
            return;
        };
        if socket.can_hear() {
            self.queue(place);
        }
    }

    /// The socket at a place can go on.
    pub(super) fn queue(&mut self, place: usize)
        ensures seen { seen self.new.host self.new.sockets.items ≡ seen self.old.host self.old.sockets.items }
        ensures lanes { self.new.lanes ≡ self.old.lanes }
        ensures delays { self.new.delays ≡ self.old.delays }
        ensures clock { self.new.clock ≡ self.old.clock }
        // It comes behind the others, unless its turn is to come already.
        ensures queued { IfSome (slice_get self.old.sockets.items place) (λ s. IsQueued (not s.is_queued) s
            (ready_of self.old.ready self.old.sockets.items) (ready_of self.new.ready self.new.sockets.items)) }
    {
        let Some(socket) = self.sockets.get_mut(place) else {
            return;
        };
        // there is room for each socket once
        if !socket.is_queued && self.ready.len() < self.ready.capacity() {
            self.ready.push_reserved(socket.connection());
            socket.note_queued();
        }
    }
}
