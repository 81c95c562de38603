//! Rounds, in which those are served who have little to be done, or one whose request is long.

ghost use Rattle.std.specs.Prelude.{◌≡◌, ◌≢◌, [], min, true};
ghost use Rattle.kb_node.specs.Known.{hasty};
ghost use Rattle.kb_node.specs.Moves.{GoesWith};
ghost use Rattle.kb_node.specs.Cores.{seen};
ghost use Rattle.kb_node.specs.Commits.{tells_at_once};
ghost use Rattle.kb_shares.specs.Turns.{after_next};
ghost use Rattle.kb_node.specs.Numbers.{IsInOrder, socket_of};
ghost use Rattle.kb_node.specs.Ready.{LinesUp};
ghost use Rattle.kb_node.specs.Replies.{holder_place};
ghost use Rattle.kb_node.specs.Traffic.{Along};
ghost use Rattle.kb_node.specs.Waiting.{behind, behind_round, in_lane, is_long};

use crate::edge::{Edge, HOLDERS, PIECE};
use crate::turn::Turn;
use kb_log::PartitionLog;
use kb_store::Store;
use std::alloc::Global;
use std::mem;
use std::net::Net;
use std::time::Duration;

/// How many sockets are served in a round at most, a request each. Behind it the system is asked who else can go on.
const ROUND: usize = 16;

/// A request of so many bytes is long.
const LONG: usize = 65_536;

impl<R: Net, S: Store, L: PartitionLog + Drop> Edge<R, S, L> {
    /// A round of those in line. Then those stand in line, too, who can go on now.
    #[tactic(auto, using(crate::proofs::Goes::goes_then, crate::proofs::Goes::goes_none))]
    pub(super) fn serve_round(&mut self, alloc: Global, turn: &mut Turn)
        requires { tells_at_once self.old.host.commits ≡ true }
        ensures commits { tells_at_once self.new.host.commits ≡ true }
        ensures goes { GoesWith S.disk hasty R.Stream.contents R.Stream.remaining (seen self.old.host self.old.sockets.items)
            (seen self.new.host self.new.sockets.items) }
    {
        self.serve(alloc, turn);
        self.hear_speakers();
        self.listen(Duration::ZERO);
        self.line_up(alloc, false);
    }

    /// The sockets that can go on stand in line for their turns, all of them or those alone that may be asked. Where there is no memory for
    /// that, they go on later.
    pub(super) fn line_up(&mut self, alloc: Global, is_for_all: bool)
        ensures seen { seen self.new.host self.new.sockets.items ≡ seen self.old.host self.old.sockets.items }
        // Each of them in turn.
        ensures lined { IsInOrder (seen self.old.host self.old.sockets.items) → Along (LinesUp is_for_all self.old.shares
            self.old.replies.pool self.old.inputs.pool self.old.sockets.items) self.old.ready.items
            (record { lanes = self.old.lanes; ready = self.old.spare }) (record { lanes = self.new.lanes; ready = self.new.ready }) }
        ensures spare { self.new.spare.items ≡ [] }
    {
        let spare = mem::replace(&mut self.spare, Vec::new(alloc));
        let mut round = mem::replace(&mut self.ready, spare);
        for number in &round {
            self.line_up_one(*number, is_for_all);
        }
        round.clear();
        self.spare = round;
    }

    /// The socket of a connection stands in line behind the others of its holder, in the lane that is for it, or stays among those that can
    /// go on.
    fn line_up_one(&mut self, number: u64, is_for_all: bool)
        ensures seen { seen self.new.host self.new.sockets.items ≡ seen self.old.host self.old.sockets.items }
        ensures lined { IsInOrder (seen self.old.host self.old.sockets.items) → LinesUp is_for_all self.old.shares
            self.old.replies.pool self.old.inputs.pool self.old.sockets.items number
            (record { lanes = self.old.lanes; ready = self.old.ready }) (record { lanes = self.new.lanes; ready = self.new.ready }) }
        ensures rest { (self.new.sockets ≡ self.old.sockets) × (self.new.shares ≡ self.old.shares)
            × (self.new.replies ≡ self.old.replies) × (self.new.inputs ≡ self.old.inputs) }
        ensures waits { IsInOrder (seen self.old.host self.old.sockets.items) → self.new.lanes ≢ self.old.lanes
            → self.new.lanes ≡ in_lane (is_long (socket_of number self.old.sockets.items))
            (min (holder_place number self.old.shares) 256) number self.old.lanes }
    {
        let holder = self.shares.holder(number).min(HOLDERS - 1);
        let is_long = self.is_long(number);
        let is_in_line = (is_for_all || self.can_ask(number))
            && self.lanes.push(is_long, holder, number);
        if !is_in_line {
            // there is room for each socket once
            let _ = self.ready.push(number);
        }
    }

    /// Whether the next piece of the socket of a connection may end a long request.
    fn is_long(&self, number: u64) -> bool
        ensures { IsInOrder (seen self.now.host self.now.sockets.items) → result ≡ is_long (socket_of number self.now.sockets.items) }
    {
        match self.socket_of(number) {
            Some(socket) => socket.begun() >= LONG && socket.left() <= PIECE,
            None => false,
        }
    }

    /// The next sockets of the short lane are served once, or one of the long lane. So whoever became ready meanwhile waits for one long
    /// request at most.
    #[tactic(auto, using(crate::proofs::Goes::goes_then, crate::proofs::Goes::goes_none))]
    fn serve(&mut self, alloc: Global, turn: &mut Turn)
        requires { tells_at_once self.old.host.commits ≡ true }
        ensures commits { tells_at_once self.new.host.commits ≡ true }
        ensures lanes { self.new.lanes ≡ behind_round self.old.lanes }
        ensures goes { GoesWith S.disk hasty R.Stream.contents R.Stream.remaining (seen self.old.host self.old.sockets.items)
            (seen self.new.host self.new.sockets.items) }
    {
        if self.lanes.begin_round() {
            self.serve_long(alloc, turn);
        } else {
            self.serve_short(alloc, turn);
        }
    }

    /// Serves the socket of the long lane whose turn it is.
    #[tactic(auto, using(crate::proofs::Goes::goes_then, crate::proofs::Goes::goes_none))]
    fn serve_long(&mut self, alloc: Global, turn: &mut Turn)
        requires { tells_at_once self.old.host.commits ≡ true }
        ensures commits { tells_at_once self.new.host.commits ≡ true }
        ensures lanes { self.new.lanes ≡ record self.old.lanes { long = after_next self.old.lanes.long } }
        ensures goes { GoesWith S.disk hasty R.Stream.contents R.Stream.remaining (seen self.old.host self.old.sockets.items)
            (seen self.new.host self.new.sockets.items) }
    {
        if let Some(number) = self.lanes.next_long() {
            self.serve_one(alloc, number, turn);
        }
    }

    /// Serves the next sockets of the short lane, as many as a round has at most.
    #[tactic(auto, using(crate::proofs::Goes::goes_then, crate::proofs::Goes::goes_none))]
    fn serve_short(&mut self, alloc: Global, turn: &mut Turn)
        requires { tells_at_once self.old.host.commits ≡ true }
        ensures commits { tells_at_once self.new.host.commits ≡ true }
        ensures lanes { self.new.lanes ≡ record self.old.lanes { short = behind 16 self.old.lanes.short } }
        ensures goes { GoesWith S.disk hasty R.Stream.contents R.Stream.remaining (seen self.old.host self.old.sockets.items)
            (seen self.new.host self.new.sockets.items) }
    {
        for _ in 0..ROUND {
            if self.lanes.has_no_short() {
                break;
            }
            self.serve_next(alloc, turn);
        }
    }

    /// Serves the socket of the short lane whose turn it is.
    #[tactic(auto, using(crate::proofs::Goes::goes_then, crate::proofs::Goes::goes_none))]
    fn serve_next(&mut self, alloc: Global, turn: &mut Turn)
        requires { tells_at_once self.old.host.commits ≡ true }
        ensures commits { tells_at_once self.new.host.commits ≡ true }
        ensures lanes { self.new.lanes ≡ record self.old.lanes { short = after_next self.old.lanes.short } }
        ensures goes { GoesWith S.disk hasty R.Stream.contents R.Stream.remaining (seen self.old.host self.old.sockets.items)
            (seen self.new.host self.new.sockets.items) }
    {
        if let Some(number) = self.lanes.next_short() {
            self.serve_one(alloc, number, turn);
        }
    }
}
